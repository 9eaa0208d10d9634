// Parts of a tree.
ghost use Rattle.std.specs.Prelude.{◌≡◌};
ghost use Rattle.ceu_syntax.specs.Trees as tree;

use ceu_base::{Name, Pos};
use ceu_tree::{Exp, ExpNode, Ident};

pub fn ident(name: Name, pos: Pos) -> Ident
    ensures { result ≡ tree.ident name pos }
{
    Ident {
        pos,
        outer: false,
        name,
    }
}

pub fn outer(name: Name, pos: Pos) -> Ident
    ensures { result ≡ tree.outer name pos }
{
    Ident {
        pos,
        outer: true,
        name,
    }
}

pub fn number(n: u64, pos: Pos) -> Exp
    ensures { result ≡ tree.number n pos }
{
    Exp {
        pos,
        node: ExpNode::Number(n),
    }
}

pub fn truth(b: bool, pos: Pos) -> Exp
    ensures { result ≡ tree.truth b pos }
{
    Exp {
        pos,
        node: ExpNode::Bool(b),
    }
}

pub fn variable(x: Ident) -> Exp
    ensures { result ≡ tree.variable x }
{
    Exp {
        pos: x.pos,
        node: ExpNode::Var(x),
    }
}

pub fn alive(x: Ident, pos: Pos) -> Exp
    ensures { result ≡ tree.alive x pos }
{
    Exp {
        pos,
        node: ExpNode::Alive(x),
    }
}
