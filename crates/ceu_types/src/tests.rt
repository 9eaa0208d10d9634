use super::*;
use ceu_base::{CheckError, Name, Pos, Rule, Seq, Ty};
use ceu_scopes::Scopes;
use ceu_tree::{Block, Exp, ExpNode, Ident, Item, Node, Source, Stmt, Tree};
use std::alloc::{AllocError, Global};
use std::test::Fail;

fn at(col: u32) -> Pos {
    Pos { line: 1, col }
}

fn ident(alloc: Global, col: u32, text: &str) -> Result<Ident, AllocError> {
    Ok(Ident {
        pos: at(col),
        outer: false,
        name: Name::new(alloc, text)?,
    })
}

fn number(col: u32, n: u64) -> Exp {
    Exp {
        pos: at(col),
        node: ExpNode::Number(n),
    }
}

// `var TY NAME = VALUE;` at this column.
fn declaration(
    alloc: Global,
    col: u32,
    ty: Ty,
    name: Ident,
    value: Exp,
) -> Result<Node, AllocError> {
    let mut items = Seq::new(alloc);
    items.push(Item {
        name,
        value: Some(Source::Value(value)),
    })?;
    Ok(Node {
        pos: at(col),
        stmt: Stmt::Vars(ty, items),
    })
}

// A program of one statement.
fn program(alloc: Global, node: Node) -> Result<Tree, AllocError> {
    let mut list = Seq::new(alloc);
    list.push(node)?;
    Ok(Tree {
        body: Block { list },
    })
}

fn no_names(alloc: Global) -> Scopes {
    Scopes {
        decls: Seq::new(alloc),
        uses: Seq::new(alloc),
    }
}

#[test]
fn a_literal_without_target_type_is_an_int(rt: HostRuntime) -> Result<(), Fail> {
    let alloc = rt.alloc();
    let escape = Node {
        pos: at(1),
        stmt: Stmt::Escape(None, Some(number(8, 1))),
    };
    let types = type_tree(alloc, &program(alloc, escape)?, &no_names(alloc));
    assert!(rt; types.is_ok());
    if let Ok(types) = types {
        assert_eq!(rt; types.exps.items().len(), 1);
        assert_eq!(rt; types.exps.items().first().copied(), Some(Ty::S32));
    }
    Ok(())
}

#[test]
fn a_literal_out_of_its_type_is_refused_at_its_place(rt: HostRuntime) -> Result<(), Fail> {
    let alloc = rt.alloc();

    // var u8 x = 300;
    let x = declaration(alloc, 1, Ty::U8, ident(alloc, 8, "x")?, number(12, 300))?;
    let refusal = type_tree(alloc, &program(alloc, x)?, &no_names(alloc)).err();
    assert_eq!(rt; refusal, Some(CheckError::Refused(Rule::T7, at(12))));
    Ok(())
}
