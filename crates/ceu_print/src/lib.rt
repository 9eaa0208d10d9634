//! Prints a program's source tree.
#![tactic(auto)]

ghost use Rattle.std.specs.Prelude.{◌≡◌, IfOk};
ghost use Rattle.ceu_print.specs.Statements.{program_text};

use ceu_base::Name;
use ceu_tree::Tree;
use statements::put_lines;
use std::alloc::{AllocError, Global};

mod expressions;
mod parts;
mod pieces;
mod statements;
mod words;

/// The printed text of a program: one statement a line, four blanks for each open block. Linear in the text's length; it recurses with
/// the tree's nesting alone.
pub fn print_tree(alloc: Global, tree: &Tree) -> Result<Name, AllocError>
    ensures { IfOk result (λ text. text ≡ program_text tree.now) }
{
    let mut text = String::new(alloc);
    put_lines(alloc, &mut text, "", tree.body.list.items())?;
    Name::new(alloc, text.as_str())
}

#[cfg(test)]
mod tests {
    use super::*;
    use ceu_base::{Op1, Op2, Pos, Seq, Ty};
    use ceu_tree::{
        Await, Block, Call, Do, Exp, ExpNode, Ident, Label, Node, ParKind, Source, Spawn, Stmt,
        Target,
    };
    use sqlite_items::Boxed;
    use std::test::Fail;

    const PLACE: Pos = Pos { line: 1, col: 1 };

    fn name(alloc: Global, text: &str) -> Result<Ident, AllocError> {
        let name = Name::new(alloc, text)?;
        Ok(Ident {
            pos: PLACE,
            outer: false,
            name,
        })
    }

    fn number(n: u64) -> Exp {
        Exp {
            pos: PLACE,
            node: ExpNode::Number(n),
        }
    }

    fn variable(alloc: Global, text: &str) -> Result<Exp, AllocError> {
        let x = name(alloc, text)?;
        Ok(Exp {
            pos: PLACE,
            node: ExpNode::Var(x),
        })
    }

    fn one(alloc: Global, op: Op1, a: Exp) -> Result<Exp, AllocError> {
        let a = Boxed::new(alloc, a)?;
        Ok(Exp {
            pos: PLACE,
            node: ExpNode::One(op, a),
        })
    }

    fn two(alloc: Global, op: Op2, a: Exp, b: Exp) -> Result<Exp, AllocError> {
        let a = Boxed::new(alloc, a)?;
        let b = Boxed::new(alloc, b)?;
        Ok(Exp {
            pos: PLACE,
            node: ExpNode::Two(op, a, b),
        })
    }

    fn cast(alloc: Global, a: Exp, ty: Ty) -> Result<Exp, AllocError> {
        let a = Boxed::new(alloc, a)?;
        Ok(Exp {
            pos: PLACE,
            node: ExpNode::As(a, ty),
        })
    }

    fn block(alloc: Global, stmt: Option<Stmt>) -> Result<Block, AllocError> {
        let mut list = Seq::new(alloc);
        if let Some(stmt) = stmt {
            list.push(Node { pos: PLACE, stmt })?;
        }
        Ok(Block { list })
    }

    fn set(alloc: Global, x: &str, value: Exp) -> Result<Stmt, AllocError> {
        let x = name(alloc, x)?;
        Ok(Stmt::Assign(x, Source::Value(value)))
    }

    fn printed(alloc: Global, stmt: Stmt) -> Result<Name, AllocError> {
        let body = block(alloc, Some(stmt))?;
        print_tree(alloc, &Tree { body })
    }

    #[test]
    fn statements_on_one_line(rt: HostRuntime) -> Result<(), Fail> {
        let alloc = rt.alloc();
        let escape = printed(alloc, Stmt::Escape(None, Some(number(1))))?;
        assert_eq!(rt; escape.text(), "escape 1;\n");

        let wait = printed(
            alloc,
            Stmt::Await(Await::On(Target::Time(90_000_000), None)),
        )?;
        assert_eq!(rt; wait.text(), "await 1min30s;\n");

        let mut args = Seq::new(alloc);
        args.push(number(1))?;
        let call = Call {
            code: name(alloc, "Tick")?,
            args,
        };
        let spawn = Spawn {
            pos: PLACE,
            call,
            pool: name(alloc, "p")?,
        };
        let alias = printed(
            alloc,
            Stmt::AliasDecl(name(alloc, "Tick")?, name(alloc, "a")?, Some(spawn)),
        )?;
        assert_eq!(rt; alias.text(), "var&? Tick a = spawn Tick(1) in p;\n");
        Ok(())
    }

    #[test]
    fn parentheses_where_the_tree_needs_them(rt: HostRuntime) -> Result<(), Fail> {
        let alloc = rt.alloc();
        let right = two(
            alloc,
            Op2::Sub,
            variable(alloc, "b")?,
            variable(alloc, "c")?,
        )?;
        let minus = printed(
            alloc,
            set(
                alloc,
                "x",
                two(alloc, Op2::Sub, variable(alloc, "a")?, right)?,
            )?,
        )?;
        assert_eq!(rt; minus.text(), "x = a - (b - c);\n");

        let left = two(
            alloc,
            Op2::Sub,
            variable(alloc, "a")?,
            variable(alloc, "b")?,
        )?;
        let grouped = printed(
            alloc,
            set(
                alloc,
                "x",
                two(alloc, Op2::Sub, left, variable(alloc, "c")?)?,
            )?,
        )?;
        assert_eq!(rt; grouped.text(), "x = a - b - c;\n");

        let byte = cast(alloc, variable(alloc, "a")?, Ty::U8)?;
        let negated = printed(alloc, set(alloc, "x", one(alloc, Op1::Neg, byte)?)?)?;
        assert_eq!(rt; negated.text(), "x = -(a as byte);\n");
        Ok(())
    }

    #[test]
    fn blocks_and_their_margins(rt: HostRuntime) -> Result<(), Fail> {
        let alloc = rt.alloc();
        let mut branches = Seq::new(alloc);
        branches.push(block(alloc, Some(set(alloc, "a", number(1))?))?)?;
        branches.push(block(alloc, Some(set(alloc, "b", number(2))?))?)?;
        branches.push(block(alloc, None)?)?;
        let par = printed(alloc, Stmt::Par(ParKind::Or, branches))?;
        assert_eq!(rt;
            par.text(),
            "par/or do\n    a = 1;\nwith\n    b = 2;\nwith\nend\n"
        );

        let inner = block(
            alloc,
            Some(Stmt::Escape(Some(name(alloc, "l")?), Some(number(1)))),
        )?;
        let value = Do {
            label: Label::Named(name(alloc, "l")?),
            body: inner,
        };
        let set_by_do = printed(alloc, Stmt::Assign(name(alloc, "x")?, Source::Done(value)))?;
        assert_eq!(rt; set_by_do.text(), "x = do/l\n    escape/l 1;\nend\n");
        Ok(())
    }
}
