use super::*;
use ceu_base::{Pos, Seq, Ty};
use ceu_tree::{Block, Exp, ExpNode, Node, Stmt};
use std::test::Fail;

// `escape 1;`
#[test]
fn an_escape_is_one_statement(rt: HostRuntime) -> Result<(), Fail> {
    let alloc = rt.alloc();
    let one = Exp {
        pos: Pos { line: 1, col: 8 },
        node: ExpNode::Number(1),
    };
    let mut list = Seq::new(alloc);
    list.push(Node {
        pos: Pos { line: 1, col: 1 },
        stmt: Stmt::Escape(None, Some(one)),
    })?;
    let tree = Tree {
        body: Block { list },
    };
    let scopes = Scopes {
        decls: Seq::new(alloc),
        uses: Seq::new(alloc),
    };
    let mut exps = Seq::new(alloc);
    exps.push(Ty::S32)?;
    let kernel = expand(alloc, &tree, &scopes, &Types { exps })?;
    assert_eq!(rt; kernel.body.node, 0);
    assert_eq!(rt; kernel.body.decls.items().len(), 0);
    assert_eq!(rt; kernel.body.list.items().len(), 1);
    assert_eq!(rt; kernel.codes.items().len(), 0);
    Ok(())
}
