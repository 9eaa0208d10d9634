use crate::resolve;
use ceu_base::{CheckError, Name, Pos, Rule, Seq, Ty};
use ceu_tree::{
    Await, Block, Class, Do, Exp, ExpNode, Ident, Item, Label, Node, Source, Stmt, Target, Tree,
};
use std::alloc::{AllocError, Global};
use std::test::Fail;

fn at(col: u32) -> Pos {
    Pos { line: 1, col }
}

fn ident(alloc: Global, col: u32, name: &str) -> Result<Ident, AllocError> {
    Ok(Ident {
        pos: at(col),
        outer: false,
        name: Name::new(alloc, name)?,
    })
}

fn variable(
    alloc: Global,
    ty: Ty,
    col: u32,
    name: &str,
    value: Option<Source>,
) -> Result<Stmt, AllocError> {
    let mut items = Seq::new(alloc);
    items.push(Item {
        name: ident(alloc, col, name)?,
        value,
    })?;
    Ok(Stmt::Vars(ty, items))
}

fn escape_of(alloc: Global, col: u32, name: &str) -> Result<Stmt, AllocError> {
    let value = Exp {
        pos: at(col),
        node: ExpNode::Var(ident(alloc, col, name)?),
    };
    Ok(Stmt::Escape(None, Some(value)))
}

fn put(list: &mut Seq<Node>, col: u32, stmt: Stmt) -> Result<(), AllocError> {
    list.push(Node { pos: at(col), stmt })
}

fn tree(list: Seq<Node>) -> Tree {
    Tree {
        body: Block { list },
    }
}

#[test]
fn a_name_has_the_declaration_that_is_visible_there(rt: HostRuntime) -> Result<(), Fail> {
    // input int A; var int x = await A; escape x;
    let alloc = rt.alloc();
    let mut list = Seq::new(alloc);
    let mut inputs = Seq::new(alloc);
    inputs.push(ident(alloc, 11, "A")?)?;
    put(&mut list, 1, Stmt::Inputs(Ty::S32, inputs))?;
    let awaited = Await::On(Target::Ext(ident(alloc, 32, "A")?), None);
    let x = variable(alloc, Ty::S32, 22, "x", Some(Source::Wait(awaited)))?;
    put(&mut list, 14, x)?;
    put(&mut list, 35, escape_of(alloc, 42, "x")?)?;
    match resolve(alloc, &tree(list)) {
        Err(_) => assert!(rt; false),
        Ok(scopes) => {
            assert_eq!(rt; scopes.uses.items(), [0, 1].as_slice());
            assert_eq!(rt; scopes.decls.items().len(), 2);
            assert_eq!(rt; scopes.decls.items()[0].class, Class::Input);
            assert_eq!(rt; scopes.decls.items()[1].pos, at(22));
        }
    }
    Ok(())
}

#[test]
fn a_name_outside_its_block_is_refused(rt: HostRuntime) -> Result<(), Fail> {
    // do end x = 1;
    let alloc = rt.alloc();
    let mut list = Seq::new(alloc);
    let body = Block {
        list: Seq::new(alloc),
    };
    let label = Label::Plain;
    put(&mut list, 1, Stmt::Do(Do { label, body }))?;
    let one = Exp {
        pos: at(12),
        node: ExpNode::Number(1),
    };
    let assign = Stmt::Assign(ident(alloc, 8, "x")?, Source::Value(one));
    put(&mut list, 8, assign)?;
    let refused = resolve(alloc, &tree(list)).err();
    assert_eq!(rt; refused, Some(CheckError::Refused(Rule::N1, at(8))));
    Ok(())
}

#[test]
fn a_second_declaration_in_a_block_is_refused(rt: HostRuntime) -> Result<(), Fail> {
    // var int a; var bool a;
    let alloc = rt.alloc();
    let mut list = Seq::new(alloc);
    put(&mut list, 1, variable(alloc, Ty::S32, 9, "a", None)?)?;
    put(&mut list, 12, variable(alloc, Ty::Bool, 21, "a", None)?)?;
    let refused = resolve(alloc, &tree(list)).err();
    assert_eq!(rt; refused, Some(CheckError::Refused(Rule::N2, at(21))));
    Ok(())
}

#[test]
fn an_unknown_name_is_refused(rt: HostRuntime) -> Result<(), Fail> {
    // escape y;
    let alloc = rt.alloc();
    let mut list = Seq::new(alloc);
    put(&mut list, 1, escape_of(alloc, 8, "y")?)?;
    let refused = resolve(alloc, &tree(list)).err();
    assert_eq!(rt; refused, Some(CheckError::Refused(Rule::N1, at(8))));
    Ok(())
}
