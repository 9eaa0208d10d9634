use crate::kernel::{ParKind, Unit};
use ceu_base::{Name, Op1, Op2, Pos, Seq, Ty};
use sqlite_items::Boxed;

#[derive(Drop)]
pub struct Ident {
    pub pos: Pos,
    pub outer: bool,
    pub name: Name,
}

#[cycle(source_expression)]
#[derive(Drop)]
pub struct Exp {
    pub pos: Pos,
    pub node: ExpNode,
}

#[cycle(source_expression)]
#[derive(Drop)]
pub enum ExpNode {
    Number(u64),
    Bool(bool),
    Var(Ident),
    Alive(Ident),
    One(Op1, Boxed<Exp>),
    Two(Op2, Boxed<Exp>, Boxed<Exp>),
    As(Boxed<Exp>, Ty),
}

#[derive(Drop)]
pub struct Call {
    pub code: Ident,
    pub args: Seq<Exp>,
}

#[derive(Drop)]
pub struct Spawn {
    pub pos: Pos,
    pub call: Call,
    pub pool: Ident,
}

#[derive(Drop)]
pub enum Label {
    Plain,
    Under,
    Named(Ident),
}

#[derive(Drop)]
pub enum Target {
    Ext(Ident),
    Event(Ident),
    Time(u64),
    TimeExp(Exp, Unit),
}

#[derive(Drop)]
pub enum Await {
    Forever,
    Code(Call),
    On(Target, Option<Exp>),
}

#[derive(Drop)]
pub struct Param {
    pub ty: Ty,
    pub name: Ident,
}

#[cycle(source)]
#[derive(Drop)]
pub struct Block {
    pub list: Seq<Node>,
}

#[cycle(source)]
#[derive(Drop)]
pub struct Node {
    pub pos: Pos,
    pub stmt: Stmt,
}

#[cycle(source)]
#[derive(Drop)]
pub struct Do {
    pub label: Label,
    pub body: Block,
}

#[cycle(source)]
#[derive(Drop)]
pub enum Source {
    Value(Exp),
    Wait(Await),
    Start(Spawn),
    Done(Do),
}

#[cycle(source)]
#[derive(Drop)]
pub struct Item {
    pub name: Ident,
    pub value: Option<Source>,
}

#[cycle(source)]
#[derive(Drop)]
pub struct Arm {
    pub cond: Exp,
    pub body: Block,
}

#[cycle(source)]
#[derive(Drop)]
pub struct Range {
    pub name: Ident,
    pub open_a: bool,
    pub a: Exp,
    pub b: Exp,
    pub open_b: bool,
    pub body: Block,
}

#[cycle(source)]
#[derive(Drop)]
pub enum Stmt {
    Nothing,
    Break,
    Continue,
    Vars(Ty, Seq<Item>),
    AliasDecl(Ident, Ident, Option<Spawn>),
    Events(Ty, Seq<Ident>),
    Inputs(Ty, Seq<Ident>),
    Outputs(Ty, Seq<Ident>),
    Pool(u32, Ident, Ident),
    Code(Ident, Seq<Param>, Ty, Block),
    Assign(Ident, Source),
    Emit(Ident, Option<Exp>),
    Await(Await),
    Spawn(Spawn),
    Kill(Ident),
    Escape(Option<Ident>, Option<Exp>),
    Do(Do),
    Finalize(Block),
    If(Seq<Arm>, Option<Block>),
    Loop(Option<u32>, Block),
    Range(Range),
    Every(Option<Ident>, Target, Block),
    Watching(Target, Block),
    Par(ParKind, Seq<Block>),
    Async(Seq<Ident>, Block),
}

#[derive(Drop)]
pub struct Tree {
    pub body: Block,
}

/// What a name stands for.
#[derive(Clone, Copy, Debug, PartialEq, Eq)]
pub enum Class {
    Var,
    Param,
    LoopVar,
    Event,
    Input,
    Output,
    Pool,
    Alias,
    Code,
}

/// A declaration. `block` counts the blocks of the source in pre-order, the program's being 0; the block of a code's parameters or of
/// a range's variable comes before its body's. `ty` is the declared type, the result of a code, `S32` for a range's variable, and
/// `None` for a pool or an alias.
#[derive(Drop)]
pub struct Decl {
    pub class: Class,
    pub ty: Ty,
    pub pos: Pos,
    pub block: u32,
    pub name: Name,
}
