// A machine that takes one token a step: what is open, and what may come next.
use ceu_base::{Name, Op1, Op2, Pos, Seq, Ty};
use ceu_tree::{
    Arm, Await, Block, Call, Exp, Ident, Item, Label, Node, ParKind, Param, Spawn, Stmt, Target,
};

/// A block that is open.
#[derive(Drop)]
pub enum Body {
    Do(Label),
    Finalize,
    Arm(Seq<Arm>, Exp),
    Else(Seq<Arm>),
    Loop(Option<u32>),
    Range(Ident, bool, Exp, Exp, bool),
    Every(Option<Ident>, Target),
    Watching(Target),
    FirstBranch(ParKind),
    Branch(ParKind, Seq<Block>),
    Async(Seq<Ident>),
    Code(Ident, Seq<Param>, Ty),
}

/// What is open around the place that has been read to.
#[derive(Drop)]
pub enum Frame {
    /// In an expression: a binary operator behind its left operand, a prefix, a parenthesis.
    Binary(Op2, Pos, Exp),
    Prefix(Op1, Pos),
    Paren(Pos),
    /// A statement with its place, behind these statements of its block.
    Begun(Seq<Node>, Pos),
    /// Whose source it is.
    Store(Ident),
    Initial(Ty, Seq<Item>, Ident),
    Alias(Ident, Ident),
    /// Whose expression it is.
    Emit(Ident),
    Until(Target),
    Escape(Option<Ident>),
    Condition(Seq<Arm>),
    RangeFrom(Ident, bool),
    RangeTo(Ident, bool, Exp),
    Arguments(Ident, Seq<Exp>),
    Time,
    /// Whose call it is, where it isn't an await's.
    Spawn(Pos),
    /// Whose target it is, where it isn't an await's.
    Every(Option<Ident>),
    Watching,
    Body(Body),
}

/// Whose location stands behind the word `outer`.
#[derive(Clone, Copy, Debug, PartialEq, Eq)]
pub enum Owner {
    Operand,
    Store,
    Emit,
    Target,
    Every,
}

/// How a name begins: with a lower-case letter, or with a capital.
#[derive(Clone, Copy, Debug, PartialEq, Eq)]
pub enum Case {
    Lower,
    Upper,
}

/// Whose names stand in a list.
#[derive(Clone, Copy, Debug, PartialEq, Eq)]
pub enum Listed {
    Events(Ty),
    Inputs(Ty),
    Outputs(Ty),
    Shared,
}

/// An await or a spawn.
#[derive(Drop)]
pub enum Act {
    Wait(Await),
    Start(Spawn),
}

/// What may come next in a declaration.
#[derive(Drop)]
pub enum Declaring {
    /// Behind `var`, `var &`, `var & ?`, and then behind the code, the name and the `=`.
    Var,
    AliasMark,
    AliasCode,
    AliasName(Ident),
    AliasValue(Ident, Ident),
    AliasSpawn,
    /// A variable's name, what follows it, what follows a value that ended with `end`.
    Item(Ty, Seq<Item>),
    ItemValue(Ty, Seq<Item>, Ident),
    ItemEnd(Ty, Seq<Item>),
    /// The type of events, inputs or outputs.
    EventType,
    InputType,
    OutputType,
    /// A name, and what follows it.
    Name(Listed, Seq<Ident>),
    NameEnd(Listed, Seq<Ident>),
    /// Behind `pool`, and then behind the bracket, the count, the bracket and the code.
    Pool,
    PoolCount,
    PoolClose(u32),
    PoolCode(u32),
    PoolName(u32, Ident),
}

/// What may come next in the head of a code.
#[derive(Drop)]
pub enum Coding {
    Slash,
    Await,
    Name,
    Open(Ident),
    /// Behind the parenthesis; behind `none` there.
    Params(Ident),
    NoParams(Ident),
    Param(Ident, Seq<Param>),
    ParamType(Ident, Seq<Param>),
    ParamName(Ident, Seq<Param>, Ty),
    ParamEnd(Ident, Seq<Param>),
    Arrow(Ident, Seq<Param>),
    Result(Ident, Seq<Param>),
    Do(Ident, Seq<Param>, Ty),
}

/// What may come next in a source, an await, an emission or another simple statement.
#[derive(Drop)]
pub enum Acting {
    /// Behind a location that is set, and behind its `=`.
    Assign(Ident),
    Source,
    /// Behind an await of a target, and behind any await or spawn.
    AwaitEnd(Target),
    ActEnd(Act),
    Emit,
    EmitOpen(Ident),
    EmitValue(Ident),
    Await,
    Call(Ident),
    Arguments(Ident),
    Target,
    Unit(Exp),
    Spawn,
    SpawnIn(Pos, Call),
    SpawnPool(Pos, Call),
    Kill,
    Escape,
    EscapeLabel,
    EscapeValue(Ident),
}

/// What may come next in the head of a statement with blocks.
#[derive(Drop)]
pub enum Opening {
    Do,
    DoLabel,
    Finalize,
    Else(Seq<Arm>),
    ElseIf(Seq<Arm>),
    WatchingDo(Target),
    Par,
    ParWord,
    ParDo(ParKind),
    Async,
    AsyncOpen,
    AsyncDo(Seq<Ident>),
}

/// What may come next in the head of a loop.
#[derive(Drop)]
pub enum Looping {
    Loop,
    Count,
    CountDo(u32),
    RangeIn(Ident),
    RangeOpen(Ident),
    RangeDo(Ident, bool, Exp, Exp, bool),
    Every,
    EveryIn(Ident),
    EveryDo(Option<Ident>, Target),
}

/// What may come next.
#[derive(Drop)]
pub enum Mode {
    /// An operand.
    Start,
    /// What follows a name, an operand, an `as`, a type.
    Named(Name, Pos),
    After(Exp),
    Cast(Pos, Exp),
    Typed(Exp),
    /// Behind the word `outer`, and behind its `.`.
    Outer(Owner, Pos),
    OuterName(Owner, Pos),
    /// A statement of a block, behind these.
    In(Seq<Node>),
    /// The `;` of a statement.
    Semicolon(Stmt),
    Declaring(Declaring),
    Coding(Coding),
    Acting(Acting),
    Opening(Opening),
    Looping(Looping),
}
