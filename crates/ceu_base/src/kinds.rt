ghost use Rattle.std.specs.Prelude.{◌≡◌};
ghost use Rattle.ceu_base.specs.declared.kinds.CheckError.TheVariants.{Memory};

use crate::name::Name;
use std::alloc::AllocFailed;

/// The type of a value. A value of a type is a whole number of its range; `None` has the one value 0, and false is 0 and true is 1.
#[derive(Clone, Copy, Debug, PartialEq, Eq)]
pub enum Ty {
    None,
    Bool,
    U8,
    S8,
    U16,
    S16,
    U32,
    S32,
    U64,
    S64,
}

/// Why a program can't go on.
#[derive(Clone, Copy, Debug, PartialEq, Eq)]
pub enum Fault {
    /// A result lies outside its type.
    Overflow,
    /// A divisor is zero.
    DivZero,
    /// A shift amount isn't from 0 to the width less 1.
    Shift,
    /// A loop's body would start more often than its limit.
    LoopLimit,
    /// Every spawn number has been given.
    SpawnCount,
}

/// A place in a text: line and column from 1, the column in bytes.
#[derive(Clone, Copy, Debug, PartialEq, Eq)]
pub struct Pos {
    pub line: u32,
    pub col: u32,
}

/// An input or output: the type of its values and its name.
#[derive(Drop)]
pub struct Port {
    pub ty: Ty,
    pub name: Name,
}

/// The prefix operators: `not`, `-` and `~`.
#[derive(Clone, Copy, Debug, PartialEq, Eq)]
pub enum Op1 {
    Not,
    Neg,
    Compl,
}

/// The binary operators, the looser ones first.
#[derive(Clone, Copy, Debug, PartialEq, Eq)]
pub enum Op2 {
    Or,
    And,
    Eq,
    Ne,
    Lt,
    Gt,
    Le,
    Ge,
    BitOr,
    BitXor,
    BitAnd,
    Shl,
    Shr,
    Add,
    Sub,
    Mul,
    Div,
    Rem,
}

/// The rules that a text may break, by the phase that asks them: tokens (L), grammar (G), names (N), types (T), bounds (B) and
/// sizes (Z). `B0` says that a form isn't built yet.
#[derive(Clone, Copy, Debug, PartialEq, Eq)]
pub enum Rule {
    L1,
    L2,
    L3,
    L4,
    L5,
    G1,
    G2,
    G3,
    N1,
    N2,
    N3,
    N4,
    N5,
    N6,
    N7,
    T1,
    T2,
    T3,
    T4,
    T5,
    T6,
    T7,
    B0,
    B1,
    B2,
    B3,
    B4,
    Z1,
    Z2,
    Z3,
}

/// What a reaction shows: outputs by port number and value, the levels at which trails go on and which open and close, finalizers by
/// position, and spawns.
#[derive(Clone, Copy, Debug, PartialEq, Eq)]
pub enum Mark {
    Output(u16, i128),
    Resume(u16),
    Push(u16),
    Pop(u16),
    Registered(Pos),
    Ran(Pos),
    Spawned(u32),
    Full,
}

/// Why a tree isn't accepted: the rule that it breaks first and the place, or want of memory.
#[derive(Clone, Copy, Debug, PartialEq, Eq)]
pub enum CheckError {
    Refused(Rule, Pos),
    Memory,
}

impl<T: Drop> From<AllocFailed<T>> for CheckError {
    ghost from_gives = { λ _ e. e ≡ Memory };

    fn from(_: AllocFailed<T>) -> Self {
        CheckError::Memory
    }
}
