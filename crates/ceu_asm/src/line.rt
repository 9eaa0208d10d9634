use ceu_base::Seq;
use ceu_code::Instr;

/// A line of code before its offsets are known.
#[derive(Clone, Copy, Debug, PartialEq, Eq)]
pub enum Line {
    /// The label stands here.
    Mark(u32),
    /// An instruction as it is.
    Plain(Instr),
    /// An instruction whose code operand is the label's offset.
    Jump(Instr, u32),
}

/// The labels that a statement's lines speak of: its own begin, what follows it, and its parts in textual order.
#[derive(Drop)]
pub struct Labels {
    pub own: u32,
    pub next: u32,
    pub parts: Seq<u32>,
}
