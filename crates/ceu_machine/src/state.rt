use ceu_base::{Fault, Pos};
use ceu_isa::Registers;

/// What follows an abort: the trail goes on, also with a place that becomes free, or the program has faulted.
#[derive(Clone, Copy)]
pub enum After {
    GoesOn,
    Frees(u32),
    Fails(Fault, Pos),
}

/// An abort that is on: its gates, what follows it, and the trail that aborts.
#[derive(Clone, Copy)]
pub struct Sweep {
    pub from: u16,
    pub count: u16,
    pub after: After,
    pub trail: Registers,
}

/// Where a turn is.
#[derive(Clone, Copy)]
pub enum State {
    Trail(Registers),
    Sweeping(Sweep),
    Finalizer(Sweep, Registers),
    Paused,
    Ended,
    Faulted(Fault, Pos),
}
