//! Laws of the reference semantics on what finalizers read, each the contract of a function with an empty body.
//!
//! Where a block ends, where a part is aborted, and after a fault, the finalizers that run read no variable that has no value.
#![tactic(auto)]

ghost use Rattle.laws_meaning_finalizers.specs.Laws.{AbortReads, BootCloses, CommandCloses, IdleCloses, RunIdleCloses, StepCloses};

/// An abortion of a program that fits its kernel, where each slot that needs a value has one, reads no variable without a value: its finalizers name those
/// that are set before they are registered.
pub fn abort_reads()
    ensures { AbortReads }
{}

/// So it is with what a step of a turn closes, aborts and kills, and after a fault with the abortion of all that is left.
pub fn step_closes()
    ensures { StepCloses }
{}

/// So each step of the reaction of boot closes what it closes,
pub fn boot_closes()
    ensures { BootCloses }
{}

/// and each step of the reactions of a command after a run.
pub fn command_closes()
    ensures { CommandCloses }
{}

/// So each idle turn closes and aborts what it does, in which the trail of an async runs, and after a fault of that trail the whole program is aborted,
pub fn idle_closes()
    ensures { IdleCloses }
{}

/// as each idle turn where a run waits.
pub fn run_idle_closes()
    ensures { RunIdleCloses }
{}
