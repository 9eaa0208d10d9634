//! Programs of one trail: the machine does what the reference semantics does, step by step. Each law is the contract of a function with an empty body.
#![tactic(auto)]

ghost use Rattle.ceu_steps.specs.Laws.{PlainStepsAreDone};

/// Where a turn stands in the memory and in the registers, and the leaf is at the begin of a block, at the start of a statement that does nothing, assigns,
/// emits an output, waits for an input, for a time or for ever, or opens a block by `do`, at a statement that has waited, or at the end of the program or of
/// a block that a `do` opened, the machine does in few steps what the reference semantics does in one, faults of expressions too: the same marks are added,
/// and the turn stands where it goes on, what is left of the program stands where it waits, or the machine has ended or faulted as the program has.
pub fn plain_steps_are_done()
    ensures { PlainStepsAreDone }
{}
