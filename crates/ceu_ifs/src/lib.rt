//! Programs of one trail: the machine begins an `if`, and ends a block of one, as the reference semantics does. Each law is the contract of a function with an
//! empty body.
#![tactic(auto)]

ghost use Rattle.ceu_ifs.specs.Laws.{IfEndsAreDone, IfStartsAreDone};

/// Where a turn of a program of one trail is at the start of an `if`, the machine does in few steps what the reference semantics does in one: it evaluates the
/// conditions in their order, and goes to the block of the first one that is true, or to the last block; or it faults as the first condition that does.
pub fn if_starts_are_done()
    ensures { IfStartsAreDone }
{}

/// So too at the end of a block that an `if` opened: it goes on behind the `if`.
pub fn if_ends_are_done()
    ensures { IfEndsAreDone }
{}
