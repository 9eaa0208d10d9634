//! Programs of one trail: escapes, step by step. Each law is the contract of a function with an empty body.
#![tactic(auto)]

ghost use Rattle.ceu_escapes.specs.Laws.{BareEscapesAreDone, TargetsAreFound, ValueEscapesAreDone};

/// Where a turn of a program of one trail is at an escape without a value, the machine does in few steps what the reference semantics does in one: what is
/// left has no value any more, and the turn goes on behind the `do` that is left.
pub fn bare_escapes_are_done()
    ensures { BareEscapesAreDone }
{}

/// In the code of a program of one trail the lines of an escape to a `do` are made for the target of that `do`.
pub fn targets_are_found()
    ensures { TargetsAreFound }
{}

/// Where a turn is at an escape with a value, the machine does what the reference semantics does, faults of the expression too: the target of the `do` that
/// is left has the value then, and where the body of the program is left the program has ended with it.
pub fn value_escapes_are_done()
    ensures { ValueEscapesAreDone }
{}
