//! Laws of the reference semantics on the values of programs of one trail, each the contract of a function with an empty body: each value that is held is
//! that of a variable of an open block or loop, and is one of its type; a loop over a range counts within its variable's type; and what a statement
//! that waited goes on with is a value that it takes.
#![tactic(auto)]

ghost use Rattle.ceu_within.specs.Laws.{BootWithin, ChosenWithin, InputWithin, StepWithin, TimeWithin};

/// So it is before boot.
pub fn boot_within()
    ensures { BootWithin }
{}

/// A step of a turn keeps it so.
pub fn step_within()
    ensures { StepWithin }
{}

/// It holds of the trail that is chosen, where it holds of what waits,
pub fn chosen_within()
    ensures { ChosenWithin }
{}

/// after an input of its type,
pub fn input_within()
    ensures { InputWithin }
{}

/// and after time has passed and timers have woken.
pub fn time_within()
    ensures { TimeWithin }
{}
