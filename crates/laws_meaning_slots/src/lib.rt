//! Laws of the reference semantics on the values that open bodies hold, each the contract of a function with an empty body.
//!
//! In each configuration of a run of a proper kernel every value lies in a slot that is open, and is of that slot's kind; an
//! alias that names an instance that lives names one that it may name. Where each variable holds a value of its type, expressions give values of theirs.
#![tactic(auto)]

ghost use Rattle.laws_meaning_slots.specs.Laws.{
  AbortTyped,
  BootHeld,
  BootNames,
  CommandHeld,
  CommandNames,
  NoneToParts,
  ReactionHeld,
  ReactionNames,
  RunHeld,
  RunNames,
  RunNamesLegal,
  RunSlotKinds,
  RunSlotsLegal,
  SlotKinds,
  StartTyped,
  StepHeld,
  StepNames,
};

/// At the start no value is held.
pub fn boot_held()
    ensures { BootHeld }
{}

/// A step of a configuration that fits a proper kernel keeps each value in an open slot of its kind.
pub fn step_held()
    ensures { StepHeld }
{}

/// So does any number of steps of a reaction,
pub fn reaction_held()
    ensures { ReactionHeld }
{}

/// and an input, an advance of the clock and idle turns.
pub fn command_held()
    ensures { CommandHeld }
{}

/// So it is in each configuration of every run of a proper kernel.
pub fn run_held()
    ensures { RunHeld }
{}

/// Where a configuration waits whose values lie so, each open slot holds nothing or a cell of its kind: a number of its own tells each slot of a kernel.
pub fn slot_kinds()
    ensures { SlotKinds }
{}

/// So it is wherever a run of a proper kernel waits.
pub fn run_slot_kinds()
    ensures { RunSlotKinds }
{}

/// At the start no alias names an instance.
pub fn boot_names()
    ensures { BootNames }
{}

/// A step of a configuration that fits a proper kernel keeps it so that an alias that names an instance that lives names one of its code, in a pool that
/// the alias may have, and of its body: what each slot is declared as is told by its number.
pub fn step_names()
    ensures { StepNames }
{}

/// So does any number of steps of a reaction,
pub fn reaction_names()
    ensures { ReactionNames }
{}

/// and an input, an advance of the clock and idle turns.
pub fn command_names()
    ensures { CommandNames }
{}

/// So it is in each configuration of every run of a proper kernel.
pub fn run_names()
    ensures { RunNames }
{}

/// Where each variable that holds a value holds one of its type, a statement that starts evaluates each of its expressions to a value of the type that its
/// place wants,
pub fn start_typed()
    ensures { StartTyped }
{}

/// and an abortion of the program keeps it so, with all that its finalizers assign.
pub fn abort_typed()
    ensures { AbortTyped }
{}

/// No exit leads to the block of a part of a do or of an if, so that such a block ends with 0.
pub fn none_to_parts()
    ensures { NoneToParts }
{}

/// Where such a run waits, each value is of an open slot, as a legal configuration has it.
pub fn run_slots_legal()
    ensures { RunSlotsLegal }
{}

/// And each alias that names an instance names one of its code, in a pool that the alias may have, and of the body that it is in.
pub fn run_names_legal()
    ensures { RunNamesLegal }
{}
