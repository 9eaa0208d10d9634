//! Laws of the reference semantics on the types of values, each the contract of a function with an empty body.
//!
//! In each configuration of a run of a proper kernel, with inputs of their types, each value that is held of a variable is one of the variable's type, each
//! loop over a range counts within an int, and what a trail goes on with is a value of the type that its target takes.
#![tactic(auto)]

ghost use Rattle.laws_meaning_types.specs.Laws.{
  BootTyped,
  CommandKeepsTyped,
  ReactionTyped,
  RunCellsLegal,
  RunLoopsLegal,
  RunTyped,
  StepTyped,
};

/// At the start no value is held.
pub fn boot_typed()
    ensures { BootTyped }
{}

/// A step of a configuration that fits a proper kernel keeps each value of its variable's type, ranges within an int, and trails that go on with values of
/// the types that their targets take.
pub fn step_typed()
    ensures { StepTyped }
{}

/// So does any number of steps of a reaction,
pub fn reaction_typed()
    ensures { ReactionTyped }
{}

/// and an input with a value of its type, an advance of the clock and idle turns.
pub fn command_typed()
    ensures { CommandKeepsTyped }
{}

/// So it is in each configuration of every run of a proper kernel, where inputs have values of their types.
pub fn run_typed()
    ensures { RunTyped }
{}

/// Where such a run waits, each cell that an open variable, alias or parameter holds is as a legal configuration has it,
pub fn run_cells_legal()
    ensures { RunCellsLegal }
{}

/// and so is the counter of each open loop.
pub fn run_loops_legal()
    ensures { RunLoopsLegal }
{}
