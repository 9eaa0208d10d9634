//! Laws of the reference semantics on the slots that have a value, each the contract of a function with an empty body.
//!
//! In each configuration of a run of a proper kernel, with code, pools and instances, each slot of an open body that needs a value has one, and the
//! program's variables that the code of an instance names are set.
#![tactic(auto)]

ghost use Rattle.laws_meaning_assigned.specs.Laws.{
  BootOuterReads,
  BootReads,
  BootStocked,
  CodeOuterSet,
  CommandOuterReads,
  CommandReads,
  CommandStocked,
  OuterReads,
  ReactionStocked,
  RunOuter,
  RunOuterLegal,
  RunSetLegal,
  RunStocked,
  StepOuter,
  StepStocked,
  TurnReads,
};

/// At the start no slot needs a value.
pub fn boot_stocked()
    ensures { BootStocked }
{}

/// A step of a configuration that fits a proper kernel, with the instances that live in their places, leaves a value to each slot that needs one.
pub fn step_stocked()
    ensures { StepStocked }
{}

/// So does any number of steps of a reaction,
pub fn reaction_stocked()
    ensures { ReactionStocked }
{}

/// and an input, an advance of the clock and idle turns.
pub fn command_stocked()
    ensures { CommandStocked }
{}

/// So it is in each configuration of every run of a proper kernel.
pub fn run_stocked()
    ensures { RunStocked }
{}

/// So the statement at which a turn is reads no slot of its own body without a value when it starts.
pub fn turn_reads()
    ensures { TurnReads }
{}

/// In no step of boot's reaction a proper kernel reads one.
pub fn boot_reads()
    ensures { BootReads }
{}

/// Nor does it in a step of the reactions of a command after a run.
pub fn command_reads()
    ensures { CommandReads }
{}

/// Where a run waits, each declaration of an open block that is set there has a value, and each parameter, as a legal configuration has it.
pub fn run_set_legal()
    ensures { RunSetLegal }
{}

/// Where code is awaited or spawned, the statements before the one where the program's block stands set each of the program's variables that the code names
/// by `outer`, itself or by other code, if so it is for the code of each instance that lives.
pub fn code_outer_set()
    ensures { CodeOuterSet }
{}

/// So a statement that starts names by `outer` none of the program's variables that has no value, if so it is for each instance that lives.
pub fn outer_reads()
    ensures { OuterReads }
{}

/// A step keeps those variables set that the code of each instance names,
pub fn step_outer()
    ensures { StepOuter }
{}

/// and so it is in each configuration of every run of a proper kernel.
pub fn run_outer()
    ensures { RunOuter }
{}

/// Where a run waits, the program's variables that the code of an instance names are set, as a legal configuration has it.
pub fn run_outer_legal()
    ensures { RunOuterLegal }
{}

/// So a statement that starts in the reaction of boot names by `outer` none of the program's variables that has no value,
pub fn boot_outer_reads()
    ensures { BootOuterReads }
{}

/// nor does one in the reactions of a command after a run.
pub fn command_outer_reads()
    ensures { CommandOuterReads }
{}
