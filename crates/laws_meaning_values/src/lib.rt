//! Laws of the reference semantics on the values of variables, each the contract of a function with an empty body.
//!
//! What an expression gives is a value of its type: the contract of a function with an empty body.
#![tactic(auto)]

ghost use Rattle.laws_meaning_values.specs.Laws.{AbortSpares, BootReads, CommandReads, CommandValued, RunValued, StatementReads, StepValued, TurnReads};
ghost use Rattle.laws_meaning_values.specs.Results.{ResultsAreValues};

/// The abortion of a part of a proper kernel forgets no value outside it: none of another open body, of another instance, or of a slot that the part
/// doesn't have.
pub fn abort_spares()
    ensures { AbortSpares }
{}

/// In every proper kernel a statement reads no slot of its own body without a value when it starts, where each slot that is seen from its place has one
/// or is not named by it before it sets it.
pub fn statement_reads()
    ensures { StatementReads }
{}

/// In a program without code a step keeps a value in each slot that needs one: those that the statements before the one where a block stands set, and the
/// variables of loops in their turns.
pub fn step_valued()
    ensures { StepValued }
{}

/// So does a command,
pub fn command_valued()
    ensures { CommandValued }
{}

/// and so each run.
pub fn run_valued()
    ensures { RunValued }
{}

/// In a program without code the statement at which a turn is reads no slot without a value when it starts.
pub fn turn_reads()
    ensures { TurnReads }
{}

/// In no step of boot's reaction such a program reads a slot without a value.
pub fn boot_reads()
    ensures { BootReads }
{}

/// Nor does it in a step of the reactions of a command after a run.
pub fn command_reads()
    ensures { CommandReads }
{}

/// A typed expression gives a value of its type or a fault, where each variable that it reads holds a value of the variable's type.
pub fn results_are_values()
    ensures { ResultsAreValues }
{}
