//! The configurations from which a run of the reference semantics may go on, each law the contract of a function with an empty body.
//!
//! `IsLawful` is all that each run of a proper kernel keeps. Steps and commands lead from lawful configurations to lawful ones, a lawful one that waits
//! is legal, and in a lawful one each step is one of those that the semantics has and reads only values that are there. So a run that was stopped where it
//! waits can start again from there.
#![tactic(auto)]

ghost use Rattle.laws_meaning_lawful.specs.Laws.{BootIsLawful, CommandIsLawful, CommandsAreLawful, FittingStands, LawfulIsLegal, LawfulIsWhole, LawfulLeads, LawfulReads, ReactionIsLawful, RunIsLawful, RunLegal, RunUnfailed, StepIsLawful};

/// A proper kernel boots in a lawful configuration.
pub fn boot_is_lawful()
    ensures { BootIsLawful }
{}

/// A step of a reaction leads from a lawful configuration to a lawful one.
pub fn step_is_lawful()
    ensures { StepIsLawful }
{}

/// So do any number of steps.
pub fn reaction_is_lawful()
    ensures { ReactionIsLawful }
{}

/// A command, with an input of its type, leads from a lawful configuration to a lawful one, whatever the bound on the steps of its reactions.
pub fn command_is_lawful()
    ensures { CommandIsLawful }
{}

/// So does a list of commands, from wherever a run was stopped.
pub fn commands_are_lawful()
    ensures { CommandsAreLawful }
{}

/// Each run of a proper kernel, with inputs of their types, is at a lawful configuration.
pub fn run_is_lawful()
    ensures { RunIsLawful }
{}

/// A lawful configuration that waits is legal.
pub fn lawful_is_legal()
    ensures { LawfulIsLegal }
{}

/// A step from a lawful configuration comes to no case that no proper kernel has.
pub fn lawful_is_whole()
    ensures { LawfulIsWhole }
{}

/// In a lawful configuration a statement that starts reads no slot without a value, neither of its own body nor of the program's by `outer`.
pub fn lawful_reads()
    ensures { LawfulReads }
{}

/// A command whose reactions are over leads from a lawful configuration to a legal one, an end or a fault.
pub fn lawful_leads()
    ensures { LawfulLeads }
{}

/// Where a run of a proper kernel waits, no finalizer has failed: the trail of an async runs none, and in a reaction a failed one stops the program.
pub fn run_unfailed()
    ensures { RunUnfailed }
{}

/// What waits and fits a proper kernel stands in its body as in a legal configuration, where its values, instances, counters and times are as in one.
pub fn fitting_stands()
    ensures { FittingStands }
{}

/// Where a run of a proper kernel waits, with inputs of their types, its configuration is legal.
pub fn run_legal()
    ensures { RunLegal }
{}
