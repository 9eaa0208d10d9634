//! Reactions end within the bounds that are printed of their program: laws on the reference semantics, each the contract of a function with an empty body.
//!
//! The program is a proper kernel whose loops break no rule (`KeepsLoopRules`): any other is refused before it runs. What a reaction has to pay is what the
//! table of costs says; each step pays its part of it, so turns and levels run out.
#![tactic(auto)]

ghost use Rattle.laws_bounds_reactions.specs.Laws.{AsyncIsBounded, BootIsBounded, BootIsSteady, CommandIsSteady, CommandsEnd, InputIsBounded, ReactionsEnd, RunIsSteady, RunsEnd, RunsHaveOutcomes, StepIsSteady, TimeIsBounded};

/// Boot begins in a steady configuration: one that fits its kernel, with counters within the bounds of loops and instances at places of their pools.
pub fn boot_is_steady()
    ensures { BootIsSteady }
{}

/// A step leads from a steady configuration to a steady one.
pub fn step_is_steady()
    ensures { StepIsSteady }
{}

/// So does a command, whatever the bound on the steps of its reactions.
pub fn command_is_steady()
    ensures { CommandIsSteady }
{}

/// So each run is at a steady configuration.
pub fn run_is_steady()
    ensures { RunIsSteady }
{}

/// The reaction of boot ends, and stays within the program's turns and levels.
pub fn boot_is_bounded()
    ensures { BootIsBounded }
{}

/// So does the reaction that an input begins where the program waits.
pub fn input_is_bounded()
    ensures { InputIsBounded }
{}

/// So does each reaction of an advance of the clock.
pub fn time_is_bounded()
    ensures { TimeIsBounded }
{}

/// So does the reaction behind the end of an async.
pub fn async_is_bounded()
    ensures { AsyncIsBounded }
{}

/// From each steady configuration between two turns the reaction comes to its end.
pub fn reactions_end()
    ensures { ReactionsEnd }
{}

/// From some bound on steps on a command is over where it goes on from a steady configuration, with the turns of asyncs that it serves.
pub fn commands_end()
    ensures { CommandsEnd }
{}

/// From some bound on steps on a run is over, for each list of commands.
pub fn runs_end()
    ensures { RunsEnd }
{}

/// So each run has an outcome: marks and a status.
pub fn runs_have_outcomes()
    ensures { RunsHaveOutcomes }
{}
