//! Laws of the reference semantics on the counters of open loops, each the contract of a function with an empty body.
//!
//! In each configuration of a run of a proper kernel a loop with a count of n turns has begun from 1 to n of them where its body is open, and a loop over a
//! range has a value in its variable, one before the next, not beyond the last, and within the range's constant ends. Where a trail is at a loop's head for
//! the first time, the loop's variable has no value yet.
//!
//! Laws of the reference semantics on remaining times and counted turns, each the contract of a function with an empty body.
#![tactic(auto)]

ghost use Rattle.laws_meaning_counters.specs.Laws.{BootCounters, BootInts, CommandCounters, ReactionCounters, ReactionInts, RunCounters, RunCountersLegal, StepCounters, StepInts, WaitingTyped};
ghost use Rattle.laws_meaning_counters.specs.Ranges.{CommandInRange, RunInRange, StepInRange};

/// At the start no loop is open.
pub fn boot_counters()
    ensures { BootCounters }
{}

/// A step of a configuration that fits a proper kernel, with the instances that live in their places, keeps the counters.
pub fn step_counters()
    ensures { StepCounters }
{}

/// So does any number of steps of a reaction,
pub fn reaction_counters()
    ensures { ReactionCounters }
{}

/// and an input, an advance of the clock and idle turns.
pub fn command_counters()
    ensures { CommandCounters }
{}

/// So they stand in each configuration of every run of a proper kernel.
pub fn run_counters()
    ensures { RunCounters }
{}

/// Where such a run waits, they are as a legal configuration has them, where the values of ranges have their type.
pub fn run_counters_legal()
    ensures { RunCountersLegal }
{}

/// At the start no range is open.
pub fn boot_ints()
    ensures { BootInts }
{}

/// A step keeps the open ranges within an int, where the ends of a range that begins give ints.
pub fn step_ints()
    ensures { StepInts }
{}

/// So do the steps of a reaction, where each range that begins in it has such ends.
pub fn reaction_ints()
    ensures { ReactionInts }
{}

/// Where the counters stand and the ranges are within an int, what waits has values of their type in its ranges.
pub fn waiting_typed()
    ensures { WaitingTyped }
{}

/// In every run of every kernel each remaining time lies from 1 to 2^63 - 1 microseconds, and no loop with a bound has begun more turns than that.
pub fn run_in_range()
    ensures { RunInRange }
{}

/// A step keeps these ranges,
pub fn step_in_range()
    ensures { StepInRange }
{}

/// and so does a command, from any configuration on.
pub fn command_in_range()
    ensures { CommandInRange }
{}
