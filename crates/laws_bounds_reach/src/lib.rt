//! How many open bodies of code a tree has, and what an emission reaches in it: laws on the reference semantics, each the contract of a function with an
//! empty body.
//!
//! What an emission costs in a tree: laws on the reference semantics, each the contract of a function with an empty body.
//!
//! A leaf that waits for an event has its turn counted already, so that an emission that wakes it costs nothing in it. Only at the head of a loop that the
//! event paces nothing is counted: there the emission pays a turn, and what follows the await.
//!
//! What a tree has to pay with which a reaction begins: laws on the reference semantics, each the contract of a function with an empty body.
//!
//! Where each leaf waits, or has waited for something from outside, no more is to pay in the reaction than the table says of the program where it stood
//! waiting. The tree has no instance in a block that spawns none, as it is in every run of a proper kernel.
#![tactic(auto)]

ghost use Rattle.laws_bounds_reach.specs.CopiesLaws.{CopiesWithin, EmissionsReach, PoolsHold};
ghost use Rattle.laws_bounds_reach.specs.ReachesLaws.{EmissionsWake, WakingCosts, WakingStays, WakingTreeCosts};
ghost use Rattle.laws_bounds_reach.specs.StandingLaws.{AsyncWithin, BootBare, CommandBare, InputWithin, RunBare, StandingPays, StepBare, TimeWithin};

/// What stands in the pools of a block weighs at most what the pools weigh where they are full.
pub fn pools_hold()
    ensures { PoolsHold }
{}

/// Of each code no more bodies are open in a tree than the table of instances has of it.
pub fn copies_within()
    ensures { CopiesWithin }
{}

/// What an emission reaches costs no more than the table of what is woken says: an event of the program reaches all open bodies, an event of a code the
/// emitter's own body alone.
pub fn emissions_reach()
    ensures { EmissionsReach }
{}

/// What wakes may be left on the same ways as before, with counters within their bounds and instances at their places.
pub fn waking_stays()
    ensures { WakingStays }
{}

/// A tree whose leaves an event wakes costs more by at most what the event's paced loops in it cost.
pub fn waking_tree_costs()
    ensures { WakingTreeCosts }
{}

/// An emission wakes the whole tree, or in its own open body alone, and costs no more than the paced loops that it reaches.
pub fn waking_costs()
    ensures { WakingCosts }
{}

/// So each emission of a turn that is on pays what it wakes by the paced loops that it reaches.
pub fn emissions_wake()
    ensures { EmissionsWake }
{}

/// A tree of which each leaf waits, or has waited for an input, a time or the end of its async, has to pay at most what the program costs where it stood
/// waiting.
pub fn standing_pays()
    ensures { StandingPays }
{}

/// So it is after an input,
pub fn input_within()
    ensures { InputWithin }
{}

/// after a time,
pub fn time_within()
    ensures { TimeWithin }
{}

/// and after the end of an async.
pub fn async_within()
    ensures { AsyncWithin }
{}

/// At the start no instance lives,
pub fn boot_bare()
    ensures { BootBare }
{}

/// a step spawns none in a block that spawns nothing,
pub fn step_bare()
    ensures { StepBare }
{}

/// nor does a command,
pub fn command_bare()
    ensures { CommandBare }
{}

/// so that in no run such a block has one.
pub fn run_bare()
    ensures { RunBare }
{}
