//! Every reaction of a program of one trail ends: laws on the reference semantics, each the contract of a function with an empty body.
//!
//! A program of one trail has no code, par, async, finalizer or internal event (`Single`), so a reaction of it is one turn.
#![tactic(auto)]

ghost use Rattle.ceu_endings.specs.Ends.{CommandsEnd, ReactionsEnd, RunsEnd, RunsHaveOutcomes, TurnsEnd};
ghost use Rattle.ceu_endings.specs.Laws.{BootCounted, CommandCounted, HasOneTrail, OneLevel, OneTurn, OneTurnAReaction, OneTurnInBounds, RunCounted, StepCounted};

/// A configuration that fits a kernel of one trail has one leaf, under open blocks, do, if and loops, and no block has a finalizer or an instance.
pub fn one_trail()
    ensures { HasOneTrail }
{}

/// At the start no loop is open, so each counter lies within the constant bound of its loop.
pub fn boot_counted()
    ensures { BootCounted }
{}

/// A step keeps the counters within the constant bounds of their loops,
pub fn step_counted()
    ensures { StepCounted }
{}

/// and so does a command, from any configuration on.
pub fn command_counted()
    ensures { CommandCounted }
{}

/// So in every run of every kernel each counter lies within the constant bound of its loop.
pub fn run_counted()
    ensures { RunCounted }
{}

/// From each configuration in a turn of a program of one trail that breaks no rule on loops the turn is over after at most so many steps.
pub fn turns_end()
    ensures { TurnsEnd }
{}

/// A turn of a program of one trail that doesn't end or fault it leaves nothing that can run, so no other turn follows in the reaction.
pub fn one_turn()
    ensures { OneTurn }
{}

/// So a reaction begins one turn at most, and opens and closes no level,
pub fn one_turn_a_reaction()
    ensures { OneTurnAReaction }
{}

/// all of it is at level 0,
pub fn one_level()
    ensures { OneLevel }
{}

/// it is within the bound on turns of every program,
pub fn one_turn_in_bounds()
    ensures { OneTurnInBounds }
{}

/// and it ends within so many steps.
pub fn reactions_end()
    ensures { ReactionsEnd }
{}

/// With that bound on each reaction commands end,
pub fn commands_end()
    ensures { CommandsEnd }
{}

/// and so does every run.
pub fn runs_end()
    ensures { RunsEnd }
{}

/// So every run of such a program has an outcome: its marks and its status.
pub fn runs_have_outcomes()
    ensures { RunsHaveOutcomes }
{}
