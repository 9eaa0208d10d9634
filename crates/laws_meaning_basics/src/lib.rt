//! Laws of the reference semantics, each the contract of a function with an empty body.
//!
//! Laws of the reference semantics on configurations that fit their kernel, each the contract of a function with an empty body.
//!
//! A configuration fits where each open part is one of the kernel's and stands where the kernel has it, and where each leaf is one that may stand there.
#![tactic(auto)]

ghost use Rattle.laws_meaning_basics.specs.AbortOrder.{AbortsBegun, AbortsInOrder};
ghost use Rattle.laws_meaning_basics.specs.Finalizers.{FinalizersAtMost, FinalizersBalance};
ghost use Rattle.laws_meaning_basics.specs.Laws.{BootFits, CommandFits, ReactionFits, RunFits, StepFits, StepWhole};
ghost use Rattle.laws_meaning_basics.specs.Order.{EventWakes, FirstRuns, FirstServed, InputWakes};
ghost use Rattle.laws_meaning_basics.specs.Steps.{OneOutcome, ReactionsStand, RunsStand};

/// In every run in which no finalizer faulted, after any number of steps, the finalizer at a position was registered as often as it
/// has run and stands registered. None stands once the program has ended or faulted.
pub fn finalizers_balance()
    ensures { FinalizersBalance }
{}

/// In every run, also where a finalizer faulted, the runs of a finalizer and those that stand registered are no more than its registrations.
pub fn finalizers_at_most()
    ensures { FinalizersAtMost }
{}

/// A step is a function, so a reaction has one outcome: once it is over, a larger bound on its steps gives the same.
pub fn reactions_stand()
    ensures { ReactionsStand }
{}

/// So too of a whole run.
pub fn runs_stand()
    ensures { RunsStand }
{}

/// A run has at most one outcome: its marks and its status.
pub fn one_outcome()
    ensures { OneOutcome }
{}

/// The turn goes to the first leaf in lexical order that can run at the top level.
pub fn first_runs()
    ensures { FirstRuns }
{}

/// An idle turn serves the first async in lexical order that wasn't served in its round.
pub fn first_served()
    ensures { FirstServed }
{}

/// An emission changes exactly the leaves that wait for its event.
pub fn event_wakes()
    ensures { EventWakes }
{}

/// An input changes exactly the leaves that wait for it.
pub fn input_wakes()
    ensures { InputWakes }
{}

/// An abortion in which no finalizer faults runs the finalizers that stand registered in its part once each: inner before outer, branches and instances
/// from the last to the first, and in a block the last registered first.
pub fn aborts_in_order()
    ensures { AbortsInOrder }
{}

/// Where a finalizer faults, or none does, those that have run are the first of that order.
pub fn aborts_begun()
    ensures { AbortsBegun }
{}

/// The start of a proper kernel fits it.
pub fn boot_fits()
    ensures { BootFits }
{}

/// A step of a configuration that fits a proper kernel leads to one that fits, to an end or to a fault.
pub fn step_fits()
    ensures { StepFits }
{}

/// In a step of a turn the whole program goes on, rests, opens a level, fails or ends. So no step comes to a case that no proper kernel has.
pub fn step_whole()
    ensures { StepWhole }
{}

/// After any number of steps a reaction still fits.
pub fn reaction_fits()
    ensures { ReactionFits }
{}

/// An input, an advance of the clock and idle turns lead from a configuration that fits to one that fits.
pub fn command_fits()
    ensures { CommandFits }
{}

/// So in every run of a proper kernel each configuration fits.
pub fn run_fits()
    ensures { RunFits }
{}
