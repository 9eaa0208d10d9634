//! Each turn of a trail ends, in every program that breaks no rule on loops: laws on the reference semantics, each the contract of a function with an
//! empty body.
//!
//! What the marks of a reaction tell: laws on the reference semantics, each the contract of a function with an empty body.
//!
//! A turn that begins adds one mark of a turn, and a level that opens adds one mark of a level; whatever else a step does, it adds neither. So the turns and
//! the levels of a reaction can be counted in the marks that it adds, in every kernel and from every configuration in which no finalizer has failed.
#![tactic(auto)]

ghost use Rattle.laws_bounds_turns.specs.MarkedLaws.{FaultsStop, LevelsAreMarked, OverIsMarked, TurnsAreMarked};
ghost use Rattle.laws_bounds_turns.specs.TurnsLaws.{ReactionsAreOver, ServingsEnd, TurnsAreOver};

/// From each configuration in a turn of a program whose loops and exits keep their rules the turn is over after some number of steps.
pub fn turns_are_over()
    ensures { TurnsAreOver }
{}

/// So a reaction of such a program in which no more turns begin than some number is over after some number of steps.
pub fn reactions_are_over()
    ensures { ReactionsAreOver }
{}

/// However the trail of an async stands in a proper kernel, serving it ends.
pub fn servings_end()
    ensures { ServingsEnd }
{}

/// A reaction adds as many marks of turns as turns begin in it.
pub fn turns_are_marked()
    ensures { TurnsAreMarked }
{}

/// Where no finalizer has failed before, a reaction adds as many marks of levels as levels open in it.
pub fn levels_are_marked()
    ensures { LevelsAreMarked }
{}

/// A reaction that is over opens no level and adds no mark of one, whatever fault has come.
pub fn over_is_marked()
    ensures { OverIsMarked }
{}

/// A finalizer that fails stops the program at once.
pub fn faults_stop()
    ensures { FaultsStop }
{}
