//! What a reaction costs, step by step: laws on the reference semantics, each the contract of a function with an empty body.
//!
//! A configuration has so many turns and levels still to pay in the reaction that goes on (`due`), by the table of costs. Within a turn a step never raises
//! that, each turn that is over pays one, and each level that opens pays one of the levels too. A step of a trail pays in the trail's own part, with the ways
//! on which the part may be left; an emission, a spawn and a kill reach beyond it, and pay in the whole tree.
//!
//! Programs are to keep the rules on loops and exits (`RulesKept`), and the tables of codes and of events are to say what their bodies (`CodesPay`) and what
//! an emission reaches (`EmissionsPay`, `WakingCosts`) cost: crates above show that of the tables of each proper program that breaks no rule.
#![tactic(auto)]

ghost use Rattle.laws_bounds_steps.specs.Laws.{AnyStepPays, BootWithin, EmitsPay, FramesPay, KillsPay, LeavingPays, LevelBounded, ResumptionCounted, RulesReach, SpawnsPay, StepPays};

/// What is left of a part costs less by what a step paid, and may be left by no other way: so it is with the part around it.
pub fn frames_pay()
    ensures { FramesPay }
{}

/// Ends, exits, registered finalizers, and the next turns of loops never raise what is left to pay.
pub fn leaving_pays()
    ensures { LeavingPays }
{}

/// A step of a turn pays what it costs in the trail's own part, where it emits, spawns and kills nothing; awaited code costs what its body enters.
pub fn step_pays()
    ensures { StepPays }
{}

/// A kill pays in the whole tree: what stood at the place that it frees has nothing left to pay.
pub fn kills_pay()
    ensures { KillsPay }
{}

/// A spawn pays for its turn and its level, for the turn of the instance that it seats, and for what the instance's body enters; where no place is free it
/// goes past.
pub fn spawns_pay()
    ensures { SpawnsPay }
{}

/// An emission pays for its turn and its level, and for the loops that it reaches.
pub fn emits_pay()
    ensures { EmitsPay }
{}

/// So each step of a turn pays in the whole tree.
pub fn any_step_pays()
    ensures { AnyStepPays }
{}

/// In a program that keeps the rules on loops and exits each loop around a trail whose turn is on, and the statement that it starts, keeps them.
pub fn rules_reach()
    ensures { RulesReach }
{}

/// The first reaction of a program begins within its bounds.
pub fn boot_within()
    ensures { BootWithin }
{}

/// A turn that begins was counted with its leaf.
pub fn resumption_counted()
    ensures { ResumptionCounted }
{}

/// A reaction's level lies no higher above that of its start than it has opened levels.
pub fn level_bounded()
    ensures { LevelBounded }
{}
