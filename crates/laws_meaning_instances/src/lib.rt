//! Laws of the reference semantics on the instances of code that live, each the contract of a function with an empty body.
//!
//! In each configuration of a run of a proper kernel the instances have numbers that differ, from 1 to the last that was given, and just these live. Each
//! stands at a place of its own in a pool of its block, in the order of pools and numbers.
#![tactic(auto)]

ghost use Rattle.laws_meaning_instances.specs.Laws.{
  BootInstances,
  CommandInstances,
  LegalPlaces,
  ReactionInstances,
  RunInstances,
  RunNumbersLegal,
  StepInstances,
};

/// At the start no instance lives.
pub fn boot_instances()
    ensures { BootInstances }
{}

/// A step of a configuration that fits a proper kernel keeps the instances that live: their numbers, the last that was given, and their places.
pub fn step_instances()
    ensures { StepInstances }
{}

/// So does any number of steps of a reaction,
pub fn reaction_instances()
    ensures { ReactionInstances }
{}

/// and an input, an advance of the clock and idle turns.
pub fn command_instances()
    ensures { CommandInstances }
{}

/// So they stand in each configuration of every run of a proper kernel.
pub fn run_instances()
    ensures { RunInstances }
{}

/// Where such a run waits, the numbers are as a legal configuration has them.
pub fn run_numbers_legal()
    ensures { RunNumbersLegal }
{}

/// The places and their order are those of legal configurations.
pub fn legal_places()
    ensures { LegalPlaces }
{}
