//! The positions that the lines of statements name, in the images of programs of one trail.
#![tactic(auto)]

ghost use Rattle.ceu_steps.specs.Premises.{PositionsArePlaced};

/// The image of a program of one trail has, under its number, each position that the lines of a reached statement name: those of the operators of its
/// expressions, except `and` and `or`, and that of a loop with a limit.
pub fn positions_are_placed()
    ensures { PositionsArePlaced }
{}
