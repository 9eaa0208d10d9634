// A run of a program by its image.
ghost use Rattle.std.specs.Prelude.{◌≡◌, ◌≤◌, true, length, IfOk, OnErr};
ghost use Rattle.ceu_run.specs.Standing.{IsCompiled};
ghost use Rattle.ceu_run.specs.Playing.{PlayCause};
ghost use Rattle.ceu_io.specs.Told.{WhereTold};
ghost use Rattle.ceu_run.specs.Lines.{memory_line};
ghost use Rattle.ceu_run.specs.Runs.{RunPrints};
ghost use Rattle.ceu_trace.specs.Lines.{short_names};
ghost use Rattle.ceu_run.specs.Leaves.{Leaves};

use crate::{Compiled, Played, run_reactor};
use ceu_bound::Bounds;
use ceu_code::Image;
use ceu_io::{Sink, Source};
use ceu_react::Session;
use ceu_tree::Kernel;
use std::alloc::{AllocError, Global};

/// Runs the compiled image of a program of one trail on a script, behind the line of its memory and its bounds. All memory is taken before the first
/// byte is written, and none is taken behind it. A run that came to its end leaves its session in `left`, and any other one leaves none.
pub fn run<I: Source, O: Sink>(
    alloc: Global,
    kernel: &Kernel,
    image: Image,
    memory: u32,
    bounds: &Bounds,
    input: &mut I,
    out: &mut O,
    left: &mut Option<Session>,
) -> Result<Played, AllocError>
    requires compiled { IsCompiled image kernel.now }
    requires few { length kernel.now.inputs ≤ 65535 }
    requires short { short_names kernel.now.outputs ≡ true }
    ensures told { IfOk result (λ played. WhereTold (I.left input.old) (I.left input.new) (λ old new. RunPrints played (memory_line memory bounds.now.turns bounds.now.levels) kernel.now old (length new) (O.held out.old) (O.held out.new))) }
    ensures cause { IfOk result (λ played. PlayCause played (I.faults input.old) (I.faults input.new) (O.faults out.old) (O.faults out.new)) }
    ensures left { Leaves result image kernel.now (I.left input.old) (I.left input.new) left.new }
    ensures input { OnErr result (input.new ≡ input.old) }
    ensures out { OnErr result (out.new ≡ out.old) }
{
    *left = None;
    match Compiled::new(alloc, image) {
        Ok(mut compiled) => {
            let turns = bounds.turns;
            let levels = bounds.levels;
            let played = run_reactor(&mut compiled, kernel, memory, turns, levels, input, out);
            match played {
                Played::Done | Played::Fault | Played::Script => {
                    *left = Some(compiled.into_session());
                }
                Played::Read | Played::Write => {}
            }
            Ok(played)
        }
        Err(_) => Err(AllocError),
    }
}
