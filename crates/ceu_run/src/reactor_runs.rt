// A run behind its memory line.
ghost use Rattle.std.specs.Prelude.{◌≡◌, ◌≤◌, true, length};
ghost use Rattle.ceu_io.specs.Told.{WhereTold};
ghost use Rattle.ceu_run.specs.Doing.{WherePlayed};
ghost use Rattle.ceu_run.specs.Printing.{commands_of};
ghost use Rattle.ceu_run.specs.Playing.{PlayCause};
ghost use Rattle.ceu_trace.specs.Lines.{short_names};
ghost use Rattle.ceu_run.specs.Lines.{memory_line};
ghost use Rattle.ceu_run.specs.Runs.{RunPrints, lines_of};

use crate::memory_line::write_memory;
use crate::{Played, Reactor, play};
use ceu_io::{Sink, Source};
use ceu_tree::Kernel;

/// Writes the memory line of a program, then boots the reactor that stands for it and does the commands of a script. It takes no
/// memory.
pub fn run_reactor<R: Reactor, I: Source, O: Sink>(
    reactor: &mut R,
    kernel: &Kernel,
    memory: u32,
    turns: u32,
    levels: u16,
    input: &mut I,
    out: &mut O,
) -> Played
    requires fresh { R.fresh reactor.old kernel.now }
    requires few { length kernel.now.inputs ≤ 65535 }
    requires short { short_names kernel.now.outputs ≡ true }
    ensures told { WhereTold (I.left input.old) (I.left input.new) (λ old new. RunPrints result (memory_line memory turns levels) kernel.now old (length new) (O.held out.old) (O.held out.new)) }
    ensures ran { WhereTold (I.left input.old) (I.left input.new) (λ old new. WherePlayed result (R.ran reactor.old (commands_of (lines_of kernel.now old)) reactor.new)) }
    ensures cause { PlayCause result (I.faults input.old) (I.faults input.new) (O.faults out.old) (O.faults out.new) }
{
    match write_memory(out, memory, turns, levels) {
        Ok(()) => play(reactor, &kernel.inputs, &kernel.outputs, input, out, false),
        Err(_) => Played::Write,
    }
}
