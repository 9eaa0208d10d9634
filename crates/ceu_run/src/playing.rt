// A run on a script.
ghost use Rattle.std.specs.Prelude.{◌≡◌, ◌≤◌, length, true};
ghost use Rattle.ceu_io.specs.Told.{WhereTold};
ghost use Rattle.ceu_script.specs.Lines.{script};
ghost use Rattle.ceu_trace.specs.Lines.{short_names};
ghost use Rattle.ceu_tree.specs.declared.kernel.Kernel.{Kernel};
ghost use Rattle.ceu_run.specs.Doing.{WherePlayed};
ghost use Rattle.ceu_run.specs.Printing.{commands_of};
ghost use Rattle.ceu_run.specs.Playing.{Plays, PlayCause, script_of};
ghost use Rattle.ceu_run.specs.Stops as spec;
ghost use Rattle.ceu_run.specs.Stops.{EndsWith, Finishes};

use crate::commands::boot;
use crate::follow::{Stop, follow};
use crate::lines::{bad_line, status_line};
use crate::{After, Played, Reactor};
use ceu_base::{Port, Seq};
use ceu_io::{Sink, Source, write_all};
use ceu_trace::TextMarks;

/// Boots a program and does the commands of a script, each before the next line is looked for. It writes each output when it is
/// emitted, with `all` each mark, and in the end how the program stands. It takes no memory.
pub fn play<R: Reactor, I: Source, O: Sink>(
    reactor: &mut R,
    inputs: &Seq<Port>,
    outputs: &Seq<Port>,
    source: &mut I,
    sink: &mut O,
    all: bool,
) -> Played
    requires fresh { (K : Kernel) × R.fresh reactor.old K × (K.inputs ≡ inputs.now) }
    requires inputs { length inputs.now ≤ 65535 }
    requires short { short_names outputs.now ≡ true }
    ensures told { (K : Kernel) → R.fresh reactor.old K → WhereTold (I.left source.old) (I.left source.new) (λ old new. Plays result K (script inputs.now (script_of old)) old (length new) all outputs.now (O.held sink.old) (O.held sink.new)) }
    ensures ran { WhereTold (I.left source.old) (I.left source.new) (λ old new. WherePlayed result (R.ran reactor.old (commands_of (script inputs.now (script_of old))) reactor.new)) }
    ensures cause { PlayCause result (I.faults source.old) (I.faults source.new) (O.faults sink.old) (O.faults sink.new) }
{
    let mut marks = TextMarks::new(sink, outputs, all);
    play_marks(reactor, inputs, source, &mut marks)
}

fn play_marks<R: Reactor, I: Source, O: Sink>(
    reactor: &mut R,
    inputs: &Seq<Port>,
    source: &mut I,
    marks: &mut TextMarks<'_, O>,
) -> Played
    requires fresh { (K : Kernel) × R.fresh reactor.old K × (K.inputs ≡ inputs.now) }
    requires inputs { length inputs.now ≤ 65535 }
    ensures told { (K : Kernel) → R.fresh reactor.old K → WhereTold (I.left source.old) (I.left source.new) (λ old new. Plays result K (script inputs.now (script_of old)) old (length new) marks.old.all marks.old.outputs.now (O.held marks.old.out.now) (O.held marks.new.out.now)) }
    ensures ran { WhereTold (I.left source.old) (I.left source.new) (λ old new. WherePlayed result (R.ran reactor.old (commands_of (script inputs.now (script_of old))) reactor.new)) }
    ensures cause { PlayCause result (I.faults source.old) (I.faults source.new) (O.faults marks.old.out.now) (O.faults marks.new.out.now) }
    ensures name { marks.new.out.ghost_name ≡ marks.old.out.ghost_name }
{
    let after = match boot(reactor, marks) {
        Ok(after) => after,
        Err(_) => return Played::Write,
    };
    match after {
        After::Waiting => {
            let stop = follow(reactor, inputs, source, marks);
            finish(stop, marks)
        }
        over => finish(Stop::Over(over), marks),
    }
}

// Writes the line of how the program stands, where the run is over.
fn finish<O: Sink>(stop: Stop, marks: &mut TextMarks<'_, O>) -> Played
    ensures finished { Finishes stop result (O.held marks.old.out.now) (O.held marks.new.out.now) (O.faults marks.old.out.now) (O.faults marks.new.out.now) }
    ensures name { marks.new.out.ghost_name ≡ marks.old.out.ghost_name }
{
    match stop {
        Stop::End => end_with(marks, status_line(After::Waiting).as_slice(), Played::Done),
        Stop::Bad(number, kind) => {
            end_with(marks, bad_line(number, kind).as_slice(), Played::Script)
        }
        Stop::Over(after) => end_with(marks, status_line(after).as_slice(), answer_of(after)),
        Stop::Read => Played::Read,
        Stop::Write => Played::Write,
    }
}

fn answer_of(after: After) -> Played
    ensures { result ≡ spec.after_answer after }
{
    match after {
        After::Waiting => Played::Done,
        After::Ended(_) => Played::Done,
        After::Faulted(_, _) => Played::Fault,
    }
}

fn end_with<O: Sink>(marks: &mut TextMarks<'_, O>, line: &[u8], answer: Played) -> Played
    ensures ends { EndsWith result answer line.now (O.held marks.old.out.now) (O.held marks.new.out.now) (O.faults marks.old.out.now) (O.faults marks.new.out.now) }
    ensures name { marks.new.out.ghost_name ≡ marks.old.out.ghost_name }
{
    match write_all(marks.out, line) {
        Ok(()) => answer,
        Err(_) => Played::Write,
    }
}
