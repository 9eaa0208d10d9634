// The lines of a script, one by one.
ghost use Rattle.std.specs.Prelude.{◌≡◌, ◌≤◌, ◌++◌, List, length, true};
ghost use Rattle.ceu_script.specs.Lines.{script};
ghost use Rattle.ceu_io.specs.Told.{WhereTold};
ghost use Rattle.ceu_tree.specs.declared.command.Command.{Command};
ghost use Rattle.ceu_tree.specs.declared.kernel.Kernel.{Kernel};
ghost use Rattle.ceu_tree.specs.Run.{Config, Waits, status_of};
ghost use Rattle.ceu_run.specs.Doing.{WhereStopped};
ghost use Rattle.ceu_run.specs.Printing.{commands_of};
ghost use Rattle.ceu_run.specs.Reactions.{IsWaiting};
ghost use Rattle.ceu_run.specs.Playing.{script_of};
ghost use Rattle.ceu_run.specs.Stops.{Stops, StopCause, Near};

use crate::commands::command;
use crate::{After, Reactor};
use ceu_base::{Port, Seq};
use ceu_io::{Sink, Source};
use ceu_script::{BadKind, Item, ScriptReader};
use ceu_trace::TextMarks;

/// Where the lines of a script stopped.
pub(crate) enum Stop {
    End,
    Bad(u64, BadKind),
    Over(After),
    Read,
    Write,
}

// Does the commands of a script, each before the next line is looked for.
pub(crate) fn follow<R: Reactor, I: Source, O: Sink>(
    reactor: &mut R,
    inputs: &Seq<Port>,
    source: &mut I,
    marks: &mut TextMarks<'_, O>,
) -> Stop
    requires waits { IsWaiting (R.stands reactor.old) inputs.now }
    requires inputs { length inputs.now ≤ 65535 }
    ensures told { (K : Kernel) (c : Config) → R.stands reactor.old K c → status_of c ≡ Waits → WhereTold (I.left source.old) (I.left source.new) (λ old new. Stops result K c marks.old.all marks.old.outputs.now (script inputs.now (script_of old)) (Near old (length new)) (O.held marks.old.out.now) (O.held marks.new.out.now)) }
    ensures ran { (K : Kernel) (c : Config) (start : R) (xs : List Command) → R.stands reactor.old K c → status_of c ≡ Waits → R.ran start xs reactor.old → WhereTold (I.left source.old) (I.left source.new) (λ old new. WhereStopped result (R.ran start (xs ++ commands_of (script inputs.now (script_of old))) reactor.new)) }
    ensures kept { (marks.new.outputs.now ≡ marks.old.outputs.now) × (marks.new.all ≡ marks.old.all) × (marks.new.out.ghost_name ≡ marks.old.out.ghost_name) }
    ensures cause { StopCause result (I.faults source.old) (I.faults source.new) (O.faults marks.old.out.now) (O.faults marks.new.out.now) }
{
    let mut reader = ScriptReader::new();
    'lines: loop {
        let item = match reader.next(source, inputs) {
            Ok(item) => item,
            Err(_) => return Stop::Read,
        };
        let input = match item {
            Item::Command(input) => input,
            Item::End => return Stop::End,
            Item::Bad(number, kind) => return Stop::Bad(number, kind),
        };
        let after = match command(reactor, input, marks) {
            Ok(after) => after,
            Err(_) => return Stop::Write,
        };
        match after {
            After::Waiting => {}
            over => return Stop::Over(over),
        }
    }
}
