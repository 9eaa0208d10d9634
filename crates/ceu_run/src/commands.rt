// One command, with the lines that it prints.
ghost use Rattle.std.specs.Prelude.{◌≡◌, ◌<◌, ◌++◌, ◌∷◌, [], List, IfOk, OnOk};
ghost use Rattle.ceu_base.specs.declared.kinds.Port.{Port};
ghost use Rattle.ceu_io.specs.Counts.{HasCause};
ghost use Rattle.ceu_script.specs.Commands.{IsCommand};
ghost use Rattle.ceu_tree.specs.declared.command.Command.{Command};
ghost use Rattle.ceu_tree.specs.declared.command.Command.TheVariants.{Input, Advance, Idle};
ghost use Rattle.ceu_tree.specs.declared.kernel.Kernel.{Kernel};
ghost use Rattle.ceu_tree.specs.Run as run;
ghost use Rattle.ceu_tree.specs.Run.{Config, Waits, status_of, world_of};
ghost use Rattle.ceu_run.specs.Doing.{HasDone};
ghost use Rattle.ceu_run.specs.Reactions.{IsWaiting, StillWaits};
ghost use Rattle.ceu_run.specs.Printing.{Prints, new_text, marks_text, command_text, turns_text};

use crate::{After, Reactor};
use ceu_io::{Failed, Sink};
use ceu_trace::TextMarks;
use ceu_tree::Command;

pub(crate) fn boot<R: Reactor, O: Sink>(
    reactor: &mut R,
    marks: &mut TextMarks<'_, O>,
) -> Result<After, Failed>
    requires { (K : Kernel) × R.fresh reactor.old K }
    ensures printed { (K : Kernel) → R.fresh reactor.old K → Prints (R.stands reactor.new K) (λ n. run.steps K n (run.booted K)) (λ n. marks_text marks.old.all marks.old.outputs.now (world_of (run.steps K n (run.booted K))).marks) (O.held marks.old.out.now) (O.held marks.new.out.now) result }
    ensures ran { IfOk result (HasDone (λ xs. R.ran reactor.old xs reactor.new) []) }
    ensures kept { (marks.new.outputs.now ≡ marks.old.outputs.now) × (marks.new.all ≡ marks.old.all) × (marks.new.out.ghost_name ≡ marks.old.out.ghost_name) }
    ensures cause { HasCause (O.faults marks.old.out.now) (O.faults marks.new.out.now) result }
{
    reactor.boot(marks)
}

fn input<R: Reactor, O: Sink>(
    reactor: &mut R,
    event: u16,
    value: i128,
    marks: &mut TextMarks<'_, O>,
) -> Result<After, Failed>
    requires { (inputs : List Port) × IsWaiting (R.stands reactor.old) inputs × IsCommand inputs (Input event value) }
    ensures printed { (K : Kernel) (c : Config) → R.stands reactor.old K c → Prints (R.stands reactor.new K) (λ n. run.input K n event value c) (λ n. new_text marks.old.all marks.old.outputs.now (world_of c).marks (run.input K n event value c)) (O.held marks.old.out.now) (O.held marks.new.out.now) result }
    ensures ran { (start : R) (xs : List Command) → R.ran start xs reactor.old → OnOk result (R.ran start (xs ++ Input event value ∷ []) reactor.new) }
    ensures kept { (marks.new.outputs.now ≡ marks.old.outputs.now) × (marks.new.all ≡ marks.old.all) × (marks.new.out.ghost_name ≡ marks.old.out.ghost_name) }
    ensures cause { HasCause (O.faults marks.old.out.now) (O.faults marks.new.out.now) result }
{
    reactor.input(event, value, marks)
}

fn advance<R: Reactor, O: Sink>(
    reactor: &mut R,
    us: u64,
    marks: &mut TextMarks<'_, O>,
) -> Result<After, Failed>
    requires waits { (inputs : List Port) × IsWaiting (R.stands reactor.old) inputs }
    requires time { us < 9223372036854775808 }
    ensures printed { (K : Kernel) (c : Config) → R.stands reactor.old K c → Prints (R.stands reactor.new K) (λ n. run.done K n (Advance us) c) (λ n. new_text marks.old.all marks.old.outputs.now (world_of c).marks (run.done K n (Advance us) c)) (O.held marks.old.out.now) (O.held marks.new.out.now) result }
    ensures ran { (start : R) (xs : List Command) → R.ran start xs reactor.old → OnOk result (R.ran start (xs ++ Advance us ∷ []) reactor.new) }
    ensures kept { (marks.new.outputs.now ≡ marks.old.outputs.now) × (marks.new.all ≡ marks.old.all) × (marks.new.out.ghost_name ≡ marks.old.out.ghost_name) }
    ensures cause { HasCause (O.faults marks.old.out.now) (O.faults marks.new.out.now) result }
{
    reactor.advance(us, marks)
}

fn idle_turn<R: Reactor, O: Sink>(
    reactor: &mut R,
    marks: &mut TextMarks<'_, O>,
) -> Result<After, Failed>
    requires { (inputs : List Port) × IsWaiting (R.stands reactor.old) inputs }
    ensures printed { (K : Kernel) (c : Config) → R.stands reactor.old K c → Prints (R.stands reactor.new K) (λ n. run.idle_turn K n c) (λ n. new_text marks.old.all marks.old.outputs.now (world_of c).marks (run.idle_turn K n c)) (O.held marks.old.out.now) (O.held marks.new.out.now) result }
    ensures ran { (start : R) (xs : List Command) → R.ran start xs reactor.old → OnOk result (R.ran start (xs ++ Idle 1 ∷ []) reactor.new) }
    ensures kept { (marks.new.outputs.now ≡ marks.old.outputs.now) × (marks.new.all ≡ marks.old.all) × (marks.new.out.ghost_name ≡ marks.old.out.ghost_name) }
    ensures cause { HasCause (O.faults marks.old.out.now) (O.faults marks.new.out.now) result }
{
    reactor.idle(marks)
}

fn idle<R: Reactor, O: Sink>(
    reactor: &mut R,
    turns: u32,
    marks: &mut TextMarks<'_, O>,
) -> Result<After, Failed>
    requires { (inputs : List Port) × IsWaiting (R.stands reactor.old) inputs }
    ensures printed { (K : Kernel) (c : Config) → R.stands reactor.old K c → status_of c ≡ Waits → Prints (R.stands reactor.new K) (λ n. run.idle_turns K n turns c) (λ n. turns_text marks.old.all marks.old.outputs.now K n turns c) (O.held marks.old.out.now) (O.held marks.new.out.now) result }
    ensures ran { (K : Kernel) (c : Config) (start : R) (xs : List Command) → R.stands reactor.old K c → status_of c ≡ Waits → R.ran start xs reactor.old → IfOk result (HasDone (λ ys. R.ran start ys reactor.new) (xs ++ Idle turns ∷ [])) }
    ensures kept { (marks.new.outputs.now ≡ marks.old.outputs.now) × (marks.new.all ≡ marks.old.all) × (marks.new.out.ghost_name ≡ marks.old.out.ghost_name) }
    ensures cause { HasCause (O.faults marks.old.out.now) (O.faults marks.new.out.now) result }
    ensures waits { StillWaits (R.stands reactor.old) (R.stands reactor.new) result }
{
    'turns: for turn in 0..turns {
        if reactor.rests() {
            return Ok(After::Waiting);
        }
        match idle_turn(reactor, marks)? {
            After::Waiting => {}
            after => return Ok(after),
        }
    }
    Ok(After::Waiting)
}

pub(crate) fn command<R: Reactor, O: Sink>(
    reactor: &mut R,
    command: Command,
    marks: &mut TextMarks<'_, O>,
) -> Result<After, Failed>
    requires { (inputs : List Port) × IsWaiting (R.stands reactor.old) inputs × IsCommand inputs command }
    ensures printed { (K : Kernel) (c : Config) → R.stands reactor.old K c → status_of c ≡ Waits → Prints (R.stands reactor.new K) (λ n. run.done K n command c) (λ n. command_text marks.old.all marks.old.outputs.now K n command c) (O.held marks.old.out.now) (O.held marks.new.out.now) result }
    ensures ran { (K : Kernel) (c : Config) (start : R) (xs : List Command) → R.stands reactor.old K c → status_of c ≡ Waits → R.ran start xs reactor.old → IfOk result (HasDone (λ ys. R.ran start ys reactor.new) (xs ++ command ∷ [])) }
    ensures kept { (marks.new.outputs.now ≡ marks.old.outputs.now) × (marks.new.all ≡ marks.old.all) × (marks.new.out.ghost_name ≡ marks.old.out.ghost_name) }
    ensures cause { HasCause (O.faults marks.old.out.now) (O.faults marks.new.out.now) result }
    ensures waits { StillWaits (R.stands reactor.old) (R.stands reactor.new) result }
{
    match command {
        Command::Input(event, value) => input(reactor, event, value, marks),
        Command::Advance(us) => advance(reactor, us, marks),
        Command::Idle(turns) => idle(reactor, turns, marks),
    }
}
