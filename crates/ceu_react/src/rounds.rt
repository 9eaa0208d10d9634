// One round of a reaction: the next gate has its turn, or the reaction is over.
ghost use Rattle.std.specs.Prelude.{◌≡◌, ◌<◌, ◌≤◌, ◌∷◌, [], length, IfOk, OnOk, OnErr};
ghost use Rattle.ceu_base.specs.declared.kinds.Ty.TheVariants.{S64};
ghost use Rattle.ceu_io.specs.Counts.{HasCause};
ghost use Rattle.ceu_mem.specs.Memory.{value_at};
ghost use Rattle.ceu_isa.specs.Layout.{scratch_at};
ghost use Rattle.ceu_isa.specs.Reactions as reactions;
ghost use Rattle.ceu_machine.specs.Holding.{IsMachine};
ghost use Rattle.ceu_machine.specs.Noting.{Noted, Stopped};
ghost use Rattle.ceu_machine.specs.States.{plain};
ghost use Rattle.ceu_machine.specs.Turning.{IsReady, Outcome, marks_in};
ghost use Rattle.ceu_react.specs.Coming as spec;
ghost use Rattle.ceu_react.specs.Coming.{RoundIs};
ghost use Rattle.ceu_react.specs.Rounds as rounds;
ghost use Rattle.ceu_react.specs.Rounds.{IsRightRound, marks_of_round};

use crate::after::After;
use crate::closing::{Resumption, next};
use ceu_base::{Mark, Ty};
use ceu_code::Image;
use ceu_io::Failed;
use ceu_machine::{Turned, note, turn, write_number};
use ceu_mem::{Memory, with_sign};
use ceu_tree::MarkSink;

/// The header's value, with which the program has ended.
#[tactic(auto, using(crate::proofs::Values::s64_fits))]
pub(crate) fn value_of_end(image: &Image, mem: &Memory) -> i64
    requires { IsMachine image.now mem.now }
    ensures { result ≡ value_at S64 mem.now.bytes scratch_at }
{
    let _depth = image.depth;
    with_sign(Ty::S64, mem.number(8, 8)) as i64
}

/// The end of the reaction, where a turn ended or faulted.
fn end_of_turn(image: &Image, mem: &Memory, turned: Turned) -> Option<After>
    requires { IsMachine image.now mem.now }
    ensures { result ≡ spec.end_of_turn turned mem.now.bytes }
{
    match turned {
        Turned::Paused => None,
        Turned::Ended => Some(After::Ended(value_of_end(image, mem))),
        Turned::Faulted(fault, pos) => Some(After::Faulted(fault, pos)),
    }
}

/// The turn of the next gate.
fn resume<W: MarkSink>(
    image: &Image,
    mem: &mut Memory,
    next: Resumption,
    out: &mut W,
) -> Result<Turned, Failed>
    requires { IsReady image.now mem.old next.gate }
    ensures outcome { IfOk result (λ t. Outcome (reactions.resumed image.now next.gate next.level (plain mem.old.bytes)) t mem.new.bytes) }
    ensures noted { OnOk result (Noted W.notes (marks_in (reactions.resumed image.now next.gate next.level (plain mem.old.bytes))) out.old out.new) }
    ensures stopped { OnErr result (Stopped W.notes W.stops (marks_in (reactions.resumed image.now next.gate next.level (plain mem.old.bytes))) out.old out.new) }
    ensures cause { HasCause (W.faults out.old) (W.faults out.new) result }
    ensures made { OnOk result (IsMachine image.now mem.new) }
{
    note(out, Mark::Resume(next.level))?;
    let turned = turn(image, mem, next.gate, out)?;
    Ok(turned)
}

/// A round: the answer is the end of the reaction, or none where it goes on.
pub(crate) fn round<W: MarkSink>(
    image: &Image,
    mem: &mut Memory,
    out: &mut W,
) -> Result<Option<After>, Failed>
    requires made { IsMachine image.now mem.old }
    requires right { IsRightRound (rounds.round image.now (plain mem.old.bytes)) }
    ensures outcome { IfOk result (λ r. RoundIs (rounds.round image.now (plain mem.old.bytes)) r mem.new.bytes) }
    ensures noted { OnOk result (Noted W.notes (marks_of_round (rounds.round image.now (plain mem.old.bytes))) out.old out.new) }
    ensures stopped { OnErr result (Stopped W.notes W.stops (marks_of_round (rounds.round image.now (plain mem.old.bytes))) out.old out.new) }
    ensures cause { HasCause (W.faults out.old) (W.faults out.new) result }
    ensures made { OnOk result (IsMachine image.now mem.new) }
{
    match next(image, mem, out)? {
        None => {
            write_number(image, mem, 2, 0, 1);
            Ok(Some(After::Waiting))
        }
        Some(resumption) => {
            let turned = resume(image, mem, resumption, out)?;
            Ok(end_of_turn(image, mem, turned))
        }
    }
}
