// The next gate of a reaction: levels at which no gate can run close, from the top one down.
ghost use Rattle.std.specs.Prelude.{◌≡◌, ◌∷◌, ◌+◌, ◌<◌, ◌≤◌, [], Some, IfSome, IfOk, OnOk, OnErr};
ghost use Rattle.ceu_base.specs.declared.kinds.Mark.TheVariants.{Pop};
ghost use Rattle.ceu_io.specs.Counts.{HasCause};
ghost use Rattle.ceu_isa.specs.Layout.{top_of, with_top};
ghost use Rattle.ceu_isa.specs.Order.{Choice};
ghost use Rattle.ceu_isa.specs.Reactions as reactions;
ghost use Rattle.ceu_machine.specs.Holding.{IsMachine};
ghost use Rattle.ceu_machine.specs.Noting.{Noted, Stopped};
ghost use Rattle.ceu_machine.specs.Ordering.{IsDecided, choice_of};
ghost use Rattle.ceu_machine.specs.States.{plain};
ghost use Rattle.ceu_react.specs.Coming.{NextIs};
ghost use Rattle.ceu_react.specs.Rounds.{IsClear, marks_of_next};

use ceu_base::Mark;
use ceu_code::Image;
use ceu_io::Failed;
use ceu_machine::{Wanted, note, pick, write_number};
use ceu_mem::Memory;
use ceu_tree::MarkSink;

/// The gate that is resumed, and the level at which it can run.
#[derive(Clone, Copy)]
pub(crate) struct Resumption {
    pub(crate) gate: u16,
    pub(crate) level: u16,
}

fn top(image: &Image, mem: &Memory) -> u16
    requires { IsMachine image.now mem.now }
    ensures { result ≡ top_of mem.now.bytes }
{
    let _depth = image.depth;
    mem.number(2, 2) as u16
}

/// The first gate that can run at a level.
#[tactic(auto, unfolding(ceu_machine::specs::Ordering::end_of_all))]
fn first_at(image: &Image, mem: &Memory, level: u16) -> Option<u16>
    requires made { IsMachine image.now mem.now }
    requires decided { IsDecided (reactions.first_at image.now level mem.now.bytes) }
    ensures first { reactions.first_at image.now level mem.now.bytes ≡ choice_of result }
    ensures within { IfSome result (λ g. g < image.now.gates) }
{
    pick(image, mem, Wanted::Running(level), false, 0, image.gates)
}

/// The level above closes: this one is the top level.
fn close<W: MarkSink>(
    image: &Image,
    mem: &mut Memory,
    level: u16,
    out: &mut W,
) -> Result<(), Failed>
    requires made { IsMachine image.now mem.old }
    requires above { level < 65535 }
    ensures bytes { mem.new.bytes ≡ with_top level mem.old.bytes }
    ensures noted { OnOk result (Noted W.notes (Pop (level + 1) ∷ []) out.old out.new) }
    ensures stopped { OnErr result (Stopped W.notes W.stops (Pop (level + 1) ∷ []) out.old out.new) }
    ensures cause { HasCause (W.faults out.old) (W.faults out.new) result }
    ensures made { IsMachine image.now mem.new }
{
    let _depth = image.depth;
    write_number(image, mem, 2, 2, u64::from(level));
    note(out, Mark::Pop(level + 1))
}

/// The next gate of a reaction; none where all levels have closed.
pub(crate) fn next<W: MarkSink>(
    image: &Image,
    mem: &mut Memory,
    out: &mut W,
) -> Result<Option<Resumption>, Failed>
    requires made { IsMachine image.now mem.old }
    requires clear { IsClear (reactions.next image.now (plain mem.old.bytes)) }
    ensures outcome { IfOk result (λ r. NextIs (reactions.next image.now (plain mem.old.bytes)) r mem.new.bytes) }
    ensures noted { OnOk result (Noted W.notes (marks_of_next (reactions.next image.now (plain mem.old.bytes))) out.old out.new) }
    ensures stopped { OnErr result (Stopped W.notes W.stops (marks_of_next (reactions.next image.now (plain mem.old.bytes))) out.old out.new) }
    ensures cause { HasCause (W.faults out.old) (W.faults out.new) result }
    ensures made { OnOk result (IsMachine image.now mem.new) }
    ensures within { IfOk result (λ r. IfSome r (λ r. r.gate < image.now.gates)) }
{
    let mut level = top(image, mem);
    'levels: loop {
        match first_at(image, mem, level) {
            Some(gate) => return Ok(Some(Resumption { gate, level })),
            None => {
                if level == 0 {
                    return Ok(None);
                }
                level -= 1;
                close(image, mem, level, out)?;
            }
        }
    }
}
