// A reaction: one round after the other.
ghost use Rattle.std.specs.Prelude.{◌≡◌, IfOk, OnOk, OnErr};
ghost use Rattle.ceu_io.specs.Counts.{HasCause};
ghost use Rattle.ceu_isa.specs.Commands.{marks_of};
ghost use Rattle.ceu_isa.specs.Reactions.{reaction, reacts};
ghost use Rattle.ceu_machine.specs.Holding.{IsMachine};
ghost use Rattle.ceu_machine.specs.Noting.{Noted, Stopped};
ghost use Rattle.ceu_machine.specs.States.{plain};
ghost use Rattle.ceu_react.specs.Coming.{Came};
ghost use Rattle.ceu_react.specs.Marking.{IsKept};

use crate::after::After;
use crate::rounds::round;
use ceu_code::Image;
use ceu_io::Failed;
use ceu_machine::write_number;
use ceu_mem::Memory;
use ceu_tree::MarkSink;

/// What is left of a reaction.
fn finish<W: MarkSink>(image: &Image, mem: &mut Memory, out: &mut W) -> Result<After, Failed>
    requires made { IsMachine image.now mem.old }
    requires allowed { IsKept (reaction image.now image.now.turns (plain mem.old.bytes)) }
    ensures outcome { IfOk result (λ after. Came (reaction image.now image.now.turns (plain mem.old.bytes)) after mem.new.bytes) }
    ensures noted { OnOk result (Noted W.notes (marks_of (reaction image.now image.now.turns (plain mem.old.bytes))) out.old out.new) }
    ensures stopped { OnErr result (Stopped W.notes W.stops (marks_of (reaction image.now image.now.turns (plain mem.old.bytes))) out.old out.new) }
    ensures cause { HasCause (W.faults out.old) (W.faults out.new) result }
    ensures made { OnOk result (IsMachine image.now mem.new) }
{
    'rounds: loop {
        match round(image, mem, out)? {
            Some(after) => return Ok(after),
            None => {}
        }
    }
}

/// A reaction begins, and goes on until no gate can run, or the program ends or faults.
pub(crate) fn react<W: MarkSink>(
    image: &Image,
    mem: &mut Memory,
    out: &mut W,
) -> Result<After, Failed>
    requires made { IsMachine image.now mem.old }
    requires allowed { IsKept (reacts image.now (plain mem.old.bytes)) }
    ensures outcome { IfOk result (λ after. Came (reacts image.now (plain mem.old.bytes)) after mem.new.bytes) }
    ensures noted { OnOk result (Noted W.notes (marks_of (reacts image.now (plain mem.old.bytes))) out.old out.new) }
    ensures stopped { OnErr result (Stopped W.notes W.stops (marks_of (reacts image.now (plain mem.old.bytes))) out.old out.new) }
    ensures cause { HasCause (W.faults out.old) (W.faults out.new) result }
    ensures made { OnOk result (IsMachine image.now mem.new) }
{
    let _depth = image.depth;
    write_number(image, mem, 2, 0, 2);
    let after = finish(image, mem, out)?;
    Ok(after)
}
