// Marks that an instruction leaves.
ghost use Rattle.std.specs.Prelude.{◌≡◌, ◌∷◌, [], OnOk, OnErr, List};
ghost use Rattle.ceu_base.specs.declared.kinds.Mark.TheVariants.{Push, Spawned};
ghost use Rattle.ceu_io.specs.Counts.{HasCause};
ghost use Rattle.ceu_machine.specs.Noting.{Noted, Stopped};
ghost use Rattle.ceu_machine.specs.States.{marks_of};

use crate::performing::Done;
use ceu_base::Mark;
use ceu_io::Failed;
use ceu_tree::MarkSink;

/// Notes one mark.
pub fn note<W: MarkSink>(out: &mut W, mark: Mark) -> Result<(), Failed>
    ensures noted { OnOk result (Noted W.notes (mark ∷ []) out.old out.new) }
    ensures stopped { OnErr result (Stopped W.notes W.stops (mark ∷ []) out.old out.new) }
    ensures cause { HasCause (W.faults out.old) (W.faults out.new) result }
{
    out.mark(mark)
}

/// Notes two marks.
fn note_both<W: MarkSink>(out: &mut W, first: Mark, second: Mark) -> Result<(), Failed>
    ensures noted { OnOk result (Noted W.notes (first ∷ second ∷ []) out.old out.new) }
    ensures stopped { OnErr result (Stopped W.notes W.stops (first ∷ second ∷ []) out.old out.new) }
    ensures cause { HasCause (W.faults out.old) (W.faults out.new) result }
{
    out.mark(first)?;
    out.mark(second)
}

/// Notes the marks of an instruction.
pub fn note_done<W: MarkSink>(out: &mut W, done: Done) -> Result<(), Failed>
    ensures noted { OnOk result (Noted W.notes (marks_of done) out.old out.new) }
    ensures stopped { OnErr result (Stopped W.notes W.stops (marks_of done) out.old out.new) }
    ensures cause { HasCause (W.faults out.old) (W.faults out.new) result }
{
    match done {
        Done::Marks(mark) => note(out, mark),
        Done::Opens(level) => note(out, Mark::Push(level)),
        Done::Spawns(number, level) => note_both(out, Mark::Spawned(number), Mark::Push(level)),
        _ => Ok(()),
    }
}
