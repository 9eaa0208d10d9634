// Where the marks of a run go.
ghost use Rattle.std.specs.Prelude.{ℕ, OnOk, OnErr};
ghost use Rattle.ceu_base.specs.declared.kinds.Mark.{Mark};
ghost use Rattle.ceu_io.specs.Counts.{HasCause};

use ceu_base::Mark;
use ceu_io::Failed;

/// Takes marks one by one. What it does with a mark is a relation of its own between its old and its new value.
pub trait MarkSink {
    /// How many calls have failed so far. It never falls, is at most 2^64 - 1 and stays there once it is reached.
    ghost faults: { Self → ℕ };
    /// What a mark that is noted makes of the sink.
    ghost notes: { Self → Mark → Self → Type 0 };
    /// What a mark makes of the sink that fails on it.
    ghost stops: { Self → Mark → Self → Type 0 };

    fn mark(&mut self, m: Mark) -> Result<(), Failed>
        ensures noted { OnOk result (notes self.old m self.new) }
        ensures stopped { OnErr result (stops self.old m self.new) }
        ensures cause { HasCause (faults self.old) (faults self.new) result };
}
