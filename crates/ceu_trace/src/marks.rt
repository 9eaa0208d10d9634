// Marks that are written as lines.
ghost use Rattle.std.specs.Prelude.{◌≡◌, true};
ghost use Rattle.ceu_io.specs.Bytes.{Appends, AppendsProperFront};
ghost use Rattle.ceu_trace.specs.Lines.{printed, short_names};

use crate::lines::printed;
use ceu_base::{Mark, Port, Seq};
use ceu_io::{Failed, Sink, write_all};
use ceu_tree::MarkSink;

/// Writes the line of each mark to a sink, with `all` false those of outputs alone. A line is offered as one piece, and what the sink
/// leaves of it is offered again.
#[derive(Drop)]
pub struct TextMarks<'a, O: Sink> {
    pub out: &'a mut O,
    /// The outputs by their numbers.
    pub outputs: &'a Seq<Port>,
    pub all: bool,
    ghost short: { short_names outputs.now ≡ true },
}

/// Whether no name has more than 64 bytes.
pub fn has_short_names(outputs: &Seq<Port>) -> bool
    ensures { result ≡ short_names outputs.now }
{
    outputs
        .items()
        .iter()
        .all(|port| port.name.text().len() <= 64)
}

impl<'a, O: Sink> TextMarks<'a, O> {
    pub fn new(out: &'a mut O, outputs: &'a Seq<Port>, all: bool) -> TextMarks<'a, O>
        requires { short_names outputs.now ≡ true }
        ensures out { result.out ≡ out.entry }
        ensures outputs { result.outputs.now ≡ outputs.now }
        ensures all { result.all ≡ all }
    {
        TextMarks { out, outputs, all }
    }
}

impl<'a, O: Sink> MarkSink for TextMarks<'a, O> {
    ghost faults = { λ s. O.faults s.out.now };

    ghost notes = { λ old m new. Appends (printed old.all old.outputs.now m) (O.held old.out.now) (O.held new.out.now) × (new.outputs.now ≡ old.outputs.now) × (new.all ≡ old.all) × (new.out.ghost_name ≡ old.out.ghost_name) };

    ghost stops = { λ old m new. AppendsProperFront (printed old.all old.outputs.now m) (O.held old.out.now) (O.held new.out.now) × (new.outputs.now ≡ old.outputs.now) × (new.all ≡ old.all) × (new.out.ghost_name ≡ old.out.ghost_name) };

    fn mark(&mut self, m: Mark) -> Result<(), Failed> {
        let line = printed(self.all, self.outputs.items(), m);
        write_all(self.out, line.as_slice())
    }
}
