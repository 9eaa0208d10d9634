// What is known before the first byte is written whole, or up to the failure of the sink.
ghost use Rattle.std.specs.Prelude.{◌≡◌, ◌++◌};
ghost use Rattle.ceu_run.specs.Lines.{memory_line};
ghost use Rattle.ceu_top.specs.Answering as spec;
ghost use Rattle.ceu_top.specs.Answering.{IsWritten};
ghost use Rattle.ceu_code.specs.Spelling.{HasSpelling};
ghost use Rattle.ceu_listing.specs.Lines.{listing_text};
ghost use Rattle.ceu_tree.specs.Proper.{Proper};
ghost use Rattle.ceu_listing.specs.Shown as shown;
ghost use Rattle.ceu_top.specs.Lines.{refusal_line, no_image_line};

use crate::lines::write_lines;
use crate::refusal::{write_no_image, write_refusal};
use crate::status::Status;
use ceu_base::{Pos, Rule};
use ceu_code::Image;
use ceu_compile::Program;
use ceu_gates::GatePlan;
use ceu_io::{Failed, Sink};
use ceu_listing::{listing, show};
use ceu_run::write_memory;
use ceu_slots::{OverlapPlaces, Places};

fn status_of(written: Result<(), Failed>, whole: Status) -> Status
    ensures { result ≡ spec.status_of written whole }
{
    match written {
        Ok(()) => whole,
        Err(_) => Status::Write,
    }
}

/// Writes the line of a refusal.
pub(crate) fn refuse<O: Sink>(rule: Rule, pos: Pos, out: &mut O) -> Status
    ensures { IsWritten (refusal_line rule pos) Status.Refused result (O.held out.old) (O.held out.new) (O.faults out.old) (O.faults out.new) }
{
    status_of(write_refusal(out, rule, pos), Status::Refused)
}

/// Writes the memory line of a program.
pub(crate) fn show_memory<O: Sink>(program: &Program, out: &mut O) -> Status
    ensures { IsWritten (memory_line program.now.memory program.now.bounds.turns program.now.bounds.levels) Status.Done result (O.held out.old) (O.held out.new) (O.faults out.old) (O.faults out.new) }
{
    let bounds = program.bounds;
    let written = write_memory(out, program.memory, bounds.turns, bounds.levels);
    status_of(written, Status::Done)
}

/// Writes the memory line of a program, and behind it the listing of its kernel.
pub(crate) fn show_listing<O: Sink>(
    program: &Program,
    places: &OverlapPlaces,
    gates: &GatePlan,
    out: &mut O,
) -> Status
    requires proper { Proper program.now.kernel }
    requires fits { ⟦<OverlapPlaces as Places>⟧.fits places.now program.now.kernel }
    ensures { IsWritten (memory_line program.now.memory program.now.bounds.turns program.now.bounds.levels ++ listing_text (⟦<OverlapPlaces as Places>⟧.planned places.now) gates.now program.now.kernel) Status.Done result (O.held out.old) (O.held out.new) (O.faults out.old) (O.faults out.new) }
{
    let bounds = program.bounds;
    match write_memory(out, program.memory, bounds.turns, bounds.levels) {
        Ok(()) => status_of(listing(&program.kernel, places, gates, out), Status::Done),
        Err(_) => Status::Write,
    }
}

/// Writes the lines of a text.
pub(crate) fn show_text<O: Sink>(text: &[u8], out: &mut O) -> Status
    ensures { IsWritten text.now Status.Done result (O.held out.old) (O.held out.new) (O.faults out.old) (O.faults out.new) }
{
    status_of(write_lines(out, text), Status::Done)
}

/// Writes the line of bytes that are no image, `at` being the length of their longest beginning of one.
pub(crate) fn refuse_bytes<O: Sink>(at: usize, out: &mut O) -> Status
    ensures { IsWritten (no_image_line at) Status.Refused result (O.held out.old) (O.held out.new) (O.faults out.old) (O.faults out.new) }
{
    status_of(write_no_image(out, at), Status::Refused)
}

/// Writes the listing of an image.
pub(crate) fn show_image<O: Sink>(image: &Image, out: &mut O) -> Status
    requires { HasSpelling image.now }
    ensures { IsWritten (shown.show_text image.now) Status.Done result (O.held out.old) (O.held out.new) (O.faults out.old) (O.faults out.new) }
{
    status_of(show(image, out), Status::Done)
}
