// The top call.
ghost use Rattle.std.specs.Prelude.{◌≡◌, ◌≢◌, ◌⊎◌, ◌≤◌, None, length, IfSome, MatchOption};
ghost use Rattle.ceu_io.specs.Counts.{Rose};
ghost use Rattle.ceu_top.specs.Answering.{IsAnswer, IsFileAnswer, IsTextAnswer};
ghost use Rattle.ceu_top.specs.Command.{command_of};
ghost use Rattle.ceu_top.specs.Left.{IsFileLeft, IsLeft, IsTextLeft};
ghost use Rattle.ceu_top.specs.Outcomes.{On, Headline, IsAbsent, IsTooLong, IsWhole, IsCutShort, IsStopped, IsTaken, IsUnwritten, UnlessFailed, UnlessRun, UnlessRunning};

use crate::checking::check_text;
use crate::fetch::fetch;
use crate::listing::list_text;
use crate::running::run_text;
use crate::showing::show_bytes;
use crate::status::Status;
use crate::tidying::tidy_text;
use crate::words::{Mode, command_of};
use ceu_io::{Shelf, Sink, Source};
use ceu_react::Session;
use std::alloc::Global;

/// Does what the words of a command line say: `run`, `check`, `list`, `tidy` or `show` with a file's name.
///
/// The mode `run` prints the bytes of a program's memory and the turns and levels of its reactions, boots it, does the commands of a
/// script, and prints each output when it is emitted and in the end how the program stands. `check` prints the line of the memory alone,
/// `list` behind it where the slots lie and which gates the statements have, and `tidy` the program in the printer's form. A text that breaks a rule which the mode asks is refused by the first. `show` takes the file as
/// a compiled image and prints its listing; bytes that are no image are refused with the length of their longest beginning of one. Memory is
/// wanted before the first byte is written and never later.
pub fn ceu<S: Shelf, I: Source, O: Sink>(
    alloc: Global,
    words: &[String],
    shelf: &mut S,
    input: &mut I,
    out: &mut O,
    left: &mut Option<Session>,
) -> Status
    // Where no count of faults rose, all tell what they hold and memory is found, what is written and the status are those that the
    // definitions give for the words, the file's text and the script.
    ensures headline { Headline result words.now (S.files shelf.old) (I.left input.old) (O.held out.old) (O.held out.new) (S.faults shelf.old) (S.faults shelf.new) (I.faults input.old) (I.faults input.new) (O.faults out.old) (O.faults out.new) }
    // Exactly where the words are no command.
    ensures words { MatchOption (command_of words.now) (result ≡ Status.Words) (λ _. result ≢ Status.Words) }
    ensures absent { On Status.Absent result (IfSome (S.files shelf.old) (IsAbsent words.now)) }
    ensures too_long { On Status.TooLong result (IfSome (S.files shelf.old) (IsTooLong words.now)) }
    ensures done { On Status.Done result (IsWhole Status.Done words.now (S.files shelf.old) (I.left input.old) (O.held out.old) (O.held out.new)) }
    ensures refused { On Status.Refused result (IsWhole Status.Refused words.now (S.files shelf.old) (I.left input.old) (O.held out.old) (O.held out.new)) }
    ensures script { On Status.Script result (IsWhole Status.Script words.now (S.files shelf.old) (I.left input.old) (O.held out.old) (O.held out.new)) }
    ensures fault { On Status.Fault result (IsWhole Status.Fault words.now (S.files shelf.old) (I.left input.old) (O.held out.old) (O.held out.new)) }
    ensures read { On Status.Read result (Rose (S.faults shelf.old) (S.faults shelf.new) ⊎ Rose (I.faults input.old) (I.faults input.new)) }
    ensures write { On Status.Write result (Rose (O.faults out.old) (O.faults out.new)) }
    // What was written before the sink failed is a proper prefix of what is defined.
    ensures cut_short { On Status.Write result (IsCutShort words.now (S.files shelf.old) (I.left input.old) (O.held out.old) (O.held out.new)) }
    // What was written before the shelf or the script failed: nothing, or the run up to some whole lines.
    ensures stopped { On Status.Read result (IsStopped words.now (S.files shelf.old) (I.left input.old) (I.left input.new) (O.held out.old) (O.held out.new)) }
    // Where the input tells its bytes, at most 4,096 of them are taken from the start of a line that is reached, the first or one before which
    // the program waits; after a failed write, of a line before which all is written.
    ensures taken { IsTaken result words.now (S.files shelf.old) (I.left input.old) (I.left input.new) (O.held out.old) (O.held out.new) }
    // `run` alone reads the script.
    ensures unread { UnlessRunning words.now (input.new ≡ input.old) }
    // Words, Memory, Absent and TooLong come with nothing written.
    ensures unwritten { IsUnwritten result (O.held out.new ≡ O.held out.old) }
    // After a run that the script's end, a bad line, the program's end or a fault stopped, the machine is left: its image is an image of the text, and
    // its bytes and its state are those behind boot and the commands of the script. In every other case none is.
    ensures left { IsLeft result words.now (S.files shelf.old) (I.left input.old) left.new }
    // Every answer but Read and Write comes only where no count rose.
    ensures quiet { UnlessFailed result ((S.faults shelf.new ≡ S.faults shelf.old) × (I.faults input.new ≡ I.faults input.old) × (O.faults out.new ≡ O.faults out.old)) }
{
    *left = None;
    answer(alloc, words, shelf, input, out, left)
}

fn answer<S: Shelf, I: Source, O: Sink>(
    alloc: Global,
    words: &[String],
    shelf: &mut S,
    input: &mut I,
    out: &mut O,
    left: &mut Option<Session>,
) -> Status
    requires { left.old ≡ None }
    ensures answer { IsAnswer result words.now (S.files shelf.old) (I.left input.old) (I.left input.new) (O.held out.old) (O.held out.new) (S.faults shelf.old) (S.faults shelf.new) (I.faults input.old) (I.faults input.new) (O.faults out.old) (O.faults out.new) }
    ensures unread { UnlessRunning words.now (input.new ≡ input.old) }
    ensures left { IsLeft result words.now (S.files shelf.old) (I.left input.old) left.new }
{
    match command_of(words) {
        Some((mode, file)) => on_file(alloc, mode, file, shelf, input, out, left),
        None => Status::Words,
    }
}

fn on_file<S: Shelf, I: Source, O: Sink>(
    alloc: Global,
    mode: Mode,
    file: &str,
    shelf: &mut S,
    input: &mut I,
    out: &mut O,
    left: &mut Option<Session>,
) -> Status
    requires { left.old ≡ None }
    ensures answer { IsFileAnswer mode result file.now (S.files shelf.old) (I.left input.old) (I.left input.new) (O.held out.old) (O.held out.new) (S.faults shelf.old) (S.faults shelf.new) (I.faults input.old) (I.faults input.new) (O.faults out.old) (O.faults out.new) }
    ensures unread { UnlessRun mode (input.new ≡ input.old) }
    ensures left { IsFileLeft mode result file.now (S.files shelf.old) (I.left input.old) left.new }
{
    match fetch(alloc, file, shelf) {
        Ok(text) => on_text(alloc, mode, text.as_slice(), input, out, left),
        Err(status) => status,
    }
}

fn on_text<I: Source, O: Sink>(
    alloc: Global,
    mode: Mode,
    text: &[u8],
    input: &mut I,
    out: &mut O,
    left: &mut Option<Session>,
) -> Status
    requires within { length text.now ≤ 1048576 }
    requires left { left.old ≡ None }
    ensures answer { IsTextAnswer mode result text.now (I.left input.old) (I.left input.new) (O.held out.old) (O.held out.new) (I.faults input.old) (I.faults input.new) (O.faults out.old) (O.faults out.new) }
    ensures unread { UnlessRun mode (input.new ≡ input.old) }
    ensures left { IsTextLeft mode result text.now (I.left input.old) left.new }
{
    match mode {
        Mode::Run => run_text(alloc, text, input, out, left),
        Mode::Check => check_text(alloc, text, out),
        Mode::List => list_text(alloc, text, out),
        Mode::Tidy => tidy_text(alloc, text, out),
        Mode::Show => show_bytes(alloc, text, out),
    }
}
