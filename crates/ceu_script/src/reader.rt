// The commands of a script, from a source that gives its bytes in any pieces.
ghost use Rattle.std.specs.Prelude.{ℕ, List};

use crate::content::content;
use crate::lines::{NextByte, Piece, RawLine, Stop, before_newline, of_text};
use crate::{BadKind, Item, LineItem, command_of};
use arrayvec::ArrayVec;
use ceu_base::{Port, Seq};
use ceu_io::{Failed, Source};
use std::marker::Model;

const CHUNK: usize = 1024;

const BUDGET: u64 = 1 << 40;

/// Reads a script line by line, with room for one line and one piece. It takes no memory.
#[derive(Drop)]
pub struct ScriptReader {
    chunk: [u8; CHUNK],
    at: usize,
    end: usize,
    taken: u64,
    start: u64,
    lines: u64,
    text: ArrayVec<u8, 201>,
}

impl Model for ScriptReader {
    ghost use Rattle.std.specs.Prelude.{◌≤◌, ◌-◌, length, take, drop};
    ghost use Rattle.ceu_script.specs.Content.{content_of};
    ghost use Rattle.ceu_script.specs.Reader.{Reader};

    ghost Value = { Reader };

    ghost view = { λ r. record { pending = drop r.at (take r.end r.chunk); taken = r.taken; last = record { start = r.start; lines = r.lines; text = content_of r.text.items } } };

    ghost invariant = { λ r. (r.at ≤ r.end) × (r.end ≤ length r.chunk) × (r.end ≤ 1024) × (r.taken ≤ 1099511627776) × (r.end - r.at ≤ r.taken) };
}

impl ScriptReader {
    ghost use Rattle.std.specs.Prelude.{◌≡◌, ◌<◌, ◌≤◌, ◌+◌, ◌^◌, [], ◌∷◌, length, IfOk, OnOk, OnErr};
    ghost use Rattle.std.specs.Bool.{MatchBool};
    ghost use Rattle.ceu_io.specs.Counts.{HasCause};
    ghost use Rattle.ceu_io.specs.Told.{WhereTold};
    ghost use Rattle.ceu_script.specs.Bytewise.{Answers, AnswersByte, Refills, HasPiece, Stops, MovesPast, PassesByte, lines_after, Passes};
    ghost use Rattle.ceu_script.specs.Commands.{IfCommand};
    ghost use Rattle.ceu_script.specs.Content.{content_of};
    ghost use Rattle.ceu_script.specs.Lines.{script_lines, script, GivesLine, Gives, GoesOnAfter, GoesOnBehind};
    ghost use Rattle.ceu_script.specs.Places.{IsAt, Places, PlacesLine, Skips, start_after};
    ghost use Rattle.ceu_script.specs.Reader.{ahead, position, budget, GoesOn};

    pub fn new() -> ScriptReader
        ensures { result ≡ record { pending = []; taken = 0; last = record { start = 0; lines = 0; text = content_of [] } } }
    {
        ScriptReader::at(0, 0)
    }

    /// Goes on behind so many lines and bytes.
    pub fn at(lines: u64, taken: u64) -> ScriptReader
        requires in_order { lines ≤ taken }
        requires within { taken ≤ budget }
        ensures { result ≡ record { pending = []; taken = taken; last = record { start = taken; lines = lines; text = content_of [] } } }
    {
        ScriptReader {
            chunk: [0; CHUNK],
            at: 0,
            end: 0,
            taken,
            start: taken,
            lines,
            text: ArrayVec::new(),
        }
    }

    /// The lines that were skipped or answered, and those that `at` was given.
    pub fn lines(&self) -> u64
        ensures { result ≡ self.now.last.lines }
    {
        self.lines
    }

    /// The bytes that were taken from the source, and those that `at` was given.
    pub fn taken(&self) -> u64
        ensures { result ≡ self.now.taken }
    {
        self.taken
    }

    /// The line that `next_line` answered last, without comment and outer blanks.
    pub fn line(&self) -> &[u8]
        ensures { result.now ≡ self.now.last.text }
    {
        content(self.text.as_slice())
    }

    /// The next command, or the script's end, or its first bad line.
    pub fn next<I: Source>(&mut self, src: &mut I, inputs: &Seq<Port>) -> Result<Item, Failed>
        requires goes_on { GoesOn self.old }
        requires inputs { length inputs.now ≤ 65535 }
        ensures told { IfOk result (λ item. WhereTold (I.left src.old) (I.left src.new) (λ old new. Gives item self.old self.new (script inputs.now (ahead self.old old)) (script inputs.now (ahead self.new new)))) }
        ensures command { IfOk result (λ item. IfCommand inputs.now item) }
        // Where it fails, some lines may have been skipped.
        ensures skipped { OnErr result (WhereTold (I.left src.old) (I.left src.new) (λ old new. Skips self.old.last.lines self.new.last.lines (script inputs.now (ahead self.old old)))) }
        ensures places { WhereTold (I.left src.old) (I.left src.new) (λ old new. (bytes : List ℕ) → IsAt bytes self.old (ahead self.old old) → Places result bytes self.new (ahead self.new new)) }
        ensures goes_on { IfOk result (λ item. GoesOnBehind item self.old self.new) }
        // At most 4,096 bytes are taken from the start of the last line that was skipped or answered.
        ensures taken { self.new.taken ≤ self.new.last.start + 4096 }
        ensures moved { WhereTold (I.left src.old) (I.left src.new) (λ old new. self.new.taken + length new ≡ self.old.taken + length old) }
        ensures cause { HasCause (I.faults src.old) (I.faults src.new) result }
    {
        match self.next_line(src)? {
            LineItem::Line => match command_of(self.line(), inputs) {
                Ok(command) => Ok(Item::Command(command)),
                Err(kind) => Ok(Item::Bad(self.lines(), kind)),
            },
            LineItem::End => Ok(Item::End),
            LineItem::Bad(number, kind) => Ok(Item::Bad(number, kind)),
        }
    }

    /// The next line that isn't skipped, or the script's end, or a line that is bad by its bytes.
    pub fn next_line<I: Source>(&mut self, src: &mut I) -> Result<LineItem, Failed>
        requires goes_on { GoesOn self.old }
        ensures told { IfOk result (λ item. WhereTold (I.left src.old) (I.left src.new) (λ old new. GivesLine item self.old self.new (script_lines (ahead self.old old)) (script_lines (ahead self.new new)))) }
        ensures goes_on { IfOk result (λ item. GoesOnAfter item self.old self.new) }
        // Where it fails, some lines may have been skipped.
        ensures skipped { OnErr result (WhereTold (I.left src.old) (I.left src.new) (λ old new. Skips self.old.last.lines self.new.last.lines (script_lines (ahead self.old old)))) }
        ensures places { WhereTold (I.left src.old) (I.left src.new) (λ old new. (bytes : List ℕ) → IsAt bytes self.old (ahead self.old old) → PlacesLine result bytes self.new (ahead self.new new)) }
        // At most 4,096 bytes are taken from the start of the last line that was skipped or answered.
        ensures taken { self.new.taken ≤ self.new.last.start + 4096 }
        ensures moved { WhereTold (I.left src.old) (I.left src.new) (λ old new. self.new.taken + length new ≡ self.old.taken + length old) }
        ensures cause { HasCause (I.faults src.old) (I.faults src.new) result }
    {
        loop {
            match self.read_line(src)? {
                RawLine::Text(text) => {
                    self.keep(text);
                    if !self.line().is_empty() {
                        return Ok(LineItem::Line);
                    }
                }
                RawLine::End => return Ok(LineItem::End),
                RawLine::Long => return Ok(LineItem::Bad(self.lines(), BadKind::Long)),
                RawLine::Budget => return Ok(LineItem::Bad(self.lines(), BadKind::Budget)),
            }
        }
    }

    // Keeps what a line says.
    fn keep(&mut self, text: ArrayVec<u8, 201>)
        ensures pending { self.new.pending ≡ self.old.pending }
        ensures taken { self.new.taken ≡ self.old.taken }
        ensures start { self.new.last.start ≡ self.old.last.start }
        ensures lines { self.new.last.lines ≡ self.old.last.lines }
        ensures text { self.new.last.text ≡ content_of text.items }
        ensures held { length self.new.pending ≤ self.new.taken }
    {
        self.text = text;
    }

    // The next line, without its end.
    fn read_line<I: Source>(&mut self, src: &mut I) -> Result<RawLine, Failed>
        requires { GoesOn self.old }
        ensures told { IfOk result (λ line. WhereTold (I.left src.old) (I.left src.new) (λ old new. Answers line (ahead self.old old) (ahead self.new new))) }
        ensures lines { self.new.last.lines ≡ lines_after result self.old.last.lines }
        ensures start { self.new.last.start ≡ start_after result (position self.old) self.old.last.start }
        ensures held { length self.old.pending ≤ self.old.taken }
        ensures passes { IfOk result (λ line. Passes line self.old self.new) }
        ensures taken { (self.new.taken ≤ self.new.last.start + 4096) × (self.new.taken ≤ budget) }
        ensures moved { WhereTold (I.left src.old) (I.left src.new) (λ old new. self.new.taken + length new ≡ self.old.taken + length old) }
        ensures cause { HasCause (I.faults src.old) (I.faults src.new) result }
    {
        let start = self.position();
        let mut text = ArrayVec::new();
        match self.read_text(src, &mut text)? {
            Stop::Newline => {
                self.begin(start);
                Ok(before_newline(text))
            }
            Stop::TooLong => {
                self.begin(start);
                Ok(RawLine::Long)
            }
            Stop::Last => {
                if text.is_empty() {
                    return Ok(RawLine::End);
                }
                self.begin(start);
                Ok(of_text(text))
            }
            Stop::Over => {
                self.begin(start);
                Ok(RawLine::Budget)
            }
        }
    }

    // Counts a line, and notes where it begins.
    fn begin(&mut self, start: u64)
        requires { self.old.last.lines ≤ budget }
        ensures pending { self.new.pending ≡ self.old.pending }
        ensures taken { self.new.taken ≡ self.old.taken }
        ensures start { self.new.last.start ≡ start }
        ensures lines { self.new.last.lines ≡ self.old.last.lines + 1 }
    {
        self.start = start;
        self.lines += 1;
    }

    // Reads the bytes of a line, as far as one may go.
    fn read_text<I: Source>(
        &mut self,
        src: &mut I,
        text: &mut ArrayVec<u8, 201>,
    ) -> Result<Stop, Failed>
        requires { text.old.items ≡ [] }
        ensures told { IfOk result (λ stop. WhereTold (I.left src.old) (I.left src.new) (λ old new. Stops stop text.new.items (ahead self.old old) (ahead self.new new))) }
        ensures size { length text.new.items ≤ 201 }
        ensures here { IfOk result (λ stop. MovesPast stop text.new.items self.old self.new) }
        ensures taken { (self.new.taken ≤ position self.old + length text.new.items + 1024) × (self.new.taken ≤ budget) }
        ensures last { self.new.last ≡ self.old.last }
        ensures moved { WhereTold (I.left src.old) (I.left src.new) (λ old new. self.new.taken + length new ≡ self.old.taken + length old) }
        ensures cause { HasCause (I.faults src.old) (I.faults src.new) result }
    {
        loop {
            match self.next_byte(src)? {
                NextByte::Byte(b'\n') => return Ok(Stop::Newline),
                NextByte::Byte(byte) => {
                    if text.is_full() {
                        return Ok(Stop::TooLong);
                    }
                    text.push(byte);
                }
                NextByte::Last => return Ok(Stop::Last),
                NextByte::Over => return Ok(Stop::Over),
            }
        }
    }

    // The next byte's place in the script.
    fn position(&self) -> u64
        ensures place { result ≡ position self.now }
        ensures held { length self.now.pending ≤ self.now.taken }
        ensures taken { (self.now.taken ≤ result + 1024) × (self.now.taken ≤ budget) }
    {
        self.taken - (self.end - self.at) as u64
    }

    // Takes the next byte, which is the first of a new piece where the last piece is used up.
    fn next_byte<I: Source>(&mut self, src: &mut I) -> Result<NextByte, Failed>
        ensures told { IfOk result (λ b. WhereTold (I.left src.old) (I.left src.new) (λ old new. AnswersByte b (ahead self.old old) (ahead self.new new))) }
        ensures last { self.new.last ≡ self.old.last }
        ensures taken { (self.new.taken ≤ position self.old + 1024) × (self.new.taken ≤ budget) }
        ensures here { IfOk result (λ b. PassesByte b self.old self.new) }
        ensures moved { WhereTold (I.left src.old) (I.left src.new) (λ old new. self.new.taken + length new ≡ self.old.taken + length old) }
        ensures cause { HasCause (I.faults src.old) (I.faults src.new) result }
    {
        if self.is_used_up() {
            match self.refill(src)? {
                Piece::More => {}
                Piece::NoMore => return Ok(NextByte::Last),
                Piece::Spent => return Ok(NextByte::Over),
            }
        }
        Ok(NextByte::Byte(self.take_byte()))
    }

    fn is_used_up(&self) -> bool
        ensures { MatchBool result (self.now.pending ≡ []) (0 < length self.now.pending) }
    {
        self.at == self.end
    }

    // The first of the bytes that were taken and not read.
    fn take_byte(&mut self) -> u8
        requires { 0 < length self.old.pending }
        ensures byte { self.old.pending ≡ result ∷ self.new.pending }
        ensures taken { self.new.taken ≡ self.old.taken }
        ensures last { self.new.last ≡ self.old.last }
        ensures within { (length self.old.pending ≤ 1024) × (self.old.taken ≤ budget) × (length self.old.pending ≤ self.old.taken) }
    {
        let byte = self.chunk[self.at];
        self.at += 1;
        byte
    }

    // Takes the next piece, where the last one is used up.
    fn refill<I: Source>(&mut self, src: &mut I) -> Result<Piece, Failed>
        requires { self.old.pending ≡ [] }
        ensures told { IfOk result (λ p. WhereTold (I.left src.old) (I.left src.new) (λ old new. Refills p self.old old self.new new)) }
        ensures some { IfOk result (λ p. HasPiece p self.new) }
        ensures last { self.new.last ≡ self.old.last }
        ensures taken { self.new.taken ≡ self.old.taken + length self.new.pending }
        ensures within { (length self.new.pending ≤ 1024) × (self.new.taken ≤ budget) }
        ensures same { OnErr result (self.new ≡ self.old) }
        ensures moved { WhereTold (I.left src.old) (I.left src.new) (λ old new. self.new.taken + length new ≡ self.old.taken + length old) }
        ensures cause { HasCause (I.faults src.old) (I.faults src.new) result }
    {
        if self.taken == BUDGET {
            return Ok(Piece::Spent);
        }
        self.at = 0;
        self.end = 0;
        let room = (BUDGET - self.taken).min(1024) as usize;
        let count = src.read(&mut self.chunk[..room])?;
        if count == 0 {
            return Ok(Piece::NoMore);
        }
        self.end = count;
        self.taken += count as u64;
        Ok(Piece::More)
    }
}
