// The pieces, bytes and ends that a line is read by.
ghost use Rattle.std.specs.Prelude.{◌≡◌, ◌+◌, ℕ, List};
ghost use Rattle.ceu_script.specs.Bytewise.{IsLine, of_length, lines_after};
ghost use Rattle.ceu_script.specs.Places.{start_after};
ghost use Rattle.ceu_script.specs.Lines.{without_return};

use arrayvec::ArrayVec;

const LONGEST: usize = 200;

/// The next line of a script, without its end; or the script's end; or why the line is bad.
#[derive(Drop)]
pub enum RawLine {
    Text(ArrayVec<u8, 201>),
    End,
    Long,
    Budget,
}

pub enum Piece {
    More,
    NoMore,
    Spent,
}

pub enum Stop {
    Newline,
    TooLong,
    Last,
    Over,
}

pub enum NextByte {
    Byte(u8),
    Last,
    Over,
}

// A line of at most 200 bytes.
pub fn of_text(text: ArrayVec<u8, 201>) -> RawLine
    ensures line { (rest : List ℕ) → IsLine result (of_length text.items rest) rest }
    ensures counted { (lines : ℕ) → lines_after (Ok result) lines ≡ lines + 1 }
    ensures began { (place before : ℕ) → start_after (Ok result) place before ≡ place }
{
    if text.len() > LONGEST {
        RawLine::Long
    } else {
        RawLine::Text(text)
    }
}

// A line whose newline was read: a `\r` at its end belongs to its end.
pub fn before_newline(mut text: ArrayVec<u8, 201>) -> RawLine
    ensures line { (rest : List ℕ) → IsLine result (of_length (without_return text.items) rest) rest }
    ensures counted { (lines : ℕ) → lines_after (Ok result) lines ≡ lines + 1 }
    ensures began { (place before : ℕ) → start_after (Ok result) place before ≡ place }
{
    let len = text.len();
    if len > 0 && text.as_slice()[len - 1] == b'\r' {
        text.pop();
    }
    of_text(text)
}
