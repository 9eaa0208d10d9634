// Lines that are printed.
ghost use Rattle.std.specs.Prelude.{◌≡◌, ◌≤◌, ◌<◌, ◌+◌, ◌++◌, length, OnOk, OnErr};
ghost use Rattle.ceu_io.specs.Bytes.{Appends, AppendsProperFront};
ghost use Rattle.ceu_io.specs.Counts.{HasCause};

use arrayvec::ArrayVec;
use ceu_io::{Failed, Sink, write_all};
use itoa::{Buffer, Integer};

/// A line's bytes.
pub(crate) type Line = ArrayVec<u8, 192>;

// Adds a text.
pub(crate) fn add(line: &mut Line, text: &[u8])
    requires { length line.old.items + length text.now ≤ 192 }
    ensures { line.new.items ≡ line.old.items ++ text.now }
{
    let added = line.try_extend_from_slice(text);
    prove!(added.is_ok());
}

// Adds a number in decimal.
pub(crate) fn add_number<N: Integer>(line: &mut Line, n: N)
    requires { length line.old.items + 40 ≤ 192 }
    ensures text { line.new.items ≡ line.old.items ++ N.text n }
    ensures len { length line.new.items ≤ length line.old.items + 40 }
{
    let mut buffer = Buffer::new();
    add(line, buffer.format(n).as_bytes());
}

// Where the first line of a text ends, its newline included.
fn end_of_line(text: &[u8]) -> usize
    requires { 0 < length text.now }
    ensures some { 0 < result }
    ensures within { result ≤ length text.now }
{
    match text.iter().position(|byte| *byte == b'\n') {
        Some(before) => before + 1,
        None => text.len(),
    }
}

/// Writes the lines of a text, each offered as one piece.
pub(crate) fn write_lines<O: Sink>(out: &mut O, text: &[u8]) -> Result<(), Failed>
    ensures whole { OnOk result (Appends text.now (O.held out.old) (O.held out.new)) }
    ensures front { OnErr result (AppendsProperFront text.now (O.held out.old) (O.held out.new)) }
    ensures cause { HasCause (O.faults out.old) (O.faults out.new) result }
{
    let mut rest = text;
    while !rest.is_empty() {
        let end = end_of_line(rest);
        write_all(out, &rest[..end])?;
        rest = &rest[end..];
    }
    Ok(())
}
