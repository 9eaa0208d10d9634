// The first line of a run.
ghost use Rattle.std.specs.Prelude.{◌≡◌, ◌≤◌, ◌+◌, ◌++◌, length, OnOk, OnErr};
ghost use Rattle.ceu_io.specs.Bytes.{Appends, AppendsProperFront};
ghost use Rattle.ceu_io.specs.Counts.{HasCause};
ghost use Rattle.ceu_run.specs.Lines as spec;

use arrayvec::ArrayVec;
use ceu_io::{Failed, Sink, write_all};
use itoa::{Buffer, Integer};

/// A line's bytes.
type Line = ArrayVec<u8, 192>;

// Adds a text.
fn add(line: &mut Line, text: &[u8])
    requires { length line.old.items + length text.now ≤ 192 }
    ensures { line.new.items ≡ line.old.items ++ text.now }
{
    let added = line.try_extend_from_slice(text);
    prove!(added.is_ok());
}

// Adds a number in decimal.
fn add_number<N: Integer>(line: &mut Line, n: N)
    requires { length line.old.items + 40 ≤ 192 }
    ensures text { line.new.items ≡ line.old.items ++ N.text n }
    ensures len { length line.new.items ≤ length line.old.items + 40 }
{
    let mut buffer = Buffer::new();
    add(line, buffer.format(n).as_bytes());
}

/// Writes the line of the memory in bytes, of the turns of a reaction and of the levels, the last two as upper bounds.
pub fn write_memory<O: Sink>(
    out: &mut O,
    memory: u32,
    turns: u32,
    levels: u16,
) -> Result<(), Failed>
    ensures whole { OnOk result (Appends (spec.memory_line memory turns levels) (O.held out.old) (O.held out.new)) }
    ensures front { OnErr result (AppendsProperFront (spec.memory_line memory turns levels) (O.held out.old) (O.held out.new)) }
    ensures cause { HasCause (O.faults out.old) (O.faults out.new) result }
{
    let mut line = Line::new();
    add(&mut line, b"memory ");
    add_number(&mut line, memory);
    add(&mut line, b" turns ");
    add_number(&mut line, turns);
    add(&mut line, b" levels ");
    add_number(&mut line, levels);
    add(&mut line, b"\n");
    write_all(out, line.as_slice())
}
