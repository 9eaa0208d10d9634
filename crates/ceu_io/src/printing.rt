// Lines that are built in a buffer and offered as one piece. Each part is told whether all before it was written, and answers whether it was
// too: after a failure nothing is written.
ghost use Rattle.std.specs.Prelude.{◌≡◌, ◌≤◌, ◌+◌, ◌++◌, length, decimal};
ghost use Rattle.ceu_io.specs.Place as spec;
ghost use Rattle.ceu_io.specs.Prints.{Prints};

use crate::{Sink, write_all};
use arrayvec::ArrayVec;
use ceu_base::Pos;
use itoa::Buffer;

/// Room for the longest line: a name of 64 bytes and four numbers.
pub type Line = ArrayVec<u8, 256>;

/// Puts bytes behind a line.
pub fn push(line: &mut Line, text: &[u8])
    requires { length line.old.items + length text.now ≤ 256 }
    ensures { line.new.items ≡ line.old.items ++ text.now }
{
    line.try_extend_from_slice(text).unwrap();
}

/// Puts a number in decimal behind a line.
pub fn push_number(line: &mut Line, n: u32)
    requires { length line.old.items + 40 ≤ 256 }
    ensures items { line.new.items ≡ line.old.items ++ decimal n }
    ensures size { length line.new.items ≤ length line.old.items + 40 }
{
    let mut buffer = Buffer::new();
    push(line, buffer.format(n).as_bytes());
}

/// A blank, the place and the newline.
pub fn push_place(line: &mut Line, place: Pos)
    requires { length line.old.items + 83 ≤ 256 }
    ensures items { line.new.items ≡ line.old.items ++ spec.at_place place }
    ensures size { length line.new.items ≤ length line.old.items + 83 }
{
    push(line, b" ");
    push_number(line, place.line);
    push(line, b":");
    push_number(line, place.col);
    push(line, b"\n");
}

/// Offers a text as one piece, unless something before it failed. Answers whether all is written.
pub fn offer<O: Sink>(bytes: &[u8], going: bool, out: &mut O) -> bool
    ensures { Prints bytes.now going result (O.held out.old) (O.held out.new) (O.faults out.old) (O.faults out.new) }
{
    if !going {
        return false;
    }
    match write_all(out, bytes) {
        Ok(()) => true,
        Err(_) => false,
    }
}

/// A line with a name in it: in one piece, but for a name of more than 64 bytes.
pub fn offer_named<O: Sink>(
    mut head: Line,
    name: &[u8],
    tail: &[u8],
    going: bool,
    out: &mut O,
) -> bool
    requires head { length head.items ≤ 90 }
    requires tail { length tail.now ≤ 95 }
    ensures { Prints (head.items ++ (name.now ++ tail.now)) going result (O.held out.old) (O.held out.new) (O.faults out.old) (O.faults out.new) }
{
    if name.len() <= 64 {
        push(&mut head, name);
        push(&mut head, tail);
        offer(head.as_slice(), going, out)
    } else {
        let going = offer(head.as_slice(), going, out);
        let going = offer(name, going, out);
        offer(tail, going, out)
    }
}
