// The line of each mark, in a buffer of its own.
ghost use Rattle.std.specs.Prelude.{◌≡◌, ◌≤◌, ◌+◌, ◌++◌, List, ℕ, length, true, decimal, slice_get};
ghost use Rattle.std.specs.Fmt.{signed_decimal};
ghost use Rattle.ceu_trace.specs.Lines as spec;

use arrayvec::ArrayVec;
use ceu_base::{Mark, Port, Pos, Ty};
use itoa::Buffer;

/// Room for the longest line: a name of 64 bytes, a blank, a value and the newline.
pub type Line = ArrayVec<u8, 128>;

fn push(line: &mut Line, text: &[u8])
    requires { length line.old.items + length text.now ≤ 128 }
    ensures { line.new.items ≡ line.old.items ++ text.now }
{
    line.try_extend_from_slice(text).unwrap();
}

fn push_number(line: &mut Line, n: u32)
    requires { length line.old.items + 40 ≤ 128 }
    ensures items { line.new.items ≡ line.old.items ++ decimal n }
    ensures size { length line.new.items ≤ length line.old.items + 40 }
{
    let mut buffer = Buffer::new();
    push(line, buffer.format(n).as_bytes());
}

fn push_signed(line: &mut Line, n: i128)
    requires { length line.old.items + 40 ≤ 128 }
    ensures items { line.new.items ≡ line.old.items ++ signed_decimal n }
    ensures size { length line.new.items ≤ length line.old.items + 40 }
{
    let mut buffer = Buffer::new();
    push(line, buffer.format(n).as_bytes());
}

fn push_value(line: &mut Line, ty: Ty, value: i128)
    requires { length line.old.items + 41 ≤ 128 }
    ensures items { line.new.items ≡ line.old.items ++ spec.value_part ty value }
    ensures size { length line.new.items ≤ length line.old.items + 41 }
{
    match ty {
        Ty::None => {}
        Ty::Bool => {
            if value == 0 {
                push(line, b" false");
            } else {
                push(line, b" true");
            }
        }
        _ => {
            push(line, b" ");
            push_signed(line, value);
        }
    }
}

fn output_line(port: &Port, value: i128) -> Line
    requires { length port.now.name ≤ 64 }
    ensures { result.items ≡ spec.output_line port.now value }
{
    let mut line = ArrayVec::new();
    push(&mut line, port.name.text().as_bytes());
    push_value(&mut line, port.ty, value);
    push(&mut line, b"\n");
    line
}

fn numbered(word: &[u8], n: u32) -> Line
    requires { length word.now ≤ 20 }
    ensures { result.items ≡ spec.numbered word.now n }
{
    let mut line = ArrayVec::new();
    push(&mut line, word);
    push_number(&mut line, n);
    push(&mut line, b"\n");
    line
}

fn placed(word: &[u8], place: Pos) -> Line
    requires { length word.now ≤ 20 }
    ensures { result.items ≡ spec.placed word.now place }
{
    let mut line = ArrayVec::new();
    push(&mut line, word);
    push_number(&mut line, place.line);
    push(&mut line, b":");
    push_number(&mut line, place.col);
    push(&mut line, b"\n");
    line
}

fn whole(text: &[u8]) -> Line
    requires { length text.now ≤ 20 }
    ensures { result.items ≡ text.now }
{
    let mut line = ArrayVec::new();
    push(&mut line, text);
    line
}

fn trace_line(mark: Mark) -> Line
    ensures { result.items ≡ spec.trace_line mark }
{
    match mark {
        Mark::Output(_, _) => whole(b""),
        Mark::Resume(level) => numbered(b"> resume ", u32::from(level)),
        Mark::Push(level) => numbered(b"> push ", u32::from(level)),
        Mark::Pop(level) => numbered(b"> pop ", u32::from(level)),
        Mark::Registered(place) => placed(b"> registered ", place),
        Mark::Ran(place) => placed(b"> ran ", place),
        Mark::Spawned(number) => numbered(b"> spawned ", number),
        Mark::Full => whole(b"> full\n"),
    }
}

fn output_at(outputs: &[Port], number: u16, value: i128) -> Line
    requires { spec.short_names outputs.now ≡ true }
    ensures { result.items ≡ spec.of_port (slice_get outputs.now number) value }
{
    match outputs.get(usize::from(number)) {
        Some(port) => output_line(port, value),
        None => whole(b""),
    }
}

/// What is printed for a mark: its line, or nothing.
pub fn printed(all: bool, outputs: &[Port], mark: Mark) -> Line
    requires { spec.short_names outputs.now ≡ true }
    ensures { result.items ≡ spec.printed all outputs.now mark }
{
    match mark {
        Mark::Output(port, value) => output_at(outputs, port, value),
        _ => { if all { trace_line(mark) } else { whole(b"") } }
    }
}
