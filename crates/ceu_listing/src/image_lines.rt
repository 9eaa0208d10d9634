// The lines of an image's listing.
ghost use Rattle.std.specs.Prelude.{◌≡◌, ◌≤◌, ◌<◌, ◌+◌, ◌^◌, ◌++◌, length};
ghost use Rattle.ceu_code.specs.Text.{StartsInstruction, instruction_size, type_name};
ghost use Rattle.ceu_io.specs.Prints.{Prints};
ghost use Rattle.ceu_listing.specs.Shown as spec;

use arrayvec::ArrayString;
use ceu_base::{Port, Pos, Ty};
use ceu_code::{CodeRow, Image, disassemble, memory_size};
use ceu_io::{Line, Sink, offer, offer_named, push, push_number, push_place};

fn type_name(ty: Ty) -> &'static str
    ensures name { result.now ≡ type_name ty }
    ensures short { length result.now ≤ 4 }
{
    match ty {
        Ty::None => "none",
        Ty::Bool => "bool",
        Ty::U8 => "u8",
        Ty::S8 => "s8",
        Ty::U16 => "u16",
        Ty::S16 => "s16",
        Ty::U32 => "u32",
        Ty::S32 => "s32",
        Ty::U64 => "u64",
        Ty::S64 => "s64",
    }
}

pub fn memory_line<O: Sink>(image: &Image, going: bool, out: &mut O) -> bool
    ensures { Prints (spec.memory_line image.now) going result (O.held out.old) (O.held out.new) (O.faults out.old) (O.faults out.new) }
{
    let mut line = Line::new();
    push(&mut line, b"memory ");
    push_number(&mut line, memory_size(image));
    push(&mut line, b" turns ");
    push_number(&mut line, image.turns);
    push(&mut line, b" levels ");
    push_number(&mut line, u32::from(image.levels));
    push(&mut line, b"\n");
    offer(line.as_slice(), going, out)
}

fn port_tail(port: &Port) -> Line
    ensures items { result.items ≡ spec.port_tail port.now }
    ensures size { length result.items ≤ 6 }
{
    let mut line = Line::new();
    push(&mut line, b" ");
    push(&mut line, type_name(port.ty).as_bytes());
    push(&mut line, b"\n");
    line
}

fn word_head(word: &[u8]) -> Line
    requires { length word.now ≤ 7 }
    ensures items { result.items ≡ word.now }
    ensures size { length result.items ≤ 7 }
{
    let mut line = Line::new();
    push(&mut line, word);
    line
}

pub fn port_line<O: Sink>(word: &[u8], port: &Port, going: bool, out: &mut O) -> bool
    requires { length word.now ≤ 7 }
    ensures { Prints (spec.port_line word.now 0 port.now) going result (O.held out.old) (O.held out.new) (O.faults out.old) (O.faults out.new) }
{
    let name = port.name.text().as_bytes();
    let tail = port_tail(port);
    offer_named(word_head(word), name, tail.as_slice(), going, out)
}

fn code_text(number: u32, code: &CodeRow) -> Line
    requires { length code.now.params < 2 ^ 16 }
    ensures { result.items ≡ spec.code_line number code.now }
{
    let mut line = Line::new();
    push(&mut line, b"code ");
    push_number(&mut line, number);
    push(&mut line, b" entry ");
    push_number(&mut line, u32::from(code.entry));
    push(&mut line, b" frame ");
    push_number(&mut line, u32::from(code.frame));
    push(&mut line, b" gates ");
    push_number(&mut line, u32::from(code.gates));
    push(&mut line, b" params ");
    push_number(&mut line, code.params.items().len() as u32);
    push(&mut line, b"\n");
    line
}

pub fn code_line<O: Sink>(number: u32, code: &CodeRow, going: bool, out: &mut O) -> bool
    requires { length code.now.params < 2 ^ 16 }
    ensures { Prints (spec.code_line number code.now) going result (O.held out.old) (O.held out.new) (O.faults out.old) (O.faults out.new) }
{
    let line = code_text(number, code);
    offer(line.as_slice(), going, out)
}

pub fn pool_line<O: Sink>(number: u32, code: u16, going: bool, out: &mut O) -> bool
    ensures { Prints (spec.pool_line number code) going result (O.held out.old) (O.held out.new) (O.faults out.old) (O.faults out.new) }
{
    let mut line = Line::new();
    push(&mut line, b"pool ");
    push_number(&mut line, number);
    push(&mut line, b" code ");
    push_number(&mut line, u32::from(code));
    push(&mut line, b"\n");
    offer(line.as_slice(), going, out)
}

pub fn place_line<O: Sink>(number: u32, place: Pos, going: bool, out: &mut O) -> bool
    ensures { Prints (spec.place_line number place) going result (O.held out.old) (O.held out.new) (O.faults out.old) (O.faults out.new) }
{
    let mut line = Line::new();
    push(&mut line, b"place ");
    push_number(&mut line, number);
    push_place(&mut line, place);
    offer(line.as_slice(), going, out)
}

/// The line of the instruction at an offset, in place of what `line` holds. Answers the next offset.
pub fn instruction_line(image: &Image, at: u16, line: &mut Line) -> u16
    requires small { length image.now.code < 2 ^ 16 }
    requires starts { StartsInstruction image.now.code at }
    ensures text { line.new.items ≡ spec.instruction_line image.now.code at }
    ensures next { result ≡ at + instruction_size image.now.code at }
{
    let mut text = ArrayString::new();
    let next = disassemble(image, at, &mut text);
    line.clear();
    push(line, text.as_str().as_bytes());
    push(line, b"\n");
    next
}
