// The parts of an image's listing, one after the other.
ghost use Rattle.std.specs.Prelude.{◌≡◌, ◌≤◌, ◌<◌, ◌+◌, ◌^◌, ◌++◌, true, codes, length, OnOk, OnErr};
ghost use Rattle.std.specs.List.{AllByRecursion};
ghost use Rattle.ceu_io.specs.Bytes.{Appends, AppendsProperFront};
ghost use Rattle.ceu_io.specs.Counts.{HasCause};
ghost use Rattle.ceu_code.specs.Spelling.{HasFewParams, HasSpelling};
ghost use Rattle.ceu_code.specs.Table.{IsCode};
ghost use Rattle.ceu_io.specs.Prints.{Prints};
ghost use Rattle.ceu_listing.specs.Shown as spec;
ghost use Rattle.ceu_listing.specs.Shown.{lines_from, show_text};

use crate::image_lines::{
    code_line, instruction_line, memory_line, place_line, pool_line, port_line,
};
use ceu_base::{Port, Pos};
use ceu_code::{CodeRow, Image};
use ceu_io::{Failed, Line, Sink, offer};

fn print_ports<O: Sink>(word: &[u8], ports: &[Port], going: bool, out: &mut O) -> bool
    requires { length word.now ≤ 7 }
    ensures { Prints (lines_from (spec.port_line word.now) 0 ports.now) going result (O.held out.old) (O.held out.new) (O.faults out.old) (O.faults out.new) }
{
    let mut goes = going;
    for (k, port) in ports.iter().enumerate() {
        goes = port_line(word, port, goes, out);
    }
    goes
}

fn print_codes<O: Sink>(rows: &[CodeRow], going: bool, out: &mut O) -> bool
    requires few { length rows.now < 2 ^ 16 }
    requires params { AllByRecursion HasFewParams rows.now }
    ensures { Prints (lines_from spec.code_line 0 rows.now) going result (O.held out.old) (O.held out.new) (O.faults out.old) (O.faults out.new) }
{
    let mut goes = going;
    for (k, row) in rows.iter().enumerate() {
        goes = code_line(k as u32, row, goes, out);
    }
    goes
}

fn print_pools<O: Sink>(pools: &[u16], going: bool, out: &mut O) -> bool
    requires { length pools.now < 2 ^ 16 }
    ensures { Prints (lines_from spec.pool_line 0 pools.now) going result (O.held out.old) (O.held out.new) (O.faults out.old) (O.faults out.new) }
{
    let mut goes = going;
    for (k, pool) in pools.iter().enumerate() {
        goes = pool_line(k as u32, *pool, goes, out);
    }
    goes
}

fn print_places<O: Sink>(places: &[Pos], going: bool, out: &mut O) -> bool
    requires { length places.now < 2 ^ 16 }
    ensures { Prints (lines_from spec.place_line 0 places.now) going result (O.held out.old) (O.held out.new) (O.faults out.old) (O.faults out.new) }
{
    let mut goes = going;
    for (k, place) in places.iter().enumerate() {
        goes = place_line(k as u32, *place, goes, out);
    }
    goes
}

fn print_code<O: Sink>(image: &Image, going: bool, out: &mut O) -> bool
    requires small { length image.now.code < 2 ^ 16 }
    requires code { IsCode image.now.code }
    ensures { Prints (spec.code_text image.now) going result (O.held out.old) (O.held out.new) (O.faults out.old) (O.faults out.new) }
{
    let mut goes = going;
    let mut at = 0u16;
    let mut line = Line::new();
    'instructions: while (at as usize) < image.code.items().len() {
        at = instruction_line(image, at, &mut line);
        goes = offer(line.as_slice(), goes, out);
    }
    goes
}

fn print_head<O: Sink>(image: &Image, going: bool, out: &mut O) -> bool
    ensures { Prints (spec.head_text image.now) going result (O.held out.old) (O.held out.new) (O.faults out.old) (O.faults out.new) }
{
    let first = memory_line(image, going, out);
    let second = print_ports(b"input ", image.inputs.items(), first, out);
    print_ports(b"output ", image.outputs.items(), second, out)
}

fn print_rows<O: Sink>(image: &Image, going: bool, out: &mut O) -> bool
    requires { HasSpelling image.now }
    ensures { Prints (spec.rows_text image.now) going result (O.held out.old) (O.held out.new) (O.faults out.old) (O.faults out.new) }
{
    let first = print_codes(image.codes.items(), going, out);
    let second = print_pools(image.pools.items(), first, out);
    print_places(image.places.items(), second, out)
}

fn print_image<O: Sink>(image: &Image, out: &mut O) -> bool
    requires { HasSpelling image.now }
    ensures { Prints (show_text image.now) true result (O.held out.old) (O.held out.new) (O.faults out.old) (O.faults out.new) }
{
    let first = print_head(image, true, out);
    let second = print_rows(image, first, out);
    print_code(image, second, out)
}

/// Writes the listing of an image: its memory and its bounds, its inputs and outputs, its codes, pools and places with their numbers, and
/// then each instruction with its offset. Each line is offered as one piece.
pub fn show<O: Sink>(image: &Image, out: &mut O) -> Result<(), Failed>
    requires { HasSpelling image.now }
    ensures whole { OnOk result (Appends (show_text image.now) (O.held out.old) (O.held out.new)) }
    // What was written when it failed is a proper prefix.
    ensures front { OnErr result (AppendsProperFront (show_text image.now) (O.held out.old) (O.held out.new)) }
    ensures cause { HasCause (O.faults out.old) (O.faults out.new) result }
{
    if print_image(image, out) {
        Ok(())
    } else {
        Err(Failed)
    }
}
