// The lines of a listing.
ghost use Rattle.std.specs.Prelude.{◌≡◌, ◌<◌, ◌≤◌, ◌+◌, ◌++◌, codes, decimal, length, slice_index};
ghost use Rattle.ceu_io.specs.Place.{at_place};
ghost use Rattle.ceu_listing.specs.Lines as spec;
ghost use Rattle.ceu_io.specs.Prints.{Prints};
ghost use Rattle.ceu_listing.specs.Rows.{CodeRow};

use ceu_base::Pos;
use ceu_gates::GatePlan;
use ceu_io::{Line, Sink, offer, offer_named, push, push_number, push_place};
use ceu_slots::Places;

fn entry(table: &[u16], at: u32) -> u16
    ensures { result ≡ slice_index table.now at }
{
    let at = at as usize;
    if at < table.len() { table[at] } else { 0 }
}

fn slot_head(offset: u16, size: u16) -> Line
    ensures items { result.items ≡ spec.slot_head offset size }
    ensures size { length result.items ≤ 90 }
{
    let mut line = Line::new();
    push(&mut line, b"slot ");
    push_number(&mut line, u32::from(offset));
    push(&mut line, b" ");
    push_number(&mut line, u32::from(size));
    push(&mut line, b" ");
    line
}

fn place_tail(place: Pos) -> Line
    ensures items { result.items ≡ at_place place }
    ensures size { length result.items ≤ 83 }
{
    let mut line = Line::new();
    push_place(&mut line, place);
    line
}

fn code_tail(frame: u16, gates: u16) -> Line
    ensures items { result.items ≡ spec.code_tail frame gates }
    ensures size { length result.items ≤ 95 }
{
    let mut line = Line::new();
    push(&mut line, b" frame ");
    push_number(&mut line, u32::from(frame));
    push(&mut line, b" gates ");
    push_number(&mut line, u32::from(gates));
    push(&mut line, b"\n");
    line
}

fn code_head() -> Line
    ensures items { result.items ≡ codes "code " }
    ensures size { length result.items ≤ 5 }
{
    let mut line = Line::new();
    push(&mut line, b"code ");
    line
}

pub fn slot_line<P: Places, O: Sink>(
    places: &P,
    slot: u32,
    name: &[u8],
    place: Pos,
    going: bool,
    out: &mut O,
) -> bool
    requires { slot < (P.planned places.now).slot_count }
    ensures { Prints (spec.slot_head ((P.planned places.now).offset slot) ((P.planned places.now).size slot) ++ (name.now ++ at_place place)) going result (O.held out.old) (O.held out.new) (O.faults out.old) (O.faults out.new) }
{
    let head = slot_head(places.offset(slot), places.size(slot));
    let tail = place_tail(place);
    offer_named(head, name, tail.as_slice(), going, out)
}

pub fn gate_line<O: Sink>(gates: &GatePlan, node: u32, place: Pos, going: bool, out: &mut O) -> bool
    ensures { Prints (codes "gate " ++ decimal (slice_index gates.now.first node) ++ at_place place) going result (O.held out.old) (O.held out.new) (O.faults out.old) (O.faults out.new) }
{
    let mut line = Line::new();
    push(&mut line, b"gate ");
    push_number(&mut line, u32::from(entry(gates.first.items(), node)));
    push_place(&mut line, place);
    offer(line.as_slice(), going, out)
}

pub fn code_line<P: Places, O: Sink>(
    places: &P,
    gates: &GatePlan,
    code: u32,
    name: &[u8],
    body: u32,
    going: bool,
    out: &mut O,
) -> bool
    requires { code < (P.planned places.now).code_count }
    ensures { Prints (spec.line (P.planned places.now) gates.now (CodeRow code name.now body)) going result (O.held out.old) (O.held out.new) (O.faults out.old) (O.faults out.new) }
{
    let count = entry(gates.count.items(), body);
    let tail = code_tail(places.frame(code), count);
    offer_named(code_head(), name, tail.as_slice(), going, out)
}
