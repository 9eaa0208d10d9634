// Making pools, and spawning instances into them.
ghost use Rattle.std.specs.Prelude.{◌≡◌, ◌≤◌, ◌<◌, ◌+◌, ◌*◌, ◌^◌, [], Some, IsSome, slice_get, IsTrue, IfSome, length};
ghost use Rattle.ceu_isa.specs.Layout as layout;
ghost use Rattle.ceu_isa.specs.Layout.{end_of};
ghost use Rattle.ceu_isa.specs.Effects.{Goes};
ghost use Rattle.ceu_isa.specs.Pools as spec;
ghost use Rattle.ceu_machine.specs.Holding.{IsMachine, IsRight};
ghost use Rattle.ceu_machine.specs.Seating.{Seats};

use crate::cells::place;
use crate::emits::open;
use crate::frames::{fill, link};
use crate::gates::{gate, set_gate};
use crate::pools::{code_of_pool, vacate};
use crate::trails::top;
use crate::words::write_number;
use ceu_base::Pos;
use ceu_code::{CodeRow, Image};
use ceu_isa::Registers;
use ceu_mem::{Gate, Memory};

/// How a spawn came out: no place was free, an instance has a number and runs at a level, or every number has been given.
#[derive(Clone, Copy)]
pub enum Seating {
    Nowhere,
    Taken(u32, u16),
    NoNumber(Pos),
}

/// Makes free places, each with the gates behind those of the place before.
pub fn make_pool(
    image: &Image,
    mem: &mut Memory,
    regs: &Registers,
    slot: u16,
    n: u16,
    pool: u16,
    g: u16,
)
    requires made { IsMachine image.now mem.old }
    requires right { IsRight (spec.pool_row image.now slot n pool g regs.now mem.old.bytes) }
    ensures effect { spec.pool_row image.now slot n pool g regs.now mem.old.bytes ≡ Goes regs.now mem.new.bytes [] }
    ensures made { IsMachine image.now mem.new }
{
    let row = code_of_pool(image, pool);
    let _gates = image.gates;
    let at = u32::from(regs.frame) + u32::from(slot);
    vacate_all(
        image,
        mem,
        pool,
        row,
        n,
        u32::from(regs.base) + u32::from(g),
        at,
    );
}

fn vacate_all(
    image: &Image,
    mem: &mut Memory,
    pool: u16,
    row: &CodeRow,
    n: u16,
    first: u32,
    at: u32,
)
    requires made { IsMachine image.now mem.old }
    requires within { at + n * spec.place_size row.now ≤ end_of image.now }
    requires gates { first + n * row.now.gates ≤ image.now.gates }
    ensures bytes { mem.new.bytes ≡ spec.vacancies n pool row.now first at mem.old.bytes }
    ensures made { IsMachine image.now mem.new }
{
    let mut at = at;
    let mut first = first;
    let frame = row.frame;
    let gates = row.gates;
    let _gates = image.gates;
    for i in 0..n {
        vacate(image, mem, pool, first, at);
        at += 9 + u32::from(frame);
        first += u32::from(gates);
    }
}

/// The lowest free one of some places.
fn free_place(image: &Image, mem: &Memory, n: u16, size: u32, at: u32) -> Option<u32>
    requires made { IsMachine image.now mem.now }
    requires size { 9 ≤ size }
    requires within { at + n * size ≤ end_of image.now }
    ensures place { spec.free_place n size at mem.now.bytes ≡ result }
    ensures near { IfSome result (λ found. found + 9 ≤ end_of image.now) }
{
    let _slots = image.slots;
    let mut at = at;
    for i in 0..n {
        if mem.number(1, at) == 0 {
            return Some(at);
        }
        at += size;
    }
    None
}

/// Sets an alias, where there is one.
#[tactic(auto, unfolding(ceu_isa::specs::Pools::alias_set))]
fn set_alias(image: &Image, mem: &mut Memory, regs: &Registers, alias: u16, place: u32, number: u32)
    requires made { IsMachine image.now mem.old }
    requires there { IsTrue (spec.has_alias image.now regs.now alias) }
    ensures bytes { mem.new.bytes ≡ spec.alias_set regs.now alias place number mem.old.bytes }
    ensures made { IsMachine image.now mem.new }
{
    if alias == 65535 {
        return;
    }
    let _slots = image.slots;
    let at = u32::from(regs.frame) + u32::from(alias);
    write_number(image, mem, 4, at, u64::from(place));
    write_number(image, mem, 4, at + 4, u64::from(number));
}

/// Takes a place with a number; its instance has the spawner's frame and gate base in its link.
#[tactic(auto, unfolding(ceu_isa::specs::Pools::seated))]
fn take_place(image: &Image, mem: &mut Memory, regs: &Registers, number: u32, place: u32)
    requires made { IsMachine image.now mem.old }
    requires within { place + 17 ≤ end_of image.now }
    ensures bytes { mem.new.bytes ≡ spec.seated number regs.now place mem.old.bytes }
    ensures made { IsMachine image.now mem.new }
{
    let _slots = image.slots;
    write_number(image, mem, 1, place, 1);
    write_number(image, mem, 4, place + 1, u64::from(number));
    link(image, mem, 65535, regs.frame, regs.base, place + 9);
}

/// What a spawn has found.
#[derive(Clone, Copy)]
struct Seat {
    level: u16,
    number: u32,
    alias: u16,
    place: u32,
    first: u16,
}

#[tactic(auto, unfolding(ceu_isa::specs::Pools::instance_begun))]
fn begin_instance(image: &Image, mem: &mut Memory, regs: &Registers, entry: u16, found: Seat)
    requires made { IsMachine image.now mem.old }
    requires within { found.place + 17 ≤ end_of image.now }
    requires gate { found.first < image.now.gates }
    requires alias { IsTrue (spec.has_alias image.now regs.now found.alias) }
    ensures bytes { mem.new.bytes ≡ spec.instance_begun image.now entry found.level found.number found.alias found.place found.first regs.now mem.old.bytes }
    ensures made { IsMachine image.now mem.new }
{
    let _slots = image.slots;
    write_number(image, mem, 4, 4, u64::from(found.number));
    take_place(image, mem, regs, found.number, found.place);
    set_alias(image, mem, regs, found.alias, found.place, found.number);
    let other = gate(image, mem, found.first);
    let frame = (found.place + 9) as u16;
    set_gate(
        image,
        mem,
        found.first,
        Gate {
            kind: 1,
            level: found.level,
            code: entry,
            frame,
            base: found.first,
            ..other
        },
    );
}

/// Spawns an instance into the lowest free place of a pool.
pub fn spawn(
    image: &Image,
    mem: &mut Memory,
    regs: &mut Registers,
    code: u16,
    slot: u16,
    n: u16,
    alias: u16,
    position: u16,
) -> Seating
    requires made { IsMachine image.now mem.old }
    requires right { IsRight (spec.spawn_row image.now code slot n alias position regs.old mem.old.bytes) }
    ensures effect { Seats (spec.spawn_row image.now code slot n alias position regs.old mem.old.bytes) result regs.new mem.old.bytes mem.new.bytes }
    ensures made { IsMachine image.now mem.new }
{
    let row = &image.codes.items()[code as usize];
    let pos = place(image, position);
    let at = u32::from(regs.frame) + u32::from(slot);
    spawn_among(image, mem, regs, row, n, at, alias, pos)
}

/// The bytes of a place.
fn place_size(row: &CodeRow) -> u32
    ensures value { result ≡ spec.place_size row.now }
    ensures small { result < 2 ^ 17 }
{
    let frame = row.frame;
    9 + u32::from(frame)
}

/// Into the lowest free one of some places from an address on.
fn spawn_among(
    image: &Image,
    mem: &mut Memory,
    regs: &mut Registers,
    row: &CodeRow,
    n: u16,
    at: u32,
    alias: u16,
    pos: Pos,
) -> Seating
    requires made { IsMachine image.now mem.old }
    requires right { IsRight (spec.spawn_among image.now row.now n at alias pos regs.old mem.old.bytes) }
    ensures effect { Seats (spec.spawn_among image.now row.now n at alias pos regs.old mem.old.bytes) result regs.new mem.old.bytes mem.new.bytes }
    ensures made { IsMachine image.now mem.new }
{
    let found = free_place(image, mem, n, place_size(row), at);
    spawn_at(image, mem, regs, row, found, alias, pos)
}

/// No place is free: the arguments are dropped, and the alias is not set.
fn spawn_nowhere(
    image: &Image,
    mem: &mut Memory,
    regs: &mut Registers,
    row: &CodeRow,
    alias: u16,
) -> Seating
    requires made { IsMachine image.now mem.old }
    requires right { IsRight (spec.spawn_nowhere image.now row.now alias regs.old mem.old.bytes) }
    ensures effect { Seats (spec.spawn_nowhere image.now row.now alias regs.old mem.old.bytes) result regs.new mem.old.bytes mem.new.bytes }
    ensures made { IsMachine image.now mem.new }
{
    set_alias(image, mem, regs, alias, 0, 0);
    regs.depth -= row.params.items().len() as u16;
    Seating::Nowhere
}

/// Into a place, where one is free.
#[tactic(auto, unfolding(ceu_isa::specs::Pools::spawn_at))]
fn spawn_at(
    image: &Image,
    mem: &mut Memory,
    regs: &mut Registers,
    row: &CodeRow,
    found: Option<u32>,
    alias: u16,
    pos: Pos,
) -> Seating
    requires made { IsMachine image.now mem.old }
    requires near { IfSome found (λ found. found + 9 ≤ end_of image.now) }
    requires right { IsRight (spec.spawn_at image.now row.now found alias pos regs.old mem.old.bytes) }
    ensures effect { Seats (spec.spawn_at image.now row.now found alias pos regs.old mem.old.bytes) result regs.new mem.old.bytes mem.new.bytes }
    ensures made { IsMachine image.now mem.new }
{
    match found {
        None => spawn_nowhere(image, mem, regs, row, alias),
        Some(place) => spawn_there(image, mem, regs, row, place, alias, pos),
    }
}

/// Into a place that is free.
#[tactic(auto, unfolding(ceu_isa::specs::Pools::spawn_at))]
fn spawn_there(
    image: &Image,
    mem: &mut Memory,
    regs: &mut Registers,
    row: &CodeRow,
    place: u32,
    alias: u16,
    pos: Pos,
) -> Seating
    requires made { IsMachine image.now mem.old }
    requires within { place + 9 ≤ end_of image.now }
    requires right { IsRight (spec.spawn_at image.now row.now (Some place) alias pos regs.old mem.old.bytes) }
    ensures effect { Seats (spec.spawn_at image.now row.now (Some place) alias pos regs.old mem.old.bytes) result regs.new mem.old.bytes mem.new.bytes }
    ensures made { IsMachine image.now mem.new }
{
    let _slots = image.slots;
    let given = mem.number(4, 4) as u32;
    if given == 4294967295 {
        return Seating::NoNumber(pos);
    }
    let first = mem.number(2, place + 5) as u16;
    let level = top(image, mem);
    let _levels = image.levels;
    spawn_in(
        image,
        mem,
        regs,
        row,
        Seat {
            level,
            number: given + 1,
            alias,
            place,
            first,
        },
    )
}

/// The instance can run at the next level, and the spawner waits.
fn spawn_in(
    image: &Image,
    mem: &mut Memory,
    regs: &mut Registers,
    row: &CodeRow,
    found: Seat,
) -> Seating
    requires made { IsMachine image.now mem.old }
    requires level { layout.top_of mem.old.bytes ≡ found.level }
    requires number { layout.given_of mem.old.bytes + 1 ≡ found.number }
    requires within { found.place + 9 ≤ end_of image.now }
    requires right { IsRight (spec.spawn_in image.now row.now found.alias found.place found.first regs.old mem.old.bytes) }
    ensures effect { Seats (spec.spawn_in image.now row.now found.alias found.place found.first regs.old mem.old.bytes) result regs.new mem.old.bytes mem.new.bytes }
    ensures made { IsMachine image.now mem.new }
{
    let spawner = *regs;
    let _levels = image.levels;
    fill(image, mem, regs, row.params.items(), found.place + 17);
    begin_instance(
        image,
        mem,
        &spawner,
        row.entry,
        Seat {
            level: found.level + 1,
            ..found
        },
    );
    open(image, mem, &spawner, found.level);
    Seating::Taken(found.number, found.level + 1)
}
