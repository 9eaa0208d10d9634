// Pools: their places, the instances that live in them, and aliases.
ghost use Rattle.std.specs.Prelude.{◌≡◌, ◌≢◌, ◌≤◌, ◌<◌, ◌+◌, ◌*◌, ◌^◌, [], Some, IsSome, slice_get, IsTrue};
ghost use Rattle.ceu_isa.specs.Layout as layout;
ghost use Rattle.ceu_isa.specs.Layout.{end_of};
ghost use Rattle.ceu_isa.specs.Effects.{Goes};
ghost use Rattle.ceu_mem.specs.Bytes.{number_at};
ghost use Rattle.ceu_isa.specs.Pools as spec;
ghost use Rattle.ceu_machine.specs.Holding.{IsMachine, IsRight};
ghost use Rattle.ceu_machine.specs.Lives.{life_of, IsClear};

use crate::cells::push;
use crate::gates::gate;
use crate::words::write_number;
use ceu_code::{CodeRow, Image};
use ceu_isa::Registers;
use ceu_mem::Memory;

/// Whether the instance of an alias lives: in a place, with so many gates from one on.
#[derive(Clone, Copy)]
pub enum Life {
    Over,
    Lives(u32, u16, u16),
}

/// The code of a pool.
pub fn code_of_pool(image: &Image, pool: u16) -> &CodeRow
    requires { IsSome (spec.code_of_pool image.now pool) }
    ensures { spec.code_of_pool image.now pool ≡ Some result.now }
{
    let code = image.pools.items()[pool as usize];
    &image.codes.items()[code as usize]
}

/// A free place; its number stays.
#[tactic(auto, unfolding(ceu_isa::specs::Pools::vacant))]
pub fn vacate(image: &Image, mem: &mut Memory, pool: u16, first: u32, at: u32)
    requires made { IsMachine image.now mem.old }
    requires within { at + 9 ≤ end_of image.now }
    ensures bytes { mem.new.bytes ≡ spec.vacant pool first at mem.old.bytes }
    ensures made { IsMachine image.now mem.new }
{
    let _slots = image.slots;
    write_number(image, mem, 1, at, 0);
    write_number(image, mem, 2, at + 5, u64::from(first));
    write_number(image, mem, 2, at + 7, u64::from(pool));
}

/// Whether some gate of a range isn't free.
pub fn some_taken(image: &Image, mem: &Memory, from: u16, n: u16) -> bool
    requires made { IsMachine image.now mem.now }
    requires within { from + n ≤ image.now.gates }
    ensures { result ≡ spec.some_taken image.now mem.now.bytes from n }
{
    let _gates = image.gates;
    for i in 0..n {
        if gate(image, mem, from + i).kind != 0 {
            return true;
        }
    }
    false
}

/// Whether the instance of the alias at an address lives.
#[tactic(auto, unfolding(ceu_isa::specs::Pools::life_of))]
pub fn alias_life(image: &Image, mem: &Memory, at: u32) -> Life
    requires made { IsMachine image.now mem.now }
    requires clear { IsClear (spec.life_of image.now mem.now.bytes at) }
    ensures { spec.life_of image.now mem.now.bytes at ≡ life_of result }
{
    let _slots = image.slots;
    let place = mem.number(4, at) as u32;
    if place == 0 {
        return Life::Over;
    }
    let number = mem.number(4, at + 4) as u32;
    life_at(image, mem, place, number)
}

fn life_at(image: &Image, mem: &Memory, place: u32, number: u32) -> Life
    requires made { IsMachine image.now mem.now }
    requires clear { IsClear (spec.life_at image.now mem.now.bytes place number) }
    ensures { spec.life_at image.now mem.now.bytes place number ≡ life_of result }
{
    let _slots = image.slots;
    if mem.number(1, place) != 1 || mem.number(4, place + 1) != u64::from(number) {
        return Life::Over;
    }
    life_in(image, mem, place)
}

fn life_in(image: &Image, mem: &Memory, place: u32) -> Life
    requires made { IsMachine image.now mem.now }
    requires within { place + 9 ≤ end_of image.now }
    requires clear { IsClear (spec.life_in image.now mem.now.bytes place (spec.code_of_pool image.now (number_at 2 mem.now.bytes (place + 7)))) }
    ensures { spec.life_in image.now mem.now.bytes place (spec.code_of_pool image.now (number_at 2 mem.now.bytes (place + 7))) ≡ life_of result }
{
    let _slots = image.slots;
    let pool = mem.number(2, place + 7) as u16;
    let row = code_of_pool(image, pool);
    let first = mem.number(2, place + 5) as u16;
    let gates = row.gates;
    if some_taken(image, mem, first, gates) {
        Life::Lives(place, first, gates)
    } else {
        Life::Over
    }
}

/// Pushes whether an alias's instance lives.
pub fn alive(image: &Image, mem: &mut Memory, regs: &mut Registers, slot: u16)
    requires made { IsMachine image.now mem.old }
    requires right { IsRight (spec.alive_row image.now slot regs.old mem.old.bytes) }
    ensures effect { spec.alive_row image.now slot regs.old mem.old.bytes ≡ Goes regs.new mem.new.bytes [] }
    ensures made { IsMachine image.now mem.new }
{
    match alias_life(image, mem, u32::from(regs.frame) + u32::from(slot)) {
        Life::Over => push(image, mem, regs, 0),
        Life::Lives(_, _, _) => push(image, mem, regs, 1),
    }
}
