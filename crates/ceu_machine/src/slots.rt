// Variables and loops.
ghost use Rattle.std.specs.Prelude.{◌≡◌, ◌≤◌, ◌<◌, ◌+◌, ◌^◌, []};
ghost use Rattle.ceu_isa.specs.Layout as layout;
ghost use Rattle.ceu_isa.specs.Effects.{Goes};
ghost use Rattle.ceu_isa.specs.Slots as spec;
ghost use Rattle.ceu_machine.specs.Holding.{GoesOrFaults, IsMachine, IsRight};

use crate::cells::{place, pop, push};
use crate::words::write_value;
use ceu_base::{Fault, Pos, Ty};
use ceu_code::Image;
use ceu_isa::Registers;
use ceu_mem::Memory;

/// The address of the program's frame.
pub fn first_slot(image: &Image) -> u32
    ensures value { result ≡ layout.slots_at image.now }
    ensures small { result < 2 ^ 21 }
{
    let depth = image.depth;
    let gates = image.gates;
    16 + 8 * depth as u32 + 19 * gates as u32
}

pub fn load(image: &Image, mem: &mut Memory, regs: &mut Registers, ty: Ty, at: u32)
    requires made { IsMachine image.now mem.old }
    requires right { IsRight (spec.load_at image.now ty at regs.old mem.old.bytes) }
    ensures effect { spec.load_at image.now ty at regs.old mem.old.bytes ≡ Goes regs.new mem.new.bytes [] }
    ensures made { IsMachine image.now mem.new }
{
    let v = mem.get(ty, at);
    push(image, mem, regs, v);
}

#[tactic(auto, using(crate::proofs::Keeping::value_kept, crate::proofs::Rights::same_value))]
pub fn store(image: &Image, mem: &mut Memory, regs: &mut Registers, ty: Ty, at: u32)
    requires made { IsMachine image.now mem.old }
    requires right { IsRight (spec.store_at image.now ty at regs.old mem.old.bytes) }
    ensures effect { spec.store_at image.now ty at regs.old mem.old.bytes ≡ Goes regs.new mem.new.bytes [] }
    ensures made { IsMachine image.now mem.new }
{
    let v = pop(image, mem, regs, ty);
    mem.put(ty, at, v);
}

/// Stores an end of a range: what is popped, plus a number less 1.
#[tactic(auto, using(crate::proofs::Rights::same_value))]
pub fn bound(image: &Image, mem: &mut Memory, regs: &mut Registers, at: u32, d: u8)
    requires made { IsMachine image.now mem.old }
    requires right { IsRight (spec.bound_at image.now at d regs.old mem.old.bytes) }
    ensures effect { spec.bound_at image.now at d regs.old mem.old.bytes ≡ Goes regs.new mem.new.bytes [] }
    ensures made { IsMachine image.now mem.new }
{
    let v = pop(image, mem, regs, Ty::S64);
    write_value(image, mem, Ty::S64, at, v + i128::from(d) - 1);
}

/// The variable takes the next value of its range, or the trail goes elsewhere where the range is over.
pub fn next(image: &Image, mem: &mut Memory, regs: &mut Registers, at: u32, variable: u32, to: u16)
    requires made { IsMachine image.now mem.old }
    requires right { IsRight (spec.next_at image.now at variable to regs.old mem.old.bytes) }
    ensures effect { spec.next_at image.now at variable to regs.old mem.old.bytes ≡ Goes regs.new mem.new.bytes [] }
    ensures made { IsMachine image.now mem.new }
{
    let next = mem.get(Ty::S64, at);
    let end = mem.get(Ty::S64, at + 8);
    if end < next {
        regs.at = to;
        return;
    }
    take_next(image, mem, regs, at, variable, next);
}

#[tactic(auto, using(crate::proofs::Rights::same_value))]
fn take_next(image: &Image, mem: &mut Memory, regs: &Registers, at: u32, variable: u32, next: i128)
    requires made { IsMachine image.now mem.old }
    requires within { at + 16 ≤ layout.end_of image.now }
    requires right { IsRight (spec.next_taken image.now at variable next regs.now mem.old.bytes) }
    ensures effect { spec.next_taken image.now at variable next regs.now mem.old.bytes ≡ Goes regs.now mem.new.bytes [] }
    ensures made { IsMachine image.now mem.new }
{
    write_value(image, mem, Ty::S32, variable, next);
    write_value(image, mem, Ty::S64, at, next + 1);
}

/// Counts a turn of a loop.
#[tactic(auto, using(crate::proofs::Keeping::number_kept))]
pub fn limit(
    image: &Image,
    mem: &mut Memory,
    regs: &Registers,
    at: u32,
    n: u32,
    position: u16,
) -> Result<(), (Fault, Pos)>
    requires made { IsMachine image.now mem.old }
    requires right { IsRight (spec.limit_at image.now at n position regs.now mem.old.bytes) }
    ensures effect { GoesOrFaults (spec.limit_at image.now at n position regs.now mem.old.bytes) result regs.now mem.old.bytes mem.new.bytes }
    ensures made { IsMachine image.now mem.new }
{
    let pos = place(image, position);
    let count = mem.number(4, at);
    if count == u64::from(n) {
        return Err((Fault::LoopLimit, pos));
    }
    mem.set_number(4, at, count + 1);
    Ok(())
}
