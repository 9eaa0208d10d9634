// Frames: links, arguments, awaited code, and the way back.
ghost use Rattle.std.specs.Prelude.{◌≡◌, ◌≤◌, ◌+◌, [], Some, IsSome};
ghost use Rattle.ceu_isa.specs.Layout.{end_of};
ghost use Rattle.ceu_isa.specs.Effects.{Goes};
ghost use Rattle.ceu_isa.specs.Pools as spec;
ghost use Rattle.ceu_machine.specs.Holding.{GoesOrPauses, IsMachine, IsRight};

use crate::cells::pop;
use crate::words::{write_number, write_value};
use ceu_base::Ty;
use ceu_code::{CodeRow, Image};
use ceu_isa::Registers;
use ceu_mem::{Memory, size};

/// Writes a link: where the caller goes on, and its frame and gate base.
#[tactic(auto, unfolding(ceu_isa::specs::Pools::linked))]
pub fn link(image: &Image, mem: &mut Memory, back: u16, frame: u16, base: u16, at: u32)
    requires made { IsMachine image.now mem.old }
    requires within { at + 8 ≤ end_of image.now }
    ensures bytes { mem.new.bytes ≡ spec.linked back frame base at mem.old.bytes }
    ensures made { IsMachine image.now mem.new }
{
    let _slots = image.slots;
    write_number(image, mem, 2, at, u64::from(back));
    write_number(image, mem, 2, at + 2, u64::from(frame));
    write_number(image, mem, 2, at + 4, u64::from(base));
    write_number(image, mem, 2, at + 6, 0);
}

/// Pops the arguments into the parameters, which stand one after the other from a place on.
pub fn fill(image: &Image, mem: &mut Memory, regs: &mut Registers, params: &[Ty], at: u32)
    requires made { IsMachine image.now mem.old }
    requires there { IsSome (spec.filled image.now params.now at regs.old mem.old.bytes) }
    ensures filled { spec.filled image.now params.now at regs.old mem.old.bytes ≡ Some (record { registers = regs.new; bytes = mem.new.bytes }) }
    ensures made { IsMachine image.now mem.new }
{
    if params.is_empty() {
        return;
    }
    let ty = params[0];
    fill(image, mem, regs, &params[1..], at + u32::from(size(ty)));
    fill_one(image, mem, regs, ty, at);
}

/// Pops an argument into its parameter.
fn fill_one(image: &Image, mem: &mut Memory, regs: &mut Registers, ty: Ty, at: u32)
    requires made { IsMachine image.now mem.old }
    requires there { IsSome (spec.filled_by image.now ty at (record { registers = regs.old; bytes = mem.old.bytes })) }
    ensures filled { spec.filled_by image.now ty at (record { registers = regs.old; bytes = mem.old.bytes }) ≡ Some (record { registers = regs.new; bytes = mem.new.bytes }) }
    ensures made { IsMachine image.now mem.new }
{
    let v = pop(image, mem, regs, ty);
    write_value(image, mem, ty, at, v);
}

/// Enters the body of a code with its arguments.
pub fn call(image: &Image, mem: &mut Memory, regs: &mut Registers, code: u16, slot: u16, g: u16)
    requires made { IsMachine image.now mem.old }
    requires right { IsRight (spec.call_row image.now code slot g regs.old mem.old.bytes) }
    ensures effect { spec.call_row image.now code slot g regs.old mem.old.bytes ≡ Goes regs.new mem.new.bytes [] }
    ensures made { IsMachine image.now mem.new }
{
    let row = &image.codes.items()[code as usize];
    let back = *regs;
    let frame = u32::from(regs.frame) + u32::from(slot);
    let _gates = image.gates;
    fill(image, mem, regs, row.params.items(), frame + 8);
    link(image, mem, back.at, back.frame, back.base, frame);
    regs.at = row.entry;
    regs.frame = frame as u16;
    regs.base = back.base + g;
}

/// Goes back to the caller; false where an instance ends, whose place becomes free.
pub fn return_back(image: &Image, mem: &mut Memory, regs: &mut Registers) -> bool
    requires made { IsMachine image.now mem.old }
    requires right { IsRight (spec.return_row image.now regs.old mem.old.bytes) }
    ensures effect { GoesOrPauses (spec.return_row image.now regs.old mem.old.bytes) result regs.new mem.new.bytes }
    ensures made { IsMachine image.now mem.new }
{
    let frame = u32::from(regs.frame);
    let back = mem.number(2, frame) as u16;
    if back == 65535 {
        write_number(image, mem, 1, frame - 9, 0);
        return false;
    }
    regs.frame = mem.number(2, frame + 2) as u16;
    regs.base = mem.number(2, frame + 4) as u16;
    regs.at = back;
    true
}
