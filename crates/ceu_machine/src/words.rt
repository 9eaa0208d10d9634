// Numbers and values in a machine's memory.
ghost use Rattle.std.specs.Prelude.{◌≡◌, ◌≤◌, ◌+◌, length};
ghost use Rattle.ceu_base.specs.Values.{IsValue};
ghost use Rattle.ceu_mem.specs.Bytes.{with_number};
ghost use Rattle.ceu_mem.specs.Memory as spec;
ghost use Rattle.ceu_isa.specs.Layout.{end_of};
ghost use Rattle.ceu_machine.specs.Holding.{IsMachine};

use ceu_base::Ty;
use ceu_code::Image;
use ceu_mem::Memory;

/// Writes a value of a type.
#[tactic(auto, using(crate::proofs::Keeping::value_kept, crate::proofs::Rights::same_value))]
pub fn write_value(image: &Image, mem: &mut Memory, ty: Ty, at: u32, v: i128)
    requires made { IsMachine image.now mem.old }
    requires within { at + spec.size ty ≤ end_of image.now }
    requires value { IsValue ty v }
    ensures bytes { mem.new.bytes ≡ spec.with_value ty v mem.old.bytes at }
    ensures made { IsMachine image.now mem.new }
{
    let _slots = image.slots;
    mem.put(ty, at, v);
}

/// Writes a number into so many bytes.
#[tactic(auto, using(crate::proofs::Keeping::number_kept))]
pub fn write_number(image: &Image, mem: &mut Memory, width: u8, at: u32, n: u64)
    requires made { IsMachine image.now mem.old }
    requires within { at + width ≤ end_of image.now }
    ensures bytes { mem.new.bytes ≡ with_number width n mem.old.bytes at }
    ensures made { IsMachine image.now mem.new }
{
    let _slots = image.slots;
    mem.set_number(width, at, n);
}
