// Evaluation cells. A cell holds a value modulo 2^64.
ghost use Rattle.std.specs.Prelude.{◌≡◌, ◌≢◌, Some, IsSome, slice_get, []};
ghost use Rattle.ceu_base.specs.Values as values;
ghost use Rattle.ceu_base.specs.Values.{IsValue};
ghost use Rattle.ceu_isa.specs.Fetching as fetching;
ghost use Rattle.ceu_isa.specs.Effects.{Goes};
ghost use Rattle.ceu_isa.specs.Cells as spec;
ghost use Rattle.ceu_machine.specs.Rows as Rows;
ghost use Rattle.ceu_machine.specs.Holding.{GoesOrFaults, IsMachine, IsRight};

use ceu_base::{Fault, Op1, Op2, Pos, Ty, apply1, apply2, wrap};
use ceu_code::Image;
use ceu_isa::Registers;
use ceu_mem::Memory;

/// The type whose cells are those of a type.
pub fn cell_type(ty: Ty) -> Ty
    ensures { result ≡ fetching.cell_type ty }
{
    match ty {
        Ty::S8 | Ty::S16 | Ty::S32 | Ty::S64 => Ty::S64,
        Ty::None | Ty::Bool | Ty::U8 | Ty::U16 | Ty::U32 | Ty::U64 => Ty::U64,
    }
}

/// Pops a value of a type.
#[tactic(auto, unfolding(ceu_isa::specs::Cells::popped))]
pub fn pop(image: &Image, mem: &Memory, regs: &mut Registers, ty: Ty) -> i128
    requires made { IsMachine image.now mem.now }
    requires there { IsSome (spec.popped image.now ty regs.old mem.now.bytes) }
    ensures popped { spec.popped image.now ty regs.old mem.now.bytes ≡ Some (record { value = result; registers = regs.new }) }
    ensures value { IsValue ty result }
{
    regs.depth -= 1;
    mem.get(cell_type(ty), 16 + 8 * regs.depth as u32)
}

/// Pushes a value.
#[tactic(auto, using(crate::proofs::Keeping::number_kept), unfolding(ceu_isa::specs::Cells::pushed))]
pub fn push(image: &Image, mem: &mut Memory, regs: &mut Registers, v: i128)
    requires made { IsMachine image.now mem.old }
    requires right { IsRight (spec.pushed image.now v regs.old mem.old.bytes) }
    ensures effect { spec.pushed image.now v regs.old mem.old.bytes ≡ Goes regs.new mem.new.bytes [] }
    ensures made { IsMachine image.now mem.new }
{
    let at = 16 + 8 * regs.depth as u32;
    let bits = v.rem_euclid(0x1_0000_0000_0000_0000) as u64;
    mem.set_number(8, at, bits);
    regs.depth += 1;
}

/// The position of a number.
pub fn place(image: &Image, position: u16) -> Pos
    requires { IsSome (slice_get image.now.places position) }
    ensures { slice_get image.now.places position ≡ Some result }
{
    image.places.items()[position as usize]
}

/// Pushes a value that an operator gave, or says its fault.
fn push_answer(
    image: &Image,
    mem: &mut Memory,
    regs: &mut Registers,
    answer: Result<i128, Fault>,
    pos: Pos,
) -> Result<(), (Fault, Pos)>
    requires made { IsMachine image.now mem.old }
    requires right { IsRight (spec.answered image.now pos answer regs.old mem.old.bytes) }
    ensures effect { GoesOrFaults (spec.answered image.now pos answer regs.old mem.old.bytes) result regs.new mem.old.bytes mem.new.bytes }
    ensures made { IsMachine image.now mem.new }
{
    match answer {
        Ok(v) => {
            push(image, mem, regs, v);
            Ok(())
        }
        Err(fault) => Err((fault, pos)),
    }
}

pub fn prefix(
    image: &Image,
    mem: &mut Memory,
    regs: &mut Registers,
    op: Op1,
    ty: Ty,
    position: u16,
) -> Result<(), (Fault, Pos)>
    requires made { IsMachine image.now mem.old }
    requires right { IsRight (spec.prefix_row image.now op ty position regs.old mem.old.bytes) }
    ensures effect { GoesOrFaults (spec.prefix_row image.now op ty position regs.old mem.old.bytes) result regs.new mem.old.bytes mem.new.bytes }
    ensures made { IsMachine image.now mem.new }
{
    let pos = place(image, position);
    let a = pop(image, mem, regs, ty);
    push_answer(image, mem, regs, apply1(op, ty, a), pos)
}

fn right_type(op: Op2, ty: Ty) -> Ty
    ensures { result ≡ values.right_type op ty }
{
    match op {
        Op2::Shl | Op2::Shr => Ty::S64,
        _ => ty,
    }
}

/// A value that was popped.
#[derive(Clone, Copy)]
pub struct Operand {
    pub value: i128,
}

pub fn binary(
    image: &Image,
    mem: &mut Memory,
    regs: &mut Registers,
    op: Op2,
    ty: Ty,
    position: u16,
) -> Result<(), (Fault, Pos)>
    requires made { IsMachine image.now mem.old }
    requires right { IsRight (spec.binary_row image.now op ty position regs.old mem.old.bytes) }
    ensures effect { GoesOrFaults (spec.binary_row image.now op ty position regs.old mem.old.bytes) result regs.new mem.old.bytes mem.new.bytes }
    ensures made { IsMachine image.now mem.new }
{
    let pos = place(image, position);
    let value = pop(image, mem, regs, right_type(op, ty));
    combine(image, mem, regs, op, ty, pos, Operand { value })
}

/// An operator with its left operand, which is popped, and its right one.
fn combine(
    image: &Image,
    mem: &mut Memory,
    regs: &mut Registers,
    op: Op2,
    ty: Ty,
    pos: Pos,
    right: Operand,
) -> Result<(), (Fault, Pos)>
    requires made { IsMachine image.now mem.old }
    requires value { IsValue (values.right_type op ty) right.value }
    requires right { IsRight (Rows.left_row image.now op ty pos right.value regs.old mem.old.bytes) }
    ensures effect { GoesOrFaults (Rows.left_row image.now op ty pos right.value regs.old mem.old.bytes) result regs.new mem.old.bytes mem.new.bytes }
    ensures made { IsMachine image.now mem.new }
{
    let a = pop(image, mem, regs, ty);
    push_answer(image, mem, regs, apply2(op, ty, a, right.value), pos)
}

pub fn convert(image: &Image, mem: &mut Memory, regs: &mut Registers, from: Ty, to: Ty)
    requires made { IsMachine image.now mem.old }
    requires right { IsRight (spec.convert_row image.now from to regs.old mem.old.bytes) }
    ensures effect { spec.convert_row image.now from to regs.old mem.old.bytes ≡ Goes regs.new mem.new.bytes [] }
    ensures made { IsMachine image.now mem.new }
{
    convert_value(image, mem, regs, from, to);
}

#[tactic(auto, using(crate::proofs::Rights::any_value))]
fn convert_value(image: &Image, mem: &mut Memory, regs: &mut Registers, from: Ty, to: Ty)
    requires made { IsMachine image.now mem.old }
    requires typed { to ≢ Ty.None }
    requires right { IsRight (spec.converted image.now from to regs.old mem.old.bytes) }
    ensures effect { spec.converted image.now from to regs.old mem.old.bytes ≡ Goes regs.new mem.new.bytes [] }
    ensures made { IsMachine image.now mem.new }
{
    let a = pop(image, mem, regs, from);
    push(image, mem, regs, wrap(to, a));
}

pub fn jump_if_false(image: &Image, mem: &Memory, regs: &mut Registers, to: u16)
    requires made { IsMachine image.now mem.now }
    requires right { IsRight (spec.jump_if_row image.now to regs.old mem.now.bytes) }
    ensures { spec.jump_if_row image.now to regs.old mem.now.bytes ≡ Goes regs.new mem.now.bytes [] }
{
    let a = pop(image, mem, regs, Ty::Bool);
    if a == 0 {
        regs.at = to;
    }
}

/// Pushes the header's value.
pub fn push_value(image: &Image, mem: &mut Memory, regs: &mut Registers, ty: Ty)
    requires made { IsMachine image.now mem.old }
    requires right { IsRight (spec.value_row image.now ty regs.old mem.old.bytes) }
    ensures effect { spec.value_row image.now ty regs.old mem.old.bytes ≡ Goes regs.new mem.new.bytes [] }
    ensures made { IsMachine image.now mem.new }
{
    let v = mem.get(cell_type(ty), 8);
    push(image, mem, regs, v);
}

/// Pops into the header's value.
#[tactic(auto, using(crate::proofs::Keeping::number_kept))]
pub fn pop_value(image: &Image, mem: &mut Memory, regs: &mut Registers)
    requires made { IsMachine image.now mem.old }
    requires right { IsRight (spec.set_value_row image.now regs.old mem.old.bytes) }
    ensures effect { spec.set_value_row image.now regs.old mem.old.bytes ≡ Goes regs.new mem.new.bytes [] }
    ensures made { IsMachine image.now mem.new }
{
    regs.depth -= 1;
    let bits = mem.number(8, 16 + 8 * regs.depth as u32);
    mem.set_number(8, 8, bits);
}
