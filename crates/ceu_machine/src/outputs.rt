// Rows that leave a mark: outputs, and finalizers that are registered.
ghost use Rattle.std.specs.Prelude.{◌≡◌, ◌∷◌, []};
ghost use Rattle.ceu_base.specs.declared.kinds.Mark.TheVariants.{Output, Registered};
ghost use Rattle.ceu_isa.specs.Effects.{Goes};
ghost use Rattle.ceu_isa.specs.Cells.{output_row};
ghost use Rattle.ceu_isa.specs.Trails.{register_row};
ghost use Rattle.ceu_machine.specs.Holding.{IsMachine, IsRight};

use crate::cells::{Operand, place};
use crate::emits::pop_unless_none;
use crate::gates::{gate, set_gate};
use ceu_base::{Pos, Ty};
use ceu_code::Image;
use ceu_isa::Registers;
use ceu_mem::{Gate, Memory};

/// The value of an output.
pub fn output(image: &Image, mem: &Memory, regs: &mut Registers, k: u16, ty: Ty) -> Operand
    requires made { IsMachine image.now mem.now }
    requires right { IsRight (output_row image.now k ty regs.old mem.now.bytes) }
    ensures { output_row image.now k ty regs.old mem.now.bytes ≡ Goes regs.new mem.now.bytes (Output k result.value ∷ []) }
{
    let value = pop_unless_none(image, mem, regs, ty);
    Operand { value }
}

/// Registers a finalizer, and answers its position.
pub fn register(
    image: &Image,
    mem: &mut Memory,
    regs: &Registers,
    g: u16,
    to: u16,
    position: u16,
) -> Pos
    requires made { IsMachine image.now mem.old }
    requires right { IsRight (register_row image.now g to position regs.now mem.old.bytes) }
    ensures effect { register_row image.now g to position regs.now mem.old.bytes ≡ Goes regs.now mem.new.bytes (Registered result ∷ []) }
    ensures made { IsMachine image.now mem.new }
{
    let pos = place(image, position);
    let g = regs.base + g;
    let other = gate(image, mem, g);
    set_gate(
        image,
        mem,
        g,
        Gate {
            kind: 8,
            code: to,
            frame: regs.frame,
            base: regs.base,
            key: position,
            ..other
        },
    );
    pos
}
