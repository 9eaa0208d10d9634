// Emissions: the trails that wait wake, the emitter pauses, and a level opens.
ghost use Rattle.std.specs.Prelude.{◌≡◌, ◌≢◌, ◌<◌, ◌∷◌, [], Some, IsSome};
ghost use Rattle.ceu_base.specs.declared.kinds.Mark.TheVariants.{Push};
ghost use Rattle.ceu_base.specs.Values.{IsValue};
ghost use Rattle.ceu_isa.specs.Layout as layout;
ghost use Rattle.ceu_isa.specs.Effects.{Pauses};
ghost use Rattle.ceu_isa.specs.Cells.{popped_unless_none};
ghost use Rattle.ceu_isa.specs.Trails as spec;
ghost use Rattle.ceu_machine.specs.Holding.{IsMachine, IsRight};

use crate::cells::pop;
use crate::gates::{gate, set_gate};
use crate::trails::top;
use crate::words::write_number;
use ceu_base::Ty;
use ceu_code::Image;
use ceu_isa::Registers;
use ceu_mem::{Gate, Memory};

/// Pops a value of a type, and not for `none`, whose value is 0.
pub fn pop_unless_none(image: &Image, mem: &Memory, regs: &mut Registers, ty: Ty) -> i128
    requires made { IsMachine image.now mem.now }
    requires there { IsSome (popped_unless_none image.now ty regs.old mem.now.bytes) }
    ensures popped { popped_unless_none image.now ty regs.old mem.now.bytes ≡ Some (record { value = result; registers = regs.new }) }
    ensures value { IsValue ty result }
{
    match ty {
        Ty::None => 0,
        _ => pop(image, mem, regs, ty),
    }
}

fn waits_for(event: u16, frame: u16, gate: Gate) -> bool
    ensures { result ≡ spec.waits_for event frame gate }
{
    gate.kind == 4 && gate.key == event && (event < 32768 || gate.frame == frame)
}

/// A gate wakes at a level with a value, where it waits for the event.
fn wake_gate(
    image: &Image,
    mem: &mut Memory,
    g: u16,
    event: u16,
    level: u16,
    value: u64,
    frame: u16,
)
    requires made { IsMachine image.now mem.old }
    requires there { g < image.now.gates }
    ensures bytes { mem.new.bytes ≡ layout.one_gate image.now (spec.waits_for event frame) (spec.woken_at level value) g mem.old.bytes }
    ensures made { IsMachine image.now mem.new }
{
    let found = gate(image, mem, g);
    if waits_for(event, frame, found) {
        set_gate(
            image,
            mem,
            g,
            Gate {
                kind: 1,
                level,
                value,
                ..found
            },
        );
    }
}

/// All gates that wait for the event wake.
fn wake(image: &Image, mem: &mut Memory, event: u16, level: u16, value: u64, frame: u16)
    requires made { IsMachine image.now mem.old }
    ensures bytes { mem.new.bytes ≡ spec.woken image.now event level value frame mem.old.bytes }
    ensures made { IsMachine image.now mem.new }
{
    for g in 0..image.gates {
        wake_gate(image, mem, g, event, level, value, frame);
    }
}

/// The trail can go on at its level, and the next level opens.
#[tactic(auto, unfolding(ceu_isa::specs::Trails::opened))]
pub fn open(image: &Image, mem: &mut Memory, regs: &Registers, level: u16)
    requires made { IsMachine image.now mem.old }
    requires there { regs.now.own < image.now.gates }
    requires higher { level < image.now.levels }
    ensures bytes { mem.new.bytes ≡ spec.opened image.now level regs.now mem.old.bytes }
    ensures made { IsMachine image.now mem.new }
{
    let own = gate(image, mem, regs.own);
    set_gate(
        image,
        mem,
        regs.own,
        Gate {
            kind: 1,
            level,
            code: regs.at,
            frame: regs.frame,
            base: regs.base,
            ..own
        },
    );
    let _levels = image.levels;
    write_number(image, mem, 2, 2, u64::from(level + 1));
}

/// Emits an event, and answers the level that opens.
pub fn emit(image: &Image, mem: &mut Memory, regs: &mut Registers, event: u16, ty: Ty) -> u16
    requires made { IsMachine image.now mem.old }
    requires right { IsRight (spec.emit_row image.now event ty regs.old mem.old.bytes) }
    ensures effect { spec.emit_row image.now event ty regs.old mem.old.bytes ≡ Pauses mem.new.bytes (Push result ∷ []) }
    ensures made { IsMachine image.now mem.new }
{
    let v = pop_unless_none(image, mem, regs, ty);
    let level = top(image, mem);
    let _levels = image.levels;
    let bits = v.rem_euclid(0x1_0000_0000_0000_0000) as u64;
    wake(image, mem, event, level + 1, bits, regs.frame);
    open(image, mem, regs, level);
    level + 1
}
