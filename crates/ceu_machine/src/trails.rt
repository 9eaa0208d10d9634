// Waiting, emitting, starting and moving trails.
ghost use Rattle.std.specs.Prelude.{◌≡◌, ◌<◌, []};
ghost use Rattle.ceu_isa.specs.Layout as layout;
ghost use Rattle.ceu_isa.specs.Effects.{Goes, Pauses, Aborts, GoesOn};
ghost use Rattle.ceu_isa.specs.Trails as spec;
ghost use Rattle.ceu_machine.specs.Holding.{IsMachine, IsRight};

use crate::cells::pop;
use crate::gates::{gate, set_gate};
use ceu_base::Ty;
use ceu_code::{Image, TimeUnit};
use ceu_isa::Registers;
use ceu_mem::{Gate, Memory};

/// The own gate waits with a kind.
pub fn wait(image: &Image, mem: &mut Memory, regs: &Registers, kind: u8)
    requires made { IsMachine image.now mem.old }
    requires right { IsRight (spec.wait_row image.now kind regs.now mem.old.bytes) }
    ensures effect { spec.wait_row image.now kind regs.now mem.old.bytes ≡ Pauses mem.new.bytes [] }
    ensures made { IsMachine image.now mem.new }
{
    let own = gate(image, mem, regs.own);
    set_gate(
        image,
        mem,
        regs.own,
        Gate {
            kind,
            code: regs.at,
            frame: regs.frame,
            base: regs.base,
            ..own
        },
    );
}

/// The own gate waits with a kind for an input or an event.
pub fn wait_for(image: &Image, mem: &mut Memory, regs: &Registers, kind: u8, key: u16)
    requires made { IsMachine image.now mem.old }
    requires right { IsRight (spec.wait_for_row image.now kind key regs.now mem.old.bytes) }
    ensures effect { spec.wait_for_row image.now kind key regs.now mem.old.bytes ≡ Pauses mem.new.bytes [] }
    ensures made { IsMachine image.now mem.new }
{
    let own = gate(image, mem, regs.own);
    set_gate(
        image,
        mem,
        regs.own,
        Gate {
            kind,
            code: regs.at,
            frame: regs.frame,
            base: regs.base,
            key,
            ..own
        },
    );
}

fn unit_time(unit: TimeUnit) -> u32
    ensures { result ≡ spec.unit_time unit }
{
    match unit {
        TimeUnit::H => 3_600_000_000,
        TimeUnit::Min => 60_000_000,
        TimeUnit::S => 1_000_000,
        TimeUnit::Ms => 1_000,
        TimeUnit::Us => 1,
    }
}

/// From 1 to 2^63 - 1 microseconds.
fn clamped(time: i128) -> u64
    ensures { result ≡ spec.clamped time }
{
    if time < 1 {
        1
    } else if time >= 0x8000_0000_0000_0000 {
        0x7fff_ffff_ffff_ffff
    } else {
        time as u64
    }
}

/// The own gate waits for a time, which is popped.
pub fn wait_time(image: &Image, mem: &mut Memory, regs: &mut Registers, unit: TimeUnit)
    requires made { IsMachine image.now mem.old }
    requires right { IsRight (spec.wait_time_row image.now unit regs.old mem.old.bytes) }
    ensures effect { spec.wait_time_row image.now unit regs.old mem.old.bytes ≡ Pauses mem.new.bytes [] }
    ensures made { IsMachine image.now mem.new }
{
    let v = pop(image, mem, regs, Ty::S64);
    let value = clamped(v * i128::from(unit_time(unit)));
    let own = gate(image, mem, regs.own);
    set_gate(
        image,
        mem,
        regs.own,
        Gate {
            kind: 3,
            code: regs.at,
            frame: regs.frame,
            base: regs.base,
            value,
            ..own
        },
    );
}

/// An async has ended: its own gate can run at level 0.
pub fn end_async(image: &Image, mem: &mut Memory, regs: &Registers)
    requires made { IsMachine image.now mem.old }
    requires right { IsRight (spec.end_async_row image.now regs.now mem.old.bytes) }
    ensures effect { spec.end_async_row image.now regs.now mem.old.bytes ≡ Pauses mem.new.bytes [] }
    ensures made { IsMachine image.now mem.new }
{
    let own = gate(image, mem, regs.own);
    set_gate(
        image,
        mem,
        regs.own,
        Gate {
            kind: 1,
            level: 0,
            code: regs.at,
            frame: regs.frame,
            base: regs.base,
            ..own
        },
    );
}

/// The top level.
pub fn top(image: &Image, mem: &Memory) -> u16
    requires { IsMachine image.now mem.now }
    ensures { result ≡ layout.top_of mem.now.bytes }
{
    let _slots = image.slots;
    mem.number(2, 2) as u16
}

/// A gate can run at a code offset at the top level.
pub fn fork(image: &Image, mem: &mut Memory, regs: &Registers, g: u16, to: u16)
    requires made { IsMachine image.now mem.old }
    requires right { IsRight (spec.fork_row image.now g to regs.now mem.old.bytes) }
    ensures effect { spec.fork_row image.now g to regs.now mem.old.bytes ≡ Goes regs.now mem.new.bytes [] }
    ensures made { IsMachine image.now mem.new }
{
    let g = regs.base + g;
    let level = top(image, mem);
    let other = gate(image, mem, g);
    set_gate(
        image,
        mem,
        g,
        Gate {
            kind: 1,
            level,
            code: to,
            frame: regs.frame,
            base: regs.base,
            ..other
        },
    );
}

/// The trail goes on as another gate.
pub fn move_to(image: &Image, mem: &Memory, regs: &mut Registers, g: u16)
    requires right { IsRight (spec.move_row image.now g regs.old mem.now.bytes) }
    ensures effect { spec.move_row image.now g regs.old mem.now.bytes ≡ Goes regs.new mem.now.bytes [] }
{
    let _gates = image.gates;
    regs.own = regs.base + g;
}

/// The first gate of a range to be aborted.
pub fn aborted_from(image: &Image, mem: &Memory, regs: &Registers, g: u16, n: u16) -> u16
    requires right { IsRight (spec.abort_row image.now g n regs.now mem.now.bytes) }
    ensures effect { spec.abort_row image.now g n regs.now mem.now.bytes ≡ Aborts result n GoesOn }
{
    let _gates = image.gates;
    let _bytes = mem.bytes();
    regs.base + g
}
