// What a command does to the gates before a reaction.
ghost use Rattle.std.specs.Prelude.{◌≡◌, ◌<◌};
ghost use Rattle.ceu_isa.specs.Layout as layout;
ghost use Rattle.ceu_machine.specs.Holding.{IsMachine};
ghost use Rattle.ceu_react.specs.Changes as spec;

use ceu_code::Image;
use ceu_machine::{gate, set_gate};
use ceu_mem::{Gate, Memory};

/// The greatest delay that a timer's trail is told, in microseconds.
const LONGEST_DELAY: u64 = 2147483647;

/// A change of gates.
#[derive(Clone, Copy)]
pub(crate) enum Change {
    /// Those that wait for an input wake with a value.
    Input(u16, u64),
    /// Timers that are due wake with the delay.
    Due(u64),
    /// Asyncs that were served are to be served again.
    Round,
}

fn affects(change: Change, gate: Gate) -> bool
    ensures { result ≡ spec.affects change gate }
{
    match change {
        Change::Input(event, _) => gate.kind == 2 && gate.key == event,
        Change::Due(_) => gate.kind == 3 && gate.value == 0,
        Change::Round => gate.kind == 7,
    }
}

fn changed(change: Change, gate: Gate) -> Gate
    ensures { result ≡ spec.changed_by change gate }
{
    match change {
        Change::Input(_, value) => Gate {
            kind: 1,
            level: 0,
            value,
            ..gate
        },
        Change::Due(delay) => Gate {
            kind: 1,
            level: 0,
            value: delay.min(LONGEST_DELAY),
            ..gate
        },
        Change::Round => Gate { kind: 6, ..gate },
    }
}

fn change_gate(image: &Image, mem: &mut Memory, g: u16, change: Change)
    requires made { IsMachine image.now mem.old }
    requires there { g < image.now.gates }
    ensures bytes { mem.new.bytes ≡ layout.one_gate image.now (spec.affects change) (spec.changed_by change) g mem.old.bytes }
    ensures made { IsMachine image.now mem.new }
{
    let found = gate(image, mem, g);
    if affects(change, found) {
        set_gate(image, mem, g, changed(change, found));
    }
}

/// Each gate that a change affects changes.
pub(crate) fn change_gates(image: &Image, mem: &mut Memory, change: Change)
    requires made { IsMachine image.now mem.old }
    ensures bytes { mem.new.bytes ≡ layout.each_gate image.now (spec.affects change) (spec.changed_by change) image.now.gates mem.old.bytes }
    ensures made { IsMachine image.now mem.new }
{
    for g in 0..image.gates {
        change_gate(image, mem, g, change);
    }
}
