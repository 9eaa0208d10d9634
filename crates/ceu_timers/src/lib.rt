//! The clock of a machine: the least remaining time, and the passing of time.
#![tactic(auto)]

ghost use Rattle.std.specs.Prelude.{◌≡◌, ◌≤◌, ◌<◌, ℕ, IfNone, IfSome};
ghost use Rattle.ceu_isa.specs.Commands.{is_timer, sooner};
ghost use Rattle.ceu_isa.specs.Layout.{each_gate};
ghost use Rattle.ceu_timers.specs.Timers as spec;
ghost use Rattle.ceu_timers.specs.Timers.{IsMemoryOf, NoTimer, IsLeast, AtMostLeast, TimePassed};

#[cfg(test)]
mod tests;

use ceu_code::Image;
use ceu_mem::{Gate, Memory};

/// The kind of a gate that waits for time.
const TIMER: u8 = 3;

/// The least remaining time, where a timer waits.
pub fn least(mem: &Memory, image: &Image) -> Option<u64>
    requires { IsMemoryOf mem.now image.now }
    ensures none { IfNone result (NoTimer mem.now image.now.gates) }
    ensures some { IfSome result (λ time. IsLeast mem.now image.now.gates time) }
{
    let mut found = None;
    for g in 0..image.gates {
        found = lesser(found, mem.gate(g));
    }
    found
}

/// The lesser of what was found and the time of a gate, where it is a timer.
fn lesser(found: Option<u64>, gate: Gate) -> Option<u64>
    ensures { result ≡ spec.lesser found gate }
{
    if gate.kind != TIMER {
        return found;
    }
    match found {
        Some(time) if time <= gate.value => Some(time),
        _ => Some(gate.value),
    }
}

/// Subtracts a time from what remains of each timer. It is at most the least. The bytes afterwards are the machine's, d microseconds later.
pub fn subtract_all(mem: &mut Memory, image: &Image, d: u64)
    requires made { IsMemoryOf mem.old image.now }
    requires short { AtMostLeast mem.old image.now.gates d }
    ensures passed { TimePassed mem.old mem.new image.now.gates d }
    ensures bytes { mem.new.bytes ≡ each_gate image.now is_timer (sooner d) image.now.gates mem.old.bytes }
{
    for g in 0..image.gates {
        let gate = mem.gate(g);
        if gate.kind == TIMER {
            let value = gate.value - d;
            mem.set_gate(g, Gate { value, ..gate });
        }
    }
}
