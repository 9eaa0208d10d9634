// The first and the last of some gates.
ghost use Rattle.std.specs.Prelude.{◌≡◌, ◌≤◌, ◌<◌, ◌+◌, IfSome, Some, true, if◌then◌else◌};
ghost use Rattle.ceu_isa.specs.Layout.{gate_of, gates_from};
ghost use Rattle.ceu_machine.specs.Holding.{IsMachine};
ghost use Rattle.ceu_machine.specs.Ordering as spec;
ghost use Rattle.ceu_machine.specs.Ordering.{HasChain, IsDecided};

use crate::gates::gate;
use crate::order::before;
use ceu_code::Image;
use ceu_mem::{Gate, Memory};

/// Which gates are looked for: those that can run at a level, asyncs that weren't served, or all that aren't free.
#[derive(Clone, Copy)]
pub enum Wanted {
    Running(u16),
    Unserved,
    Taken,
}

fn wants(wanted: Wanted, gate: Gate) -> bool
    ensures { result ≡ spec.wants wanted gate }
{
    match wanted {
        Wanted::Running(level) => gate.kind == 1 && gate.level == level,
        Wanted::Unserved => gate.kind == 6,
        Wanted::Taken => gate.kind != 0,
    }
}

/// The better of a gate and the best so far.
#[tactic(auto, unfolding(crate::specs::Ordering::ahead))]
fn better(image: &Image, mem: &Memory, last: bool, best: Option<u16>, g: u16) -> u16
    requires made { IsMachine image.now mem.now }
    requires there { g < image.now.gates }
    requires chained { IfSome best (λ b. (b < image.now.gates) × HasChain image.now mem.now.bytes b × HasChain image.now mem.now.bytes g) }
    ensures { result ≡ spec.better (spec.ahead image.now mem.now.bytes last) best g }
{
    match best {
        None => g,
        Some(b) => {
            let first = if last {
                before(image, mem, b, g)
            } else {
                before(image, mem, g, b)
            };
            if first { g } else { b }
        }
    }
}

/// The best so far, with one more gate looked at.
fn consider(
    image: &Image,
    mem: &Memory,
    wanted: Wanted,
    last: bool,
    best: Option<u16>,
    g: u16,
) -> Option<u16>
    requires made { IsMachine image.now mem.now }
    requires there { g < image.now.gates }
    requires chained { spec.wants wanted (gate_of image.now mem.now.bytes g) ≡ true → IfSome best (λ b. (b < image.now.gates) × HasChain image.now mem.now.bytes b × HasChain image.now mem.now.bytes g) }
    ensures { result ≡ (if spec.wants wanted (gate_of image.now mem.now.bytes g) then Some (spec.better (spec.ahead image.now mem.now.bytes last) best g) else best) }
{
    if wants(wanted, gate(image, mem, g)) {
        return Some(better(image, mem, last, best, g));
    }
    best
}

/// The first of the wanted gates of a range, or the last of them.
pub fn pick(
    image: &Image,
    mem: &Memory,
    wanted: Wanted,
    last: bool,
    from: u16,
    n: u16,
) -> Option<u16>
    requires made { IsMachine image.now mem.now }
    requires within { from + n ≤ image.now.gates }
    requires decided { IsDecided (spec.end_of_all image.now mem.now.bytes last (gates_from image.now mem.now.bytes (spec.wants wanted) from n)) }
    ensures chosen { spec.end_of_all image.now mem.now.bytes last (gates_from image.now mem.now.bytes (spec.wants wanted) from n) ≡ spec.choice_of result }
    ensures within { IfSome result (λ g. g < image.now.gates) }
{
    let _gates = image.gates;
    let mut best = None;
    for i in 0..n {
        best = consider(image, mem, wanted, last, best, from + i);
    }
    best
}
