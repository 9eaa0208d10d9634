// Gates of a machine's memory.
ghost use Rattle.std.specs.Prelude.{◌≡◌, ◌<◌};
ghost use Rattle.ceu_isa.specs.Layout as layout;
ghost use Rattle.ceu_mem.specs.Memory.{IsGate};
ghost use Rattle.ceu_machine.specs.Holding.{IsMachine};

use ceu_code::Image;
use ceu_mem::{Gate, Memory};

#[tactic(auto, unfolding(ceu_isa::specs::Layout::gate_of))]
pub fn gate(image: &Image, mem: &Memory, g: u16) -> Gate
    requires made { IsMachine image.now mem.now }
    requires there { g < image.now.gates }
    ensures value { result ≡ layout.gate_of image.now mem.now.bytes g }
    ensures fits { IsGate result }
{
    let _gates = image.gates;
    mem.gate(g)
}

#[tactic(auto, using(crate::proofs::Keeping::gate_kept), unfolding(ceu_isa::specs::Layout::gate_put))]
pub fn set_gate(image: &Image, mem: &mut Memory, g: u16, gate: Gate)
    requires made { IsMachine image.now mem.old }
    requires there { g < image.now.gates }
    ensures bytes { mem.new.bytes ≡ layout.gate_put image.now gate g mem.old.bytes }
    ensures made { IsMachine image.now mem.new }
{
    let _gates = image.gates;
    mem.set_gate(g, gate);
}
