ghost use Rattle.std.specs.Prelude.{◌≡◌, ◌+◌, ◌*◌, IfOk};

use ceu_base::{Name, Port, Pos, Seq, Ty};
use std::alloc::{AllocError, Global};

/// A code: where its body starts, the bytes of its frame, its gates, and the types of its parameters.
#[derive(Drop)]
pub struct CodeRow {
    pub entry: u16,
    pub frame: u16,
    pub gates: u16,
    pub params: Seq<Ty>,
}

/// A compiled program. The machine's memory has 16 bytes of header, `depth` evaluation cells of 8 bytes, `gates` gates of 19 bytes
/// and `slots` bytes of frames. A reaction has at most `turns` turns and `levels` levels. A pool has the number of its code, and a
/// place is a position in the source.
#[derive(Drop)]
pub struct Image {
    pub turns: u32,
    pub levels: u16,
    pub depth: u16,
    pub gates: u16,
    pub slots: u16,
    pub inputs: Seq<Port>,
    pub outputs: Seq<Port>,
    pub codes: Seq<CodeRow>,
    pub pools: Seq<u16>,
    pub places: Seq<Pos>,
    pub code: Seq<u8>,
}

/// How many bytes the machine's memory has.
pub fn memory_size(image: &Image) -> u32
    ensures { result ≡ 16 + 8 * image.now.depth + 19 * image.now.gates + image.now.slots }
{
    let depth = image.depth;
    let gates = image.gates;
    let slots = image.slots;
    16 + 8 * depth as u32 + 19 * gates as u32 + slots as u32
}

/// An equal list of ports.
pub fn copy_ports(alloc: Global, ports: &Seq<Port>) -> Result<Seq<Port>, AllocError>
    ensures { IfOk result (λ copy. copy ≡ ports.now) }
{
    let mut copy = Seq::new(alloc);
    for port in ports.items() {
        let name = Name::new(alloc, port.name.text())?;
        copy.push(Port { ty: port.ty, name })?;
    }
    Ok(copy)
}
