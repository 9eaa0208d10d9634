ghost use Rattle.std.specs.Prelude.{◌≡◌, ◌+◌, ◌^◌, ◌<◌, ◌≤◌, [], ◌++◌, length, map, IfOk, OnOk};
ghost use Rattle.ceu_tree.specs.Greatest.{greatest as most};
ghost use Rattle.ceu_tree.specs.Needs.{frame_of, frames_from, greatest_of, slots};
ghost use Rattle.ceu_slots.specs.Layout as spec;

use crate::layout::{SlotPlace, place_block, place_decls};
use ceu_tree::{KCode, Kernel, greatest};
use std::alloc::{AllocError, Global};

// The offset and the size of each slot, the frame of each code, and the bytes of the whole.
#[derive(Debug, Drop)]
pub struct Layout {
    pub offset: Vec<u16>,
    pub size: Vec<u16>,
    pub frame: Vec<u16>,
    pub total: u16,
    ghost even: { length size.items ≡ length offset.items },
    ghost numbered: { length offset.items < 2 ^ 32 },
    ghost numbered_codes: { length frame.items < 2 ^ 32 },
}

fn place_code(
    plain: bool,
    frames: &[u32],
    code: &KCode,
    rows: &mut Vec<SlotPlace>,
) -> Result<u32, AllocError>
    requires { frame_of plain frames.now code.now ≤ 65535 }
    ensures size { IfOk result (λ size. size ≡ frame_of plain frames.now code.now) }
    ensures rows { OnOk result (rows.new.items ≡ rows.old.items ++ spec.code_places plain frames.now code.now) }
{
    let start = place_decls(frames, 8, code.params.items(), rows)? + 8;
    let size = place_block(plain, frames, start, &code.body, rows)?;
    Ok(start + size)
}

// Each frame once, in the order of the codes, since a code uses only codes above it.
fn place_codes(
    plain: bool,
    codes: &[KCode],
    frames: &mut Vec<u32>,
    rows: &mut Vec<SlotPlace>,
) -> Result<(), AllocError>
    requires { greatest_of (frames_from plain frames.old.items codes.now) ≤ 65535 }
    ensures frames { OnOk result (frames.new.items ≡ frames_from plain frames.old.items codes.now) }
    ensures rows { OnOk result (rows.new.items ≡ rows.old.items ++ spec.codes_places plain frames.old.items codes.now) }
{
    for code in codes {
        let frame = place_code(plain, frames, code, rows)?;
        frames.push(frame)?;
    }
    Ok(())
}

fn offsets(alloc: Global, rows: &[SlotPlace]) -> Result<Vec<u16>, AllocError>
    requires { most (λ r. r.offset + r.size) rows.now ≤ 65535 }
    ensures { IfOk result (λ offset. offset.items ≡ map spec.the_offset rows.now) }
{
    let mut offset = Vec::new(alloc);
    for row in rows {
        offset.push(row.offset as u16)?;
    }
    Ok(offset)
}

fn sizes(alloc: Global, rows: &[SlotPlace]) -> Result<Vec<u16>, AllocError>
    requires { most (λ r. r.offset + r.size) rows.now ≤ 65535 }
    ensures { IfOk result (λ size. size.items ≡ map spec.the_size rows.now) }
{
    let mut size = Vec::new(alloc);
    for row in rows {
        size.push(row.size as u16)?;
    }
    Ok(size)
}

fn shorts(alloc: Global, numbers: &[u32]) -> Result<Vec<u16>, AllocError>
    requires { greatest_of numbers.now ≤ 65535 }
    ensures { IfOk result (λ short. short.items ≡ numbers.now) }
{
    let mut short = Vec::new(alloc);
    for number in numbers {
        short.push(*number as u16)?;
    }
    Ok(short)
}

// The body of the program, in front of the bodies of the codes that were placed.
fn place_body(
    plain: bool,
    frames: &[u32],
    kernel: &Kernel,
    bodies: &[SlotPlace],
    rows: &mut Vec<SlotPlace>,
) -> Result<u16, AllocError>
    requires frames { frames.now ≡ frames_from plain [] kernel.now.codes }
    requires bodies { bodies.now ≡ spec.codes_places plain [] kernel.now.codes }
    requires empty { rows.old.items ≡ [] }
    requires fits { slots plain kernel.now ≤ 65535 }
    ensures total { IfOk result (λ total. total ≡ slots plain kernel.now) }
    ensures rows { OnOk result (rows.new.items ≡ spec.places plain kernel.now) }
{
    let size = place_block(plain, frames, 0, &kernel.body, rows)?;
    rows.extend_from_slice(bodies)?;
    Ok(size.max(greatest(frames)) as u16)
}

pub fn layout_of(alloc: Global, plain: bool, kernel: &Kernel) -> Result<Layout, AllocError>
    requires { slots plain kernel.now ≤ 65535 }
    ensures offset { IfOk result (λ layout. layout.offset.items ≡ map spec.the_offset (spec.places plain kernel.now)) }
    ensures size { IfOk result (λ layout. layout.size.items ≡ map spec.the_size (spec.places plain kernel.now)) }
    ensures frame { IfOk result (λ layout. layout.frame.items ≡ frames_from plain [] kernel.now.codes) }
    ensures total { IfOk result (λ layout. layout.total ≡ slots plain kernel.now) }
{
    let mut frames = Vec::new(alloc);
    let mut bodies = Vec::new(alloc);
    let mut rows = Vec::new(alloc);
    place_codes(plain, kernel.codes.items(), &mut frames, &mut bodies)?;
    let total = place_body(plain, &frames, kernel, &bodies, &mut rows)?;
    // the number of a slot, and that of a code, is one of 32 bits
    if rows.len().max(frames.len()) > u32::MAX as usize {
        return Err(AllocError);
    }
    let offset = offsets(alloc, &rows)?;
    let size = sizes(alloc, &rows)?;
    let frame = shorts(alloc, &frames)?;
    Ok(Layout {
        offset,
        size,
        frame,
        total,
    })
}
