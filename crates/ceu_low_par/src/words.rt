// Small words for lines.
ghost use Rattle.std.specs.Prelude.{◌≡◌, ◌+◌, ◌*◌, ◌<◌, ◌++◌, length, slice_index, OnOk};
ghost use Rattle.ceu_code.specs.declared.instr.Instr.TheVariants as instr;
ghost use Rattle.ceu_shape.specs.Words as spec;

use ceu_asm::{Labels, Line, Sheet};
use ceu_code::Instr;
use ceu_gates::GatePlan;
use std::alloc::AllocError;

pub fn add_all(sheet: &mut Sheet, lines: &[Line]) -> Result<(), AllocError>
    ensures { OnOk result (sheet.new ≡ record sheet.old { lines = sheet.old.lines ++ lines.now }) }
{
    for line in lines {
        sheet.add(*line)?;
    }
    Ok(())
}

pub fn goto(label: u32) -> Line
    ensures { result ≡ spec.goto label }
{
    Line::Jump(Instr::Jump(0), label)
}

/// The label at which a part begins.
pub fn begin(labels: &Labels, part: usize) -> u32
    requires { 2 * part + 1 < length labels.now.parts }
    ensures { result ≡ spec.begin_of labels.now part }
{
    labels.parts.items()[2 * part]
}

/// The label at which a part ends.
pub fn end(labels: &Labels, part: usize) -> u32
    requires { 2 * part + 1 < length labels.now.parts }
    ensures { result ≡ spec.end_of labels.now part }
{
    labels.parts.items()[2 * part + 1]
}

/// The trail goes on as the first gate of a node.
pub fn move_to(gates: &GatePlan, node: u32) -> Line
    requires { node < length gates.now.first }
    ensures { result ≡ spec.plain (instr.Move (slice_index gates.now.first node)) }
{
    Line::Plain(Instr::Move(gates.first.items()[node as usize]))
}

/// All gates of a node.
pub fn abort(gates: &GatePlan, node: u32) -> Line
    requires first { node < length gates.now.first }
    requires count { node < length gates.now.count }
    ensures { result ≡ spec.plain (instr.AbortGates (slice_index gates.now.first node) (slice_index gates.now.count node)) }
{
    let first = gates.first.items()[node as usize];
    let count = gates.count.items()[node as usize];
    Line::Plain(Instr::AbortGates(first, count))
}
