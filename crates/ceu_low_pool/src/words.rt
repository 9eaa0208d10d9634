// Small words for lines.
ghost use Rattle.std.specs.Prelude.{◌≡◌, ◌+◌, ◌*◌, ◌<◌, ◌++◌, length, slice_index, OnOk};
ghost use Rattle.ceu_code.specs.declared.instr.Instr.TheVariants as instr;
ghost use Rattle.ceu_shape.specs.Flow as flow;
ghost use Rattle.ceu_shape.specs.Words as spec;
ghost use Rattle.ceu_low_pool.specs.Conditions.{TargetFits};

use ceu_asm::{Labels, Line, Sheet};
use ceu_base::Ty;
use ceu_code::Instr;
use ceu_gates::GatePlan;
use ceu_slots::Places;
use ceu_tree::Loc;
use std::alloc::AllocError;

pub fn add_all(sheet: &mut Sheet, lines: &[Line]) -> Result<(), AllocError>
    ensures { OnOk result (sheet.new ≡ record sheet.old { lines = sheet.old.lines ++ lines.now }) }
{
    for line in lines {
        sheet.add(*line)?;
    }
    Ok(())
}

pub fn goto(label: u32) -> Line
    ensures { result ≡ spec.goto label }
{
    Line::Jump(Instr::Jump(0), label)
}

/// The label at which a part begins.
pub fn begin(labels: &Labels, part: usize) -> u32
    requires { 2 * part + 1 < length labels.now.parts }
    ensures { result ≡ spec.begin_of labels.now part }
{
    labels.parts.items()[2 * part]
}

/// The label at which a part ends.
pub fn end(labels: &Labels, part: usize) -> u32
    requires { 2 * part + 1 < length labels.now.parts }
    ensures { result ≡ spec.end_of labels.now part }
{
    labels.parts.items()[2 * part + 1]
}

/// The trail goes on as the first gate of a node.
pub fn move_to(gates: &GatePlan, node: u32) -> Line
    requires { node < length gates.now.first }
    ensures { result ≡ spec.plain (instr.Move (slice_index gates.now.first node)) }
{
    Line::Plain(Instr::Move(gates.first.items()[node as usize]))
}

pub fn store<P: Places>(places: &P, loc: Loc) -> Line
    requires { loc.slot < (P.planned places.now).slot_count }
    ensures { result ≡ spec.store (P.planned places.now).offset loc }
{
    let offset = places.offset(loc.slot);
    if loc.outer {
        Line::Plain(Instr::StoreOuter(loc.ty, offset))
    } else {
        Line::Plain(Instr::Store(loc.ty, offset))
    }
}

/// To a part and back.
pub fn add_part(sheet: &mut Sheet, labels: &Labels, part: usize) -> Result<(), AllocError>
    requires { 2 * part + 1 < length labels.now.parts }
    ensures { OnOk result (sheet.new ≡ record sheet.old { lines = sheet.old.lines ++ spec.part labels.now part }) }
{
    add_all(
        sheet,
        &[goto(begin(labels, part)), Line::Mark(end(labels, part))],
    )
}

/// The header's value, of a type, goes to its target.
pub fn add_keep<P: Places>(
    sheet: &mut Sheet,
    places: &P,
    ty: Ty,
    target: Option<Loc>,
) -> Result<(), AllocError>
    requires { TargetFits (P.planned places.now).slot_count target }
    ensures { OnOk result (sheet.new ≡ record sheet.old { lines = sheet.old.lines ++ flow.keep (P.planned places.now).offset ty target }) }
{
    match target {
        None => Ok(()),
        Some(loc) => add_all(sheet, &[Line::Plain(Instr::Value(ty)), store(places, loc)]),
    }
}
