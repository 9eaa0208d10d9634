// Small words for lines.
ghost use Rattle.std.specs.Prelude.{◌≡◌, ◌+◌, ◌*◌, ◌<◌, ◌≤◌, ◌++◌, [], ◌∷◌, length, slice_index, OnOk};
ghost use Rattle.ceu_code.specs.declared.instr.Instr.TheVariants as instr;
ghost use Rattle.ceu_shape.specs.Flow as flow;
ghost use Rattle.ceu_shape.specs.Shape.{count_if};
ghost use Rattle.ceu_shape.specs.Words as spec;
ghost use Rattle.ceu_low_flow.specs.Conditions.{TargetFits};

use ceu_asm::{Labels, Line, Sheet};
use ceu_base::Ty;
use ceu_code::Instr;
use ceu_gates::GatePlan;
use ceu_slots::Places;
use ceu_tree::{KExp, Loc};
use std::alloc::AllocError;

pub fn add_all(sheet: &mut Sheet, lines: &[Line]) -> Result<(), AllocError>
    ensures { OnOk result (sheet.new ≡ record sheet.old { lines = sheet.old.lines ++ lines.now }) }
{
    for line in lines {
        sheet.add(*line)?;
    }
    Ok(())
}

pub fn goto(label: u32) -> Line
    ensures { result ≡ spec.goto label }
{
    Line::Jump(Instr::Jump(0), label)
}

/// The label at which a part begins.
pub fn begin(labels: &Labels, part: usize) -> u32
    requires { 2 * part + 1 < length labels.now.parts }
    ensures { result ≡ spec.begin_of labels.now part }
{
    labels.parts.items()[2 * part]
}

/// The label at which a part ends.
pub fn end(labels: &Labels, part: usize) -> u32
    requires { 2 * part + 1 < length labels.now.parts }
    ensures { result ≡ spec.end_of labels.now part }
{
    labels.parts.items()[2 * part + 1]
}

pub fn move_to(gates: &GatePlan, node: u32) -> Line
    requires { node < length gates.now.first }
    ensures { result ≡ spec.plain (instr.Move (slice_index gates.now.first node)) }
{
    Line::Plain(Instr::Move(gates.first.items()[node as usize]))
}

pub fn abort(gates: &GatePlan, node: u32) -> Line
    requires first { node < length gates.now.first }
    requires count { node < length gates.now.count }
    ensures { result ≡ spec.plain (instr.AbortGates (slice_index gates.now.first node) (slice_index gates.now.count node)) }
{
    let first = gates.first.items()[node as usize];
    let count = gates.count.items()[node as usize];
    Line::Plain(Instr::AbortGates(first, count))
}

pub fn store<P: Places>(places: &P, loc: Loc) -> Line
    requires { loc.slot < (P.planned places.now).slot_count }
    ensures { result ≡ spec.store (P.planned places.now).offset loc }
{
    let offset = places.offset(loc.slot);
    if loc.outer {
        Line::Plain(Instr::StoreOuter(loc.ty, offset))
    } else {
        Line::Plain(Instr::Store(loc.ty, offset))
    }
}

/// To a part and back.
pub fn add_part(sheet: &mut Sheet, labels: &Labels, part: usize) -> Result<(), AllocError>
    requires { 2 * part + 1 < length labels.now.parts }
    ensures { OnOk result (sheet.new ≡ record sheet.old { lines = sheet.old.lines ++ spec.part labels.now part }) }
{
    add_all(
        sheet,
        &[goto(begin(labels, part)), Line::Mark(end(labels, part))],
    )
}

/// To the part of an expression, where there is one.
pub fn add_part_if(sheet: &mut Sheet, exp: &Option<KExp>, labels: &Labels) -> Result<(), AllocError>
    requires { 2 * count_if exp.now ≤ length labels.now.parts }
    ensures { OnOk result (sheet.new ≡ record sheet.old { lines = sheet.old.lines ++ flow.part_if exp.now labels.now }) }
{
    match exp {
        None => Ok(()),
        Some(_) => add_part(sheet, labels, 0),
    }
}

/// The header's value, of a type, goes to its target.
pub fn add_keep<P: Places>(
    sheet: &mut Sheet,
    places: &P,
    ty: Ty,
    target: Option<Loc>,
) -> Result<(), AllocError>
    requires { TargetFits (P.planned places.now).slot_count target }
    ensures { OnOk result (sheet.new ≡ record sheet.old { lines = sheet.old.lines ++ flow.keep (P.planned places.now).offset ty target }) }
{
    match target {
        None => Ok(()),
        Some(loc) => add_all(sheet, &[Line::Plain(Instr::Value(ty)), store(places, loc)]),
    }
}
