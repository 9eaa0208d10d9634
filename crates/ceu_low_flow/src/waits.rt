// Statements that wait or pause: each first moves the trail to its own gate.
ghost use Rattle.std.specs.Prelude.{◌≡◌, ◌+◌, ◌*◌, ◌<◌, ◌≤◌, ◌++◌, length, OnOk};
ghost use Rattle.ceu_base.specs.declared.kinds.Ty.TheVariants as ty;
ghost use Rattle.ceu_code.specs.declared.instr.Instr.TheVariants as instr;
ghost use Rattle.ceu_shape.specs.Flow as spec;
ghost use Rattle.ceu_shape.specs.Plans.{plan_of};
ghost use Rattle.ceu_shape.specs.Shape.{count_if};
ghost use Rattle.ceu_low_flow.specs.Conditions.{HasParts, TargetFits};

use crate::words::{add_all, add_keep, add_part, add_part_if, goto, move_to};
use ceu_asm::{Labels, Line, Sheet};
use ceu_base::Ty;
use ceu_code::{Instr, TimeUnit};
use ceu_gates::GatePlan;
use ceu_slots::Places;
use ceu_tree::{KExp, Loc, Unit};
use std::alloc::AllocError;

pub fn time_unit(unit: Unit) -> TimeUnit
    ensures { result ≡ spec.time_unit unit }
{
    match unit {
        Unit::H => TimeUnit::H,
        Unit::Min => TimeUnit::Min,
        Unit::S => TimeUnit::S,
        Unit::Ms => TimeUnit::Ms,
        Unit::Us => TimeUnit::Us,
    }
}

/// Waits by one instruction, and keeps a value of a type.
pub fn lower_await<P: Places>(
    sheet: &mut Sheet,
    places: &P,
    gates: &GatePlan,
    node: u32,
    wait: Instr,
    ty: Ty,
    target: Option<Loc>,
    labels: &Labels,
) -> Result<(), AllocError>
    requires gates { node < length gates.now.first }
    requires target { TargetFits (P.planned places.now).slot_count target }
    ensures { let plan = plan_of (P.planned places.now).offset (P.planned places.now).frame (P.planned places.now).total gates.now.first gates.now.count in OnOk result (sheet.new ≡ record sheet.old { lines = sheet.old.lines ++ spec.await_lines plan node wait ty target labels.now }) }
{
    let start = [
        Line::Mark(labels.own),
        move_to(gates, node),
        Line::Plain(wait),
    ];
    add_all(sheet, &start)?;
    add_keep(sheet, places, ty, target)?;
    sheet.add(goto(labels.next))
}

pub fn lower_await_time<P: Places>(
    sheet: &mut Sheet,
    places: &P,
    gates: &GatePlan,
    node: u32,
    unit: TimeUnit,
    target: Option<Loc>,
    labels: &Labels,
) -> Result<(), AllocError>
    requires gates { node < length gates.now.first }
    requires target { TargetFits (P.planned places.now).slot_count target }
    requires parts { HasParts labels.now 1 }
    ensures { let plan = plan_of (P.planned places.now).offset (P.planned places.now).frame (P.planned places.now).total gates.now.first gates.now.count in OnOk result (sheet.new ≡ record sheet.old { lines = sheet.old.lines ++ spec.await_time_lines plan node unit target labels.now }) }
{
    add_all(sheet, &[Line::Mark(labels.own), move_to(gates, node)])?;
    add_part(sheet, labels, 0)?;
    sheet.add(Line::Plain(Instr::WaitTime(unit)))?;
    add_keep(sheet, places, Ty::S32, target)?;
    sheet.add(goto(labels.next))
}

pub fn lower_forever<P: Places>(
    sheet: &mut Sheet,
    places: &P,
    gates: &GatePlan,
    node: u32,
    labels: &Labels,
) -> Result<(), AllocError>
    requires { node < length gates.now.first }
    ensures { let plan = plan_of (P.planned places.now).offset (P.planned places.now).frame (P.planned places.now).total gates.now.first gates.now.count in OnOk result (sheet.new ≡ record sheet.old { lines = sheet.old.lines ++ spec.forever_lines plan node labels.now }) }
{
    let lines = [
        Line::Mark(labels.own),
        move_to(gates, node),
        Line::Plain(Instr::WaitForever),
    ];
    add_all(sheet, &lines)
}

pub fn lower_emit<P: Places>(
    sheet: &mut Sheet,
    places: &P,
    gates: &GatePlan,
    node: u32,
    event: u16,
    ty: Ty,
    exp: &Option<KExp>,
    labels: &Labels,
) -> Result<(), AllocError>
    requires gates { node < length gates.now.first }
    requires parts { HasParts labels.now (count_if exp.now) }
    ensures { let plan = plan_of (P.planned places.now).offset (P.planned places.now).frame (P.planned places.now).total gates.now.first gates.now.count in OnOk result (sheet.new ≡ record sheet.old { lines = sheet.old.lines ++ spec.emit_lines plan node event ty exp.now labels.now }) }
{
    add_all(sheet, &[Line::Mark(labels.own), move_to(gates, node)])?;
    add_part_if(sheet, exp, labels)?;
    add_all(
        sheet,
        &[Line::Plain(Instr::Emit(event, ty)), goto(labels.next)],
    )
}
