// The statements of one trail, by their kinds.
ghost use Rattle.std.specs.Prelude.{◌≡◌, ◌+◌, ◌*◌, ◌<◌, ◌≤◌, ◌++◌, length, OnOk};
ghost use Rattle.ceu_shape.specs.Flow as spec;
ghost use Rattle.ceu_shape.specs.Pieces.{Added};
ghost use Rattle.ceu_shape.specs.Plans.{plan_of};
ghost use Rattle.ceu_shape.specs.Searches as search_spec;
ghost use Rattle.ceu_shape.specs.Shape.{count_if, node_draft};
ghost use Rattle.ceu_tree.specs.Weight.{weight};
ghost use Rattle.ceu_low_flow.specs.Conditions.{HasParts, HasRoom, IsFlow, StmtFits, TargetFits, label_count, part_count};

use crate::loops::{lower_if, lower_loop};
use crate::search;
use crate::waits::{lower_await, lower_await_time, lower_emit, lower_forever, time_unit};
use crate::words::{abort, add_all, add_keep, add_part, add_part_if, begin, end, goto, store};
use ceu_asm::{Labels, Line, Sheet};
use ceu_base::Ty;
use ceu_code::Instr;
use ceu_gates::GatePlan;
use ceu_slots::Places;
use ceu_tree::{KExp, KNode, KStmt, Kernel, Loc};
use std::alloc::AllocError;

fn lower_nothing(sheet: &mut Sheet, labels: &Labels) -> Result<(), AllocError>
    ensures { OnOk result (sheet.new ≡ record sheet.old { lines = sheet.old.lines ++ spec.nothing_lines labels.now }) }
{
    add_all(sheet, &[Line::Mark(labels.own), goto(labels.next)])
}

fn lower_assign<P: Places>(
    sheet: &mut Sheet,
    places: &P,
    target: Loc,
    labels: &Labels,
) -> Result<(), AllocError>
    requires slot { target.slot < (P.planned places.now).slot_count }
    requires parts { HasParts labels.now 1 }
    ensures { OnOk result (sheet.new ≡ record sheet.old { lines = sheet.old.lines ++ spec.assign_lines (P.planned places.now).offset target labels.now }) }
{
    let lines = [
        Line::Mark(labels.own),
        goto(begin(labels, 0)),
        Line::Mark(end(labels, 0)),
        store(places, target),
        goto(labels.next),
    ];
    add_all(sheet, &lines)
}

fn lower_output(
    sheet: &mut Sheet,
    output: u16,
    ty: Ty,
    exp: &Option<KExp>,
    labels: &Labels,
) -> Result<(), AllocError>
    requires { HasParts labels.now (count_if exp.now) }
    ensures { OnOk result (sheet.new ≡ record sheet.old { lines = sheet.old.lines ++ spec.output_lines output ty exp.now labels.now }) }
{
    sheet.add(Line::Mark(labels.own))?;
    add_part_if(sheet, exp, labels)?;
    add_all(
        sheet,
        &[Line::Plain(Instr::Output(output, ty)), goto(labels.next)],
    )
}

// A `do` that ends without an escape gives its target zero.
fn add_zero<P: Places>(sheet: &mut Sheet, places: &P, target: Option<Loc>) -> Result<(), AllocError>
    requires { TargetFits (P.planned places.now).slot_count target }
    ensures { OnOk result (sheet.new ≡ record sheet.old { lines = sheet.old.lines ++ spec.zero_kept (P.planned places.now).offset target }) }
{
    match target {
        None => Ok(()),
        Some(loc) => add_all(
            sheet,
            &[Line::Plain(Instr::Push(loc.ty, 0)), store(places, loc)],
        ),
    }
}

fn lower_do<P: Places>(
    sheet: &mut Sheet,
    places: &P,
    target: Option<Loc>,
    labels: &Labels,
) -> Result<(), AllocError>
    requires target { TargetFits (P.planned places.now).slot_count target }
    requires parts { HasParts labels.now 1 }
    ensures { OnOk result (sheet.new ≡ record sheet.old { lines = sheet.old.lines ++ spec.do_lines (P.planned places.now).offset target labels.now }) }
{
    sheet.add(Line::Mark(labels.own))?;
    add_part(sheet, labels, 0)?;
    add_zero(sheet, places, target)?;
    sheet.add(goto(labels.next))
}

// The value of an escape goes into the header.
fn add_escape_value(
    sheet: &mut Sheet,
    exp: &Option<KExp>,
    labels: &Labels,
) -> Result<(), AllocError>
    requires { HasParts labels.now (count_if exp.now) }
    ensures { OnOk result (sheet.new ≡ record sheet.old { lines = sheet.old.lines ++ spec.escape_value exp.now labels.now }) }
{
    match exp {
        None => Ok(()),
        Some(_) => {
            add_part(sheet, labels, 0)?;
            sheet.add(Line::Plain(Instr::SetValue))
        }
    }
}

// It is kept where a `do` with a target is left.
fn add_escape_kept<P: Places>(
    sheet: &mut Sheet,
    places: &P,
    exp: &Option<KExp>,
    target: Option<Loc>,
) -> Result<(), AllocError>
    requires { TargetFits (P.planned places.now).slot_count target }
    ensures { OnOk result (sheet.new ≡ record sheet.old { lines = sheet.old.lines ++ spec.escape_kept (P.planned places.now).offset exp.now target }) }
{
    match exp {
        None => Ok(()),
        Some(exp) => add_keep(sheet, places, exp.ty, target),
    }
}

fn lower_escape<P: Places>(
    sheet: &mut Sheet,
    places: &P,
    gates: &GatePlan,
    left: u32,
    exp: &Option<KExp>,
    target: Option<Loc>,
    labels: &Labels,
) -> Result<(), AllocError>
    requires first { left < length gates.now.first }
    requires count { left < length gates.now.count }
    requires target { TargetFits (P.planned places.now).slot_count target }
    requires parts { HasParts labels.now (count_if exp.now) }
    ensures { let plan = plan_of (P.planned places.now).offset (P.planned places.now).frame (P.planned places.now).total gates.now.first gates.now.count in OnOk result (sheet.new ≡ record sheet.old { lines = sheet.old.lines ++ spec.escape_lines plan left exp.now target labels.now }) }
{
    sheet.add(Line::Mark(labels.own))?;
    add_escape_value(sheet, exp, labels)?;
    sheet.add(abort(gates, left))?;
    add_escape_kept(sheet, places, exp, target)?;
    sheet.add(goto(labels.next))
}

// A loop is left, or its body.
fn lower_leave<P: Places>(
    sheet: &mut Sheet,
    places: &P,
    gates: &GatePlan,
    left: u32,
    labels: &Labels,
) -> Result<(), AllocError>
    requires first { left < length gates.now.first }
    requires count { left < length gates.now.count }
    ensures { let plan = plan_of (P.planned places.now).offset (P.planned places.now).frame (P.planned places.now).total gates.now.first gates.now.count in OnOk result (sheet.new ≡ record sheet.old { lines = sheet.old.lines ++ spec.leave_lines plan left labels.now }) }
{
    add_all(
        sheet,
        &[
            Line::Mark(labels.own),
            abort(gates, left),
            goto(labels.next),
        ],
    )
}

/// Adds the lines of a statement of one trail, without those of its parts: they begin at the statement's own label, go to the begins of its parts
/// and on from their ends, and at last to its next label.
pub fn lower_flow<P: Places>(
    sheet: &mut Sheet,
    kernel: &Kernel,
    places: &P,
    gates: &GatePlan,
    node: &KNode,
    labels: &Labels,
) -> Result<(), AllocError>
    requires kind { IsFlow node.now.stmt }
    requires fits { StmtFits (P.planned places.now).slot_count (length gates.now.first) kernel.now node.now.stmt }
    requires node { node.now.node < length gates.now.first }
    requires counted { length gates.now.count ≡ length gates.now.first }
    requires parts { HasParts labels.now (part_count node.now.stmt) }
    requires weight { weight kernel.now ≤ 65535 }
    requires room { HasRoom sheet.old (label_count node.now.stmt) }
    ensures { let plan = plan_of (P.planned places.now).offset (P.planned places.now).frame (P.planned places.now).total gates.now.first gates.now.count in OnOk result (Added sheet.old sheet.new (node_draft plan kernel.now node.now.node node.now.pos node.now.stmt labels.now)) }
{
    let number = node.node;
    match &node.stmt {
        KStmt::Nothing => lower_nothing(sheet, labels),
        KStmt::Assign(target, _) => lower_assign(sheet, places, *target, labels),
        KStmt::Out(output, exp) => {
            let ty = search::output_ty(kernel, *output);
            lower_output(sheet, *output as u16, ty, exp, labels)
        }
        KStmt::Emit(event, exp) => {
            let ty = search::event_ty(kernel, *event);
            let event_number = search::event_number(kernel, *event);
            lower_emit(sheet, places, gates, number, event_number, ty, exp, labels)
        }
        KStmt::AwaitIn(input, target) => {
            let ty = search::input_ty(kernel, *input);
            let wait = Instr::WaitInput(*input as u16);
            lower_await(sheet, places, gates, number, wait, ty, *target, labels)
        }
        KStmt::AwaitEvent(event, target) => {
            let ty = search::event_ty(kernel, *event);
            let wait = Instr::WaitEvent(search::event_number(kernel, *event));
            lower_await(sheet, places, gates, number, wait, ty, *target, labels)
        }
        KStmt::AwaitTime(_, unit, target) => {
            lower_await_time(
                sheet,
                places,
                gates,
                number,
                time_unit(*unit),
                *target,
                labels,
            )
        }
        KStmt::Forever => lower_forever(sheet, places, gates, number, labels),
        KStmt::Do(target, _) => lower_do(sheet, places, *target, labels),
        KStmt::Escape(left, exp) => {
            let target = search::escape_target(kernel, *left);
            lower_escape(sheet, places, gates, *left, exp, target, labels)
        }
        KStmt::Break(left) => lower_leave(sheet, places, gates, *left, labels),
        KStmt::Continue(left) => lower_leave(sheet, places, gates, *left, labels),
        KStmt::If(arms, _) => lower_if(sheet, arms.items().len(), labels),
        KStmt::Loop(kind, _) => {
            let yields = search::stands_in_async(kernel, number);
            lower_loop(sheet, places, yields, number, node.pos, kind, labels)
        }
        KStmt::AwaitCode(_, _, _, _) => Ok(()),
        KStmt::Spawn(_, _, _, _) => Ok(()),
        KStmt::Kill(_) => Ok(()),
        KStmt::Unset(_) => Ok(()),
        KStmt::Async(_) => Ok(()),
        KStmt::Finalize(_) => Ok(()),
        KStmt::Par(_, _, _) => Ok(()),
    }
}
