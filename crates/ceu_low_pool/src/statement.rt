// The statements on code, by their kinds. Arguments are pushed in their order.
ghost use Rattle.std.specs.Prelude.{◌≡◌, ◌+◌, ◌-◌, ◌*◌, ◌<◌, ◌≤◌, ◌++◌, length, OnOk};
ghost use Rattle.ceu_shape.specs.Pieces.{Added};
ghost use Rattle.ceu_shape.specs.Plans.{plan_of};
ghost use Rattle.ceu_shape.specs.Pools as spec;
ghost use Rattle.ceu_shape.specs.Searches as search_spec;
ghost use Rattle.ceu_shape.specs.Shape.{node_draft};
ghost use Rattle.ceu_tree.specs.Weight.{weight};
ghost use Rattle.ceu_low_pool.specs.Conditions.{AliasFits, HasParts, HasRoom, IsPool, StmtFits, TargetFits, part_count, planned};

use crate::search;
use crate::words::{add_all, add_keep, add_part, goto, move_to};
use ceu_asm::{Labels, Line, Sheet};
use ceu_base::{Pos, Ty};
use ceu_code::Instr;
use ceu_gates::GatePlan;
use ceu_slots::Places;
use ceu_tree::{KNode, KStmt, Kernel, Loc};
use std::alloc::AllocError;

// To each argument and back.
fn add_arguments(sheet: &mut Sheet, labels: &Labels, count: usize) -> Result<(), AllocError>
    requires { HasParts labels.now count }
    ensures { OnOk result (sheet.new ≡ record sheet.old { lines = sheet.old.lines ++ spec.argument_lines labels.now 0 count }) }
{
    for k in 0..count {
        add_part(sheet, labels, k)?;
    }
    Ok(())
}

fn lower_call<P: Places>(
    sheet: &mut Sheet,
    places: &P,
    gates: &GatePlan,
    labels: &Labels,
    node: u32,
    code: u16,
    frame: u32,
    arguments: usize,
    ty: Ty,
    target: Option<Loc>,
) -> Result<(), AllocError>
    requires node { node < length gates.now.first }
    requires frame { frame < (P.planned places.now).slot_count }
    requires target { TargetFits (P.planned places.now).slot_count target }
    requires parts { HasParts labels.now arguments }
    ensures { let plan = planned (P.planned places.now) gates.now in OnOk result (sheet.new ≡ record sheet.old { lines = sheet.old.lines ++ spec.call_lines plan node code frame arguments ty target labels.now }) }
{
    let first = gates.first.items()[node as usize];
    sheet.add(Line::Mark(labels.own))?;
    add_arguments(sheet, labels, arguments)?;
    sheet.add(Line::Plain(Instr::Call(code, places.offset(frame), first)))?;
    add_keep(sheet, places, ty, target)?;
    sheet.add(goto(labels.next))
}

// The alias, or that there is none.
fn alias_offset<P: Places>(places: &P, gates: &GatePlan, alias: Option<u32>) -> u16
    requires { AliasFits (P.planned places.now).slot_count alias }
    ensures { let plan = planned (P.planned places.now) gates.now in result ≡ spec.alias_offset plan alias }
{
    match alias {
        None => 65535,
        Some(slot) => places.offset(slot),
    }
}

fn add_spawn<P: Places>(
    sheet: &mut Sheet,
    places: &P,
    gates: &GatePlan,
    labels: &Labels,
    node: u32,
    code: u16,
    arguments: usize,
    pool: u32,
    size: u16,
    alias: Option<u32>,
    position: u16,
) -> Result<(), AllocError>
    requires node { node < length gates.now.first }
    requires pool { pool < (P.planned places.now).slot_count }
    requires alias { AliasFits (P.planned places.now).slot_count alias }
    requires parts { HasParts labels.now arguments }
    ensures { let plan = planned (P.planned places.now) gates.now in OnOk result (sheet.new ≡ record sheet.old { lines = sheet.old.lines ++ spec.spawn_lines plan node code arguments pool size alias position labels.now }) }
{
    let place = places.offset(pool);
    let other = alias_offset(places, gates, alias);
    add_all(sheet, &[Line::Mark(labels.own), move_to(gates, node)])?;
    add_arguments(sheet, labels, arguments)?;
    let spawn = Line::Plain(Instr::Spawn(code, place, size, other, position));
    add_all(sheet, &[spawn, goto(labels.next)])
}

fn lower_spawn<P: Places>(
    sheet: &mut Sheet,
    kernel: &Kernel,
    places: &P,
    gates: &GatePlan,
    labels: &Labels,
    node: u32,
    pos: Pos,
    code: u16,
    arguments: usize,
    pool: u32,
    alias: Option<u32>,
) -> Result<(), AllocError>
    requires node { node < length gates.now.first }
    requires pool { pool < (P.planned places.now).slot_count }
    requires size { search_spec.pool_size kernel.now pool ≤ 65535 }
    requires alias { AliasFits (P.planned places.now).slot_count alias }
    requires parts { HasParts labels.now arguments }
    requires room { HasRoom sheet.old }
    ensures { let plan = planned (P.planned places.now) gates.now in OnOk result (Added sheet.old sheet.new (spec.spawn_draft plan kernel.now node pos code arguments pool alias labels.now)) }
{
    let size = search::pool_size(kernel, pool);
    let position = sheet.place(pos)?;
    add_spawn(
        sheet, places, gates, labels, node, code, arguments, pool, size, alias, position,
    )
}

fn lower_kill<P: Places>(
    sheet: &mut Sheet,
    places: &P,
    gates: &GatePlan,
    labels: &Labels,
    alias: u32,
) -> Result<(), AllocError>
    requires { alias < (P.planned places.now).slot_count }
    ensures { let plan = planned (P.planned places.now) gates.now in OnOk result (sheet.new ≡ record sheet.old { lines = sheet.old.lines ++ spec.kill_lines plan alias labels.now }) }
{
    let kill = Line::Plain(Instr::Kill(places.offset(alias)));
    add_all(sheet, &[Line::Mark(labels.own), kill, goto(labels.next)])
}

// An alias that isn't set is 0.
fn lower_unset<P: Places>(
    sheet: &mut Sheet,
    places: &P,
    gates: &GatePlan,
    labels: &Labels,
    alias: u32,
) -> Result<(), AllocError>
    requires { alias < (P.planned places.now).slot_count }
    ensures { let plan = planned (P.planned places.now) gates.now in OnOk result (sheet.new ≡ record sheet.old { lines = sheet.old.lines ++ spec.unset_lines plan alias labels.now }) }
{
    let lines = [
        Line::Mark(labels.own),
        Line::Plain(Instr::Push(Ty::U64, 0)),
        Line::Plain(Instr::Store(Ty::U64, places.offset(alias))),
        goto(labels.next),
    ];
    add_all(sheet, &lines)
}

/// Adds the lines of a statement on code, without those of its arguments: they begin at the statement's own label, go to each argument and on
/// from its end, and at last to its next label. A spawn notes its position.
pub fn lower_pool<P: Places>(
    sheet: &mut Sheet,
    kernel: &Kernel,
    places: &P,
    gates: &GatePlan,
    node: &KNode,
    labels: &Labels,
) -> Result<(), AllocError>
    requires kind { IsPool node.now.stmt }
    requires fits { StmtFits (P.planned places.now).slot_count kernel.now node.now.stmt }
    requires node { node.now.node < length gates.now.first }
    requires parts { HasParts labels.now (part_count node.now.stmt) }
    requires weight { weight kernel.now ≤ 65535 }
    requires room { HasRoom sheet.old }
    ensures { let plan = plan_of (P.planned places.now).offset (P.planned places.now).frame (P.planned places.now).total gates.now.first gates.now.count in OnOk result (Added sheet.old sheet.new (node_draft plan kernel.now node.now.node node.now.pos node.now.stmt labels.now)) }
{
    let number = node.node;
    match &node.stmt {
        KStmt::AwaitCode(code, arguments, frame, target) => {
            let ty = search::result_ty(kernel, *code);
            let called = *code as u16;
            let count = arguments.items().len();
            lower_call(
                sheet, places, gates, labels, number, called, *frame, count, ty, *target,
            )
        }
        KStmt::Spawn(code, arguments, pool, alias) => {
            let spawned = *code as u16;
            let count = arguments.items().len();
            let pos = node.pos;
            lower_spawn(
                sheet, kernel, places, gates, labels, number, pos, spawned, count, *pool, *alias,
            )
        }
        KStmt::Kill(alias) => lower_kill(sheet, places, gates, labels, *alias),
        KStmt::Unset(alias) => lower_unset(sheet, places, gates, labels, *alias),
        KStmt::Nothing => Ok(()),
        KStmt::Assign(_, _) => Ok(()),
        KStmt::Out(_, _) => Ok(()),
        KStmt::Emit(_, _) => Ok(()),
        KStmt::AwaitIn(_, _) => Ok(()),
        KStmt::AwaitTime(_, _, _) => Ok(()),
        KStmt::AwaitEvent(_, _) => Ok(()),
        KStmt::Forever => Ok(()),
        KStmt::Async(_) => Ok(()),
        KStmt::Finalize(_) => Ok(()),
        KStmt::Do(_, _) => Ok(()),
        KStmt::Escape(_, _) => Ok(()),
        KStmt::Break(_) => Ok(()),
        KStmt::Continue(_) => Ok(()),
        KStmt::If(_, _) => Ok(()),
        KStmt::Loop(_, _) => Ok(()),
        KStmt::Par(_, _, _) => Ok(()),
    }
}
