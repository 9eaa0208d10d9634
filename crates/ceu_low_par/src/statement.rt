// A par or a finalizer.
ghost use Rattle.std.specs.Prelude.{◌≡◌, ◌+◌, ◌*◌, ◌^◌, ◌<◌, ◌≤◌, ◌++◌, length, OnOk};
ghost use Rattle.ceu_shape.specs.Async.{finalizer_draft};
ghost use Rattle.ceu_shape.specs.Pieces.{Added};
ghost use Rattle.ceu_shape.specs.Plans.{plan_of};
ghost use Rattle.ceu_shape.specs.Shape.{node_draft};
ghost use Rattle.ceu_low_par.specs.Conditions.{HasParts, HasRoom, IsPar, StmtFits, label_count, part_count, planned};

use crate::kinds::lower_kind;
use crate::words::{add_all, begin, end, goto};
use ceu_asm::{Labels, Line, Sheet};
use ceu_base::Pos;
use ceu_code::Instr;
use ceu_gates::GatePlan;
use ceu_slots::Places;
use ceu_tree::{KNode, KStmt, Kernel};
use std::alloc::AllocError;

// The body is what an abort runs.
fn lower_finalizer<P: Places>(
    sheet: &mut Sheet,
    places: &P,
    gates: &GatePlan,
    labels: &Labels,
    node: u32,
    pos: Pos,
) -> Result<(), AllocError>
    requires node { node < length gates.now.first }
    requires parts { HasParts labels.now 1 }
    requires room { length sheet.old.places < 65535 }
    ensures { let plan = planned (P.planned places.now) gates.now in OnOk result (Added sheet.old sheet.new (finalizer_draft plan node pos labels.now)) }
{
    let first = gates.first.items()[node as usize];
    let position = sheet.place(pos)?;
    let lines = [
        Line::Mark(labels.own),
        Line::Jump(Instr::Register(first, 0, position), begin(labels, 0)),
        goto(labels.next),
        Line::Mark(end(labels, 0)),
        Line::Plain(Instr::EndFinalizer),
    ];
    add_all(sheet, &lines)
}

/// Adds the lines of a par or of a finalizer, without those of its parts: they begin at the statement's own label, go to the begins of its
/// parts, and on from their ends. A par/and takes two labels, and a finalizer notes its position.
pub fn lower_par<P: Places>(
    sheet: &mut Sheet,
    kernel: &Kernel,
    places: &P,
    gates: &GatePlan,
    node: &KNode,
    labels: &Labels,
) -> Result<(), AllocError>
    requires kind { IsPar node.now.stmt }
    requires fits { StmtFits (P.planned places.now).slot_count (length gates.now.first) node.now.stmt }
    requires few { (P.planned places.now).slot_count < 2 ^ 32 }
    requires node { node.now.node < length gates.now.first }
    requires counted { length gates.now.count ≡ length gates.now.first }
    requires parts { HasParts labels.now (part_count node.now.stmt) }
    requires room { HasRoom sheet.old (label_count node.now.stmt) }
    ensures { let plan = plan_of (P.planned places.now).offset (P.planned places.now).frame (P.planned places.now).total gates.now.first gates.now.count in OnOk result (Added sheet.old sheet.new (node_draft plan kernel.now node.now.node node.now.pos node.now.stmt labels.now)) }
{
    let number = node.node;
    match &node.stmt {
        KStmt::Par(kind, slot, branches) => {
            lower_kind(
                sheet,
                places,
                gates,
                labels,
                number,
                *kind,
                *slot,
                branches.items(),
            )
        }
        KStmt::Finalize(_) => lower_finalizer(sheet, places, gates, labels, number, node.pos),
        KStmt::Nothing => Ok(()),
        KStmt::Assign(_, _) => Ok(()),
        KStmt::Out(_, _) => Ok(()),
        KStmt::Emit(_, _) => Ok(()),
        KStmt::AwaitIn(_, _) => Ok(()),
        KStmt::AwaitTime(_, _, _) => Ok(()),
        KStmt::AwaitEvent(_, _) => Ok(()),
        KStmt::Forever => Ok(()),
        KStmt::AwaitCode(_, _, _, _) => Ok(()),
        KStmt::Spawn(_, _, _, _) => Ok(()),
        KStmt::Kill(_) => Ok(()),
        KStmt::Unset(_) => Ok(()),
        KStmt::Async(_) => Ok(()),
        KStmt::Do(_, _) => Ok(()),
        KStmt::Escape(_, _) => Ok(()),
        KStmt::Break(_) => Ok(()),
        KStmt::Continue(_) => Ok(()),
        KStmt::If(_, _) => Ok(()),
        KStmt::Loop(_, _) => Ok(()),
    }
}
