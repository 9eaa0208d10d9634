// The lines of one statement, without those of its parts, by the lowering call of its kind.
ghost use Rattle.std.specs.Prelude.{◌≡◌, ◌+◌, ◌*◌, ◌<◌, ◌≤◌, length, OnOk};
ghost use Rattle.ceu_shape.specs.Pieces.{Added};
ghost use Rattle.ceu_shape.specs.Shape.{node_draft};
ghost use Rattle.ceu_low_expr.specs.Conditions.{HasRoom};
ghost use Rattle.ceu_low_flow.specs.Bounds.{arms_of};
ghost use Rattle.ceu_codegen.specs.Conditions.{NodeFits, Ready, planned};
ghost use Rattle.ceu_codegen.specs.Kinds as spec;

use crate::pools::Pool;
use ceu_asm::{Labels, Sheet};
use ceu_gates::GatePlan;
use ceu_low_async::lower_async;
use ceu_low_flow::lower_flow;
use ceu_low_par::lower_par;
use ceu_low_pool::lower_pool;
use ceu_slots::Places;
use ceu_tree::{KNode, KStmt, Kernel};
use std::alloc::AllocError;

/// By which call the lines of a statement are added.
#[derive(Clone, Copy)]
pub enum Lowered {
    Flow,
    OnCode,
    Side,
    Async,
}

fn lowered_by(stmt: &KStmt) -> Lowered
    ensures { result ≡ spec.lowered_by stmt.now }
{
    match stmt {
        KStmt::AwaitCode(_, _, _, _) => Lowered::OnCode,
        KStmt::Spawn(_, _, _, _) => Lowered::OnCode,
        KStmt::Kill(_) => Lowered::OnCode,
        KStmt::Unset(_) => Lowered::OnCode,
        KStmt::Async(_) => Lowered::Async,
        KStmt::Finalize(_) => Lowered::Side,
        KStmt::Par(_, _, _) => Lowered::Side,
        KStmt::Nothing => Lowered::Flow,
        KStmt::Assign(_, _) => Lowered::Flow,
        KStmt::Out(_, _) => Lowered::Flow,
        KStmt::Emit(_, _) => Lowered::Flow,
        KStmt::AwaitIn(_, _) => Lowered::Flow,
        KStmt::AwaitTime(_, _, _) => Lowered::Flow,
        KStmt::AwaitEvent(_, _) => Lowered::Flow,
        KStmt::Forever => Lowered::Flow,
        KStmt::Do(_, _) => Lowered::Flow,
        KStmt::Escape(_, _) => Lowered::Flow,
        KStmt::Break(_) => Lowered::Flow,
        KStmt::Continue(_) => Lowered::Flow,
        KStmt::If(_, _) => Lowered::Flow,
        KStmt::Loop(_, _) => Lowered::Flow,
    }
}

/// Adds the lines of a statement, without those of its parts.
pub fn lower_stmt<P: Places>(
    sheet: &mut Sheet,
    kernel: &Kernel,
    places: &P,
    gates: &GatePlan,
    pools: &[Pool],
    node: &KNode,
    labels: &Labels,
) -> Result<(), AllocError>
    requires ready { Ready (P.planned places.now) gates.now kernel.now pools.now }
    requires fits { NodeFits (P.planned places.now).slot_count (length gates.now.first) kernel.now node.now.node node.now.stmt }
    requires parts { length labels.now.parts ≡ 2 * spec.parts_counted node.now.stmt }
    requires room { HasRoom sheet.old (1 + arms_of node.now.stmt) }
    ensures { OnOk result (Added sheet.old sheet.new (node_draft (planned (P.planned places.now) gates.now) kernel.now node.now.node node.now.pos node.now.stmt labels.now)) }
{
    match lowered_by(&node.stmt) {
        Lowered::Flow => lower_flow(sheet, kernel, places, gates, node, labels),
        Lowered::OnCode => lower_pool(sheet, kernel, places, gates, node, labels),
        Lowered::Side => lower_par(sheet, kernel, places, gates, node, labels),
        Lowered::Async => lower_async(sheet, kernel, places, gates, node, labels),
    }
}
