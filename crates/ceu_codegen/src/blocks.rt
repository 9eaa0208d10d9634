// Statements with their parts, and blocks.
ghost use Rattle.std.specs.Prelude.{◌≡◌, ◌+◌, ◌*◌, ◌<◌, ◌≤◌, length, OnOk};
ghost use Rattle.ceu_tree.specs.Greatest.{total};
ghost use Rattle.ceu_tree.specs.Weight.{block_weight, branch_weight, node_weight};
ghost use Rattle.ceu_shape.specs.Pieces.{Added};
ghost use Rattle.ceu_shape.specs.Shape.{arm_parts, block_draft, expression_count, parts_draft};
ghost use Rattle.ceu_low_expr.specs.Conditions.{HasRoom};
ghost use Rattle.ceu_codegen.specs.Conditions.{ArmFits, BlockFits, NodeFits, PartsFit, Ready, planned};
ghost use Rattle.ceu_codegen.specs.Lists as lists;
ghost use Rattle.ceu_codegen.specs.Rooms.{arm_room, parts_room};

use crate::expressions::{lower_all, lower_part, lower_part_if, lower_turns};
use crate::labels::{expression_count, labels_of};
use crate::own::{begin_block, end_block};
use crate::pools::Pool;
use crate::statement::lower_stmt;
use crate::words::{end_label, goto, take_labels};
use ceu_asm::{Line, Sheet};
use ceu_gates::GatePlan;
use ceu_slots::Places;
use ceu_tree::{KArm, KBlock, KNode, KStmt, Kernel};
use std::alloc::{AllocError, Global};

/// Adds the lines of a block, from its own label on up to where it has ended.
#[cycle(blocks)]
pub fn lower_block<P: Places>(
    sheet: &mut Sheet,
    alloc: Global,
    kernel: &Kernel,
    places: &P,
    gates: &GatePlan,
    pools: &[Pool],
    block: &KBlock,
) -> Result<(), AllocError>
    requires ready { Ready (P.planned places.now) gates.now kernel.now pools.now }
    requires fits { BlockFits (P.planned places.now) gates.now kernel.now block.now }
    requires room { HasRoom sheet.old (block_weight block.now) }
    ensures { OnOk result (Added sheet.old sheet.new (block_draft (planned (P.planned places.now) gates.now) kernel.now block.now)) }
{
    begin_block(sheet, kernel, places, gates, pools, block)?;
    lower_nodes(
        sheet,
        alloc,
        kernel,
        places,
        gates,
        pools,
        block.list.items(),
    )?;
    end_block(sheet, kernel, places, gates, block)
}

// A block that is a part goes to its end.
#[cycle(blocks)]
fn lower_branch<P: Places>(
    sheet: &mut Sheet,
    alloc: Global,
    kernel: &Kernel,
    places: &P,
    gates: &GatePlan,
    pools: &[Pool],
    block: &KBlock,
) -> Result<(), AllocError>
    requires ready { Ready (P.planned places.now) gates.now kernel.now pools.now }
    requires fits { BlockFits (P.planned places.now) gates.now kernel.now block.now }
    requires room { HasRoom sheet.old (block_weight block.now) }
    ensures { OnOk result (Added sheet.old sheet.new (lists.branch_draft (planned (P.planned places.now) gates.now) kernel.now block.now)) }
{
    lower_block(sheet, alloc, kernel, places, gates, pools, block)?;
    sheet.add(goto(end_label(block.node)))
}

// The statements of a block, one after the other.
#[cycle(blocks)]
fn lower_nodes<P: Places>(
    sheet: &mut Sheet,
    alloc: Global,
    kernel: &Kernel,
    places: &P,
    gates: &GatePlan,
    pools: &[Pool],
    nodes: &[KNode],
) -> Result<(), AllocError>
    requires ready { Ready (P.planned places.now) gates.now kernel.now pools.now }
    requires fits { lists.NodeListFits (P.planned places.now) gates.now kernel.now nodes.now }
    requires room { HasRoom sheet.old (total node_weight nodes.now) }
    ensures { OnOk result (Added sheet.old sheet.new (lists.node_list_draft (planned (P.planned places.now) gates.now) kernel.now nodes.now)) }
{
    for node in nodes {
        lower_node(sheet, alloc, kernel, places, gates, pools, node)?;
    }
    Ok(())
}

// A statement takes the labels of its expressions first; behind its lines and its parts stands its end.
#[cycle(blocks)]
fn lower_node<P: Places>(
    sheet: &mut Sheet,
    alloc: Global,
    kernel: &Kernel,
    places: &P,
    gates: &GatePlan,
    pools: &[Pool],
    node: &KNode,
) -> Result<(), AllocError>
    requires ready { Ready (P.planned places.now) gates.now kernel.now pools.now }
    requires fits { NodeFits (P.planned places.now).slot_count (length gates.now.first) kernel.now node.now.node node.now.stmt }
    requires parts { PartsFit (P.planned places.now) gates.now kernel.now node.now.stmt }
    requires room { HasRoom sheet.old (node_weight node.now) }
    ensures { OnOk result (Added sheet.old sheet.new (lists.one_draft (planned (P.planned places.now) gates.now) kernel.now node.now)) }
{
    let fresh = take_labels(sheet, 2 * expression_count(&node.stmt));
    let labels = labels_of(alloc, fresh, node)?;
    lower_stmt(sheet, kernel, places, gates, pools, node, &labels)?;
    lower_parts(
        sheet, alloc, kernel, places, gates, pools, &node.stmt, fresh,
    )?;
    sheet.add(Line::Mark(end_label(node.node)))
}

// The parts of a statement, whose expressions have the labels from `begin` on.
#[cycle(blocks)]
fn lower_parts<P: Places>(
    sheet: &mut Sheet,
    alloc: Global,
    kernel: &Kernel,
    places: &P,
    gates: &GatePlan,
    pools: &[Pool],
    stmt: &KStmt,
    begin: u32,
) -> Result<(), AllocError>
    requires ready { Ready (P.planned places.now) gates.now kernel.now pools.now }
    requires fits { PartsFit (P.planned places.now) gates.now kernel.now stmt.now }
    requires room { HasRoom sheet.old (parts_room stmt.now) }
    requires labels { begin + 2 * expression_count stmt.now < 4294967296 }
    ensures { OnOk result (Added sheet.old sheet.new (parts_draft (planned (P.planned places.now) gates.now) kernel.now stmt.now begin)) }
{
    match stmt {
        KStmt::Assign(_, exp) => lower_part(sheet, kernel, places, gates, exp, begin),
        KStmt::Out(_, exp) => lower_part_if(sheet, kernel, places, gates, exp, begin),
        KStmt::Emit(_, exp) => lower_part_if(sheet, kernel, places, gates, exp, begin),
        KStmt::AwaitTime(exp, _, _) => lower_part(sheet, kernel, places, gates, exp, begin),
        KStmt::AwaitCode(_, exps, _, _) => {
            lower_all(sheet, kernel, places, gates, exps.items(), begin)
        }
        KStmt::Spawn(_, exps, _, _) => {
            lower_all(sheet, kernel, places, gates, exps.items(), begin)
        }
        KStmt::Escape(_, exp) => lower_part_if(sheet, kernel, places, gates, exp, begin),
        KStmt::Async(body) => lower_branch(sheet, alloc, kernel, places, gates, pools, body),
        KStmt::Finalize(body) => lower_branch(sheet, alloc, kernel, places, gates, pools, body),
        KStmt::Do(_, body) => lower_branch(sheet, alloc, kernel, places, gates, pools, body),
        KStmt::If(arms, last) => {
            lower_arms(
                sheet,
                alloc,
                kernel,
                places,
                gates,
                pools,
                arms.items(),
                begin,
            )?;
            lower_branch(sheet, alloc, kernel, places, gates, pools, last)
        }
        KStmt::Loop(kind, body) => {
            lower_turns(sheet, kernel, places, gates, kind, begin)?;
            lower_branch(sheet, alloc, kernel, places, gates, pools, body)
        }
        KStmt::Par(_, _, branches) => {
            lower_branches(sheet, alloc, kernel, places, gates, pools, branches.items())
        }
        KStmt::Nothing => Ok(()),
        KStmt::AwaitIn(_, _) => Ok(()),
        KStmt::AwaitEvent(_, _) => Ok(()),
        KStmt::Forever => Ok(()),
        KStmt::Kill(_) => Ok(()),
        KStmt::Unset(_) => Ok(()),
        KStmt::Break(_) => Ok(()),
        KStmt::Continue(_) => Ok(()),
    }
}

// The condition and the body of an arm.
#[cycle(blocks)]
fn lower_arm<P: Places>(
    sheet: &mut Sheet,
    alloc: Global,
    kernel: &Kernel,
    places: &P,
    gates: &GatePlan,
    pools: &[Pool],
    arm: &KArm,
    begin: u32,
) -> Result<(), AllocError>
    requires ready { Ready (P.planned places.now) gates.now kernel.now pools.now }
    requires fits { ArmFits (P.planned places.now) gates.now kernel.now arm.now }
    requires room { HasRoom sheet.old (arm_room arm.now) }
    requires labels { begin + 2 < 4294967296 }
    ensures { OnOk result (Added sheet.old sheet.new (arm_parts (planned (P.planned places.now) gates.now) kernel.now arm.now begin)) }
{
    lower_part(sheet, kernel, places, gates, &arm.cond, begin)?;
    lower_branch(sheet, alloc, kernel, places, gates, pools, &arm.body)
}

#[cycle(blocks)]
fn lower_arms<P: Places>(
    sheet: &mut Sheet,
    alloc: Global,
    kernel: &Kernel,
    places: &P,
    gates: &GatePlan,
    pools: &[Pool],
    arms: &[KArm],
    begin: u32,
) -> Result<(), AllocError>
    requires ready { Ready (P.planned places.now) gates.now kernel.now pools.now }
    requires fits { lists.ArmListFits (P.planned places.now) gates.now kernel.now arms.now }
    requires room { HasRoom sheet.old (total arm_room arms.now) }
    requires labels { begin + 2 * length arms.now < 4294967296 }
    ensures { OnOk result (Added sheet.old sheet.new (lists.arm_list_draft (planned (P.planned places.now) gates.now) kernel.now begin arms.now)) }
{
    let mut at = begin;
    for arm in arms {
        lower_arm(sheet, alloc, kernel, places, gates, pools, arm, at)?;
        at += 2;
    }
    Ok(())
}

#[cycle(blocks)]
fn lower_branches<P: Places>(
    sheet: &mut Sheet,
    alloc: Global,
    kernel: &Kernel,
    places: &P,
    gates: &GatePlan,
    pools: &[Pool],
    branches: &[KBlock],
) -> Result<(), AllocError>
    requires ready { Ready (P.planned places.now) gates.now kernel.now pools.now }
    requires fits { lists.BlockListFits (P.planned places.now) gates.now kernel.now branches.now }
    requires room { HasRoom sheet.old (total branch_weight branches.now) }
    ensures { OnOk result (Added sheet.old sheet.new (lists.block_list_draft (planned (P.planned places.now) gates.now) kernel.now branches.now)) }
{
    for branch in branches {
        lower_branch(sheet, alloc, kernel, places, gates, pools, branch)?;
    }
    Ok(())
}
