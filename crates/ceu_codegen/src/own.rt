// What stands around the statements of a block: the lines by which it begins and ends.
ghost use Rattle.std.specs.Prelude.{◌≡◌, ◌+◌, ◌*◌, ◌<◌, ◌≤◌, ◌++◌, length, slice_index, OnOk};
ghost use Rattle.ceu_tree.specs.Greatest.{total};
ghost use Rattle.ceu_tree.specs.Needs as need;
ghost use Rattle.ceu_shape.specs.Searches as search_spec;
ghost use Rattle.ceu_shape.specs.Shape as spec;
ghost use Rattle.ceu_codegen.specs.Conditions.{PoolFits, PoolsFit, Ready, planned};
ghost use Rattle.ceu_codegen.specs.Lists as lists;
ghost use Rattle.ceu_codegen.specs.Pools.{row_among};

use crate::pools::Pool;
use crate::words::own_label;
use ceu_asm::{Line, Sheet};
use ceu_code::Instr;
use ceu_gates::GatePlan;
use ceu_slots::Places;
use ceu_tree::{KBlock, KDecl, KKind, KNode, KStmt, Kernel};
use std::alloc::AllocError;

fn is_finalize(stmt: &KStmt) -> u32
    ensures value { result ≡ need.finalizers stmt.now }
    ensures small { result ≤ 1 }
{
    match stmt {
        KStmt::Finalize(_) => 1,
        KStmt::AwaitCode(_, _, _, _) => 0,
        KStmt::Async(_) => 0,
        KStmt::Do(_, _) => 0,
        KStmt::If(_, _) => 0,
        KStmt::Loop(_, _) => 0,
        KStmt::Par(_, _, _) => 0,
        KStmt::Nothing => 0,
        KStmt::Assign(_, _) => 0,
        KStmt::Out(_, _) => 0,
        KStmt::Emit(_, _) => 0,
        KStmt::AwaitIn(_, _) => 0,
        KStmt::AwaitTime(_, _, _) => 0,
        KStmt::AwaitEvent(_, _) => 0,
        KStmt::Forever => 0,
        KStmt::Spawn(_, _, _, _) => 0,
        KStmt::Kill(_) => 0,
        KStmt::Unset(_) => 0,
        KStmt::Escape(_, _) => 0,
        KStmt::Break(_) => 0,
        KStmt::Continue(_) => 0,
    }
}

// The finalizers of a list.
fn finalizers(nodes: &[KNode]) -> u32
    requires { total need.node_finalizers nodes.now ≤ 65535 }
    ensures { result ≡ total need.node_finalizers nodes.now }
{
    let mut count = 0;
    for node in nodes {
        count += is_finalize(&node.stmt);
    }
    count
}

fn body_node(kernel: &Kernel, code: u32) -> u32
    requires { code < length kernel.now.codes }
    ensures { result ≡ search_spec.body_node kernel.now code }
{
    kernel.codes.items()[code as usize].body.node
}

// How many gates a declaration has.
fn pool_gates<P: Places>(kernel: &Kernel, places: &P, gates: &GatePlan, decl: &KDecl) -> u32
    requires { PoolFits (P.planned places.now).slot_count (length gates.now.count) kernel.now decl.now.slot decl.now.kind }
    ensures { result ≡ spec.pool_gates (planned (P.planned places.now) gates.now) kernel.now decl.now.kind }
{
    match decl.kind {
        KKind::Var(_) => 0,
        KKind::Alias(_) => 0,
        KKind::Pool(number, code) => {
            let node = body_node(kernel, code);
            let each = gates.count.items()[node as usize];
            number * each as u32
        }
    }
}

fn pools_gates<P: Places>(kernel: &Kernel, places: &P, gates: &GatePlan, decls: &[KDecl]) -> u32
    requires fits { PoolsFit (P.planned places.now).slot_count (length gates.now.count) kernel.now decls.now }
    requires few { spec.pools_gates (planned (P.planned places.now) gates.now) kernel.now decls.now ≤ 65535 }
    ensures { result ≡ spec.pools_gates (planned (P.planned places.now) gates.now) kernel.now decls.now }
{
    let mut count = 0;
    for decl in decls {
        count += pool_gates(kernel, places, gates, decl);
    }
    count
}

// How many pools stand before the one at a slot.
fn row_of(pools: &[Pool], slot: u32) -> u16
    requires { length pools.now ≤ 65535 }
    ensures { result ≡ row_among slot pools.now }
{
    let mut row: u16 = 0;
    for pool in pools {
        if pool.slot == slot {
            return row;
        }
        row += 1;
    }
    row
}

fn add_pool<P: Places>(
    sheet: &mut Sheet,
    kernel: &Kernel,
    places: &P,
    gates: &GatePlan,
    pools: &[Pool],
    decl: &KDecl,
    first: u32,
) -> Result<(), AllocError>
    requires ready { Ready (P.planned places.now) gates.now kernel.now pools.now }
    requires fits { PoolFits (P.planned places.now).slot_count (length gates.now.count) kernel.now decl.now.slot decl.now.kind }
    requires first { first ≤ 65535 }
    ensures { OnOk result (sheet.new ≡ record sheet.old { lines = sheet.old.lines ++ spec.pool_line (planned (P.planned places.now) gates.now) kernel.now first decl.now.slot decl.now.kind }) }
{
    match decl.kind {
        KKind::Var(_) => Ok(()),
        KKind::Alias(_) => Ok(()),
        KKind::Pool(number, _) => {
            let offset = places.offset(decl.slot);
            let row = row_of(pools, decl.slot);
            let line = Instr::MakePool(offset, number as u16, row, first as u16);
            sheet.add(Line::Plain(line))
        }
    }
}

// The free places of the pools, from a gate on.
fn add_pools<P: Places>(
    sheet: &mut Sheet,
    kernel: &Kernel,
    places: &P,
    gates: &GatePlan,
    pools: &[Pool],
    decls: &[KDecl],
    first: u32,
) -> Result<(), AllocError>
    requires ready { Ready (P.planned places.now) gates.now kernel.now pools.now }
    requires fits { PoolsFit (P.planned places.now).slot_count (length gates.now.count) kernel.now decls.now }
    requires few { first + spec.pools_gates (planned (P.planned places.now) gates.now) kernel.now decls.now ≤ 65535 }
    ensures { OnOk result (sheet.new ≡ record sheet.old { lines = sheet.old.lines ++ spec.pool_lines (planned (P.planned places.now) gates.now) kernel.now first decls.now }) }
{
    let mut at = first;
    for decl in decls {
        add_pool(sheet, kernel, places, gates, pools, decl, at)?;
        at += pool_gates(kernel, places, gates, decl);
    }
    Ok(())
}

// A block that has gates of its own and some statement moves the trail behind them.
fn add_move<P: Places>(
    sheet: &mut Sheet,
    kernel: &Kernel,
    places: &P,
    first: u32,
    own: u32,
    nodes: &[KNode],
    gates: &GatePlan,
    node: u32,
) -> Result<(), AllocError>
    requires first { first ≡ slice_index gates.now.first node }
    requires few { first + own ≤ 65535 }
    ensures { OnOk result (sheet.new ≡ record sheet.old { lines = sheet.old.lines ++ lists.move_list (planned (P.planned places.now) gates.now) kernel.now node own nodes.now }) }
{
    if own == 0 || nodes.is_empty() {
        return Ok(());
    }
    sheet.add(Line::Plain(Instr::Move((first + own) as u16)))
}

/// A block begins at its own label.
pub fn begin_block<P: Places>(
    sheet: &mut Sheet,
    kernel: &Kernel,
    places: &P,
    gates: &GatePlan,
    pools: &[Pool],
    block: &KBlock,
) -> Result<(), AllocError>
    requires ready { Ready (P.planned places.now) gates.now kernel.now pools.now }
    requires fits { lists.BlockOwnFits (P.planned places.now) gates.now kernel.now block.now }
    ensures { OnOk result (sheet.new ≡ record sheet.old { lines = sheet.old.lines ++ lists.begin_of_block (planned (P.planned places.now) gates.now) kernel.now block.now }) }
{
    let nodes = block.list.items();
    let decls = block.decls.items();
    let first = gates.first.items()[block.node as usize] as u32;
    let before = finalizers(nodes);
    let own = before + pools_gates(kernel, places, gates, decls);
    sheet.add(Line::Mark(own_label(block.node)))?;
    add_move(sheet, kernel, places, first, own, nodes, gates, block.node)?;
    add_pools(sheet, kernel, places, gates, pools, decls, first + before)
}

/// At its end its own gates are aborted.
pub fn end_block<P: Places>(
    sheet: &mut Sheet,
    kernel: &Kernel,
    places: &P,
    gates: &GatePlan,
    block: &KBlock,
) -> Result<(), AllocError>
    requires counted { length gates.now.count ≡ length gates.now.first }
    requires fits { lists.BlockOwnFits (P.planned places.now) gates.now kernel.now block.now }
    ensures { OnOk result (sheet.new ≡ record sheet.old { lines = sheet.old.lines ++ lists.end_of_block (planned (P.planned places.now) gates.now) kernel.now block.now }) }
{
    let first = gates.first.items()[block.node as usize];
    let before = finalizers(block.list.items());
    let own = before + pools_gates(kernel, places, gates, block.decls.items());
    if own == 0 {
        return Ok(());
    }
    sheet.add(Line::Plain(Instr::AbortGates(first, own as u16)))
}
