// The gates of each statement and block, in the order of their numbers: a walk that gives each node its first gate on the way down and its
// count on the way up.
ghost use Rattle.std.specs.Prelude.{◌≡◌, ◌+◌, ◌<◌, ◌≤◌, ◌++◌, max, slice_set, vec_len, IfOk, OnOk};
ghost use Rattle.ceu_tree.specs.Greatest.{greatest, total};
ghost use Rattle.ceu_tree.specs.Needs as need;
ghost use Rattle.ceu_gates.specs.Ranges as spec;
ghost use Rattle.ceu_gates.specs.Ranges.{reach};

use crate::needs::{finalizers, is_finalize, pools_gates};
use ceu_tree::{KArm, KBlock, KNode, KStmt, entry};
use std::alloc::AllocError;

/// The gates of a node: the first, relative to the first gate of the frame, and how many.
#[derive(Clone, Copy)]
pub struct GateRange {
    pub node: u32,
    pub first: u32,
    pub count: u32,
}

// Puts a row in the place of the one at `at`.
fn put(rows: &mut Vec<GateRange>, at: usize, row: GateRange)
    requires { at < vec_len rows.old }
    ensures { rows.new.items ≡ slice_set rows.old.items at row }
{
    rows[at] = row;
}

fn start_of(finalizer: u32, first: u32, stmt: &KStmt) -> u32
    ensures { result ≡ spec.starts finalizer first stmt.now }
{
    match stmt {
        KStmt::Finalize(_) => finalizer,
        KStmt::AwaitCode(_, _, _, _) => first,
        KStmt::Async(_) => first,
        KStmt::Do(_, _) => first,
        KStmt::If(_, _) => first,
        KStmt::Loop(_, _) => first,
        KStmt::Par(_, _, _) => first,
        KStmt::Nothing => first,
        KStmt::Assign(_, _) => first,
        KStmt::Out(_, _) => first,
        KStmt::Emit(_, _) => first,
        KStmt::AwaitIn(_, _) => first,
        KStmt::AwaitTime(_, _, _) => first,
        KStmt::AwaitEvent(_, _) => first,
        KStmt::Forever => first,
        KStmt::Spawn(_, _, _, _) => first,
        KStmt::Kill(_) => first,
        KStmt::Unset(_) => first,
        KStmt::Escape(_, _) => first,
        KStmt::Break(_) => first,
        KStmt::Continue(_) => first,
    }
}

// The parts of a statement that starts at the gate `first`, and how many gates the statement has.
#[cycle(ranges)]
#[tactic(auto, using(crate::proofs::RangeLaws::ranges, ceu_tree::proofs::GateLaws::gate_needs, ceu_tree::proofs::Sizes::sizes, crate::proofs::Reaches::reaches))]
fn place_parts(
    gates: &[u32],
    first: u32,
    stmt: &KStmt,
    rows: &mut Vec<GateRange>,
) -> Result<u32, AllocError>
    requires { reach (spec.stmt_ranges gates.now first stmt.now) ≤ 65535 }
    ensures count { IfOk result (λ count. count ≡ need.stmt_gates gates.now stmt.now) }
    ensures rows { OnOk result (rows.new.items ≡ rows.old.items ++ spec.stmt_ranges gates.now first stmt.now) }
{
    match stmt {
        KStmt::AwaitCode(code, _, _, _) => Ok(entry(gates, *code)),
        KStmt::Async(body) => place_only(gates, first, body, rows),
        KStmt::Finalize(body) => place_only(gates, first, body, rows),
        KStmt::Do(_, body) => place_block(gates, first, body, rows),
        KStmt::If(arms, last) => place_if(gates, first, arms.items(), last, rows),
        KStmt::Loop(_, body) => place_block(gates, first, body, rows),
        KStmt::Par(_, _, branches) => place_branches(gates, first, branches.items(), rows),
        KStmt::Nothing => Ok(1),
        KStmt::Assign(_, _) => Ok(1),
        KStmt::Out(_, _) => Ok(1),
        KStmt::Emit(_, _) => Ok(1),
        KStmt::AwaitIn(_, _) => Ok(1),
        KStmt::AwaitTime(_, _, _) => Ok(1),
        KStmt::AwaitEvent(_, _) => Ok(1),
        KStmt::Forever => Ok(1),
        KStmt::Spawn(_, _, _, _) => Ok(1),
        KStmt::Kill(_) => Ok(1),
        KStmt::Unset(_) => Ok(1),
        KStmt::Escape(_, _) => Ok(1),
        KStmt::Break(_) => Ok(1),
        KStmt::Continue(_) => Ok(1),
    }
}

// The body of an async or of a finalizer, which have one gate.
#[cycle(ranges)]
#[tactic(auto, using(ceu_tree::proofs::Sizes::sizes))]
fn place_only(
    gates: &[u32],
    first: u32,
    body: &KBlock,
    rows: &mut Vec<GateRange>,
) -> Result<u32, AllocError>
    requires { reach (spec.block_ranges gates.now first body.now) ≤ 65535 }
    ensures count { IfOk result (λ count. count ≡ 1) }
    ensures rows { OnOk result (rows.new.items ≡ rows.old.items ++ spec.block_ranges gates.now first body.now) }
{
    place_block(gates, first, body, rows)?;
    Ok(1)
}

#[cycle(ranges)]
#[tactic(auto, using(ceu_tree::proofs::Sizes::sizes, crate::proofs::Reaches::reaches))]
fn place_if(
    gates: &[u32],
    first: u32,
    arms: &[KArm],
    last: &KBlock,
    rows: &mut Vec<GateRange>,
) -> Result<u32, AllocError>
    requires { reach (spec.arm_list_ranges gates.now first arms.now ++ spec.block_ranges gates.now first last.now) ≤ 65535 }
    ensures count { IfOk result (λ count. count ≡ max (greatest (need.arm_gates gates.now) arms.now) (need.block_gates gates.now last.now)) }
    ensures rows { OnOk result (rows.new.items ≡ rows.old.items ++ (spec.arm_list_ranges gates.now first arms.now ++ spec.block_ranges gates.now first last.now)) }
{
    let most = place_arms(gates, first, arms, rows)?;
    let count = place_block(gates, first, last, rows)?;
    Ok(most.max(count))
}

#[cycle(ranges)]
#[tactic(auto, using(crate::proofs::RangeLaws::ranges, ceu_tree::proofs::GateLaws::gate_needs, ceu_tree::proofs::Sizes::sizes, crate::proofs::Reaches::reaches))]
pub fn place_block(
    gates: &[u32],
    first: u32,
    block: &KBlock,
    rows: &mut Vec<GateRange>,
) -> Result<u32, AllocError>
    requires { reach (spec.block_ranges gates.now first block.now) ≤ 65535 }
    ensures count { IfOk result (λ count. count ≡ need.block_gates gates.now block.now) }
    ensures rows { OnOk result (rows.new.items ≡ rows.old.items ++ spec.block_ranges gates.now first block.now) }
{
    let node = block.node;
    let nodes = block.list.items();
    let own = finalizers(nodes).saturating_add(pools_gates(gates, block.decls.items()));
    let base = first.saturating_add(own);
    let at = rows.len();
    rows.push(GateRange {
        node,
        first,
        count: 0,
    })?;
    let most = place_nodes(gates, first, base, nodes, rows)?;
    let count = own.saturating_add(most).max(1);
    put(rows, at, GateRange { node, first, count });
    Ok(count)
}

// The next finalizer has the gate `finalizer`, every other statement starts at `first`. Answers the greatest count of a statement.
#[cycle(ranges)]
#[tactic(auto, using(ceu_tree::proofs::Sizes::sizes, crate::proofs::Reaches::reaches))]
fn place_nodes(
    gates: &[u32],
    finalizer: u32,
    first: u32,
    nodes: &[KNode],
    rows: &mut Vec<GateRange>,
) -> Result<u32, AllocError>
    requires { reach (spec.list_ranges gates.now finalizer first nodes.now) ≤ 65535 }
    ensures count { IfOk result (λ count. count ≡ greatest (need.node_gates gates.now) nodes.now) }
    ensures rows { OnOk result (rows.new.items ≡ rows.old.items ++ spec.list_ranges gates.now finalizer first nodes.now) }
{
    let mut most = 0;
    let mut next = finalizer;
    for node in nodes {
        let start = start_of(next, first, &node.stmt);
        next = next.saturating_add(is_finalize(&node.stmt));
        most = most.max(place_node(gates, start, node, rows)?);
    }
    Ok(most)
}

#[cycle(ranges)]
#[tactic(auto, using(ceu_tree::proofs::Sizes::sizes, crate::proofs::Reaches::reaches))]
fn place_node(
    gates: &[u32],
    first: u32,
    node: &KNode,
    rows: &mut Vec<GateRange>,
) -> Result<u32, AllocError>
    requires { reach (spec.node_ranges gates.now first node.now) ≤ 65535 }
    ensures count { IfOk result (λ count. count ≡ need.node_gates gates.now node.now) }
    ensures rows { OnOk result (rows.new.items ≡ rows.old.items ++ spec.node_ranges gates.now first node.now) }
{
    let number = node.node;
    let at = rows.len();
    rows.push(GateRange {
        node: number,
        first,
        count: 0,
    })?;
    let count = place_parts(gates, first, &node.stmt, rows)?;
    put(
        rows,
        at,
        GateRange {
            node: number,
            first,
            count,
        },
    );
    Ok(count)
}

#[cycle(ranges)]
#[tactic(auto, using(crate::proofs::RangeLaws::ranges, ceu_tree::proofs::GateLaws::gate_needs, ceu_tree::proofs::Sizes::sizes))]
fn place_arm(
    gates: &[u32],
    first: u32,
    arm: &KArm,
    rows: &mut Vec<GateRange>,
) -> Result<u32, AllocError>
    requires { reach (spec.arm_ranges gates.now first arm.now) ≤ 65535 }
    ensures count { IfOk result (λ count. count ≡ need.arm_gates gates.now arm.now) }
    ensures rows { OnOk result (rows.new.items ≡ rows.old.items ++ spec.arm_ranges gates.now first arm.now) }
{
    place_block(gates, first, &arm.body, rows)
}

#[cycle(ranges)]
#[tactic(auto, using(ceu_tree::proofs::Sizes::sizes, crate::proofs::Reaches::reaches))]
fn place_arms(
    gates: &[u32],
    first: u32,
    arms: &[KArm],
    rows: &mut Vec<GateRange>,
) -> Result<u32, AllocError>
    requires { reach (spec.arm_list_ranges gates.now first arms.now) ≤ 65535 }
    ensures count { IfOk result (λ count. count ≡ greatest (need.arm_gates gates.now) arms.now) }
    ensures rows { OnOk result (rows.new.items ≡ rows.old.items ++ spec.arm_list_ranges gates.now first arms.now) }
{
    let mut most = 0;
    for arm in arms {
        most = most.max(place_arm(gates, first, arm, rows)?);
    }
    Ok(most)
}

// The branches stand side by side. Answers the sum of their counts.
#[cycle(ranges)]
#[tactic(auto, using(ceu_tree::proofs::Sizes::sizes, crate::proofs::Reaches::reaches))]
fn place_branches(
    gates: &[u32],
    first: u32,
    branches: &[KBlock],
    rows: &mut Vec<GateRange>,
) -> Result<u32, AllocError>
    requires { reach (spec.block_list_ranges gates.now first branches.now) ≤ 65535 }
    ensures count { IfOk result (λ count. count ≡ total (need.block_gates gates.now) branches.now) }
    ensures rows { OnOk result (rows.new.items ≡ rows.old.items ++ spec.block_list_ranges gates.now first branches.now) }
{
    let mut sum = 0u32;
    for branch in branches {
        let count = place_block(gates, first.saturating_add(sum), branch, rows)?;
        sum = sum.saturating_add(count);
    }
    Ok(sum)
}
