// The gates that a program takes. Each code's body is counted once, in the order of the codes, since a code uses only codes above it.
// All numbers are cut at 4,294,967,295.
ghost use Rattle.std.specs.Prelude.{◌≡◌, [], map, IfOk};
ghost use Rattle.ceu_tree.specs.Cut.{cut};
ghost use Rattle.ceu_tree.specs.Greatest.{greatest, total};
ghost use Rattle.ceu_tree.specs.Needs as spec;

use ceu_tree::{KArm, KBlock, KCode, KDecl, KKind, KNode, KStmt, Kernel, entry};
use std::alloc::{AllocError, Global};

#[tactic(auto, using(ceu_tree::proofs::CutLaws::cuts))]
fn pool_gates(gates: &[u32], kind: KKind) -> u32
    ensures { result ≡ cut (spec.pool_gates gates.now kind) }
{
    match kind {
        KKind::Var(_) => 0,
        KKind::Alias(_) => 0,
        KKind::Pool(places, code) => places.saturating_mul(entry(gates, code)),
    }
}

pub fn pools_gates(gates: &[u32], decls: &[KDecl]) -> u32
    ensures { result ≡ cut (spec.pools_gates gates.now decls.now) }
{
    let mut count = 0u32;
    for decl in decls {
        count = count.saturating_add(pool_gates(gates, decl.kind));
    }
    count
}

pub fn is_finalize(stmt: &KStmt) -> u32
    ensures { result ≡ spec.finalizers stmt.now }
{
    match stmt {
        KStmt::Finalize(_) => 1,
        KStmt::AwaitCode(_, _, _, _) => 0,
        KStmt::Async(_) => 0,
        KStmt::Do(_, _) => 0,
        KStmt::If(_, _) => 0,
        KStmt::Loop(_, _) => 0,
        KStmt::Par(_, _, _) => 0,
        KStmt::Nothing => 0,
        KStmt::Assign(_, _) => 0,
        KStmt::Out(_, _) => 0,
        KStmt::Emit(_, _) => 0,
        KStmt::AwaitIn(_, _) => 0,
        KStmt::AwaitTime(_, _, _) => 0,
        KStmt::AwaitEvent(_, _) => 0,
        KStmt::Forever => 0,
        KStmt::Spawn(_, _, _, _) => 0,
        KStmt::Kill(_) => 0,
        KStmt::Unset(_) => 0,
        KStmt::Escape(_, _) => 0,
        KStmt::Break(_) => 0,
        KStmt::Continue(_) => 0,
    }
}

// The finalizers of a list.
pub fn finalizers(nodes: &[KNode]) -> u32
    ensures { result ≡ cut (total spec.node_finalizers nodes.now) }
{
    let mut count = 0u32;
    for node in nodes {
        count = count.saturating_add(is_finalize(&node.stmt));
    }
    count
}

#[cycle(need)]
#[tactic(auto, using(ceu_tree::proofs::GateLaws::gate_needs, ceu_tree::proofs::Sizes::sizes, ceu_tree::proofs::CutLaws::cuts, crate::proofs::GateSums::sums))]
fn stmt_gates(gates: &[u32], stmt: &KStmt) -> u32
    ensures { result ≡ cut (spec.stmt_gates gates.now stmt.now) }
{
    match stmt {
        KStmt::AwaitCode(code, _, _, _) => entry(gates, *code),
        KStmt::Do(_, body) => block_gates(gates, body),
        KStmt::If(arms, last) => arms_gates(gates, arms.items()).max(block_gates(gates, last)),
        KStmt::Loop(_, body) => block_gates(gates, body),
        KStmt::Par(_, _, branches) => branches_gates(gates, branches.items()),
        KStmt::Async(_) => 1,
        KStmt::Nothing => 1,
        KStmt::Assign(_, _) => 1,
        KStmt::Out(_, _) => 1,
        KStmt::Emit(_, _) => 1,
        KStmt::AwaitIn(_, _) => 1,
        KStmt::AwaitTime(_, _, _) => 1,
        KStmt::AwaitEvent(_, _) => 1,
        KStmt::Forever => 1,
        KStmt::Spawn(_, _, _, _) => 1,
        KStmt::Kill(_) => 1,
        KStmt::Unset(_) => 1,
        KStmt::Finalize(_) => 1,
        KStmt::Escape(_, _) => 1,
        KStmt::Break(_) => 1,
        KStmt::Continue(_) => 1,
    }
}

#[cycle(need)]
#[tactic(auto, using(ceu_tree::proofs::GateLaws::gate_needs, ceu_tree::proofs::Sizes::sizes, ceu_tree::proofs::CutLaws::cuts, crate::proofs::GateSums::sums))]
fn block_gates(gates: &[u32], block: &KBlock) -> u32
    ensures { result ≡ cut (spec.block_gates gates.now block.now) }
{
    let nodes = block.list.items();
    let own = finalizers(nodes).saturating_add(pools_gates(gates, block.decls.items()));
    own.saturating_add(nodes_gates(gates, nodes)).max(1)
}

#[cycle(need)]
#[tactic(auto, using(ceu_tree::proofs::GateLaws::gate_needs, ceu_tree::proofs::Sizes::sizes, ceu_tree::proofs::CutLaws::cuts, crate::proofs::GateSums::sums))]
fn nodes_gates(gates: &[u32], nodes: &[KNode]) -> u32
    ensures { result ≡ cut (greatest (spec.node_gates gates.now) nodes.now) }
{
    let mut most = 0;
    for node in nodes {
        most = most.max(stmt_gates(gates, &node.stmt));
    }
    most
}

#[cycle(need)]
#[tactic(auto, using(ceu_tree::proofs::GateLaws::gate_needs, ceu_tree::proofs::Sizes::sizes, ceu_tree::proofs::CutLaws::cuts, crate::proofs::GateSums::sums))]
fn arm_gates(gates: &[u32], arm: &KArm) -> u32
    ensures { result ≡ cut (spec.arm_gates gates.now arm.now) }
{
    block_gates(gates, &arm.body)
}

#[cycle(need)]
#[tactic(auto, using(ceu_tree::proofs::GateLaws::gate_needs, ceu_tree::proofs::Sizes::sizes, ceu_tree::proofs::CutLaws::cuts, crate::proofs::GateSums::sums))]
fn arms_gates(gates: &[u32], arms: &[KArm]) -> u32
    ensures { result ≡ cut (greatest (spec.arm_gates gates.now) arms.now) }
{
    let mut most = 0;
    for arm in arms {
        most = most.max(arm_gates(gates, arm));
    }
    most
}

#[cycle(need)]
#[tactic(auto, using(ceu_tree::proofs::GateLaws::gate_needs, ceu_tree::proofs::Sizes::sizes, ceu_tree::proofs::CutLaws::cuts, crate::proofs::GateSums::sums))]
fn branches_gates(gates: &[u32], branches: &[KBlock]) -> u32
    ensures { result ≡ cut (total (spec.block_gates gates.now) branches.now) }
{
    let mut count = 0u32;
    for branch in branches {
        count = count.saturating_add(block_gates(gates, branch));
    }
    count
}

// The gates of each code's body, by its number.
fn gates_of(alloc: Global, codes: &[KCode]) -> Result<Vec<u32>, AllocError>
    ensures { IfOk result (λ gates. gates.items ≡ map cut (spec.gates_from [] codes.now)) }
{
    let mut gates = Vec::new(alloc);
    for code in codes {
        let count = block_gates(&gates, &code.body);
        gates.push(count)?;
    }
    Ok(gates)
}

/// The gates that a program takes; 4,294,967,295 where they are that many or more.
pub fn gate_need(alloc: Global, kernel: &Kernel) -> Result<u32, AllocError>
    ensures { IfOk result (λ need. need ≡ cut (spec.gates kernel.now)) }
{
    let gates = gates_of(alloc, kernel.codes.items())?;
    Ok(block_gates(&gates, &kernel.body).max(ceu_tree::greatest(&gates)))
}
