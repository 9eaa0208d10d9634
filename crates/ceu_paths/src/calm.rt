// Loops that an event paces.
ghost use Rattle.std.specs.Prelude.{◌≡◌, not};
ghost use Rattle.std.specs.List.{list_all};
ghost use Rattle.ceu_tree.specs.Costs as spec;
ghost use Rattle.ceu_tree.specs.Costs.{calm_node, calm_arm};

use crate::turns::constant_bound;
use ceu_tree::{KArm, KBlock, KLoop, KNode, KStmt};

fn has_bound(kind: &KLoop) -> bool
    ensures { result ≡ not (spec.no_bound kind.now) }
{
    match constant_bound(kind) {
        Some(_) => true,
        None => false,
    }
}

// Whether a paced loop may hold the statement.
#[cycle(calm)]
#[tactic(auto, using(ceu_tree::proofs::CalmLaws::calms, ceu_tree::proofs::Sizes::sizes))]
fn is_calm(stmt: &KStmt) -> bool
    ensures { result ≡ spec.is_calm stmt.now }
{
    match stmt {
        KStmt::Do(_, body) => block_calm(body),
        KStmt::If(arms, last) => arms_calm(arms.items()) && block_calm(last),
        KStmt::Loop(kind, body) => has_bound(kind) && block_calm(body),
        KStmt::AwaitIn(_, _) => false,
        KStmt::AwaitTime(_, _, _) => false,
        KStmt::AwaitEvent(_, _) => false,
        KStmt::Forever => false,
        KStmt::AwaitCode(_, _, _, _) => false,
        KStmt::Spawn(_, _, _, _) => false,
        KStmt::Async(_) => false,
        KStmt::Par(_, _, _) => false,
        KStmt::Nothing => true,
        KStmt::Assign(_, _) => true,
        KStmt::Out(_, _) => true,
        KStmt::Emit(_, _) => true,
        KStmt::Kill(_) => true,
        KStmt::Unset(_) => true,
        KStmt::Finalize(_) => true,
        KStmt::Escape(_, _) => true,
        KStmt::Break(_) => true,
        KStmt::Continue(_) => true,
    }
}

#[cycle(calm)]
#[tactic(auto, using(ceu_tree::proofs::CalmLaws::calms, ceu_tree::proofs::Sizes::sizes))]
fn block_calm(block: &KBlock) -> bool
    ensures { result ≡ spec.calm_block block.now }
{
    nodes_calm(block.list.items())
}

#[cycle(calm)]
#[tactic(auto, using(ceu_tree::proofs::CalmLaws::calms, ceu_tree::proofs::Sizes::sizes))]
fn nodes_calm(nodes: &[KNode]) -> bool
    ensures { result ≡ list_all calm_node nodes.now }
{
    for node in nodes {
        if !is_calm(&node.stmt) {
            return false;
        }
    }
    true
}

#[cycle(calm)]
#[tactic(auto, using(ceu_tree::proofs::CalmLaws::calms, ceu_tree::proofs::Sizes::sizes))]
fn arm_calm(arm: &KArm) -> bool
    ensures { result ≡ calm_arm arm.now }
{
    block_calm(&arm.body)
}

#[cycle(calm)]
#[tactic(auto, using(ceu_tree::proofs::CalmLaws::calms, ceu_tree::proofs::Sizes::sizes))]
fn arms_calm(arms: &[KArm]) -> bool
    ensures { result ≡ list_all calm_arm arms.now }
{
    for arm in arms {
        if !arm_calm(arm) {
            return false;
        }
    }
    true
}

fn awaited_event(stmt: &KStmt) -> Option<u32>
    ensures { result ≡ spec.awaited_event stmt.now }
{
    match stmt {
        KStmt::AwaitEvent(event, _) => Some(*event),
        KStmt::Do(_, _) => None,
        KStmt::If(_, _) => None,
        KStmt::Loop(_, _) => None,
        KStmt::Nothing => None,
        KStmt::Assign(_, _) => None,
        KStmt::Out(_, _) => None,
        KStmt::Emit(_, _) => None,
        KStmt::AwaitIn(_, _) => None,
        KStmt::AwaitTime(_, _, _) => None,
        KStmt::Forever => None,
        KStmt::AwaitCode(_, _, _, _) => None,
        KStmt::Spawn(_, _, _, _) => None,
        KStmt::Kill(_) => None,
        KStmt::Unset(_) => None,
        KStmt::Async(_) => None,
        KStmt::Finalize(_) => None,
        KStmt::Escape(_, _) => None,
        KStmt::Break(_) => None,
        KStmt::Continue(_) => None,
        KStmt::Par(_, _, _) => None,
    }
}

fn paced_nodes(nodes: &[KNode]) -> Option<u32>
    ensures { result ≡ spec.paced_nodes nodes.now }
{
    match nodes {
        [] => None,
        [first, rest @ ..] => {
            let event = awaited_event(&first.stmt)?;
            if nodes_calm(rest) { Some(event) } else { None }
        }
    }
}

/// The event that paces a loop: it has no constant bound, its body begins with the await of the event, and the rest of its body holds no
/// await, async, par, spawn and no loop without a constant bound.
#[tactic(auto, using(ceu_tree::proofs::CalmLaws::calms))]
pub fn paced(kind: &KLoop, body: &KBlock) -> Option<u32>
    ensures { result ≡ spec.paced kind.now body.now }
{
    if has_bound(kind) {
        None
    } else {
        paced_nodes(body.list.items())
    }
}
