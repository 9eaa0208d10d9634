// Statements that hold an await, an async or a pool.
ghost use Rattle.std.specs.Prelude.{◌≡◌};
ghost use Rattle.std.specs.List.{list_any};
ghost use Rattle.ceu_tree.specs.Costs as spec;
ghost use Rattle.ceu_tree.specs.Costs.{node_waits, waiting_arm, waiting_block};
ghost use Rattle.ceu_paths.specs.Pools.{is_pool};

use ceu_tree::{KArm, KBlock, KDecl, KKind, KNode, KStmt};

fn is_pool(kind: KKind) -> bool
    ensures { result ≡ is_pool kind }
{
    match kind {
        KKind::Var(_) => false,
        KKind::Alias(_) => false,
        KKind::Pool(_, _) => true,
    }
}

#[tactic(auto, using(crate::proofs::PoolLaws::pools))]
fn has_pool(decls: &[KDecl]) -> bool
    ensures { result ≡ spec.has_pool_decl decls.now }
{
    for decl in decls {
        if is_pool(decl.kind) {
            return true;
        }
    }
    false
}

/// Whether a statement holds an await, an async or a pool.
#[cycle(waits)]
#[tactic(auto, using(ceu_tree::proofs::WaitLaws::waits, ceu_tree::proofs::Sizes::sizes))]
pub fn stands_waiting(stmt: &KStmt) -> bool
    ensures { result ≡ spec.stands_waiting stmt.now }
{
    match stmt {
        KStmt::Do(_, body) => block_waits(body),
        KStmt::If(arms, last) => arms_wait(arms.items()) || block_waits(last),
        KStmt::Loop(_, body) => block_waits(body),
        KStmt::Par(_, _, branches) => blocks_wait(branches.items()),
        KStmt::AwaitIn(_, _) => true,
        KStmt::AwaitTime(_, _, _) => true,
        KStmt::AwaitEvent(_, _) => true,
        KStmt::Forever => true,
        KStmt::AwaitCode(_, _, _, _) => true,
        KStmt::Async(_) => true,
        KStmt::Nothing => false,
        KStmt::Assign(_, _) => false,
        KStmt::Out(_, _) => false,
        KStmt::Emit(_, _) => false,
        KStmt::Spawn(_, _, _, _) => false,
        KStmt::Kill(_) => false,
        KStmt::Unset(_) => false,
        KStmt::Finalize(_) => false,
        KStmt::Escape(_, _) => false,
        KStmt::Break(_) => false,
        KStmt::Continue(_) => false,
    }
}

#[cycle(waits)]
#[tactic(auto, using(ceu_tree::proofs::WaitLaws::waits, ceu_tree::proofs::Sizes::sizes))]
fn block_waits(block: &KBlock) -> bool
    ensures { result ≡ spec.waiting_block block.now }
{
    has_pool(block.decls.items()) || nodes_wait(block.list.items())
}

#[cycle(waits)]
#[tactic(auto, using(ceu_tree::proofs::WaitLaws::waits, ceu_tree::proofs::Sizes::sizes))]
fn nodes_wait(nodes: &[KNode]) -> bool
    ensures { result ≡ list_any node_waits nodes.now }
{
    for node in nodes {
        if stands_waiting(&node.stmt) {
            return true;
        }
    }
    false
}

#[cycle(waits)]
#[tactic(auto, using(ceu_tree::proofs::WaitLaws::waits, ceu_tree::proofs::Sizes::sizes))]
fn arm_waits(arm: &KArm) -> bool
    ensures { result ≡ waiting_arm arm.now }
{
    block_waits(&arm.body)
}

#[cycle(waits)]
#[tactic(auto, using(ceu_tree::proofs::WaitLaws::waits, ceu_tree::proofs::Sizes::sizes))]
fn arms_wait(arms: &[KArm]) -> bool
    ensures { result ≡ list_any waiting_arm arms.now }
{
    for arm in arms {
        if arm_waits(arm) {
            return true;
        }
    }
    false
}

#[cycle(waits)]
#[tactic(auto, using(ceu_tree::proofs::WaitLaws::waits, ceu_tree::proofs::Sizes::sizes))]
fn blocks_wait(blocks: &[KBlock]) -> bool
    ensures { result ≡ list_any waiting_block blocks.now }
{
    for block in blocks {
        if block_waits(block) {
            return true;
        }
    }
    false
}
