// What the statements need of the kernel around them.
ghost use Rattle.std.specs.Prelude.{◌≡◌, ◌<◌, ◌≤◌, length};
ghost use Rattle.ceu_shape.specs.Searches as spec;
ghost use Rattle.ceu_low_pool.specs.Lists as lists;

use ceu_base::Ty;
use ceu_tree::{KArm, KBlock, KCode, KDecl, KKind, KNode, KStmt, Kernel};

pub fn result_ty(kernel: &Kernel, code: u32) -> Ty
    requires { code < length kernel.now.codes }
    ensures { result ≡ spec.result_ty kernel.now code }
{
    kernel.codes.items()[code as usize].result
}

// ---- the size of the pool at a slot

fn decl_pool(decl: &KDecl, slot: u32) -> Option<u32>
    ensures { result ≡ lists.decl_pool slot decl.now }
{
    match decl.kind {
        KKind::Pool(size, _) => { if decl.slot == slot { Some(size) } else { None } }
        KKind::Var(_) => None,
        KKind::Alias(_) => None,
    }
}

fn decls_pool(decls: &[KDecl], slot: u32) -> Option<u32>
    ensures { result ≡ lists.decl_list_pool slot decls.now }
{
    for part in decls {
        let found = decl_pool(part, slot);
        if found.is_some() {
            return found;
        }
    }
    None
}

#[cycle(pools)]
#[tactic(auto, using(crate::proofs::Pools::pools, ceu_tree::proofs::Sizes::sizes))]
fn stmt_pool(stmt: &KStmt, slot: u32) -> Option<u32>
    ensures { result ≡ lists.stmt_pool slot stmt.now }
{
    match stmt {
        KStmt::Do(_, body) => block_pool(body, slot),
        KStmt::Async(body) => block_pool(body, slot),
        KStmt::Finalize(body) => block_pool(body, slot),
        KStmt::Loop(_, body) => block_pool(body, slot),
        KStmt::If(arms, last) => match arms_pool(arms.items(), slot) {
            Some(size) => Some(size),
            None => block_pool(last, slot),
        },
        KStmt::Par(_, _, branches) => branches_pool(branches.items(), slot),
        KStmt::Nothing => None,
        KStmt::Assign(_, _) => None,
        KStmt::Out(_, _) => None,
        KStmt::Emit(_, _) => None,
        KStmt::AwaitIn(_, _) => None,
        KStmt::AwaitTime(_, _, _) => None,
        KStmt::AwaitEvent(_, _) => None,
        KStmt::Forever => None,
        KStmt::AwaitCode(_, _, _, _) => None,
        KStmt::Spawn(_, _, _, _) => None,
        KStmt::Kill(_) => None,
        KStmt::Unset(_) => None,
        KStmt::Escape(_, _) => None,
        KStmt::Break(_) => None,
        KStmt::Continue(_) => None,
    }
}

#[cycle(pools)]
#[tactic(auto, using(crate::proofs::Pools::pools, ceu_tree::proofs::Sizes::sizes))]
fn block_pool(block: &KBlock, slot: u32) -> Option<u32>
    ensures { result ≡ lists.block_pool slot block.now }
{
    match decls_pool(block.decls.items(), slot) {
        Some(size) => Some(size),
        None => nodes_pool(block.list.items(), slot),
    }
}

#[cycle(pools)]
#[tactic(auto, using(crate::proofs::Pools::pools, ceu_tree::proofs::Sizes::sizes))]
fn nodes_pool(nodes: &[KNode], slot: u32) -> Option<u32>
    ensures { result ≡ lists.node_list_pool slot nodes.now }
{
    for part in nodes {
        let found = stmt_pool(&part.stmt, slot);
        if found.is_some() {
            return found;
        }
    }
    None
}

#[cycle(pools)]
#[tactic(auto, using(crate::proofs::Pools::pools, ceu_tree::proofs::Sizes::sizes))]
fn arm_pool(arm: &KArm, slot: u32) -> Option<u32>
    ensures { result ≡ lists.arm_pool slot arm.now }
{
    block_pool(&arm.body, slot)
}

#[cycle(pools)]
#[tactic(auto, using(crate::proofs::Pools::pools, ceu_tree::proofs::Sizes::sizes))]
fn arms_pool(arms: &[KArm], slot: u32) -> Option<u32>
    ensures { result ≡ lists.arm_list_pool slot arms.now }
{
    for part in arms {
        let found = arm_pool(part, slot);
        if found.is_some() {
            return found;
        }
    }
    None
}

#[cycle(pools)]
#[tactic(auto, using(crate::proofs::Pools::pools, ceu_tree::proofs::Sizes::sizes))]
fn branches_pool(branches: &[KBlock], slot: u32) -> Option<u32>
    ensures { result ≡ lists.block_list_pool slot branches.now }
{
    for part in branches {
        let found = block_pool(part, slot);
        if found.is_some() {
            return found;
        }
    }
    None
}

fn codes_pool(codes: &[KCode], slot: u32) -> Option<u32>
    ensures { result ≡ lists.code_list_pool slot codes.now }
{
    for part in codes {
        let found = block_pool(&part.body, slot);
        if found.is_some() {
            return found;
        }
    }
    None
}

fn found_pool(kernel: &Kernel, slot: u32) -> Option<u32>
    ensures { result ≡ spec.or_else (lists.block_pool slot kernel.now.body) (lists.code_list_pool slot kernel.now.codes) }
{
    match block_pool(&kernel.body, slot) {
        Some(size) => Some(size),
        None => codes_pool(kernel.codes.items(), slot),
    }
}

/// How many places the pool at a slot has.
#[tactic(auto, using(crate::proofs::Pools::pool_size_is))]
pub fn pool_size(kernel: &Kernel, slot: u32) -> u16
    requires { spec.pool_size kernel.now slot ≤ 65535 }
    ensures { result ≡ spec.pool_size kernel.now slot }
{
    match found_pool(kernel, slot) {
        Some(size) => size as u16,
        None => 0,
    }
}
