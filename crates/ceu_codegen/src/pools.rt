// The pools of a kernel, in the order of their slots.
ghost use Rattle.std.specs.Prelude.{◌≡◌, ◌<◌, ◌≤◌, ◌++◌, map, length, OnOk, IfOk};
ghost use Rattle.ceu_shape.specs.Searches as search_spec;
ghost use Rattle.ceu_codegen.specs.Pools as spec;

use ceu_tree::{KArm, KBlock, KCode, KDecl, KKind, KNode, KStmt, Kernel};
use std::alloc::{AllocError, Global};

/// A pool: its slot, and the code of its places.
#[derive(Clone, Copy)]
pub struct Pool {
    pub slot: u32,
    pub code: u32,
}

fn add_decl(pools: &mut Vec<Pool>, decl: &KDecl) -> Result<(), AllocError>
    ensures { OnOk result (pools.new.items ≡ pools.old.items ++ spec.decl_own decl.now) }
{
    match decl.kind {
        KKind::Pool(_, code) => {
            let slot = decl.slot;
            pools.push(Pool { slot, code })?;
            Ok(())
        }
        KKind::Var(_) => Ok(()),
        KKind::Alias(_) => Ok(()),
    }
}

fn add_decls(pools: &mut Vec<Pool>, decls: &[KDecl]) -> Result<(), AllocError>
    ensures { OnOk result (pools.new.items ≡ pools.old.items ++ spec.decl_list_own decls.now) }
{
    for part in decls {
        add_decl(pools, part)?;
    }
    Ok(())
}

#[cycle(collecting)]
#[tactic(auto, using(crate::proofs::Collected::collected, ceu_tree::proofs::Sizes::sizes))]
fn add_stmt(pools: &mut Vec<Pool>, stmt: &KStmt) -> Result<(), AllocError>
    ensures { OnOk result (pools.new.items ≡ pools.old.items ++ spec.stmt_own stmt.now) }
{
    match stmt {
        KStmt::Do(_, body) => add_block(pools, body),
        KStmt::Async(body) => add_block(pools, body),
        KStmt::Finalize(body) => add_block(pools, body),
        KStmt::Loop(_, body) => add_block(pools, body),
        KStmt::If(arms, last) => {
            add_arms(pools, arms.items())?;
            add_block(pools, last)
        }
        KStmt::Par(_, _, branches) => add_branches(pools, branches.items()),
        KStmt::Nothing => Ok(()),
        KStmt::Assign(_, _) => Ok(()),
        KStmt::Out(_, _) => Ok(()),
        KStmt::Emit(_, _) => Ok(()),
        KStmt::AwaitIn(_, _) => Ok(()),
        KStmt::AwaitTime(_, _, _) => Ok(()),
        KStmt::AwaitEvent(_, _) => Ok(()),
        KStmt::Forever => Ok(()),
        KStmt::AwaitCode(_, _, _, _) => Ok(()),
        KStmt::Spawn(_, _, _, _) => Ok(()),
        KStmt::Kill(_) => Ok(()),
        KStmt::Unset(_) => Ok(()),
        KStmt::Escape(_, _) => Ok(()),
        KStmt::Break(_) => Ok(()),
        KStmt::Continue(_) => Ok(()),
    }
}

#[cycle(collecting)]
#[tactic(auto, using(crate::proofs::Collected::collected, ceu_tree::proofs::Sizes::sizes))]
fn add_block(pools: &mut Vec<Pool>, block: &KBlock) -> Result<(), AllocError>
    ensures { OnOk result (pools.new.items ≡ pools.old.items ++ spec.block_own block.now) }
{
    add_decls(pools, block.decls.items())?;
    add_nodes(pools, block.list.items())
}

#[cycle(collecting)]
#[tactic(auto, using(crate::proofs::Collected::collected, ceu_tree::proofs::Sizes::sizes))]
fn add_nodes(pools: &mut Vec<Pool>, nodes: &[KNode]) -> Result<(), AllocError>
    ensures { OnOk result (pools.new.items ≡ pools.old.items ++ spec.node_list_own nodes.now) }
{
    for part in nodes {
        add_stmt(pools, &part.stmt)?;
    }
    Ok(())
}

#[cycle(collecting)]
#[tactic(auto, using(crate::proofs::Collected::collected, ceu_tree::proofs::Sizes::sizes))]
fn add_arm(pools: &mut Vec<Pool>, arm: &KArm) -> Result<(), AllocError>
    ensures { OnOk result (pools.new.items ≡ pools.old.items ++ spec.arm_own arm.now) }
{
    add_block(pools, &arm.body)
}

#[cycle(collecting)]
#[tactic(auto, using(crate::proofs::Collected::collected, ceu_tree::proofs::Sizes::sizes))]
fn add_arms(pools: &mut Vec<Pool>, arms: &[KArm]) -> Result<(), AllocError>
    ensures { OnOk result (pools.new.items ≡ pools.old.items ++ spec.arm_list_own arms.now) }
{
    for part in arms {
        add_arm(pools, part)?;
    }
    Ok(())
}

#[cycle(collecting)]
#[tactic(auto, using(crate::proofs::Collected::collected, ceu_tree::proofs::Sizes::sizes))]
fn add_branches(pools: &mut Vec<Pool>, branches: &[KBlock]) -> Result<(), AllocError>
    ensures { OnOk result (pools.new.items ≡ pools.old.items ++ spec.block_list_own branches.now) }
{
    for part in branches {
        add_block(pools, part)?;
    }
    Ok(())
}

fn add_codes(pools: &mut Vec<Pool>, codes: &[KCode]) -> Result<(), AllocError>
    ensures { OnOk result (pools.new.items ≡ pools.old.items ++ spec.code_list_own codes.now) }
{
    for part in codes {
        add_block(pools, &part.body)?;
    }
    Ok(())
}

/// The pools of a kernel, in the order of their slots.
#[tactic(auto, using(crate::proofs::Collected::kernel_collected))]
pub fn pools_of(alloc: Global, kernel: &Kernel) -> Result<Vec<Pool>, AllocError>
    ensures { IfOk result (λ pools. pools.items ≡ map spec.as_pool (search_spec.kernel_pools kernel.now)) }
{
    let mut pools = Vec::new(alloc);
    add_block(&mut pools, &kernel.body)?;
    add_codes(&mut pools, kernel.codes.items())?;
    Ok(pools)
}
