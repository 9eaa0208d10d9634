// The events that a body emits, in pre-order.
ghost use Rattle.std.specs.Prelude.{◌≡◌, ◌++◌, OnOk};
ghost use Rattle.ceu_paths.specs.Emits.{emits, node_emits, arm_emits, block_emits};
ghost use Rattle.ceu_paths.specs.Joined.{joined};

use ceu_tree::{KArm, KBlock, KNode, KStmt};
use std::alloc::AllocError;

#[cycle(emit)]
#[tactic(auto, using(crate::proofs::EmitLaws::emit_lists, crate::proofs::Lists::lists, ceu_tree::proofs::Sizes::sizes))]
fn emit_in_stmt(stmt: &KStmt, found: &mut Vec<u32>) -> Result<(), AllocError>
    ensures { OnOk result (found.new.items ≡ found.old.items ++ emits stmt.now) }
{
    match stmt {
        KStmt::Emit(event, _) => {
            found.push(*event)?;
            Ok(())
        }
        KStmt::Do(_, body) => emit_in(body, found),
        KStmt::If(arms, last) => {
            emit_in_arms(arms.items(), found)?;
            emit_in(last, found)
        }
        KStmt::Par(_, _, branches) => emit_in_blocks(branches.items(), found),
        KStmt::Loop(_, body) => emit_in(body, found),
        KStmt::Nothing => Ok(()),
        KStmt::Assign(_, _) => Ok(()),
        KStmt::Out(_, _) => Ok(()),
        KStmt::AwaitIn(_, _) => Ok(()),
        KStmt::AwaitTime(_, _, _) => Ok(()),
        KStmt::AwaitEvent(_, _) => Ok(()),
        KStmt::Forever => Ok(()),
        KStmt::AwaitCode(_, _, _, _) => Ok(()),
        KStmt::Spawn(_, _, _, _) => Ok(()),
        KStmt::Kill(_) => Ok(()),
        KStmt::Unset(_) => Ok(()),
        KStmt::Async(_) => Ok(()),
        KStmt::Finalize(_) => Ok(()),
        KStmt::Escape(_, _) => Ok(()),
        KStmt::Break(_) => Ok(()),
        KStmt::Continue(_) => Ok(()),
    }
}

/// Adds the emissions of a body to the list, in pre-order.
#[cycle(emit)]
#[tactic(auto, using(crate::proofs::EmitLaws::emit_lists, crate::proofs::Lists::lists, ceu_tree::proofs::Sizes::sizes))]
pub fn emit_in(block: &KBlock, found: &mut Vec<u32>) -> Result<(), AllocError>
    ensures { OnOk result (found.new.items ≡ found.old.items ++ block_emits block.now) }
{
    emit_in_nodes(block.list.items(), found)
}

#[cycle(emit)]
#[tactic(auto, using(crate::proofs::EmitLaws::emit_lists, crate::proofs::Lists::lists, ceu_tree::proofs::Sizes::sizes))]
fn emit_in_nodes(nodes: &[KNode], found: &mut Vec<u32>) -> Result<(), AllocError>
    ensures { OnOk result (found.new.items ≡ found.old.items ++ joined node_emits nodes.now) }
{
    for node in nodes {
        emit_in_stmt(&node.stmt, found)?;
    }
    Ok(())
}

#[cycle(emit)]
#[tactic(auto, using(crate::proofs::EmitLaws::emit_lists, crate::proofs::Lists::lists, ceu_tree::proofs::Sizes::sizes))]
fn emit_in_arms(arms: &[KArm], found: &mut Vec<u32>) -> Result<(), AllocError>
    ensures { OnOk result (found.new.items ≡ found.old.items ++ joined arm_emits arms.now) }
{
    for arm in arms {
        emit_in_arm(arm, found)?;
    }
    Ok(())
}

#[cycle(emit)]
#[tactic(auto, using(crate::proofs::EmitLaws::emit_lists, crate::proofs::Lists::lists, ceu_tree::proofs::Sizes::sizes))]
fn emit_in_blocks(blocks: &[KBlock], found: &mut Vec<u32>) -> Result<(), AllocError>
    ensures { OnOk result (found.new.items ≡ found.old.items ++ joined block_emits blocks.now) }
{
    for block in blocks {
        emit_in(block, found)?;
    }
    Ok(())
}

#[cycle(emit)]
#[tactic(auto, using(crate::proofs::EmitLaws::emit_lists, crate::proofs::Lists::lists, ceu_tree::proofs::Sizes::sizes))]
fn emit_in_arm(arm: &KArm, found: &mut Vec<u32>) -> Result<(), AllocError>
    ensures { OnOk result (found.new.items ≡ found.old.items ++ arm_emits arm.now) }
{
    emit_in(&arm.body, found)
}
