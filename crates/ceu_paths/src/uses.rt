// The uses of code that a body holds, in pre-order.
ghost use Rattle.std.specs.Prelude.{◌≡◌, ◌++◌, OnOk};
ghost use Rattle.ceu_paths.specs.Joined.{joined};

use ceu_tree::{KArm, KBlock, KDecl, KKind, KNode, KStmt};
use std::alloc::AllocError;

/// A use of a code: an await uses it once, a pool once for each of its places.
#[derive(Clone, Copy)]
pub struct CodeUse {
    pub code: u32,
    pub times: u32,
}

ghost use Rattle.ceu_paths.specs.Uses.{uses, node_uses, arm_uses, block_uses, kind_uses, decl_uses};

fn uses_in_kind(kind: KKind, found: &mut Vec<CodeUse>) -> Result<(), AllocError>
    ensures { OnOk result (found.new.items ≡ found.old.items ++ kind_uses kind) }
{
    match kind {
        KKind::Var(_) => Ok(()),
        KKind::Alias(_) => Ok(()),
        KKind::Pool(times, code) => {
            found.push(CodeUse { code, times })?;
            Ok(())
        }
    }
}

fn uses_in_decls(decls: &[KDecl], found: &mut Vec<CodeUse>) -> Result<(), AllocError>
    ensures { OnOk result (found.new.items ≡ found.old.items ++ joined decl_uses decls.now) }
{
    for decl in decls {
        uses_in_kind(decl.kind, found)?;
    }
    Ok(())
}

#[cycle(uses)]
#[tactic(auto, using(crate::proofs::UseLists::use_lists, crate::proofs::Lists::lists, ceu_tree::proofs::Sizes::sizes))]
fn uses_in_stmt(stmt: &KStmt, found: &mut Vec<CodeUse>) -> Result<(), AllocError>
    ensures { OnOk result (found.new.items ≡ found.old.items ++ uses stmt.now) }
{
    match stmt {
        KStmt::AwaitCode(code, _, _, _) => {
            found.push(CodeUse {
                code: *code,
                times: 1,
            })?;
            Ok(())
        }
        KStmt::Do(_, body) => uses_in(body, found),
        KStmt::If(arms, last) => {
            uses_in_arms(arms.items(), found)?;
            uses_in(last, found)
        }
        KStmt::Par(_, _, branches) => uses_in_blocks(branches.items(), found),
        KStmt::Loop(_, body) => uses_in(body, found),
        KStmt::Nothing => Ok(()),
        KStmt::Assign(_, _) => Ok(()),
        KStmt::Out(_, _) => Ok(()),
        KStmt::Emit(_, _) => Ok(()),
        KStmt::AwaitIn(_, _) => Ok(()),
        KStmt::AwaitTime(_, _, _) => Ok(()),
        KStmt::AwaitEvent(_, _) => Ok(()),
        KStmt::Forever => Ok(()),
        KStmt::Spawn(_, _, _, _) => Ok(()),
        KStmt::Kill(_) => Ok(()),
        KStmt::Unset(_) => Ok(()),
        KStmt::Async(_) => Ok(()),
        KStmt::Finalize(_) => Ok(()),
        KStmt::Escape(_, _) => Ok(()),
        KStmt::Break(_) => Ok(()),
        KStmt::Continue(_) => Ok(()),
    }
}

/// Adds the uses of a body to the list, in pre-order.
#[cycle(uses)]
#[tactic(auto, using(crate::proofs::UseLists::use_lists, crate::proofs::Lists::lists, ceu_tree::proofs::Sizes::sizes))]
pub fn uses_in(block: &KBlock, found: &mut Vec<CodeUse>) -> Result<(), AllocError>
    ensures { OnOk result (found.new.items ≡ found.old.items ++ block_uses block.now) }
{
    uses_in_decls(block.decls.items(), found)?;
    uses_in_nodes(block.list.items(), found)
}

#[cycle(uses)]
#[tactic(auto, using(crate::proofs::UseLists::use_lists, crate::proofs::Lists::lists, ceu_tree::proofs::Sizes::sizes))]
fn uses_in_nodes(nodes: &[KNode], found: &mut Vec<CodeUse>) -> Result<(), AllocError>
    ensures { OnOk result (found.new.items ≡ found.old.items ++ joined node_uses nodes.now) }
{
    for node in nodes {
        uses_in_stmt(&node.stmt, found)?;
    }
    Ok(())
}

#[cycle(uses)]
#[tactic(auto, using(crate::proofs::UseLists::use_lists, crate::proofs::Lists::lists, ceu_tree::proofs::Sizes::sizes))]
fn uses_in_arms(arms: &[KArm], found: &mut Vec<CodeUse>) -> Result<(), AllocError>
    ensures { OnOk result (found.new.items ≡ found.old.items ++ joined arm_uses arms.now) }
{
    for arm in arms {
        uses_in_arm(arm, found)?;
    }
    Ok(())
}

#[cycle(uses)]
#[tactic(auto, using(crate::proofs::UseLists::use_lists, crate::proofs::Lists::lists, ceu_tree::proofs::Sizes::sizes))]
fn uses_in_blocks(blocks: &[KBlock], found: &mut Vec<CodeUse>) -> Result<(), AllocError>
    ensures { OnOk result (found.new.items ≡ found.old.items ++ joined block_uses blocks.now) }
{
    for block in blocks {
        uses_in(block, found)?;
    }
    Ok(())
}

#[cycle(uses)]
#[tactic(auto, using(crate::proofs::UseLists::use_lists, crate::proofs::Lists::lists, ceu_tree::proofs::Sizes::sizes))]
fn uses_in_arm(arm: &KArm, found: &mut Vec<CodeUse>) -> Result<(), AllocError>
    ensures { OnOk result (found.new.items ≡ found.old.items ++ arm_uses arm.now) }
{
    uses_in(&arm.body, found)
}
