// The loops of trails, in pre-order.
ghost use Rattle.std.specs.Prelude.{◌≡◌, ◌++◌, map, OnOk};
ghost use Rattle.ceu_paths.specs.Loops.{loops, node_loops, arm_loops, block_loops};
ghost use Rattle.ceu_paths.specs.Joined.{joined};
ghost use Rattle.ceu_paths.specs.Found.{seen};

use ceu_base::Pos;
use ceu_tree::{KArm, KBlock, KLoop, KNode, KStmt};
use std::alloc::AllocError;

/// A loop of a trail, with the place of its statement.
#[derive(Clone, Copy)]
pub struct FoundLoop<'k> {
    pub node: u32,
    pub pos: Pos,
    pub kind: &'k KLoop,
    pub body: &'k KBlock,
}

#[cycle(find)]
#[tactic(auto, using(crate::proofs::LoopLaws::loop_lists, crate::proofs::Lists::lists, ceu_tree::proofs::Sizes::sizes))]
fn find_in_stmt<'k>(
    number: u32,
    pos: Pos,
    stmt: &'k KStmt,
    found: &mut Vec<FoundLoop<'k>>,
) -> Result<(), AllocError>
    ensures { OnOk result (map seen found.new.items ≡ map seen found.old.items ++ loops number pos stmt.now) }
{
    match stmt {
        KStmt::Do(_, body) => find_loops(body, found),
        KStmt::If(arms, last) => {
            find_in_arms(arms.items(), found)?;
            find_loops(last, found)
        }
        KStmt::Par(_, _, branches) => find_in_blocks(branches.items(), found),
        KStmt::Loop(kind, body) => {
            found.push(FoundLoop {
                node: number,
                pos,
                kind,
                body,
            })?;
            find_loops(body, found)
        }
        KStmt::Nothing => Ok(()),
        KStmt::Assign(_, _) => Ok(()),
        KStmt::Out(_, _) => Ok(()),
        KStmt::Emit(_, _) => Ok(()),
        KStmt::AwaitIn(_, _) => Ok(()),
        KStmt::AwaitTime(_, _, _) => Ok(()),
        KStmt::AwaitEvent(_, _) => Ok(()),
        KStmt::Forever => Ok(()),
        KStmt::AwaitCode(_, _, _, _) => Ok(()),
        KStmt::Spawn(_, _, _, _) => Ok(()),
        KStmt::Kill(_) => Ok(()),
        KStmt::Unset(_) => Ok(()),
        KStmt::Async(_) => Ok(()),
        KStmt::Finalize(_) => Ok(()),
        KStmt::Escape(_, _) => Ok(()),
        KStmt::Break(_) => Ok(()),
        KStmt::Continue(_) => Ok(()),
    }
}

/// Adds the loops of a body to the list, in pre-order.
#[cycle(find)]
#[tactic(auto, using(crate::proofs::LoopLaws::loop_lists, crate::proofs::Lists::lists, ceu_tree::proofs::Sizes::sizes))]
pub fn find_loops<'k>(block: &'k KBlock, found: &mut Vec<FoundLoop<'k>>) -> Result<(), AllocError>
    ensures { OnOk result (map seen found.new.items ≡ map seen found.old.items ++ block_loops block.now) }
{
    find_in_nodes(block.list.items(), found)
}

#[cycle(find)]
#[tactic(auto, using(crate::proofs::LoopLaws::loop_lists, crate::proofs::Lists::lists, ceu_tree::proofs::Sizes::sizes))]
fn find_in_nodes<'k>(nodes: &'k [KNode], found: &mut Vec<FoundLoop<'k>>) -> Result<(), AllocError>
    ensures { OnOk result (map seen found.new.items ≡ map seen found.old.items ++ joined node_loops nodes.now) }
{
    for node in nodes {
        find_in_stmt(node.node, node.pos, &node.stmt, found)?;
    }
    Ok(())
}

#[cycle(find)]
#[tactic(auto, using(crate::proofs::LoopLaws::loop_lists, crate::proofs::Lists::lists, ceu_tree::proofs::Sizes::sizes))]
fn find_in_arm<'k>(arm: &'k KArm, found: &mut Vec<FoundLoop<'k>>) -> Result<(), AllocError>
    ensures { OnOk result (map seen found.new.items ≡ map seen found.old.items ++ arm_loops arm.now) }
{
    find_loops(&arm.body, found)
}

#[cycle(find)]
#[tactic(auto, using(crate::proofs::LoopLaws::loop_lists, crate::proofs::Lists::lists, ceu_tree::proofs::Sizes::sizes))]
fn find_in_arms<'k>(arms: &'k [KArm], found: &mut Vec<FoundLoop<'k>>) -> Result<(), AllocError>
    ensures { OnOk result (map seen found.new.items ≡ map seen found.old.items ++ joined arm_loops arms.now) }
{
    for arm in arms {
        find_in_arm(arm, found)?;
    }
    Ok(())
}

#[cycle(find)]
#[tactic(auto, using(crate::proofs::LoopLaws::loop_lists, crate::proofs::Lists::lists, ceu_tree::proofs::Sizes::sizes))]
fn find_in_blocks<'k>(
    blocks: &'k [KBlock],
    found: &mut Vec<FoundLoop<'k>>,
) -> Result<(), AllocError>
    ensures { OnOk result (map seen found.new.items ≡ map seen found.old.items ++ joined block_loops blocks.now) }
{
    for block in blocks {
        find_loops(block, found)?;
    }
    Ok(())
}
