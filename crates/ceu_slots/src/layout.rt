// The place of each slot, in the order of their numbers: a walk that is told where a part starts and answers how many bytes it needs.
ghost use Rattle.std.specs.Prelude.{◌≡◌, ◌+◌, ◌*◌, ◌≤◌, [], ◌∷◌, ◌++◌, length, IfOk, OnOk};
ghost use Rattle.ceu_tree.specs.Greatest.{total};
ghost use Rattle.ceu_tree.specs.Needs as need;
ghost use Rattle.ceu_slots.specs.Layout as spec;

use crate::needs::{apart, decl_size};
use ceu_tree::{KArm, KBlock, KDecl, KLoop, KNode, KStmt, ParKind, entry};
use std::alloc::AllocError;

/// Where a slot lies in its frame, and how many bytes it has. The slots of the branches of a par/and are counted from the first one's
/// number, which a kernel holds in 32 bits.
#[derive(Clone, Copy)]
pub struct SlotPlace {
    pub slot: u64,
    pub offset: u32,
    pub size: u32,
}

fn behind(plain: bool, at: u32, size: u32) -> u32
    requires { at + size ≤ 65535 }
    ensures { result ≡ spec.behind plain at size }
{
    if plain { at + size } else { at }
}

pub fn place_decls(
    frames: &[u32],
    at: u32,
    decls: &[KDecl],
    rows: &mut Vec<SlotPlace>,
) -> Result<u32, AllocError>
    requires { at + need.decls_size frames.now decls.now ≤ 65535 }
    ensures size { IfOk result (λ size. size ≡ need.decls_size frames.now decls.now) }
    ensures rows { OnOk result (rows.new.items ≡ rows.old.items ++ spec.decl_places frames.now at decls.now) }
{
    let mut size = 0u32;
    for decl in decls {
        let own = decl_size(frames, decl.kind);
        rows.push(SlotPlace {
            slot: u64::from(decl.slot),
            offset: at.saturating_add(size),
            size: own,
        })?;
        size = size.saturating_add(own);
    }
    Ok(size)
}

// What a loop counts in: nothing, its count, or the variable, the next value and the end of a range.
fn place_turns(at: u32, kind: &KLoop, rows: &mut Vec<SlotPlace>) -> Result<u32, AllocError>
    requires { at + need.loop_size kind.now ≤ 65535 }
    ensures size { IfOk result (λ size. size ≡ need.loop_size kind.now) }
    ensures rows { OnOk result (rows.new.items ≡ rows.old.items ++ spec.turn_places at kind.now) }
{
    match kind {
        KLoop::Free => Ok(0),
        KLoop::Times(count, _) => {
            rows.push(SlotPlace {
                slot: u64::from(*count),
                offset: at,
                size: 4,
            })?;
            Ok(4)
        }
        KLoop::Range(variable, next, end, _, _, _, _) => {
            rows.push(SlotPlace {
                slot: u64::from(*variable),
                offset: at,
                size: 4,
            })?;
            rows.push(SlotPlace {
                slot: u64::from(*next),
                offset: at + 4,
                size: 8,
            })?;
            rows.push(SlotPlace {
                slot: u64::from(*end),
                offset: at + 12,
                size: 8,
            })?;
            Ok(20)
        }
    }
}

fn byte_count(kind: ParKind, branches: usize) -> usize
    ensures { result ≡ need.branch_size kind * branches }
{
    match kind {
        ParKind::And => branches,
        ParKind::Or | ParKind::Never => 0,
    }
}

// A byte for each of `count` slots from `slot` on.
fn place_bytes(
    at: u32,
    slot: u32,
    count: usize,
    rows: &mut Vec<SlotPlace>,
) -> Result<(), AllocError>
    requires { at + count ≤ 65535 }
    ensures { OnOk result (rows.new.items ≡ rows.old.items ++ spec.byte_places slot at count) }
{
    for k in 0..count {
        rows.push(SlotPlace {
            slot: u64::from(slot) + k as u64,
            offset: at + k as u32,
            size: 1,
        })?;
    }
    Ok(())
}

#[cycle(layout)]
#[tactic(auto, using(crate::proofs::PlaceLaws::placed, ceu_tree::proofs::NeedLaws::needs, ceu_tree::proofs::Sizes::sizes, crate::proofs::Walks::walks))]
fn place_parts(
    plain: bool,
    frames: &[u32],
    at: u32,
    stmt: &KStmt,
    rows: &mut Vec<SlotPlace>,
) -> Result<u32, AllocError>
    requires { at + need.stmt_need plain frames.now stmt.now ≤ 65535 }
    ensures size { IfOk result (λ size. size ≡ need.stmt_need plain frames.now stmt.now) }
    ensures rows { OnOk result (rows.new.items ≡ rows.old.items ++ spec.stmt_places plain frames.now at stmt.now) }
{
    match stmt {
        KStmt::AwaitCode(code, _, frame, _) => place_frame(frames, at, *code, *frame, rows),
        KStmt::Async(body) => place_block(plain, frames, at, body, rows),
        KStmt::Do(_, body) => place_block(plain, frames, at, body, rows),
        KStmt::If(arms, last) => place_if(plain, frames, at, arms.items(), last, rows),
        KStmt::Loop(kind, body) => place_loop(plain, frames, at, kind, body, rows),
        KStmt::Par(kind, slot, branches) => {
            place_par(plain, frames, at, *kind, *slot, branches.items(), rows)
        }
        KStmt::Nothing => Ok(0),
        KStmt::Assign(_, _) => Ok(0),
        KStmt::Out(_, _) => Ok(0),
        KStmt::Emit(_, _) => Ok(0),
        KStmt::AwaitIn(_, _) => Ok(0),
        KStmt::AwaitTime(_, _, _) => Ok(0),
        KStmt::AwaitEvent(_, _) => Ok(0),
        KStmt::Forever => Ok(0),
        KStmt::Spawn(_, _, _, _) => Ok(0),
        KStmt::Kill(_) => Ok(0),
        KStmt::Unset(_) => Ok(0),
        KStmt::Finalize(_) => Ok(0),
        KStmt::Escape(_, _) => Ok(0),
        KStmt::Break(_) => Ok(0),
        KStmt::Continue(_) => Ok(0),
    }
}

// The frame of code that is awaited.
fn place_frame(
    frames: &[u32],
    at: u32,
    code: u32,
    frame: u32,
    rows: &mut Vec<SlotPlace>,
) -> Result<u32, AllocError>
    ensures size { IfOk result (λ size. size ≡ need.entry code frames.now) }
    ensures rows { OnOk result (rows.new.items ≡ rows.old.items ++ (spec.place frame at (need.entry code frames.now) ∷ [])) }
{
    let size = entry(frames, code);
    rows.push(SlotPlace {
        slot: u64::from(frame),
        offset: at,
        size,
    })?;
    Ok(size)
}

#[cycle(layout)]
#[tactic(auto, using(ceu_tree::proofs::Sizes::sizes, crate::proofs::Walks::walks))]
fn place_if(
    plain: bool,
    frames: &[u32],
    at: u32,
    arms: &[KArm],
    last: &KBlock,
    rows: &mut Vec<SlotPlace>,
) -> Result<u32, AllocError>
    requires { at + need.apart plain (need.joined plain (need.arm_need plain frames.now) arms.now) (need.block_need plain frames.now last.now) ≤ 65535 }
    ensures size { IfOk result (λ size. size ≡ need.apart plain (need.joined plain (need.arm_need plain frames.now) arms.now) (need.block_need plain frames.now last.now)) }
    ensures rows { OnOk result (rows.new.items ≡ rows.old.items ++ (spec.arm_list_places plain frames.now at arms.now ++ spec.block_places plain frames.now (spec.behind plain at (need.joined plain (need.arm_need plain frames.now) arms.now)) last.now)) }
{
    let some = place_arms(plain, frames, at, arms, rows)?;
    let other = place_block(plain, frames, behind(plain, at, some), last, rows)?;
    Ok(apart(plain, some, other))
}

#[cycle(layout)]
#[tactic(auto, using(ceu_tree::proofs::Sizes::sizes, crate::proofs::Walks::walks))]
fn place_loop(
    plain: bool,
    frames: &[u32],
    at: u32,
    kind: &KLoop,
    body: &KBlock,
    rows: &mut Vec<SlotPlace>,
) -> Result<u32, AllocError>
    requires { at + (need.loop_size kind.now + need.block_need plain frames.now body.now) ≤ 65535 }
    ensures size { IfOk result (λ size. size ≡ need.loop_size kind.now + need.block_need plain frames.now body.now) }
    ensures rows { OnOk result (rows.new.items ≡ rows.old.items ++ (spec.turn_places at kind.now ++ spec.block_places plain frames.now (at + need.loop_size kind.now) body.now)) }
{
    let counted = place_turns(at, kind, rows)?;
    let size = place_block(plain, frames, at + counted, body, rows)?;
    Ok(counted + size)
}

#[cycle(layout)]
#[tactic(auto, using(ceu_tree::proofs::Sizes::sizes, crate::proofs::Walks::walks))]
fn place_par(
    plain: bool,
    frames: &[u32],
    at: u32,
    kind: ParKind,
    slot: u32,
    branches: &[KBlock],
    rows: &mut Vec<SlotPlace>,
) -> Result<u32, AllocError>
    requires { at + (need.branch_size kind * length branches.now + total (need.block_need plain frames.now) branches.now) ≤ 65535 }
    ensures size { IfOk result (λ size. size ≡ need.branch_size kind * length branches.now + total (need.block_need plain frames.now) branches.now) }
    ensures rows { OnOk result (rows.new.items ≡ rows.old.items ++ (spec.byte_places slot at (need.branch_size kind * length branches.now) ++ spec.block_list_places plain frames.now (at + need.branch_size kind * length branches.now) branches.now)) }
{
    let count = byte_count(kind, branches.len());
    place_bytes(at, slot, count, rows)?;
    let bytes = count as u32;
    let size = place_branches(plain, frames, at + bytes, branches, rows)?;
    Ok(bytes + size)
}

#[cycle(layout)]
#[tactic(auto, using(crate::proofs::PlaceLaws::placed, ceu_tree::proofs::NeedLaws::needs, ceu_tree::proofs::Sizes::sizes, crate::proofs::Walks::walks))]
pub fn place_block(
    plain: bool,
    frames: &[u32],
    at: u32,
    block: &KBlock,
    rows: &mut Vec<SlotPlace>,
) -> Result<u32, AllocError>
    requires { at + need.block_need plain frames.now block.now ≤ 65535 }
    ensures size { IfOk result (λ size. size ≡ need.block_need plain frames.now block.now) }
    ensures rows { OnOk result (rows.new.items ≡ rows.old.items ++ spec.block_places plain frames.now at block.now) }
{
    let declared = place_decls(frames, at, block.decls.items(), rows)?;
    let size = place_nodes(plain, frames, at + declared, block.list.items(), rows)?;
    Ok(declared + size)
}

#[cycle(layout)]
#[tactic(auto, using(ceu_tree::proofs::Sizes::sizes, crate::proofs::Walks::walks))]
fn place_nodes(
    plain: bool,
    frames: &[u32],
    at: u32,
    nodes: &[KNode],
    rows: &mut Vec<SlotPlace>,
) -> Result<u32, AllocError>
    requires { at + need.joined plain (need.node_need plain frames.now) nodes.now ≤ 65535 }
    ensures size { IfOk result (λ size. size ≡ need.joined plain (need.node_need plain frames.now) nodes.now) }
    ensures rows { OnOk result (rows.new.items ≡ rows.old.items ++ spec.list_places plain frames.now at nodes.now) }
{
    let mut size = 0;
    for node in nodes {
        let start = behind(plain, at, size);
        let own = place_parts(plain, frames, start, &node.stmt, rows)?;
        size = apart(plain, size, own);
    }
    Ok(size)
}

#[cycle(layout)]
#[tactic(auto, using(crate::proofs::PlaceLaws::placed, ceu_tree::proofs::NeedLaws::needs, ceu_tree::proofs::Sizes::sizes))]
fn place_arm(
    plain: bool,
    frames: &[u32],
    at: u32,
    arm: &KArm,
    rows: &mut Vec<SlotPlace>,
) -> Result<u32, AllocError>
    requires { at + need.arm_need plain frames.now arm.now ≤ 65535 }
    ensures size { IfOk result (λ size. size ≡ need.arm_need plain frames.now arm.now) }
    ensures rows { OnOk result (rows.new.items ≡ rows.old.items ++ spec.arm_places plain frames.now at arm.now) }
{
    place_block(plain, frames, at, &arm.body, rows)
}

#[cycle(layout)]
#[tactic(auto, using(ceu_tree::proofs::Sizes::sizes, crate::proofs::Walks::walks))]
fn place_arms(
    plain: bool,
    frames: &[u32],
    at: u32,
    arms: &[KArm],
    rows: &mut Vec<SlotPlace>,
) -> Result<u32, AllocError>
    requires { at + need.joined plain (need.arm_need plain frames.now) arms.now ≤ 65535 }
    ensures size { IfOk result (λ size. size ≡ need.joined plain (need.arm_need plain frames.now) arms.now) }
    ensures rows { OnOk result (rows.new.items ≡ rows.old.items ++ spec.arm_list_places plain frames.now at arms.now) }
{
    let mut size = 0;
    for arm in arms {
        let start = behind(plain, at, size);
        let own = place_arm(plain, frames, start, arm, rows)?;
        size = apart(plain, size, own);
    }
    Ok(size)
}

#[cycle(layout)]
#[tactic(auto, using(ceu_tree::proofs::Sizes::sizes, crate::proofs::Walks::walks))]
fn place_branches(
    plain: bool,
    frames: &[u32],
    at: u32,
    branches: &[KBlock],
    rows: &mut Vec<SlotPlace>,
) -> Result<u32, AllocError>
    requires { at + total (need.block_need plain frames.now) branches.now ≤ 65535 }
    ensures size { IfOk result (λ size. size ≡ total (need.block_need plain frames.now) branches.now) }
    ensures rows { OnOk result (rows.new.items ≡ rows.old.items ++ spec.block_list_places plain frames.now at branches.now) }
{
    let mut size = 0u32;
    for branch in branches {
        let own = place_block(plain, frames, at + size, branch, rows)?;
        size += own;
    }
    Ok(size)
}
