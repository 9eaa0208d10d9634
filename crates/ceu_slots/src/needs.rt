// The bytes that the slots of a program take. Each frame is measured once, in the order of the codes, since a code uses only codes above it.
// All numbers are cut at 4,294,967,295.
ghost use Rattle.std.specs.Prelude.{◌≡◌, [], true, false, map, IfOk};
ghost use Rattle.ceu_tree.specs.Cut.{cut};
ghost use Rattle.ceu_tree.specs.Greatest.{total};
ghost use Rattle.ceu_tree.specs.Needs as spec;

use ceu_base::Ty;
use ceu_tree::{
    KArm, KBlock, KCode, KDecl, KKind, KLoop, KNode, KStmt, Kernel, ParKind, entry, greatest,
};
use std::alloc::{AllocError, Global};

fn type_size(ty: Ty) -> u32
    ensures { result ≡ spec.ty_size ty }
{
    match ty {
        Ty::None => 0,
        Ty::Bool | Ty::U8 | Ty::S8 => 1,
        Ty::U16 | Ty::S16 => 2,
        Ty::U32 | Ty::S32 => 4,
        Ty::U64 | Ty::S64 => 8,
    }
}

#[tactic(auto, using(ceu_tree::proofs::CutLaws::cuts))]
pub fn decl_size(frames: &[u32], kind: KKind) -> u32
    ensures { result ≡ cut (spec.decl_size frames.now kind) }
{
    match kind {
        KKind::Var(ty) => type_size(ty),
        KKind::Alias(_) => 8,
        KKind::Pool(places, code) => places.saturating_mul(entry(frames, code).saturating_add(9)),
    }
}

#[tactic(auto, using(ceu_tree::proofs::CutLaws::cuts, crate::proofs::NeedSums::sums))]
fn decls_size(frames: &[u32], decls: &[KDecl]) -> u32
    ensures { result ≡ cut (spec.decls_size frames.now decls.now) }
{
    let mut size = 0u32;
    for decl in decls {
        size = size.saturating_add(decl_size(frames, decl.kind));
    }
    size
}

fn loop_size(kind: &KLoop) -> u32
    ensures { result ≡ spec.loop_size kind.now }
{
    match kind {
        KLoop::Free => 0,
        KLoop::Times(_, _) => 4,
        KLoop::Range(_, _, _, _, _, _, _) => 20,
    }
}

fn branch_size(kind: ParKind) -> u32
    ensures { result ≡ spec.branch_size kind }
{
    match kind {
        ParKind::And => 1,
        ParKind::Or | ParKind::Never => 0,
    }
}

// Two parts of one place: side by side in the plain layout, else in the same bytes.
pub fn apart(plain: bool, first: u32, second: u32) -> u32
    ensures { result ≡ cut (spec.apart plain first second) }
{
    if plain {
        first.saturating_add(second)
    } else {
        first.max(second)
    }
}

#[cycle(need)]
#[tactic(auto, using(ceu_tree::proofs::NeedLaws::needs, ceu_tree::proofs::Sizes::sizes, ceu_tree::proofs::CutLaws::cuts, crate::proofs::NeedSums::sums))]
fn stmt_need(plain: bool, frames: &[u32], stmt: &KStmt) -> u32
    ensures { result ≡ cut (spec.stmt_need plain frames.now stmt.now) }
{
    match stmt {
        KStmt::AwaitCode(code, _, _, _) => entry(frames, *code),
        KStmt::Async(body) => block_need(plain, frames, body),
        KStmt::Do(_, body) => block_need(plain, frames, body),
        KStmt::If(arms, last) => apart(
            plain,
            arms_need(plain, frames, arms.items()),
            block_need(plain, frames, last),
        ),
        KStmt::Loop(kind, body) => loop_size(kind).saturating_add(block_need(plain, frames, body)),
        KStmt::Par(kind, _, branches) => branches_need(
            plain,
            frames,
            branch_size(*kind),
            branches.items(),
        ),
        KStmt::Nothing => 0,
        KStmt::Assign(_, _) => 0,
        KStmt::Out(_, _) => 0,
        KStmt::Emit(_, _) => 0,
        KStmt::AwaitIn(_, _) => 0,
        KStmt::AwaitTime(_, _, _) => 0,
        KStmt::AwaitEvent(_, _) => 0,
        KStmt::Forever => 0,
        KStmt::Spawn(_, _, _, _) => 0,
        KStmt::Kill(_) => 0,
        KStmt::Unset(_) => 0,
        KStmt::Finalize(_) => 0,
        KStmt::Escape(_, _) => 0,
        KStmt::Break(_) => 0,
        KStmt::Continue(_) => 0,
    }
}

#[cycle(need)]
#[tactic(auto, using(ceu_tree::proofs::NeedLaws::needs, ceu_tree::proofs::Sizes::sizes, ceu_tree::proofs::CutLaws::cuts, crate::proofs::NeedSums::sums))]
fn block_need(plain: bool, frames: &[u32], block: &KBlock) -> u32
    ensures { result ≡ cut (spec.block_need plain frames.now block.now) }
{
    decls_size(frames, block.decls.items()).saturating_add(nodes_need(
        plain,
        frames,
        block.list.items(),
    ))
}

#[cycle(need)]
#[tactic(auto, using(ceu_tree::proofs::NeedLaws::needs, ceu_tree::proofs::Sizes::sizes, ceu_tree::proofs::CutLaws::cuts, crate::proofs::NeedSums::sums))]
fn nodes_need(plain: bool, frames: &[u32], nodes: &[KNode]) -> u32
    ensures { result ≡ cut (spec.joined plain (spec.node_need plain frames.now) nodes.now) }
{
    let mut need = 0;
    for node in nodes {
        need = apart(plain, need, stmt_need(plain, frames, &node.stmt));
    }
    need
}

#[cycle(need)]
#[tactic(auto, using(ceu_tree::proofs::NeedLaws::needs, ceu_tree::proofs::Sizes::sizes, ceu_tree::proofs::CutLaws::cuts, crate::proofs::NeedSums::sums))]
fn arms_need(plain: bool, frames: &[u32], arms: &[KArm]) -> u32
    ensures { result ≡ cut (spec.joined plain (spec.arm_need plain frames.now) arms.now) }
{
    let mut need = 0;
    for arm in arms {
        need = apart(plain, need, arm_need(plain, frames, arm));
    }
    need
}

#[cycle(need)]
#[tactic(auto, using(ceu_tree::proofs::NeedLaws::needs, ceu_tree::proofs::Sizes::sizes, ceu_tree::proofs::CutLaws::cuts, crate::proofs::NeedSums::sums))]
fn arm_need(plain: bool, frames: &[u32], arm: &KArm) -> u32
    ensures { result ≡ cut (spec.arm_need plain frames.now arm.now) }
{
    block_need(plain, frames, &arm.body)
}

// Branches stand side by side, with so many bytes for each.
#[cycle(need)]
#[tactic(auto, using(ceu_tree::proofs::NeedLaws::needs, ceu_tree::proofs::Sizes::sizes, ceu_tree::proofs::CutLaws::cuts, crate::proofs::NeedSums::sums))]
fn branches_need(plain: bool, frames: &[u32], each: u32, branches: &[KBlock]) -> u32
    ensures { result ≡ cut (total (spec.branch_need plain frames.now each) branches.now) }
{
    let mut need = 0u32;
    for branch in branches {
        need = need.saturating_add(each.saturating_add(block_need(plain, frames, branch)));
    }
    need
}

pub fn frame_of(plain: bool, frames: &[u32], code: &KCode) -> u32
    ensures { result ≡ cut (spec.frame_of plain frames.now code.now) }
{
    let link_and_params = decls_size(frames, code.params.items()).saturating_add(8);
    link_and_params.saturating_add(block_need(plain, frames, &code.body))
}

// The frame of each code, by its number.
fn frames_of(alloc: Global, plain: bool, codes: &[KCode]) -> Result<Vec<u32>, AllocError>
    ensures { IfOk result (λ frames. frames.items ≡ map cut (spec.frames_from plain [] codes.now)) }
{
    let mut frames = Vec::new(alloc);
    for code in codes {
        let frame = frame_of(plain, &frames, code);
        frames.push(frame)?;
    }
    Ok(frames)
}

// The bytes that the slots of a program take in a layout.
fn need_of(alloc: Global, plain: bool, kernel: &Kernel) -> Result<u32, AllocError>
    ensures { IfOk result (λ need. need ≡ cut (spec.slots plain kernel.now)) }
{
    let frames = frames_of(alloc, plain, kernel.codes.items())?;
    Ok(block_need(plain, &frames, &kernel.body).max(greatest(&frames)))
}

/// The bytes that the slots of a program take, in the layout in which statements of a list, and the parts of an `if`, share their bytes;
/// 4,294,967,295 where they are that many or more.
pub fn slot_need(alloc: Global, kernel: &Kernel) -> Result<u32, AllocError>
    ensures { IfOk result (λ need. need ≡ cut (spec.slots false kernel.now)) }
{
    need_of(alloc, false, kernel)
}
