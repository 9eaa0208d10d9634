// How many cells the evaluation of a program's expressions takes, cut at 4,294,967,295.
ghost use Rattle.std.specs.Prelude.{◌≡◌};
ghost use Rattle.ceu_tree.specs.Cut.{cut};
ghost use Rattle.ceu_tree.specs.Depth as spec;
ghost use Rattle.ceu_tree.specs.Greatest.{greatest};

use ceu_tree::{KArm, KBlock, KCode, KExp, KExpNode, KLoop, KNode, KStmt, Kernel};

#[tactic(auto, using(ceu_tree::proofs::Depths::depths, ceu_tree::proofs::Sizes::sizes, ceu_tree::proofs::CutLaws::cuts, crate::proofs::CellLaws::cells))]
fn exp_depth(exp: &KExp) -> u32
    ensures { result ≡ cut (spec.exp_depth exp.now) }
{
    match &exp.node {
        KExpNode::One(_, a) => exp_depth(a.get()),
        KExpNode::Two(_, a, b) => exp_depth(a.get()).max(exp_depth(b.get()).saturating_add(1)),
        KExpNode::As(a) => exp_depth(a.get()),
        KExpNode::Const(_) => 1,
        KExpNode::Read(_) => 1,
        KExpNode::Alive(_) => 1,
    }
}

fn depth_if(exp: &Option<KExp>) -> u32
    ensures { result ≡ cut (spec.depth_if exp.now) }
{
    match exp {
        None => 0,
        Some(exp) => exp_depth(exp),
    }
}

#[tactic(auto, using(ceu_tree::proofs::CutLaws::cuts))]
fn loop_depth(kind: &KLoop) -> u32
    ensures { result ≡ cut (spec.loop_depth kind.now) }
{
    match kind {
        KLoop::Range(_, _, _, _, a, b, _) => exp_depth(a).max(exp_depth(b)),
        KLoop::Free => 0,
        KLoop::Times(_, _) => 0,
    }
}

// Each argument lies above those before it.
fn arguments_depth(exps: &[KExp]) -> u32
    ensures { result ≡ cut (spec.arguments_depth 0 exps.now) }
{
    let mut most = 0;
    let mut place = 0u32;
    for exp in exps {
        most = most.max(place.saturating_add(exp_depth(exp)));
        place = place.saturating_add(1);
    }
    most
}

#[cycle(depth)]
#[tactic(auto, using(ceu_tree::proofs::Depths::depths, ceu_tree::proofs::Sizes::sizes, ceu_tree::proofs::CutLaws::cuts, crate::proofs::CellLaws::cells))]
fn stmt_depth(stmt: &KStmt) -> u32
    ensures { result ≡ cut (spec.stmt_depth stmt.now) }
{
    match stmt {
        KStmt::Assign(_, exp) => exp_depth(exp),
        KStmt::Out(_, exp) => depth_if(exp),
        KStmt::Emit(_, exp) => depth_if(exp),
        KStmt::AwaitTime(exp, _, _) => exp_depth(exp),
        KStmt::AwaitCode(_, exps, _, _) => arguments_depth(exps.items()),
        KStmt::Spawn(_, exps, _, _) => arguments_depth(exps.items()),
        KStmt::Async(body) => block_depth(body),
        KStmt::Finalize(body) => block_depth(body),
        KStmt::Do(_, body) => block_depth(body),
        KStmt::Escape(_, exp) => depth_if(exp),
        KStmt::If(arms, last) => arms_depth(arms.items()).max(block_depth(last)),
        KStmt::Loop(kind, body) => loop_depth(kind).max(block_depth(body)),
        KStmt::Par(_, _, branches) => blocks_depth(branches.items()),
        KStmt::Nothing => 0,
        KStmt::Forever => 0,
        KStmt::AwaitIn(_, _) => 0,
        KStmt::AwaitEvent(_, _) => 0,
        KStmt::Kill(_) => 0,
        KStmt::Unset(_) => 0,
        KStmt::Break(_) => 0,
        KStmt::Continue(_) => 0,
    }
}

#[cycle(depth)]
#[tactic(auto, using(ceu_tree::proofs::Depths::depths, ceu_tree::proofs::Sizes::sizes, ceu_tree::proofs::CutLaws::cuts, crate::proofs::CellLaws::cells))]
fn block_depth(block: &KBlock) -> u32
    ensures { result ≡ cut (spec.block_depth block.now) }
{
    nodes_depth(block.list.items())
}

#[cycle(depth)]
#[tactic(auto, using(ceu_tree::proofs::Depths::depths, ceu_tree::proofs::Sizes::sizes, ceu_tree::proofs::CutLaws::cuts, crate::proofs::CellLaws::cells))]
fn nodes_depth(nodes: &[KNode]) -> u32
    ensures { result ≡ cut (greatest (λ n. spec.stmt_depth n.stmt) nodes.now) }
{
    let mut most = 0;
    for node in nodes {
        most = most.max(stmt_depth(&node.stmt));
    }
    most
}

#[cycle(depth)]
#[tactic(auto, using(ceu_tree::proofs::Depths::depths, ceu_tree::proofs::Sizes::sizes, ceu_tree::proofs::CutLaws::cuts, crate::proofs::CellLaws::cells))]
fn arm_depth(arm: &KArm) -> u32
    ensures { result ≡ cut (spec.arm_depth arm.now) }
{
    exp_depth(&arm.cond).max(block_depth(&arm.body))
}

#[cycle(depth)]
#[tactic(auto, using(ceu_tree::proofs::Depths::depths, ceu_tree::proofs::Sizes::sizes, ceu_tree::proofs::CutLaws::cuts, crate::proofs::CellLaws::cells))]
fn arms_depth(arms: &[KArm]) -> u32
    ensures { result ≡ cut (greatest spec.arm_depth arms.now) }
{
    let mut most = 0;
    for arm in arms {
        most = most.max(arm_depth(arm));
    }
    most
}

#[cycle(depth)]
#[tactic(auto, using(ceu_tree::proofs::Depths::depths, ceu_tree::proofs::Sizes::sizes, ceu_tree::proofs::CutLaws::cuts, crate::proofs::CellLaws::cells))]
fn blocks_depth(blocks: &[KBlock]) -> u32
    ensures { result ≡ cut (greatest spec.block_depth blocks.now) }
{
    let mut most = 0;
    for block in blocks {
        most = most.max(block_depth(block));
    }
    most
}

fn codes_depth(codes: &[KCode]) -> u32
    ensures { result ≡ cut (spec.codes_depth codes.now) }
{
    let mut most = 0;
    for code in codes {
        most = most.max(block_depth(&code.body));
    }
    most
}

/// The cells that the evaluation of a program's expressions takes, at least 1; 4,294,967,295 where they are that many or more.
#[tactic(auto, using(ceu_tree::proofs::CutLaws::cuts), unfolding(ceu_tree::specs::Depth::depth))]
pub fn depth(kernel: &Kernel) -> u32
    ensures { result ≡ cut (spec.depth kernel.now) }
{
    block_depth(&kernel.body)
        .max(codes_depth(kernel.codes.items()))
        .max(1)
}
