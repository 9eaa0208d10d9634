// The weight of a program, from which the length of its code is bounded, cut at 4,294,967,295.
ghost use Rattle.std.specs.Prelude.{◌≡◌, ◌+◌, ◌*◌, length};
ghost use Rattle.ceu_tree.specs.Cut.{cut};
ghost use Rattle.ceu_tree.specs.Greatest.{total};
ghost use Rattle.ceu_tree.specs.Weight as spec;

use ceu_tree::{KArm, KBlock, KCode, KExp, KExpNode, KLoop, KNode, KStmt, Kernel};

/// What each statement, declaration, branch, arm and code weighs.
const PART: u32 = 48;
/// What each node of an expression weighs.
const NODE: u32 = 20;

#[tactic(auto, using(ceu_tree::proofs::WeightLaws::exp_counts, ceu_tree::proofs::Sizes::sizes, ceu_tree::proofs::CutLaws::cuts))]
fn exp_count(exp: &KExp) -> u32
    ensures { result ≡ cut (spec.exp_count exp.now) }
{
    match &exp.node {
        KExpNode::One(_, a) => exp_count(a.get()).saturating_add(1),
        KExpNode::Two(_, a, b) => exp_count(a.get())
            .saturating_add(exp_count(b.get()))
            .saturating_add(1),
        KExpNode::As(a) => exp_count(a.get()).saturating_add(1),
        KExpNode::Const(_) => 1,
        KExpNode::Read(_) => 1,
        KExpNode::Alive(_) => 1,
    }
}

#[tactic(auto, using(ceu_tree::proofs::CutLaws::cuts))]
fn exp_weight(exp: &KExp) -> u32
    ensures { result ≡ cut (spec.exp_weight exp.now) }
{
    NODE.saturating_mul(exp_count(exp))
}

fn weight_if(exp: &Option<KExp>) -> u32
    ensures { result ≡ cut (spec.weight_if exp.now) }
{
    match exp {
        None => 0,
        Some(exp) => exp_weight(exp),
    }
}

#[tactic(auto, using(ceu_tree::proofs::CutLaws::cuts))]
fn loop_weight(kind: &KLoop) -> u32
    ensures { result ≡ cut (spec.loop_weight kind.now) }
{
    match kind {
        KLoop::Range(_, _, _, _, a, b, _) => PART
            .saturating_add(exp_weight(a))
            .saturating_add(exp_weight(b)),
        KLoop::Free => 0,
        KLoop::Times(_, _) => 0,
    }
}

#[tactic(auto, using(ceu_tree::proofs::WeightLaws::weights, ceu_tree::proofs::Sizes::sizes, ceu_tree::proofs::CutLaws::cuts, crate::proofs::WeightSums::sums))]
fn arguments_weight(exps: &[KExp]) -> u32
    ensures { result ≡ cut (total spec.exp_weight exps.now) }
{
    let mut sum = 0u32;
    for exp in exps {
        sum = sum.saturating_add(exp_weight(exp));
    }
    sum
}

// What so many parts weigh.
#[tactic(auto, using(ceu_tree::proofs::CutLaws::cuts))]
fn parts_weight(count: usize) -> u32
    ensures { result ≡ cut (48 * count) }
{
    PART.saturating_mul(u32::try_from(count).unwrap_or(u32::MAX))
}

#[cycle(weigh)]
#[tactic(auto, using(ceu_tree::proofs::WeightLaws::weights, ceu_tree::proofs::Sizes::sizes, ceu_tree::proofs::CutLaws::cuts, crate::proofs::WeightSums::sums))]
fn stmt_weight(stmt: &KStmt) -> u32
    ensures { result ≡ cut (spec.stmt_weight stmt.now) }
{
    match stmt {
        KStmt::Assign(_, exp) => exp_weight(exp),
        KStmt::Out(_, exp) => weight_if(exp),
        KStmt::Emit(_, exp) => weight_if(exp),
        KStmt::AwaitTime(exp, _, _) => exp_weight(exp),
        KStmt::AwaitCode(_, exps, _, _) => arguments_weight(exps.items()),
        KStmt::Spawn(_, exps, _, _) => arguments_weight(exps.items()),
        KStmt::Async(body) => block_weight(body),
        KStmt::Finalize(body) => block_weight(body),
        KStmt::Do(_, body) => block_weight(body),
        KStmt::Escape(_, exp) => weight_if(exp),
        KStmt::If(arms, last) => arms_weight(arms.items()).saturating_add(block_weight(last)),
        KStmt::Loop(kind, body) => loop_weight(kind).saturating_add(block_weight(body)),
        KStmt::Par(_, _, branches) => branches_weight(branches.items()),
        KStmt::Nothing => 0,
        KStmt::Forever => 0,
        KStmt::AwaitIn(_, _) => 0,
        KStmt::AwaitEvent(_, _) => 0,
        KStmt::Kill(_) => 0,
        KStmt::Unset(_) => 0,
        KStmt::Break(_) => 0,
        KStmt::Continue(_) => 0,
    }
}

#[cycle(weigh)]
#[tactic(auto, using(ceu_tree::proofs::WeightLaws::weights, ceu_tree::proofs::Sizes::sizes, ceu_tree::proofs::CutLaws::cuts, crate::proofs::WeightSums::sums))]
fn block_weight(block: &KBlock) -> u32
    ensures { result ≡ cut (spec.block_weight block.now) }
{
    parts_weight(block.decls.items().len()).saturating_add(nodes_weight(block.list.items()))
}

#[cycle(weigh)]
#[tactic(auto, using(ceu_tree::proofs::WeightLaws::weights, ceu_tree::proofs::Sizes::sizes, ceu_tree::proofs::CutLaws::cuts, crate::proofs::WeightSums::sums))]
fn nodes_weight(nodes: &[KNode]) -> u32
    ensures { result ≡ cut (total spec.node_weight nodes.now) }
{
    let mut sum = 0u32;
    for node in nodes {
        sum = sum.saturating_add(PART.saturating_add(stmt_weight(&node.stmt)));
    }
    sum
}

#[cycle(weigh)]
#[tactic(auto, using(ceu_tree::proofs::WeightLaws::weights, ceu_tree::proofs::Sizes::sizes, ceu_tree::proofs::CutLaws::cuts, crate::proofs::WeightSums::sums))]
fn arm_weight(arm: &KArm) -> u32
    ensures { result ≡ cut (spec.arm_weight arm.now) }
{
    PART.saturating_add(exp_weight(&arm.cond))
        .saturating_add(block_weight(&arm.body))
}

#[cycle(weigh)]
#[tactic(auto, using(ceu_tree::proofs::WeightLaws::weights, ceu_tree::proofs::Sizes::sizes, ceu_tree::proofs::CutLaws::cuts, crate::proofs::WeightSums::sums))]
fn arms_weight(arms: &[KArm]) -> u32
    ensures { result ≡ cut (total spec.arm_weight arms.now) }
{
    let mut sum = 0u32;
    for arm in arms {
        sum = sum.saturating_add(arm_weight(arm));
    }
    sum
}

#[cycle(weigh)]
#[tactic(auto, using(ceu_tree::proofs::WeightLaws::weights, ceu_tree::proofs::Sizes::sizes, ceu_tree::proofs::CutLaws::cuts, crate::proofs::WeightSums::sums))]
fn branches_weight(branches: &[KBlock]) -> u32
    ensures { result ≡ cut (total spec.branch_weight branches.now) }
{
    let mut sum = 0u32;
    for branch in branches {
        sum = sum.saturating_add(PART.saturating_add(block_weight(branch)));
    }
    sum
}

#[tactic(auto, using(ceu_tree::proofs::WeightLaws::weights, ceu_tree::proofs::Sizes::sizes, ceu_tree::proofs::CutLaws::cuts, crate::proofs::WeightSums::sums))]
fn code_weight(code: &KCode) -> u32
    ensures { result ≡ cut (spec.code_weight code.now) }
{
    let head = PART.saturating_add(parts_weight(code.params.items().len()));
    head.saturating_add(block_weight(&code.body))
}

#[tactic(auto, using(ceu_tree::proofs::WeightLaws::weights, ceu_tree::proofs::Sizes::sizes, ceu_tree::proofs::CutLaws::cuts, crate::proofs::WeightSums::sums))]
fn codes_weight(codes: &[KCode]) -> u32
    ensures { result ≡ cut (total spec.code_weight codes.now) }
{
    let mut sum = 0u32;
    for code in codes {
        sum = sum.saturating_add(code_weight(code));
    }
    sum
}

/// The weight of a program: 48 for each statement, declaration, branch of a par, arm of an if and code, and 20 for each node of an
/// expression; 4,294,967,295 where it is that much or more.
#[tactic(auto, using(ceu_tree::proofs::CutLaws::cuts), unfolding(ceu_tree::specs::Weight::weight))]
pub fn weight(kernel: &Kernel) -> u32
    ensures { result ≡ cut (spec.weight kernel.now) }
{
    let inputs = parts_weight(kernel.inputs.items().len());
    let outputs = parts_weight(kernel.outputs.items().len());
    let events = parts_weight(kernel.events.items().len());
    let ports = inputs.saturating_add(outputs).saturating_add(events);
    block_weight(&kernel.body)
        .saturating_add(codes_weight(kernel.codes.items()))
        .saturating_add(ports)
}
