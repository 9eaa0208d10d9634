// What a statement costs in one reaction: from its start, and where it stood waiting when the reaction began. The numbers are capped at
// 4,294,967,296.
ghost use Rattle.std.specs.Prelude.{◌≡◌, ◌+◌, ◌*◌, max, IfOk, if◌then◌else◌};
ghost use Rattle.ceu_paths.specs.Cap.{cap};
ghost use Rattle.ceu_tree.specs.Greatest.{greatest, total};
ghost use Rattle.ceu_tree.specs.Needs.{entry};
ghost use Rattle.ceu_tree.specs.Costs as spec;
ghost use Rattle.ceu_bound.specs.Parts.{turn, spawning};
ghost use Rattle.ceu_bound.specs.Measured as measured;
ghost use Rattle.ceu_bound.specs.Measured.{unless_paced};

use crate::tables::{Part, Tables};
use ceu_paths::{
    CAP, Exit, block_exits, constant_bound, has_exit, paced, stands_waiting, stmt_exits,
};
use ceu_tree::{KArm, KBlock, KDecl, KKind, KLoop, KNode, KStmt};
use std::alloc::{AllocError, Global};

/// The two costs of a statement, in one part.
#[derive(Clone, Copy)]
pub struct Measure {
    pub enter: u64,
    pub stay: u64,
}

/// A sum, capped at 4,294,967,296.
pub fn plus(first: u64, second: u64) -> u64
    ensures { result ≡ cap (first + second) }
{
    first.saturating_add(second).min(CAP)
}

/// A product, capped at 4,294,967,296.
pub fn product(first: u64, second: u64) -> u64
    ensures { result ≡ cap (first * second) }
{
    first.saturating_mul(second).min(CAP)
}

/// The number of a code or an event, capped at 4,294,967,296; 0 for one that the table doesn't have.
#[tactic(auto, using(ceu_tree::proofs::TableLaws::entries))]
pub fn cost_at(table: &[u64], number: u32) -> u64
    ensures { result ≡ cap (entry number table.now) }
{
    let at = number as usize;
    if at < table.len() {
        table[at].min(CAP)
    } else {
        0
    }
}

pub fn turn(part: Part) -> u64
    ensures { result ≡ turn part }
{
    match part {
        Part::Turns => 1,
        Part::Levels => 0,
    }
}

fn spawning(part: Part) -> u64
    ensures { result ≡ spawning part }
{
    match part {
        Part::Turns => 2,
        Part::Levels => 1,
    }
}

fn cost_of(enter: u64, stay: u64) -> Measure
    ensures enter { result.enter ≡ enter }
    ensures stay { result.stay ≡ stay }
{
    Measure { enter, stay }
}

// How often a loop's body may be entered in one reaction.
fn loop_times(
    alloc: Global,
    passing: &[bool],
    node: u32,
    kind: &KLoop,
    body: &KBlock,
) -> Result<u64, AllocError>
    ensures { IfOk result (λ times. times ≡ cap (spec.loop_times passing.now node kind.now body.now)) }
{
    let Some(turns) = constant_bound(kind) else {
        return Ok(1);
    };
    let exits = block_exits(alloc, passing, body)?;
    if has_exit(&exits, Exit::End) || has_exit(&exits, Exit::Continue(node)) {
        Ok(turns)
    } else {
        Ok(1)
    }
}

fn looped(paced: Option<u32>, times: u64, inner: Measure) -> Measure
    ensures enter { result.enter ≡ cap (unless_paced paced (times * inner.enter)) }
    ensures stay { result.stay ≡ cap (unless_paced paced (inner.stay + times * inner.enter)) }
{
    match paced {
        Some(_) => Measure { enter: 0, stay: 0 },
        None => {
            let enter = product(times, inner.enter);
            let stay = plus(inner.stay, enter);
            Measure { enter, stay }
        }
    }
}

// A statement before others.
fn before(ends: bool, waits: bool, here: Measure, after: Measure) -> Measure
    ensures enter { result.enter ≡ cap (if ends then here.enter + after.enter else here.enter) }
    ensures stay { result.stay ≡ cap (if waits then max (here.stay + after.enter) after.stay else after.stay) }
{
    let enter = if ends {
        plus(here.enter, after.enter)
    } else {
        here.enter
    };
    let stay = if waits {
        plus(here.stay, after.enter).max(after.stay)
    } else {
        after.stay
    };
    Measure {
        enter: enter.min(CAP),
        stay: stay.min(CAP),
    }
}

#[tactic(auto, using(ceu_paths::proofs::CapLaws::caps))]
fn pool_stay(tables: &Tables, kind: KKind) -> u64
    ensures { result ≡ cap (measured.pool_stay tables.now kind) }
{
    match kind {
        KKind::Var(_) => 0,
        KKind::Alias(_) => 0,
        KKind::Pool(places, code) => product(u64::from(places), cost_at(&tables.staying, code)),
    }
}

#[tactic(auto, using(ceu_paths::proofs::CapLaws::caps, ceu_tree::proofs::TableLaws::total_more))]
fn pools_stay(tables: &Tables, decls: &[KDecl]) -> u64
    ensures { result ≡ cap (total (measured.decl_stay tables.now) decls.now) }
{
    let mut sum = 0u64;
    for decl in decls {
        sum = plus(sum, pool_stay(tables, decl.kind));
    }
    sum
}

#[cycle(costing)]
#[tactic(auto, using(crate::proofs::MeasureLaws::measures, ceu_tree::proofs::Sizes::sizes, ceu_paths::proofs::CapLaws::caps))]
fn stmt_measure(
    alloc: Global,
    tables: &Tables,
    node: u32,
    stmt: &KStmt,
) -> Result<Measure, AllocError>
    ensures enter { IfOk result (λ cost. cost.enter ≡ cap (measured.enter_stmt tables.now node stmt.now)) }
    ensures stay { IfOk result (λ cost. cost.stay ≡ cap (measured.stay_stmt tables.now node stmt.now)) }
{
    match stmt {
        KStmt::Emit(event, _) => Ok(cost_of(cost_at(&tables.events, *event), 0)),
        KStmt::AwaitIn(_, _) => Ok(cost_of(0, turn(tables.part))),
        KStmt::AwaitTime(_, _, _) => Ok(cost_of(0, turn(tables.part))),
        KStmt::AwaitEvent(_, _) => Ok(cost_of(turn(tables.part), turn(tables.part))),
        KStmt::Async(_) => Ok(cost_of(0, turn(tables.part))),
        KStmt::Spawn(code, _, _, _) => {
            let enter = plus(spawning(tables.part), cost_at(&tables.entering, *code));
            Ok(cost_of(enter, 0))
        }
        KStmt::AwaitCode(code, _, _, _) => {
            Ok(cost_of(
                cost_at(&tables.entering, *code),
                cost_at(&tables.staying, *code),
            ))
        }
        KStmt::Do(_, body) => block_measure(alloc, tables, body),
        KStmt::If(arms, last) => {
            let first = arms_measure(alloc, tables, arms.items())?;
            let second = block_measure(alloc, tables, last)?;
            Ok(cost_of(first.enter.max(second.enter), first.stay.max(second.stay)))
        }
        KStmt::Loop(kind, body) => {
            let inner = block_measure(alloc, tables, body)?;
            let times = loop_times(alloc, &tables.passing, node, kind, body)?;
            Ok(looped(paced(kind, body), times, inner))
        }
        KStmt::Par(_, _, branches) => par_measure(alloc, tables, branches.items()),
        KStmt::Nothing => Ok(cost_of(0, 0)),
        KStmt::Assign(_, _) => Ok(cost_of(0, 0)),
        KStmt::Out(_, _) => Ok(cost_of(0, 0)),
        KStmt::Forever => Ok(cost_of(0, 0)),
        KStmt::Kill(_) => Ok(cost_of(0, 0)),
        KStmt::Unset(_) => Ok(cost_of(0, 0)),
        KStmt::Finalize(_) => Ok(cost_of(0, 0)),
        KStmt::Escape(_, _) => Ok(cost_of(0, 0)),
        KStmt::Break(_) => Ok(cost_of(0, 0)),
        KStmt::Continue(_) => Ok(cost_of(0, 0)),
    }
}

/// What a body costs by the tables.
#[cycle(costing)]
#[tactic(auto, using(crate::proofs::MeasureLaws::measures, ceu_tree::proofs::Sizes::sizes, ceu_paths::proofs::CapLaws::caps))]
pub fn block_measure(alloc: Global, tables: &Tables, block: &KBlock) -> Result<Measure, AllocError>
    ensures enter { IfOk result (λ cost. cost.enter ≡ cap (measured.enter_block tables.now block.now)) }
    ensures stay { IfOk result (λ cost. cost.stay ≡ cap (measured.stay_block tables.now block.now)) }
{
    let nodes = nodes_measure(alloc, tables, block.list.items())?;
    let pools = pools_stay(tables, block.decls.items());
    Ok(cost_of(nodes.enter, plus(pools, nodes.stay)))
}

/// What a list of statements costs by the tables, from the last statement back.
#[cycle(costing)]
#[tactic(auto, using(crate::proofs::MeasureLaws::measures, ceu_tree::proofs::Sizes::sizes, ceu_paths::proofs::CapLaws::caps))]
pub fn nodes_measure(alloc: Global, tables: &Tables, nodes: &[KNode]) -> Result<Measure, AllocError>
    ensures enter { IfOk result (λ cost. cost.enter ≡ cap (measured.enter_list tables.now nodes.now)) }
    ensures stay { IfOk result (λ cost. cost.stay ≡ cap (measured.stay_list tables.now nodes.now)) }
{
    let mut cost = cost_of(0, 0);
    let mut left = nodes.len();
    while left > 0 {
        left -= 1;
        let node = &nodes[left];
        let here = stmt_measure(alloc, tables, node.node, &node.stmt)?;
        let exits = stmt_exits(alloc, &tables.passing, node.node, &node.stmt)?;
        let ends = has_exit(&exits, Exit::End);
        cost = before(ends, stands_waiting(&node.stmt), here, cost);
    }
    Ok(cost)
}

#[cycle(costing)]
#[tactic(auto, using(crate::proofs::MeasureLaws::measures, ceu_tree::proofs::Sizes::sizes, ceu_paths::proofs::CapLaws::caps))]
fn arm_measure(alloc: Global, tables: &Tables, arm: &KArm) -> Result<Measure, AllocError>
    ensures enter { IfOk result (λ cost. cost.enter ≡ cap (measured.enter_arm tables.now arm.now)) }
    ensures stay { IfOk result (λ cost. cost.stay ≡ cap (measured.stay_arm tables.now arm.now)) }
{
    block_measure(alloc, tables, &arm.body)
}

#[cycle(costing)]
#[tactic(auto, using(crate::proofs::MeasureLaws::measures, ceu_tree::proofs::Sizes::sizes, ceu_paths::proofs::CapLaws::caps))]
fn arms_measure(alloc: Global, tables: &Tables, arms: &[KArm]) -> Result<Measure, AllocError>
    ensures enter { IfOk result (λ cost. cost.enter ≡ cap (greatest (measured.enter_arm tables.now) arms.now)) }
    ensures stay { IfOk result (λ cost. cost.stay ≡ cap (greatest (measured.stay_arm tables.now) arms.now)) }
{
    let mut most = cost_of(0, 0);
    for arm in arms {
        let here = arm_measure(alloc, tables, arm)?;
        most = cost_of(most.enter.max(here.enter), most.stay.max(here.stay));
    }
    Ok(most)
}

// Branches beside others: each takes a turn.
#[cycle(costing)]
#[tactic(auto, using(crate::proofs::MeasureLaws::measures, ceu_tree::proofs::Sizes::sizes, ceu_paths::proofs::CapLaws::caps))]
fn branches_measure(
    alloc: Global,
    tables: &Tables,
    branches: &[KBlock],
) -> Result<Measure, AllocError>
    ensures enter { IfOk result (λ cost. cost.enter ≡ cap (total (measured.enter_branch tables.now) branches.now)) }
    ensures stay { IfOk result (λ cost. cost.stay ≡ cap (total (measured.stay_block tables.now) branches.now)) }
{
    let mut sum = cost_of(0, 0);
    let own = turn(tables.part);
    for branch in branches {
        let here = block_measure(alloc, tables, branch)?;
        let enter = plus(own, here.enter);
        sum = cost_of(plus(sum.enter, enter), plus(sum.stay, here.stay));
    }
    Ok(sum)
}

// The first branch goes on in the turn that reaches the par.
#[cycle(costing)]
#[tactic(auto, using(crate::proofs::MeasureLaws::measures, ceu_tree::proofs::Sizes::sizes, ceu_paths::proofs::CapLaws::caps))]
fn par_measure(alloc: Global, tables: &Tables, branches: &[KBlock]) -> Result<Measure, AllocError>
    ensures enter { IfOk result (λ cost. cost.enter ≡ cap (measured.enter_branches tables.now branches.now)) }
    ensures stay { IfOk result (λ cost. cost.stay ≡ cap (total (measured.stay_block tables.now) branches.now)) }
{
    match branches {
        [] => Ok(cost_of(0, 0)),
        [first, others @ ..] => {
            let here = block_measure(alloc, tables, first)?;
            let beside = branches_measure(alloc, tables, others)?;
            let enter = plus(here.enter, beside.enter);
            Ok(cost_of(enter, plus(here.stay, beside.stay)))
        }
    }
}
