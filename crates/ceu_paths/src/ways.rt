// The exits that a statement may take without an outside wait.
ghost use Rattle.std.specs.Prelude.{◌≡◌, ◌∷◌, ◌++◌, ◌&&◌, [], IfOk, OnOk};
ghost use Rattle.std.specs.List.{filter, list_any};
ghost use Rattle.ceu_tree.specs.Paths as spec;
ghost use Rattle.ceu_tree.specs.Paths.{end_if, gathered};
ghost use Rattle.ceu_paths.specs.Ways.{way, ways, is_way, goes_out};

use crate::turns::{constant_bound, is_range};
use ceu_tree::{KArm, KBlock, KCode, KLoop, KNode, KStmt, ParKind};
use std::alloc::{AllocError, Global};

/// An exit of a statement: its end, or a jump to a statement around it.
#[derive(Clone, Copy)]
pub enum Exit {
    End,
    Escape(u32),
    Break(u32),
    Continue(u32),
}

/// What a jump may lead to without leaving the statement.
#[derive(Clone, Copy)]
enum Inside {
    APar,
    ADo(u32),
    ALoop(u32),
}

fn is_end(exit: Exit) -> bool
    ensures { result ≡ spec.is_end (way exit) }
{
    match exit {
        Exit::End => true,
        Exit::Escape(_) => false,
        Exit::Break(_) => false,
        Exit::Continue(_) => false,
    }
}

fn is_escape(node: u32, exit: Exit) -> bool
    ensures { result ≡ spec.is_escape node (way exit) }
{
    match exit {
        Exit::Escape(target) => node == target,
        Exit::End => false,
        Exit::Break(_) => false,
        Exit::Continue(_) => false,
    }
}

fn is_break(node: u32, exit: Exit) -> bool
    ensures { result ≡ spec.is_break node (way exit) }
{
    match exit {
        Exit::Break(target) => node == target,
        Exit::End => false,
        Exit::Escape(_) => false,
        Exit::Continue(_) => false,
    }
}

fn is_continue(node: u32, exit: Exit) -> bool
    ensures { result ≡ spec.is_continue node (way exit) }
{
    match exit {
        Exit::Continue(target) => node == target,
        Exit::End => false,
        Exit::Escape(_) => false,
        Exit::Break(_) => false,
    }
}

fn is_same(exit: Exit, other: Exit) -> bool
    ensures { result ≡ is_way (way exit) (way other) }
{
    match exit {
        Exit::End => is_end(other),
        Exit::Escape(node) => is_escape(node, other),
        Exit::Break(node) => is_break(node, other),
        Exit::Continue(node) => is_continue(node, other),
    }
}

fn goes_out(inside: Inside, exit: Exit) -> bool
    ensures { result ≡ goes_out inside (way exit) }
{
    match inside {
        Inside::APar => !is_end(exit),
        Inside::ADo(node) => !(is_end(exit) || is_escape(node, exit)),
        Inside::ALoop(node) => !(is_end(exit) || is_break(node, exit) || is_continue(node, exit)),
    }
}

/// Whether an exit is among these.
#[tactic(auto, using(crate::proofs::WayLaws::steps))]
pub fn has_exit(exits: &[Exit], exit: Exit) -> bool
    ensures { result ≡ list_any (is_way (way exit)) (ways exits.now) }
{
    for other in exits {
        if is_same(exit, *other) {
            return true;
        }
    }
    false
}

// Adds those of the exits that lead out.
#[tactic(auto, using(crate::proofs::WayLaws::steps))]
fn add_outer(exits: &mut Vec<Exit>, inside: Inside, inner: &[Exit]) -> Result<(), AllocError>
    ensures { OnOk result (ways exits.new.items ≡ ways exits.old.items ++ filter (goes_out inside) (ways inner.now)) }
{
    for exit in inner {
        if goes_out(inside, *exit) {
            exits.push(*exit)?;
        }
    }
    Ok(())
}

fn add_end(exits: &mut Vec<Exit>, ends: bool) -> Result<(), AllocError>
    ensures { OnOk result (ways exits.new.items ≡ ways exits.old.items ++ end_if ends) }
{
    if ends {
        exits.push(Exit::End)?;
    }
    Ok(())
}

// The exits of a statement with these inside it, and its end where it has one.
fn outside(
    alloc: Global,
    inside: Inside,
    inner: &[Exit],
    ends: bool,
) -> Result<Vec<Exit>, AllocError>
    ensures { IfOk result (λ exits. ways exits.items ≡ filter (goes_out inside) (ways inner.now) ++ end_if ends) }
{
    let mut exits = Vec::new(alloc);
    add_outer(&mut exits, inside, inner)?;
    add_end(&mut exits, ends)?;
    Ok(exits)
}

// Whether a loop may come to its end by its turns.
#[tactic(auto, using(crate::proofs::WayLaws::steps))]
fn runs_out(node: u32, kind: &KLoop, inner: &[Exit]) -> bool
    ensures { result ≡ spec.runs_out node (spec.is_range kind.now) (spec.constant_bound kind.now) (ways inner.now) }
{
    let range = is_range(kind);
    let ends = has_exit(inner, Exit::End);
    let again = has_exit(inner, Exit::Continue(node));
    match constant_bound(kind) {
        None => range,
        Some(0) => range || ends || again,
        Some(_) => ends || again,
    }
}

fn loop_exits(
    alloc: Global,
    node: u32,
    kind: &KLoop,
    inner: &[Exit],
) -> Result<Vec<Exit>, AllocError>
    ensures { IfOk result (λ exits. ways exits.items ≡ spec.loop_ways node kind.now (ways inner.now)) }
{
    let ends = has_exit(inner, Exit::Break(node)) || runs_out(node, kind, inner);
    outside(alloc, Inside::ALoop(node), inner, ends)
}

fn do_exits(alloc: Global, node: u32, inner: &[Exit]) -> Result<Vec<Exit>, AllocError>
    ensures { IfOk result (λ exits. ways exits.items ≡ spec.do_ways node (ways inner.now)) }
{
    let ends = has_exit(inner, Exit::End) || has_exit(inner, Exit::Escape(node));
    outside(alloc, Inside::ADo(node), inner, ends)
}

fn one_exit(alloc: Global, exit: Exit) -> Result<Vec<Exit>, AllocError>
    ensures { IfOk result (λ exits. ways exits.items ≡ way exit ∷ []) }
{
    let mut exits = Vec::new(alloc);
    exits.push(exit)?;
    Ok(exits)
}

fn no_exit(alloc: Global) -> Vec<Exit>
    ensures { ways result.items ≡ [] }
{
    Vec::new(alloc)
}

fn end_where(alloc: Global, ends: bool) -> Result<Vec<Exit>, AllocError>
    ensures { IfOk result (λ exits. ways exits.items ≡ end_if ends) }
{
    let mut exits = Vec::new(alloc);
    add_end(&mut exits, ends)?;
    Ok(exits)
}

// Whether a code may go on at once.
#[tactic(auto, using(crate::proofs::WayLaws::flags))]
fn flag(passing: &[bool], code: u32) -> bool
    ensures { result ≡ spec.flag code passing.now }
{
    let at = code as usize;
    if at < passing.len() {
        passing[at]
    } else {
        false
    }
}

// The exits of the branches together, and whether each of them may end.
#[derive(Drop)]
struct Branches {
    exits: Vec<Exit>,
    all_end: bool,
}

fn par_exits(alloc: Global, kind: ParKind, branches: Branches) -> Result<Vec<Exit>, AllocError>
    ensures { IfOk result (λ exits. ways exits.items ≡ spec.par_ways kind (ways branches.exits.items) branches.all_end) }
{
    match kind {
        ParKind::Never => outside(alloc, Inside::APar, &branches.exits, false),
        ParKind::Or => Ok(branches.exits),
        ParKind::And => outside(alloc, Inside::APar, &branches.exits, branches.all_end),
    }
}

#[cycle(ways)]
#[tactic(auto, using(ceu_tree::proofs::PathLaws::paths, crate::proofs::Lists::lists, ceu_tree::proofs::Sizes::sizes))]
pub fn stmt_exits(
    alloc: Global,
    passing: &[bool],
    node: u32,
    stmt: &KStmt,
) -> Result<Vec<Exit>, AllocError>
    ensures { IfOk result (λ exits. ways exits.items ≡ spec.quick passing.now node stmt.now) }
{
    match stmt {
        KStmt::Do(_, body) => {
            let inner = block_exits(alloc, passing, body)?;
            do_exits(alloc, node, &inner)
        }
        KStmt::If(arms, last) => {
            let mut exits = arms_exits(alloc, passing, arms.items())?;
            let others = block_exits(alloc, passing, last)?;
            exits.extend_from_slice(&others)?;
            Ok(exits)
        }
        KStmt::Par(kind, _, branches) => {
            let inner = branches_exits(alloc, passing, branches.items())?;
            par_exits(alloc, *kind, inner)
        }
        KStmt::Loop(kind, body) => {
            let inner = block_exits(alloc, passing, body)?;
            loop_exits(alloc, node, kind, &inner)
        }
        KStmt::AwaitCode(code, _, _, _) => end_where(alloc, flag(passing, *code)),
        KStmt::AwaitIn(_, _) => Ok(no_exit(alloc)),
        KStmt::AwaitTime(_, _, _) => Ok(no_exit(alloc)),
        KStmt::Forever => Ok(no_exit(alloc)),
        KStmt::Async(_) => Ok(no_exit(alloc)),
        KStmt::Escape(target, _) => one_exit(alloc, Exit::Escape(*target)),
        KStmt::Break(target) => one_exit(alloc, Exit::Break(*target)),
        KStmt::Continue(target) => one_exit(alloc, Exit::Continue(*target)),
        KStmt::Nothing => one_exit(alloc, Exit::End),
        KStmt::Assign(_, _) => one_exit(alloc, Exit::End),
        KStmt::Out(_, _) => one_exit(alloc, Exit::End),
        KStmt::Emit(_, _) => one_exit(alloc, Exit::End),
        KStmt::AwaitEvent(_, _) => one_exit(alloc, Exit::End),
        KStmt::Spawn(_, _, _, _) => one_exit(alloc, Exit::End),
        KStmt::Kill(_) => one_exit(alloc, Exit::End),
        KStmt::Unset(_) => one_exit(alloc, Exit::End),
        KStmt::Finalize(_) => one_exit(alloc, Exit::End),
    }
}

/// The exits that a body may take without an outside wait, where `passing` says which codes may go on at once.
#[cycle(ways)]
#[tactic(auto, using(ceu_tree::proofs::PathLaws::paths, crate::proofs::Lists::lists, ceu_tree::proofs::Sizes::sizes))]
pub fn block_exits(alloc: Global, passing: &[bool], block: &KBlock) -> Result<Vec<Exit>, AllocError>
    ensures { IfOk result (λ exits. ways exits.items ≡ spec.quick_block passing.now block.now) }
{
    nodes_exits(alloc, passing, block.list.items())
}

// Up to the first statement that is sure not to end at once.
#[cycle(ways)]
#[tactic(auto, using(ceu_tree::proofs::PathLaws::paths, crate::proofs::Lists::lists, ceu_tree::proofs::Sizes::sizes))]
fn nodes_exits(alloc: Global, passing: &[bool], nodes: &[KNode]) -> Result<Vec<Exit>, AllocError>
    ensures { IfOk result (λ exits. ways exits.items ≡ spec.quick_list passing.now nodes.now) }
{
    let mut exits = Vec::new(alloc);
    for node in nodes {
        let here = stmt_exits(alloc, passing, node.node, &node.stmt)?;
        add_outer(&mut exits, Inside::APar, &here)?;
        if !has_exit(&here, Exit::End) {
            return Ok(exits);
        }
    }
    add_end(&mut exits, true)?;
    Ok(exits)
}

#[cycle(ways)]
#[tactic(auto, using(ceu_tree::proofs::PathLaws::paths, crate::proofs::Lists::lists, ceu_tree::proofs::Sizes::sizes))]
fn arm_exits(alloc: Global, passing: &[bool], arm: &KArm) -> Result<Vec<Exit>, AllocError>
    ensures { IfOk result (λ exits. ways exits.items ≡ spec.quick_arm passing.now arm.now) }
{
    block_exits(alloc, passing, &arm.body)
}

#[cycle(ways)]
#[tactic(auto, using(ceu_tree::proofs::PathLaws::paths, crate::proofs::Lists::lists, ceu_tree::proofs::Sizes::sizes))]
fn arms_exits(alloc: Global, passing: &[bool], arms: &[KArm]) -> Result<Vec<Exit>, AllocError>
    ensures { IfOk result (λ exits. ways exits.items ≡ gathered (spec.quick_arm passing.now) arms.now) }
{
    let mut exits = Vec::new(alloc);
    for arm in arms {
        let here = arm_exits(alloc, passing, arm)?;
        exits.extend_from_slice(&here)?;
    }
    Ok(exits)
}

#[cycle(ways)]
#[tactic(auto, using(ceu_tree::proofs::PathLaws::paths, crate::proofs::Lists::lists, ceu_tree::proofs::Sizes::sizes))]
fn branches_exits(
    alloc: Global,
    passing: &[bool],
    branches: &[KBlock],
) -> Result<Branches, AllocError>
    ensures exits { IfOk result (λ found. ways found.exits.items ≡ gathered (spec.quick_block passing.now) branches.now) }
    ensures all_end { IfOk result (λ found. found.all_end ≡ spec.all_blocks_end passing.now branches.now) }
{
    let mut exits = Vec::new(alloc);
    let mut all_end = true;
    for branch in branches {
        let here = block_exits(alloc, passing, branch)?;
        exits.extend_from_slice(&here)?;
        let ends = has_exit(&here, Exit::End);
        all_end = both(all_end, ends);
    }
    Ok(Branches { exits, all_end })
}

fn both(first: bool, second: bool) -> bool
    ensures { result ≡ (first && second) }
{
    first && second
}

// Whether an await of a code may go on at once.
fn passes(alloc: Global, passing: &[bool], code: &KCode) -> Result<bool, AllocError>
    ensures { IfOk result (λ answer. answer ≡ spec.passes passing.now code.now) }
{
    let exits = block_exits(alloc, passing, &code.body)?;
    Ok(has_exit(&exits, Exit::End) || has_exit(&exits, Exit::Escape(code.body.node)))
}

/// Which of the codes an await may pass at once, in the order of the codes.
pub fn passing_codes(alloc: Global, codes: &[KCode]) -> Result<Vec<bool>, AllocError>
    ensures { IfOk result (λ passing. passing.items ≡ spec.passes_from [] codes.now) }
{
    let mut passing = Vec::new(alloc);
    for code in codes {
        let answer = passes(alloc, &passing, code)?;
        passing.push(answer)?;
    }
    Ok(passing)
}
