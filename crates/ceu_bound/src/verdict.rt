// Which rule on bounds each loop breaks, and which of them comes first.
ghost use Rattle.std.specs.Prelude.{◌≡◌, ◌++◌, ◌∷◌, [], List, ℕ, true, false, map, IfOk, OnOk};
ghost use Rattle.std.specs.List.{Contains};
ghost use Rattle.ceu_paths.specs.Joined.{joined};
ghost use Rattle.ceu_paths.specs.Emits.{block_emits};
ghost use Rattle.ceu_paths.specs.Found.{seen};
ghost use Rattle.ceu_paths.specs.Loops.{TrailLoop};
ghost use Rattle.ceu_bound.specs.Graph.{arrow, NeverRises, Path};
ghost use Rattle.ceu_bound.specs.PhaseB as spec;
ghost use Rattle.ceu_bound.specs.Verdict as verdict;

use crate::graph::{Arrow, reaches_by_number};
use ceu_base::{Pos, Rule};
use ceu_paths::{
    Exit, FoundLoop, block_exits, constant_bound, emit_in, find_loops, has_exit, paced,
};
use ceu_tree::{KCode, Kernel};
use std::alloc::{AllocError, Global};

/// A rule that is broken, and where.
#[derive(Clone, Copy)]
pub struct Broken {
    pub rule: Rule,
    pub pos: Pos,
}

fn add_targets(event: u32, emitted: &[u32], arrows: &mut Vec<Arrow>) -> Result<(), AllocError>
    ensures { OnOk result (arrows.new.items ≡ arrows.old.items ++ map (arrow event) emitted.now) }
{
    for target in emitted {
        arrows.push(Arrow {
            source: event,
            target: *target,
        })?;
    }
    Ok(())
}

fn add_arrows(alloc: Global, found: &FoundLoop, arrows: &mut Vec<Arrow>) -> Result<(), AllocError>
    ensures { OnOk result (arrows.new.items ≡ arrows.old.items ++ spec.loop_arrows (seen found.now)) }
{
    match paced(found.kind, found.body) {
        None => Ok(()),
        Some(event) => {
            let mut emitted = Vec::new(alloc);
            emit_in(found.body, &mut emitted)?;
            add_targets(event, &emitted, arrows)
        }
    }
}

/// From the event that paces a loop to each event that the loop emits.
pub fn all_arrows(alloc: Global, loops: &[FoundLoop]) -> Result<Vec<Arrow>, AllocError>
    ensures { IfOk result (λ arrows. arrows.items ≡ joined spec.loop_arrows (map seen loops.now)) }
{
    let mut arrows = Vec::new(alloc);
    for found in loops {
        add_arrows(alloc, found, &mut arrows)?;
    }
    Ok(arrows)
}

fn add_code_loops<'k>(codes: &'k [KCode], loops: &mut Vec<FoundLoop<'k>>) -> Result<(), AllocError>
    ensures { OnOk result (map seen loops.new.items ≡ map seen loops.old.items ++ joined spec.code_loops codes.now) }
{
    for code in codes {
        find_loops(&code.body, loops)?;
    }
    Ok(())
}

/// The loops of the program's body and of each code's.
pub fn all_loops<'k>(alloc: Global, kernel: &'k Kernel) -> Result<Vec<FoundLoop<'k>>, AllocError>
    ensures { IfOk result (λ loops. map seen loops.items ≡ spec.all_loops kernel.now) }
{
    let mut loops = Vec::new(alloc);
    find_loops(&kernel.body, &mut loops)?;
    add_code_loops(kernel.codes.items(), &mut loops)?;
    Ok(loops)
}

// Whether a path leads from one of these events back to the event.
fn leads_back(
    alloc: Global,
    arrows: &[Arrow],
    numbers: &[usize],
    event: u32,
    emitted: &[u32],
) -> Result<bool, AllocError>
    requires { NeverRises numbers.now arrows.now }
    ensures found { IfOk result (λ answer. answer ≡ true → (f : ℕ) × Contains emitted.now f × Path arrows.now f event) }
    ensures none { IfOk result (λ answer. answer ≡ false → (f : ℕ) → Contains emitted.now f → Path arrows.now f event → ⊥) }
{
    for target in emitted {
        if reaches_by_number(alloc, arrows, numbers, *target, event)? {
            return Ok(true);
        }
    }
    Ok(false)
}

fn goes_round(alloc: Global, passing: &[bool], found: &FoundLoop) -> Result<bool, AllocError>
    ensures { IfOk result (λ answer. answer ≡ spec.goes_round passing.now (seen found.now)) }
{
    let exits = block_exits(alloc, passing, found.body)?;
    Ok(has_exit(&exits, Exit::End) || has_exit(&exits, Exit::Continue(found.node)))
}

fn rule_where(broken: bool, rule: Rule) -> Option<Rule>
    ensures yes { broken ≡ true → result ≡ Some rule }
    ensures no { broken ≡ false → result ≡ None }
{
    if broken { Some(rule) } else { None }
}

fn paced_breaks(
    alloc: Global,
    arrows: &[Arrow],
    numbers: &[usize],
    event: u32,
    found: &FoundLoop,
) -> Result<bool, AllocError>
    requires { NeverRises numbers.now arrows.now }
    ensures found { IfOk result (λ answer. answer ≡ true → (f : ℕ) × Contains (block_emits found.now.body.now) f × Path arrows.now f event) }
    ensures none { IfOk result (λ answer. answer ≡ false → (f : ℕ) → Contains (block_emits found.now.body.now) f → Path arrows.now f event → ⊥) }
{
    let mut emitted = Vec::new(alloc);
    emit_in(found.body, &mut emitted)?;
    leads_back(alloc, arrows, numbers, event, &emitted)
}

// The rule that a loop breaks.
fn broken_rule(
    alloc: Global,
    passing: &[bool],
    arrows: &[Arrow],
    numbers: &[usize],
    found: &FoundLoop,
) -> Result<Option<Rule>, AllocError>
    requires { NeverRises numbers.now arrows.now }
    ensures { IfOk result (λ rule. verdict.IsVerdict passing.now arrows.now (seen found.now) rule) }
{
    if let Some(turns) = constant_bound(found.kind) {
        return Ok(rule_where(turns > 65_536, Rule::B3));
    }
    match paced(found.kind, found.body) {
        Some(event) => {
            let cyclic = paced_breaks(alloc, arrows, numbers, event, found)?;
            Ok(rule_where(cyclic, Rule::B2))
        }
        None => {
            let again = goes_round(alloc, passing, found)?;
            Ok(rule_where(again, Rule::B1))
        }
    }
}

fn rank(rule: Rule) -> u8
    ensures { result ≡ spec.rank rule }
{
    match rule {
        Rule::B1 => 1,
        Rule::B2 => 2,
        Rule::B3 => 3,
        _ => 0,
    }
}

fn is_not_after(first: Broken, second: Broken) -> bool
    ensures { result ≡ verdict.is_not_after first second }
{
    if first.pos.line != second.pos.line {
        return first.pos.line < second.pos.line;
    }
    if first.pos.col != second.pos.col {
        return first.pos.col < second.pos.col;
    }
    rank(first.rule) <= rank(second.rule)
}

fn earlier(first: Option<Broken>, pos: Pos, rule: Option<Rule>) -> Option<Broken>
    ensures { result ≡ verdict.earlier first pos rule }
{
    let Some(rule) = rule else {
        return first;
    };
    let here = Broken { rule, pos };
    match first {
        None => Some(here),
        Some(broken) => {
            if is_not_after(broken, here) {
                Some(broken)
            } else {
                Some(here)
            }
        }
    }
}

// Whether a place is behind that of a rule that is broken.
fn is_behind(first: Option<Broken>, pos: Pos) -> bool
    ensures { result ≡ verdict.is_behind first pos }
{
    match first {
        None => false,
        Some(broken) => {
            if broken.pos.line == pos.line {
                broken.pos.col < pos.col
            } else {
                broken.pos.line < pos.line
            }
        }
    }
}

// The first of the rules that are broken, with one more loop. A loop behind the first one isn't asked.
fn first_with(
    alloc: Global,
    passing: &[bool],
    arrows: &[Arrow],
    numbers: &[usize],
    first: Option<Broken>,
    found: &FoundLoop,
) -> Result<Option<Broken>, AllocError>
    requires { NeverRises numbers.now arrows.now }
    ensures { IfOk result (λ more. (ls : List TrailLoop) → verdict.IsFirstOf passing.now arrows.now ls first → verdict.IsFirstOf passing.now arrows.now (ls ++ seen found.now ∷ []) more) }
{
    if is_behind(first, found.pos) {
        return Ok(first);
    }
    let rule = broken_rule(alloc, passing, arrows, numbers, found)?;
    Ok(earlier(first, found.pos, rule))
}

/// The first of the rules that these loops break, where `passing` says which codes may go on at once, and no arrow leads to an event with
/// a greater number.
pub fn first_broken(
    alloc: Global,
    passing: &[bool],
    arrows: &[Arrow],
    numbers: &[usize],
    loops: &[FoundLoop],
) -> Result<Option<Broken>, AllocError>
    requires { NeverRises numbers.now arrows.now }
    ensures { IfOk result (λ first. verdict.IsFirstOf passing.now arrows.now (map seen loops.now) first) }
{
    let mut first = None;
    for found in loops {
        first = first_with(alloc, passing, arrows, numbers, first, found)?;
    }
    Ok(first)
}
