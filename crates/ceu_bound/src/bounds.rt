// The bounds of a program's reactions, and the rules on them.
ghost use Rattle.std.specs.Prelude.{◌≡◌, ◌<◌, ◌≤◌, ◌⊎◌, [], map, IfOk, IfErr, IfSome, IfNone};
ghost use Rattle.ceu_tree.specs.Paths.{passes_from};
ghost use Rattle.ceu_tree.specs.Costs.{bounds, instances_from};
ghost use Rattle.ceu_paths.specs.Cap.{cap};
ghost use Rattle.ceu_paths.specs.Found.{seen};
ghost use Rattle.ceu_bound.specs.Graph.{NeverRises};
ghost use Rattle.ceu_bound.specs.Parts.{pick};
ghost use Rattle.ceu_bound.specs.Waking.{AreWakes};
ghost use Rattle.ceu_bound.specs.Filled.{AreTables};
ghost use Rattle.ceu_bound.specs.PhaseB as spec;
ghost use Rattle.ceu_bound.specs.PhaseB.{AreBounds, IsBoundRefusal, KeepsLoopRules};
ghost use Rattle.ceu_bound.specs.Verdict.{IsFirstOf};

use crate::codes::{enter_codes, stay_codes};
use crate::cycles::cycle_numbers;
use crate::emissions::{Wake, all_wakes};
use crate::graph::{Arrow, never_rises};
use crate::instances::instances;
use crate::measures::{block_measure, plus, turn};
use crate::order::{numbered, taken_away};
use crate::settling::settle;
use crate::tables::{Part, Tables};
use crate::verdict::{Broken, all_arrows, all_loops, first_broken};
use ceu_base::{CheckError, Pos, Rule};
use ceu_paths::{FoundLoop, passing_codes};
use ceu_tree::Kernel;
use std::alloc::{AllocError, Global};

/// The turns of trails and the levels that a reaction may take at most.
#[derive(Clone, Copy, Debug, PartialEq, Eq)]
pub struct Bounds {
    pub turns: u32,
    pub levels: u16,
}

// What the events and codes of a program cost in one part.
fn filled_tables(
    alloc: Global,
    kernel: &Kernel,
    part: Part,
    wakes: &[Wake],
    order: &[u32],
) -> Result<Tables, AllocError>
    requires { AreWakes kernel.now (map cap (instances_from kernel.now.body 0 kernel.now.codes)) wakes.now }
    ensures part { IfOk result (λ tables. tables.part ≡ part) }
    ensures tables { IfOk result (AreTables kernel.now) }
{
    let codes = kernel.codes.items();
    let passing = passing_codes(alloc, codes)?;
    let mut tables = Tables {
        part,
        passing,
        events: Vec::new(alloc),
        entering: Vec::new(alloc),
        staying: Vec::new(alloc),
    };
    settle(alloc, &mut tables, kernel, wakes, order)?;
    enter_codes(alloc, &mut tables, codes)?;
    stay_codes(alloc, &mut tables, codes)?;
    Ok(tables)
}

// The greatest cost of a reaction in one part.
fn part_bound(
    alloc: Global,
    kernel: &Kernel,
    part: Part,
    wakes: &[Wake],
    order: &[u32],
) -> Result<u64, AllocError>
    requires { AreWakes kernel.now (map cap (instances_from kernel.now.body 0 kernel.now.codes)) wakes.now }
    ensures { IfOk result (λ cost. cost ≡ cap (pick part (bounds kernel.now))) }
{
    let tables = filled_tables(alloc, kernel, part, wakes, order)?;
    let main = block_measure(alloc, &tables, &kernel.body)?;
    Ok(plus(turn(tables.part), main.enter).max(main.stay))
}

fn fitting(turns: u64, levels: u64) -> Option<Bounds>
    ensures turns { IfSome result (λ b. (b.turns ≡ turns) × (turns ≤ 4294967295)) }
    ensures levels { IfSome result (λ b. (b.levels ≡ levels) × (levels ≤ 65535)) }
    ensures over { IfNone result ((4294967295 < turns) ⊎ (65535 < levels)) }
{
    if turns > 4_294_967_295 {
        return None;
    }
    if levels > 65_535 {
        return None;
    }
    Some(Bounds {
        turns: turns as u32,
        levels: levels as u16,
    })
}

// The bounds, where they fit.
fn fitting_bounds(
    alloc: Global,
    kernel: &Kernel,
    order: &[u32],
) -> Result<Option<Bounds>, AllocError>
    ensures turns { IfOk result (λ answer. IfSome answer (λ b. b.turns ≡ (bounds kernel.now).turns)) }
    ensures levels { IfOk result (λ answer. IfSome answer (λ b. b.levels ≡ (bounds kernel.now).opens)) }
    ensures over { IfOk result (λ answer. IfNone answer ((4294967295 < (bounds kernel.now).turns) ⊎ (65535 < (bounds kernel.now).opens))) }
{
    let counts = instances(alloc, kernel)?;
    let wakes = all_wakes(alloc, kernel, &counts)?;
    let turns = part_bound(alloc, kernel, Part::Turns, &wakes, order)?;
    let levels = part_bound(alloc, kernel, Part::Levels, &wakes, order)?;
    Ok(fitting(turns, levels))
}

// The arrows between the events of a program, and the order in which events are taken away.
#[derive(Drop)]
struct Emissions<'k> {
    loops: Vec<FoundLoop<'k>>,
    arrows: Vec<Arrow>,
    order: Vec<u32>,
}

fn find_emissions(alloc: Global, kernel: &Kernel) -> Result<Emissions<'_>, AllocError>
    ensures loops { IfOk result (λ found. map seen found.loops.items ≡ spec.all_loops kernel.now) }
    ensures arrows { IfOk result (λ found. found.arrows.items ≡ spec.arrows kernel.now) }
{
    let loops = all_loops(alloc, kernel)?;
    let arrows = all_arrows(alloc, &loops)?;
    let order = taken_away(alloc, &arrows, kernel.events.items().len())?;
    Ok(Emissions {
        loops,
        arrows,
        order,
    })
}

// Numbers of the events that don't rise along an arrow: those of the order, or by cycles where some event isn't taken away; none where these
// would rise.
fn numbers(
    alloc: Global,
    arrows: &[Arrow],
    order: &[u32],
    events: usize,
) -> Result<Vec<usize>, AllocError>
    ensures { IfOk result (λ numbers. NeverRises numbers.items arrows.now) }
{
    let numbers = if order.len() == events {
        numbered(alloc, order, events)?
    } else {
        cycle_numbers(alloc, arrows, events)?
    };
    if never_rises(&numbers, arrows) {
        return Ok(numbers);
    }
    Ok(Vec::new(alloc))
}

// The first of the rules that the program's loops break.
fn broken_loop(
    alloc: Global,
    kernel: &Kernel,
    found: &Emissions,
) -> Result<Option<Broken>, AllocError>
    requires loops { map seen found.now.loops.items ≡ spec.all_loops kernel.now }
    requires arrows { found.now.arrows.items ≡ spec.arrows kernel.now }
    ensures { IfOk result (λ first. IsFirstOf (passes_from [] kernel.now.codes) (spec.arrows kernel.now) (spec.all_loops kernel.now) first) }
{
    let passing = passing_codes(alloc, kernel.codes.items())?;
    let events = kernel.events.items().len();
    let numbers = numbers(alloc, &found.arrows, &found.order, events)?;
    first_broken(alloc, &passing, &found.arrows, &numbers, &found.loops)
}

// The bounds of a program whose loops break no rule.
fn bounds_within(alloc: Global, kernel: &Kernel, order: &[u32]) -> Result<Bounds, CheckError>
    requires { KeepsLoopRules kernel.now }
    ensures accepted { IfOk result (AreBounds kernel.now) }
    ensures refused { IfErr result (IsBoundRefusal kernel.now) }
{
    match fitting_bounds(alloc, kernel, order) {
        Err(_) => Err(CheckError::Memory),
        Ok(Some(bounds)) => Ok(bounds),
        Ok(None) => Err(CheckError::Refused(Rule::B4, Pos { line: 1, col: 1 })),
    }
}

// The bounds of a program whose loops and arrows are found.
fn bound_by(alloc: Global, kernel: &Kernel, found: &Emissions) -> Result<Bounds, CheckError>
    requires loops { map seen found.now.loops.items ≡ spec.all_loops kernel.now }
    requires arrows { found.now.arrows.items ≡ spec.arrows kernel.now }
    ensures accepted { IfOk result (AreBounds kernel.now) }
    ensures refused { IfErr result (IsBoundRefusal kernel.now) }
{
    match broken_loop(alloc, kernel, found) {
        Err(_) => Err(CheckError::Memory),
        Ok(Some(broken)) => Err(CheckError::Refused(broken.rule, broken.pos)),
        Ok(None) => bounds_within(alloc, kernel, &found.order),
    }
}

/// How many turns of trails, and how many levels, a reaction of a program takes at most.
///
/// A program is refused by the first rule on bounds that its loops break, in the order of the source, at one place the lowest: B1 (the next
/// turn of a loop without a constant bound, which no event paces, may begin at once), B2 (one of the arrows of a paced loop lies on a cycle of
/// emissions), B3 (a constant bound is over 65,536 turns). Where none is broken, B4 is, at 1:1, where the turns are over 4,294,967,295 or
/// the levels over 65,535.
pub fn bound(alloc: Global, kernel: &Kernel) -> Result<Bounds, CheckError>
    ensures accepted { IfOk result (AreBounds kernel.now) }
    ensures refused { IfErr result (IsBoundRefusal kernel.now) }
{
    match find_emissions(alloc, kernel) {
        Err(_) => Err(CheckError::Memory),
        Ok(found) => bound_by(alloc, kernel, &found),
    }
}
