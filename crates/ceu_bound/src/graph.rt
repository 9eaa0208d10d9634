// Arrows between events, and which events lead where.
ghost use Rattle.std.specs.Prelude.{◌≡◌, true, false, find, IfOk};
ghost use Rattle.ceu_tree.specs.Needs.{entry};
ghost use Rattle.ceu_tree.specs.Paths.{flag};
ghost use Rattle.ceu_bound.specs.Graph.{NeverRises, Path, is_member, is_open, leaks, rises};

use std::alloc::{AllocError, Global};

/// An emission of one event causes one of the other.
#[derive(Clone, Copy)]
pub struct Arrow {
    pub source: u32,
    pub target: u32,
}

fn is_member(number: u32, numbers: &[u32]) -> bool
    ensures { result ≡ is_member number numbers.now }
{
    for other in numbers {
        if *other == number {
            return true;
        }
    }
    false
}

fn is_open(reached: &[u32], arrow: Arrow) -> bool
    ensures { result ≡ is_open reached.now arrow }
{
    is_member(arrow.source, reached) && !is_member(arrow.target, reached)
}

// An arrow that leads out of these events.
#[tactic(auto, using(crate::proofs::GraphLaws::finds))]
fn open_arrow(reached: &[u32], arrows: &[Arrow]) -> Option<Arrow>
    ensures { result ≡ find (is_open reached.now) arrows.now }
{
    for arrow in arrows {
        if is_open(reached, *arrow) {
            return Some(*arrow);
        }
    }
    None
}

// By the first arrow that leads out of what is reached, again and again.
fn reaches_slowly(
    alloc: Global,
    arrows: &[Arrow],
    source: u32,
    target: u32,
) -> Result<bool, AllocError>
    ensures found { IfOk result (λ answer. answer ≡ true → Path arrows.now source target) }
    ensures none { IfOk result (λ answer. answer ≡ false → Path arrows.now source target → ⊥) }
{
    let mut reached = Vec::new(alloc);
    reached.push(source)?;
    'search: loop {
        match open_arrow(&reached, arrows) {
            None => return Ok(is_member(target, &reached)),
            Some(arrow) => reached.push(arrow.target)?,
        }
    }
}

// What a search has marked, and by which arrow it came to each event. Where the search errs, what it found is thrown away.
#[derive(Drop)]
struct Search {
    marks: Vec<bool>,
    came: Vec<usize>,
    open: Vec<usize>,
}

#[tactic(auto, using(ceu_paths::proofs::WayLaws::flags))]
fn is_marked(marks: &[bool], event: u32) -> bool
    ensures { result ≡ flag event marks.now }
{
    let at = event as usize;
    if at < marks.len() { marks[at] } else { false }
}

fn leaks(marks: &[bool], arrow: Arrow) -> bool
    ensures { result ≡ leaks marks.now arrow }
{
    is_marked(marks, arrow.source) && !is_marked(marks, arrow.target)
}

// An arrow that leads out of the marked events.
#[tactic(auto, using(crate::proofs::GraphLaws::finds))]
fn leak(marks: &[bool], arrows: &[Arrow]) -> Option<Arrow>
    ensures { result ≡ find (leaks marks.now) arrows.now }
{
    for arrow in arrows {
        if leaks(marks, *arrow) {
            return Some(*arrow);
        }
    }
    None
}

// Whether the marks hold the one event, not the other, and no arrow leads out of them.
fn separates(marks: &[bool], arrows: &[Arrow], source: u32, target: u32) -> bool
    ensures { result ≡ true → Path arrows.now source target → ⊥ }
{
    if !is_marked(marks, source) {
        return false;
    }
    if is_marked(marks, target) {
        return false;
    }
    match leak(marks, arrows) {
        None => true,
        Some(_) => false,
    }
}

// Whether these arrows, taken back from the target, lead from the source.
fn follows(arrows: &[Arrow], way: &[usize], source: u32, target: u32) -> bool
    ensures { result ≡ true → Path arrows.now source target }
{
    let mut at = target;
    for step in way {
        if *step >= arrows.len() {
            return false;
        }
        let arrow = arrows[*step];
        if arrow.target != at {
            return false;
        }
        at = arrow.source;
    }
    at == source
}

// The first arrow from each event, and behind each arrow the next one from the same event; their number where there is none.
#[derive(Drop)]
pub struct Chains {
    pub heads: Vec<usize>,
    pub links: Vec<usize>,
}

/// The arrows as a list for each of so many events.
pub fn linked(alloc: Global, arrows: &[Arrow], events: usize) -> Result<Chains, AllocError> {
    let mut heads = vec![in alloc; arrows.len(); events]?;
    let mut links = Vec::new(alloc);
    for (at, arrow) in arrows.iter().enumerate() {
        let source = arrow.source as usize;
        if source < heads.len() {
            links.push(heads[source])?;
            heads[source] = at;
        } else {
            links.push(arrows.len())?;
        }
    }
    Ok(Chains { heads, links })
}

fn mark(search: &mut Search, event: usize, arrow: usize) -> Result<(), AllocError> {
    if event < search.marks.len() && event < search.came.len() && !search.marks[event] {
        search.open.push(event)?;
        search.marks[event] = true;
        search.came[event] = arrow;
    }
    Ok(())
}

fn mark_targets(
    search: &mut Search,
    arrows: &[Arrow],
    chains: &Chains,
    event: usize,
) -> Result<(), AllocError> {
    if event >= chains.heads.len() {
        return Ok(());
    }
    let mut at = chains.heads[event];
    for _ in 0..arrows.len() {
        if at >= arrows.len() || at >= chains.links.len() {
            return Ok(());
        }
        mark(search, arrows[at].target as usize, at)?;
        at = chains.links[at];
    }
    Ok(())
}

fn searched(
    alloc: Global,
    arrows: &[Arrow],
    events: usize,
    source: u32,
) -> Result<Search, AllocError> {
    let chains = linked(alloc, arrows, events)?;
    let mut search = Search {
        marks: vec![in alloc; false; events]?,
        came: vec![in alloc; arrows.len(); events]?,
        open: Vec::new(alloc),
    };
    mark(&mut search, source as usize, arrows.len())?;
    for _ in 0..events {
        let Some(event) = search.open.pop() else {
            return Ok(search);
        };
        mark_targets(&mut search, arrows, &chains, event)?;
    }
    Ok(search)
}

// The arrows by which the search came to the target, from the last back.
fn way_back(
    alloc: Global,
    search: &Search,
    arrows: &[Arrow],
    target: u32,
) -> Result<Vec<usize>, AllocError> {
    let mut way = Vec::new(alloc);
    let mut event = target as usize;
    for _ in 0..search.came.len() {
        if event >= search.came.len() {
            return Ok(way);
        }
        let arrow = search.came[event];
        if arrow >= arrows.len() {
            return Ok(way);
        }
        way.push(arrow)?;
        event = arrows[arrow].source as usize;
    }
    Ok(way)
}

/// Whether a path of arrows leads from one of so many events to another. What the search finds is tested, in time linear in the arrows.
pub fn reaches(
    alloc: Global,
    arrows: &[Arrow],
    events: usize,
    source: u32,
    target: u32,
) -> Result<bool, AllocError>
    ensures found { IfOk result (λ answer. answer ≡ true → Path arrows.now source target) }
    ensures none { IfOk result (λ answer. answer ≡ false → Path arrows.now source target → ⊥) }
{
    let search = searched(alloc, arrows, events, source)?;
    let way = way_back(alloc, &search, arrows, target)?;
    if follows(arrows, &way, source, target) {
        return Ok(true);
    }
    if separates(&search.marks, arrows, source, target) {
        return Ok(false);
    }
    reaches_slowly(alloc, arrows, source, target)
}

#[tactic(auto, using(ceu_tree::proofs::TableLaws::entries))]
fn number_of(numbers: &[usize], event: u32) -> usize
    ensures { result ≡ entry event numbers.now }
{
    let at = event as usize;
    if at < numbers.len() { numbers[at] } else { 0 }
}

fn rises(numbers: &[usize], arrow: Arrow) -> bool
    ensures { result ≡ rises numbers.now arrow }
{
    number_of(numbers, arrow.source) < number_of(numbers, arrow.target)
}

// An arrow to an event with a greater number.
#[tactic(auto, using(crate::proofs::GraphLaws::finds))]
fn rise(numbers: &[usize], arrows: &[Arrow]) -> Option<Arrow>
    ensures { result ≡ find (rises numbers.now) arrows.now }
{
    for arrow in arrows {
        if rises(numbers, *arrow) {
            return Some(*arrow);
        }
    }
    None
}

/// Whether no arrow leads to an event with a greater number; an event that has none counts as one with the number 0.
pub fn never_rises(numbers: &[usize], arrows: &[Arrow]) -> bool
    ensures { result ≡ true → NeverRises numbers.now arrows.now }
{
    match rise(numbers, arrows) {
        None => true,
        Some(_) => false,
    }
}

/// Whether a path of arrows leads from one event to another, where no arrow leads to an event with a greater number: a search is made
/// only where the numbers leave it open.
pub fn reaches_by_number(
    alloc: Global,
    arrows: &[Arrow],
    numbers: &[usize],
    source: u32,
    target: u32,
) -> Result<bool, AllocError>
    requires { NeverRises numbers.now arrows.now }
    ensures found { IfOk result (λ answer. answer ≡ true → Path arrows.now source target) }
    ensures none { IfOk result (λ answer. answer ≡ false → Path arrows.now source target → ⊥) }
{
    if number_of(numbers, source) < number_of(numbers, target) {
        return Ok(false);
    }
    reaches(alloc, arrows, numbers.len(), source, target)
}
