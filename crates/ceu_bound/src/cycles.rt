// Events by the cycles on which they lie together. Who uses the numbers tests what they stand for.
use crate::graph::{Arrow, Chains, linked};
use crate::order::turned;
use std::alloc::{AllocError, Global};

// A walk along the arrows: which events it came to, by which arrow each goes on, the way back, and the events that are done. Where it errs,
// what it found is thrown away.
#[derive(Drop)]
struct Walk {
    marks: Vec<bool>,
    next: Vec<usize>,
    way: Vec<usize>,
    done: Vec<usize>,
}

fn new_walk(alloc: Global, chains: &Chains) -> Result<Walk, AllocError> {
    Ok(Walk {
        marks: vec![in alloc; false; chains.heads.len()]?,
        next: chains.heads.clone()?,
        way: Vec::new(alloc),
        done: Vec::new(alloc),
    })
}

fn enter(walk: &mut Walk, event: usize) -> Result<(), AllocError> {
    if event < walk.marks.len() && !walk.marks[event] {
        walk.way.push(event)?;
        walk.marks[event] = true;
    }
    Ok(())
}

// Goes on by one arrow, or back by one. Answers whether the walk goes on.
fn step(walk: &mut Walk, arrows: &[Arrow], chains: &Chains) -> Result<bool, AllocError> {
    let Some(event) = walk.way.pop() else {
        return Ok(false);
    };
    if event >= walk.next.len() {
        return Ok(true);
    }
    let at = walk.next[event];
    if at >= arrows.len() || at >= chains.links.len() {
        walk.done.push(event)?;
        return Ok(true);
    }
    walk.next[event] = chains.links[at];
    walk.way.push(event)?;
    enter(walk, arrows[at].target as usize)?;
    Ok(true)
}

fn walk_from(
    walk: &mut Walk,
    arrows: &[Arrow],
    chains: &Chains,
    event: usize,
) -> Result<(), AllocError> {
    enter(walk, event)?;
    for _ in 0..u64::MAX {
        if !step(walk, arrows, chains)? {
            return Ok(());
        }
    }
    Ok(())
}

// The events in the order in which a walk from each of them is done with them.
fn walked(alloc: Global, arrows: &[Arrow], events: usize) -> Result<Vec<usize>, AllocError> {
    let chains = linked(alloc, arrows, events)?;
    let mut walk = new_walk(alloc, &chains)?;
    for event in 0..events {
        walk_from(&mut walk, arrows, &chains, event)?;
    }
    Ok(walk.done)
}

fn put_number(numbers: &mut Vec<usize>, events: &[usize], number: usize) {
    for event in events {
        let at = *event;
        if at < numbers.len() {
            numbers[at] = number;
        }
    }
}

/// A number for each of so many events: the same for those that lie on a cycle together, and a lower one for those that others lead to.
pub fn cycle_numbers(
    alloc: Global,
    arrows: &[Arrow],
    events: usize,
) -> Result<Vec<usize>, AllocError> {
    let done = walked(alloc, arrows, events)?;
    let back = turned(alloc, arrows)?;
    let chains = linked(alloc, &back, events)?;
    let mut walk = new_walk(alloc, &chains)?;
    let mut numbers = vec![in alloc; 0usize; events]?;
    let mut left = done.len();
    while left > 0 {
        left -= 1;
        let before = walk.done.len();
        walk_from(&mut walk, &back, &chains, done[left])?;
        if before < walk.done.len() {
            put_number(&mut numbers, &walk.done[before..], left);
        }
    }
    Ok(numbers)
}
