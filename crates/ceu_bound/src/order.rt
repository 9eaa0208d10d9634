// The order in which events are taken away, each behind those that its emission causes. Who uses it tests what it stands for.
use crate::graph::{Arrow, Chains, linked};
use std::alloc::{AllocError, Global};

// The events that are taken away so far, and how many arrows lead from each event to one that is still kept. Where the search errs, what
// it found is thrown away.
#[derive(Drop)]
struct Taking {
    order: Vec<u32>,
    degrees: Vec<usize>,
}

/// The arrows the other way round.
pub fn turned(alloc: Global, arrows: &[Arrow]) -> Result<Vec<Arrow>, AllocError> {
    let mut back = Vec::new(alloc);
    for arrow in arrows {
        back.push(Arrow {
            source: arrow.target,
            target: arrow.source,
        })?;
    }
    Ok(back)
}

fn out_degrees(alloc: Global, arrows: &[Arrow], events: usize) -> Result<Vec<usize>, AllocError> {
    let mut degrees = vec![in alloc; 0usize; events]?;
    for arrow in arrows {
        let at = arrow.source as usize;
        if at < degrees.len() {
            degrees[at] = degrees[at].saturating_add(1);
        }
    }
    Ok(degrees)
}

fn without_arrow(alloc: Global, degrees: &[usize]) -> Result<Vec<u32>, AllocError> {
    let mut free = Vec::new(alloc);
    for (event, degree) in degrees.iter().enumerate() {
        if *degree == 0 {
            free.push(u32::try_from(event).unwrap_or(u32::MAX))?;
        }
    }
    Ok(free)
}

// One arrow less leads from the event; it is taken away with its last.
fn loosen(taking: &mut Taking, event: u32) -> Result<(), AllocError> {
    let at = event as usize;
    if at < taking.degrees.len() {
        let left = taking.degrees[at].saturating_sub(1);
        taking.degrees[at] = left;
        if left == 0 {
            taking.order.push(event)?;
        }
    }
    Ok(())
}

fn loosen_sources(
    taking: &mut Taking,
    back: &[Arrow],
    chains: &Chains,
    event: usize,
) -> Result<(), AllocError> {
    if event >= chains.heads.len() {
        return Ok(());
    }
    let mut at = chains.heads[event];
    for _ in 0..back.len() {
        if at >= back.len() || at >= chains.links.len() {
            return Ok(());
        }
        loosen(taking, back[at].target)?;
        at = chains.links[at];
    }
    Ok(())
}

/// Events without an arrow to an event that is still kept are taken away, again and again: the events in that order, without those that
/// are left.
pub fn taken_away(alloc: Global, arrows: &[Arrow], events: usize) -> Result<Vec<u32>, AllocError> {
    let back = turned(alloc, arrows)?;
    let chains = linked(alloc, &back, events)?;
    let degrees = out_degrees(alloc, arrows, events)?;
    let mut taking = Taking {
        order: without_arrow(alloc, &degrees)?,
        degrees,
    };
    for done in 0..events {
        if done >= taking.order.len() {
            return Ok(taking.order);
        }
        let event = taking.order[done] as usize;
        loosen_sources(&mut taking, &back, &chains, event)?;
    }
    Ok(taking.order)
}

/// The number of each event by this order; those that aren't in it have the number of events.
pub fn numbered(alloc: Global, order: &[u32], events: usize) -> Result<Vec<usize>, AllocError> {
    let mut numbers = vec![in alloc; events; events]?;
    for (number, event) in order.iter().enumerate() {
        let at = *event as usize;
        if at < numbers.len() {
            numbers[at] = number;
        }
    }
    Ok(numbers)
}
