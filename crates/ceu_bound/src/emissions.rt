// The loops that an emission of each event wakes.
ghost use Rattle.std.specs.Prelude.{◌≡◌, ℕ, ◌+◌, ◌*◌, drop, length, map, OnOk, IfOk};
ghost use Rattle.ceu_tree.specs.Greatest.{total};
ghost use Rattle.ceu_paths.specs.Found.{seen};
ghost use Rattle.ceu_bound.specs.declared.tables.Tables.{Tables as TheTables};
ghost use Rattle.ceu_bound.specs.Waking as spec;

use ceu_paths::{FoundLoop, find_loops, paced};
use ceu_tree::{KBlock, KCode, KEvent, KNode, Kernel};
use std::alloc::{AllocError, Global};

/// A loop that an event paces, in so many copies, and the rest of its body.
#[derive(Clone, Copy)]
pub struct Wake<'k> {
    pub event: u32,
    pub copies: u64,
    pub rest: &'k [KNode],
}

// How many instances of a code an emission reaches, of so many.
#[tactic(auto, using(crate::proofs::WakeLaws::owners))]
fn copies(events: &[KEvent], code: usize, instances: u64, event: u32) -> u64
    ensures { result ≡ spec.copies events.now code instances event }
{
    let at = event as usize;
    if at >= events.len() {
        return instances;
    }
    match events[at].code {
        Some(owner) => { if owner as usize == code { 1 } else { instances } }
        None => instances,
    }
}

#[tactic(auto, using(crate::proofs::WakeLaws::rests))]
fn after_first(nodes: &[KNode]) -> &[KNode]
    ensures { result.now ≡ drop 1 nodes.now }
{
    match nodes {
        [] => nodes,
        [_, rest @ ..] => rest,
    }
}

// Adds the waking of a loop that an event paces.
fn add_wake<'k>(
    found: &FoundLoop<'k>,
    events: &[KEvent],
    code: usize,
    instances: u64,
    wakes: &mut Vec<Wake<'k>>,
) -> Result<(), AllocError>
    ensures { OnOk result ((T : TheTables) (e : ℕ) → total (spec.wake_cost T e) wakes.new.items ≡
        total (spec.wake_cost T e) wakes.old.items + spec.copies events.now code instances e * spec.loop_cost T e (seen found.now)) }
{
    match paced(found.kind, found.body) {
        None => Ok(()),
        Some(event) => {
            wakes.push(Wake {
                event,
                copies: copies(events, code, instances, event),
                rest: after_first(found.body.list.items()),
            })?;
            Ok(())
        }
    }
}

fn add_wakes<'k>(
    loops: &[FoundLoop<'k>],
    events: &[KEvent],
    code: usize,
    instances: u64,
    wakes: &mut Vec<Wake<'k>>,
) -> Result<(), AllocError>
    ensures { OnOk result ((T : TheTables) (e : ℕ) → total (spec.wake_cost T e) wakes.new.items ≡
        total (spec.wake_cost T e) wakes.old.items + spec.copies events.now code instances e * total (spec.loop_cost T e) (map seen loops.now)) }
{
    for found in loops {
        add_wake(found, events, code, instances, wakes)?;
    }
    Ok(())
}

// Adds the wakings of a body that has so many instances.
fn body_wakes<'k>(
    alloc: Global,
    body: &'k KBlock,
    events: &[KEvent],
    code: usize,
    instances: u64,
    wakes: &mut Vec<Wake<'k>>,
) -> Result<(), AllocError>
    ensures { OnOk result ((T : TheTables) (e : ℕ) → total (spec.wake_cost T e) wakes.new.items ≡
        total (spec.wake_cost T e) wakes.old.items + spec.copies events.now code instances e * spec.body_cost T e body.now) }
{
    let mut loops = Vec::new(alloc);
    find_loops(body, &mut loops)?;
    add_wakes(&loops, events, code, instances, wakes)
}

fn codes_wakes<'k>(
    alloc: Global,
    codes: &'k [KCode],
    events: &[KEvent],
    instances: &[u64],
    wakes: &mut Vec<Wake<'k>>,
) -> Result<(), AllocError>
    requires { length instances.now ≡ length codes.now }
    ensures { OnOk result ((T : TheTables) (e : ℕ) → total (spec.wake_cost T e) wakes.new.items ≡
        total (spec.wake_cost T e) wakes.old.items + spec.codes_cost T e events.now 0 codes.now instances.now) }
{
    for (code, body) in codes.iter().enumerate() {
        body_wakes(alloc, &body.body, events, code, instances[code], wakes)?;
    }
    Ok(())
}

/// The wakings of a program, by the instances of each code.
pub fn all_wakes<'k>(
    alloc: Global,
    kernel: &'k Kernel,
    instances: &[u64],
) -> Result<Vec<Wake<'k>>, AllocError>
    requires { length instances.now ≡ length kernel.now.codes }
    ensures { IfOk result (λ wakes. (T : TheTables) (e : ℕ) → total (spec.wake_cost T e) wakes.items ≡
        spec.body_cost T e kernel.now.body + spec.codes_cost T e kernel.now.events 0 kernel.now.codes instances.now) }
{
    let mut wakes = Vec::new(alloc);
    let events = kernel.events.items();
    body_wakes(alloc, &kernel.body, events, 0, 1, &mut wakes)?;
    codes_wakes(alloc, kernel.codes.items(), events, instances, &mut wakes)?;
    Ok(wakes)
}
