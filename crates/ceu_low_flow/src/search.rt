// What a statement's lines need of the kernel around it.
ghost use Rattle.std.specs.Prelude.{◌≡◌, ◌+◌, ◌<◌, ◌≤◌, ◌^◌, length};
ghost use Rattle.ceu_shape.specs.Searches as spec;
ghost use Rattle.ceu_low_flow.specs.Lists as lists;

use ceu_base::Ty;
use ceu_tree::{KArm, KBlock, KCode, KNode, KStmt, Kernel, Loc};

pub fn input_ty(kernel: &Kernel, input: u32) -> Ty
    requires { input < length kernel.now.inputs }
    ensures { result ≡ spec.input_ty kernel.now input }
{
    kernel.inputs.items()[input as usize].ty
}

pub fn output_ty(kernel: &Kernel, output: u32) -> Ty
    requires { output < length kernel.now.outputs }
    ensures { result ≡ spec.output_ty kernel.now output }
{
    kernel.outputs.items()[output as usize].ty
}

pub fn event_ty(kernel: &Kernel, event: u32) -> Ty
    requires { event < length kernel.now.events }
    ensures { result ≡ spec.event_ty kernel.now event }
{
    kernel.events.items()[event as usize].ty
}

/// The number by which an event is known in the code: one of a code has bit 15 set.
pub fn event_number(kernel: &Kernel, event: u32) -> u16
    requires there { event < length kernel.now.events }
    requires few { length kernel.now.events ≤ 32768 }
    ensures { result ≡ spec.event_number kernel.now event }
{
    match kernel.events.items()[event as usize].code {
        None => event as u16,
        Some(_) => event as u16 + 32768,
    }
}

// ---- where the value of an escape goes

#[cycle(target)]
#[tactic(auto, using(crate::proofs::Targets::targets, ceu_tree::proofs::Sizes::sizes))]
fn stmt_target(stmt: &KStmt, number: u32, node: u32) -> Option<Loc>
    ensures { result ≡ spec.stmt_target node number stmt.now }
{
    match stmt {
        KStmt::Do(target, body) => {
            if number == node && target.is_some() {
                return *target;
            }
            block_target(body, node)
        }
        KStmt::Async(body) => block_target(body, node),
        KStmt::Finalize(body) => block_target(body, node),
        KStmt::Loop(_, body) => block_target(body, node),
        KStmt::If(arms, last) => match arms_target(arms.items(), node) {
            Some(target) => Some(target),
            None => block_target(last, node),
        },
        KStmt::Par(_, _, branches) => branches_target(branches.items(), node),
        KStmt::Nothing => None,
        KStmt::Assign(_, _) => None,
        KStmt::Out(_, _) => None,
        KStmt::Emit(_, _) => None,
        KStmt::AwaitIn(_, _) => None,
        KStmt::AwaitTime(_, _, _) => None,
        KStmt::AwaitEvent(_, _) => None,
        KStmt::Forever => None,
        KStmt::AwaitCode(_, _, _, _) => None,
        KStmt::Spawn(_, _, _, _) => None,
        KStmt::Kill(_) => None,
        KStmt::Unset(_) => None,
        KStmt::Escape(_, _) => None,
        KStmt::Break(_) => None,
        KStmt::Continue(_) => None,
    }
}

#[cycle(target)]
#[tactic(auto, using(crate::proofs::Targets::targets, ceu_tree::proofs::Sizes::sizes))]
fn block_target(block: &KBlock, node: u32) -> Option<Loc>
    ensures { result ≡ spec.block_target node block.now }
{
    nodes_target(block.list.items(), node)
}

#[cycle(target)]
#[tactic(auto, using(crate::proofs::Targets::targets, ceu_tree::proofs::Sizes::sizes))]
fn nodes_target(nodes: &[KNode], node: u32) -> Option<Loc>
    ensures { result ≡ lists.node_list_target node nodes.now }
{
    for part in nodes {
        let found = stmt_target(&part.stmt, part.node, node);
        if found.is_some() {
            return found;
        }
    }
    None
}

#[cycle(target)]
#[tactic(auto, using(crate::proofs::Targets::targets, ceu_tree::proofs::Sizes::sizes))]
fn arm_target(arm: &KArm, node: u32) -> Option<Loc>
    ensures { result ≡ spec.arm_target node arm.now }
{
    block_target(&arm.body, node)
}

#[cycle(target)]
#[tactic(auto, using(crate::proofs::Targets::targets, ceu_tree::proofs::Sizes::sizes))]
fn arms_target(arms: &[KArm], node: u32) -> Option<Loc>
    ensures { result ≡ lists.arm_list_target node arms.now }
{
    for part in arms {
        let found = arm_target(part, node);
        if found.is_some() {
            return found;
        }
    }
    None
}

#[cycle(target)]
#[tactic(auto, using(crate::proofs::Targets::targets, ceu_tree::proofs::Sizes::sizes))]
fn branches_target(branches: &[KBlock], node: u32) -> Option<Loc>
    ensures { result ≡ lists.block_list_target node branches.now }
{
    for part in branches {
        let found = block_target(part, node);
        if found.is_some() {
            return found;
        }
    }
    None
}

#[tactic(auto, using(crate::proofs::Targets::targets))]
fn codes_target(codes: &[KCode], node: u32) -> Option<Loc>
    ensures { result ≡ spec.codes_target node codes.now }
{
    for part in codes {
        let found = block_target(&part.body, node);
        if found.is_some() {
            return found;
        }
    }
    None
}

/// The target of the `do` with this number, where it has one.
#[tactic(auto, using(crate::proofs::Targets::targets), unfolding(ceu_shape::specs::Searches::escape_target))]
pub fn escape_target(kernel: &Kernel, node: u32) -> Option<Loc>
    ensures { result ≡ spec.escape_target kernel.now node }
{
    match block_target(&kernel.body, node) {
        Some(target) => Some(target),
        None => codes_target(kernel.codes.items(), node),
    }
}

// ---- whether a statement stands in an async

#[cycle(asyncs)]
#[tactic(auto, using(crate::proofs::Asyncs::asyncs, ceu_tree::proofs::Sizes::sizes))]
fn stmt_async(stmt: &KStmt, inside: bool, node: u32) -> bool
    ensures { result ≡ spec.stmt_async node inside stmt.now }
{
    match stmt {
        KStmt::Async(body) => block_async(body, true, node),
        KStmt::Finalize(body) => block_async(body, inside, node),
        KStmt::Do(_, body) => block_async(body, inside, node),
        KStmt::If(arms, last) => {
            arms_async(arms.items(), inside, node) || block_async(last, inside, node)
        }
        KStmt::Loop(_, body) => block_async(body, inside, node),
        KStmt::Par(_, _, branches) => branches_async(branches.items(), inside, node),
        KStmt::Nothing => false,
        KStmt::Assign(_, _) => false,
        KStmt::Out(_, _) => false,
        KStmt::Emit(_, _) => false,
        KStmt::AwaitIn(_, _) => false,
        KStmt::AwaitTime(_, _, _) => false,
        KStmt::AwaitEvent(_, _) => false,
        KStmt::Forever => false,
        KStmt::AwaitCode(_, _, _, _) => false,
        KStmt::Spawn(_, _, _, _) => false,
        KStmt::Kill(_) => false,
        KStmt::Unset(_) => false,
        KStmt::Escape(_, _) => false,
        KStmt::Break(_) => false,
        KStmt::Continue(_) => false,
    }
}

#[cycle(asyncs)]
#[tactic(auto, using(crate::proofs::Asyncs::asyncs, ceu_tree::proofs::Sizes::sizes))]
fn block_async(block: &KBlock, inside: bool, node: u32) -> bool
    ensures { result ≡ spec.block_async node inside block.now }
{
    nodes_async(block.list.items(), inside, node)
}

#[cycle(asyncs)]
#[tactic(auto, using(crate::proofs::Asyncs::asyncs, ceu_tree::proofs::Sizes::sizes))]
fn nodes_async(nodes: &[KNode], inside: bool, node: u32) -> bool
    ensures { result ≡ lists.node_list_async node inside nodes.now }
{
    for part in nodes {
        if (inside && part.node == node) || stmt_async(&part.stmt, inside, node) {
            return true;
        }
    }
    false
}

#[cycle(asyncs)]
#[tactic(auto, using(crate::proofs::Asyncs::asyncs, ceu_tree::proofs::Sizes::sizes))]
fn arm_async(arm: &KArm, inside: bool, node: u32) -> bool
    ensures { result ≡ spec.arm_async node inside arm.now }
{
    block_async(&arm.body, inside, node)
}

#[cycle(asyncs)]
#[tactic(auto, using(crate::proofs::Asyncs::asyncs, ceu_tree::proofs::Sizes::sizes))]
fn arms_async(arms: &[KArm], inside: bool, node: u32) -> bool
    ensures { result ≡ lists.arm_list_async node inside arms.now }
{
    for part in arms {
        if arm_async(part, inside, node) {
            return true;
        }
    }
    false
}

#[cycle(asyncs)]
#[tactic(auto, using(crate::proofs::Asyncs::asyncs, ceu_tree::proofs::Sizes::sizes))]
fn branches_async(branches: &[KBlock], inside: bool, node: u32) -> bool
    ensures { result ≡ lists.block_list_async node inside branches.now }
{
    for part in branches {
        if block_async(part, inside, node) {
            return true;
        }
    }
    false
}

#[tactic(auto, using(crate::proofs::Asyncs::asyncs))]
fn codes_async(codes: &[KCode], node: u32) -> bool
    ensures { result ≡ spec.codes_async node codes.now }
{
    for part in codes {
        if block_async(&part.body, false, node) {
            return true;
        }
    }
    false
}

/// Whether the statement of this number stands in an async.
#[tactic(auto, using(crate::proofs::Asyncs::asyncs), unfolding(ceu_shape::specs::Searches::stands_in_async))]
pub fn stands_in_async(kernel: &Kernel, node: u32) -> bool
    ensures { result ≡ spec.stands_in_async kernel.now node }
{
    block_async(&kernel.body, false, node) || codes_async(kernel.codes.items(), node)
}
