// What an emission of each event costs, by the loops that it wakes.
ghost use Rattle.std.specs.Prelude.{◌≡◌, true, [], ℕ, ◌+◌, ◌*◌, ◌<◌, length, map, OnOk, IfOk, slice_index, if◌then◌else◌, ◌==◌};
ghost use Rattle.ceu_tree.specs.Greatest.{total};
ghost use Rattle.ceu_tree.specs.Paths.{passes_from};
ghost use Rattle.ceu_tree.specs.Costs.{emissions, instances_from};
ghost use Rattle.ceu_paths.specs.Cap.{cap};
ghost use Rattle.ceu_bound.specs.declared.tables.Tables.{Tables as TheTables};
ghost use Rattle.ceu_bound.specs.Parts.{costs, turn, SameTables, TablesAtMost};
ghost use Rattle.ceu_bound.specs.Measured.{enter_list};
ghost use Rattle.ceu_bound.specs.Waking as spec;

use crate::emissions::Wake;
use crate::measures::{nodes_measure, plus, product, turn};
use crate::tables::Tables;
use ceu_tree::Kernel;
use std::alloc::{AllocError, Global};

/// The wakings of one event.
#[derive(Drop)]
pub struct Group<'k> {
    pub wakes: Vec<Wake<'k>>,
}

// What a waking costs, by the tables.
fn wake_measure(alloc: Global, tables: &Tables, wake: &Wake) -> Result<u64, AllocError>
    ensures { IfOk result (λ cost. cost ≡ cap (wake.now.copies * (turn tables.now.part + enter_list tables.now wake.now.rest.now))) }
{
    let rest = nodes_measure(alloc, tables, wake.rest)?;
    Ok(product(wake.copies, plus(turn(tables.part), rest.enter)))
}

// Without wakings, a group for each of so many events.
fn no_groups<'k>(alloc: Global, count: usize) -> Result<Vec<Group<'k>>, AllocError>
    ensures len { IfOk result (λ groups. length groups.items ≡ count) }
    ensures each { IfOk result (λ groups. (T : TheTables) (e k : ℕ) → spec.group_cost T e k groups.items ≡ 0) }
{
    let mut groups = Vec::new(alloc);
    for done in 0..count {
        groups.push(Group {
            wakes: Vec::new(alloc),
        })?;
    }
    Ok(groups)
}

fn add_to_group<'k>(groups: &mut Vec<Group<'k>>, wake: Wake<'k>) -> Result<(), AllocError>
    ensures len { OnOk result (length groups.new.items ≡ length groups.old.items) }
    ensures each { OnOk result ((T : TheTables) (e : ℕ) → e < length groups.old.items → spec.group_cost T e e groups.new.items ≡ spec.group_cost T e e groups.old.items + spec.wake_cost T e wake.entry) }
{
    let at = wake.event as usize;
    if at < groups.len() {
        groups[at].wakes.push(wake)?;
    }
    Ok(())
}

// The wakings of each of so many events.
fn grouped<'k>(
    alloc: Global,
    wakes: &[Wake<'k>],
    count: usize,
) -> Result<Vec<Group<'k>>, AllocError>
    ensures len { IfOk result (λ groups. length groups.items ≡ count) }
    ensures each { IfOk result (λ groups. (T : TheTables) (e : ℕ) → e < count → spec.group_cost T e e groups.items ≡ total (spec.wake_cost T e) wakes.now) }
{
    let mut groups = no_groups(alloc, count)?;
    for wake in wakes {
        add_to_group(&mut groups, *wake)?;
    }
    Ok(groups)
}

// A cost with that of a waking, where the event wakes it.
fn with_waking(
    alloc: Global,
    tables: &Tables,
    event: u32,
    wake: &Wake,
    cost: u64,
) -> Result<u64, AllocError>
    ensures { IfOk result (λ more. (x : ℕ) → cost ≡ cap (1 + x) → more ≡ cap (1 + (x + spec.wake_cost tables.now event wake.now))) }
{
    if wake.event == event {
        let own = wake_measure(alloc, tables, wake)?;
        Ok(plus(cost, own))
    } else {
        Ok(cost)
    }
}

// What an emission of the event costs, by the tables.
fn event_measure(
    alloc: Global,
    tables: &Tables,
    event: u32,
    wakes: &[Wake],
) -> Result<u64, AllocError>
    ensures { IfOk result (λ cost. cost ≡ cap (1 + total (spec.wake_cost tables.now event) wakes.now)) }
{
    let mut cost = 1u64;
    for wake in wakes {
        cost = with_waking(alloc, tables, event, wake, cost)?;
    }
    Ok(cost)
}

fn put_at(costs: &mut Vec<u64>, at: usize, cost: u64)
    ensures len { length costs.new.items ≡ length costs.old.items }
    ensures each { (e : ℕ) → e < length costs.old.items → slice_index costs.new.items e ≡ (if at == e then cost else slice_index costs.old.items e) }
{
    if at < costs.len() {
        costs[at] = cost;
    }
}

// Puts what an emission of the event costs, by the tables, into their table.
fn fill_event(
    alloc: Global,
    tables: &mut Tables,
    groups: &[Group],
    event: u32,
) -> Result<(), AllocError>
    requires { length groups.now ≡ length tables.old.events.items }
    ensures same { OnOk result (tables.new ≡ record tables.old { events = tables.new.events }) }
    ensures len { OnOk result (length tables.new.events.items ≡ length tables.old.events.items) }
    ensures each { OnOk result ((e : ℕ) → e < length groups.now → slice_index tables.new.events.items e ≡ (if event == e then cap (1 + spec.group_cost tables.old e e groups.now) else slice_index tables.old.events.items e)) }
{
    let at = event as usize;
    if at < groups.len() {
        let cost = event_measure(alloc, tables, event, &groups[at].wakes)?;
        put_at(&mut tables.events, at, cost);
    }
    Ok(())
}

// Fills the table of the events one after the other, each by those before it.
fn fill_in_order(
    alloc: Global,
    tables: &mut Tables,
    kernel: &Kernel,
    groups: &[Group],
    order: &[u32],
) -> Result<(), AllocError>
    requires len { length tables.old.events.items ≡ length kernel.now.events }
    requires groups { length groups.now ≡ length kernel.now.events }
    requires none { (e : ℕ) → slice_index tables.old.events.items e ≡ 0 }
    requires passing { tables.old.passing.items ≡ passes_from [] kernel.now.codes }
    requires wakes { spec.AreGroups kernel.now (map cap (instances_from kernel.now.body 0 kernel.now.codes)) groups.now }
    ensures same { OnOk result (tables.new ≡ record tables.old { events = tables.new.events }) }
    ensures len { OnOk result (length tables.new.events.items ≡ length kernel.now.events) }
    ensures events { OnOk result (TablesAtMost tables.old.part (costs tables.new.events.items) (emissions kernel.now (length order.now))) }
{
    for event in order {
        fill_event(alloc, tables, groups, *event)?;
    }
    Ok(())
}

fn add_at(costs: &mut Vec<u64>, number: u32, cost: u64)
    ensures len { length costs.new.items ≡ length costs.old.items }
    ensures each { (e : ℕ) → e < length costs.old.items → slice_index costs.new.items e ≡ (if number == e then cap (slice_index costs.old.items e + cost) else slice_index costs.old.items e) }
{
    let at = number as usize;
    if at < costs.len() {
        costs[at] = plus(costs[at], cost);
    }
}

// The emissions' costs, each with the wakings by the tables.
fn round(
    alloc: Global,
    tables: &Tables,
    wakes: &[Wake],
    count: usize,
) -> Result<Vec<u64>, AllocError>
    ensures len { IfOk result (λ costs. length costs.items ≡ count) }
    ensures each { IfOk result (λ costs. (e : ℕ) → e < count → slice_index costs.items e ≡ cap (1 + total (spec.wake_cost tables.now e) wakes.now)) }
{
    let mut costs = vec![in alloc; 1u64; count]?;
    for wake in wakes {
        let cost = wake_measure(alloc, tables, wake)?;
        add_at(&mut costs, wake.event, cost);
    }
    Ok(costs)
}

fn same_costs(first: &[u64], second: &[u64]) -> bool
    ensures { result ≡ true → first.now ≡ second.now }
{
    first == second
}

// Whether the table of the events holds what the emissions cost by the tables.
fn is_settled(
    alloc: Global,
    tables: &Tables,
    wakes: &[Wake],
    count: usize,
) -> Result<bool, AllocError>
    ensures len { IfOk result (λ answer. answer ≡ true → length tables.now.events.items ≡ count) }
    ensures each { IfOk result (λ answer. answer ≡ true → (e : ℕ) → e < count → slice_index tables.now.events.items e ≡ cap (1 + total (spec.wake_cost tables.now e) wakes.now)) }
{
    let costs = round(alloc, tables, wakes, count)?;
    Ok(same_costs(&costs, &tables.events))
}

// Fills the table of the events: rounds along the emissions until nothing changes, at most as many as there are events.
fn settle_in_rounds(
    alloc: Global,
    tables: &mut Tables,
    kernel: &Kernel,
    wakes: &[Wake],
) -> Result<(), AllocError>
    requires empty { tables.old.events.items ≡ [] }
    requires passing { tables.old.passing.items ≡ passes_from [] kernel.now.codes }
    requires wakes { spec.AreWakes kernel.now (map cap (instances_from kernel.now.body 0 kernel.now.codes)) wakes.now }
    ensures same { OnOk result (tables.new ≡ record tables.old { events = tables.new.events }) }
    ensures events { OnOk result (SameTables tables.old.part (costs tables.new.events.items) (emissions kernel.now (length kernel.now.events))) }
{
    let count = kernel.events.items().len();
    for done in 0..count {
        let costs = round(alloc, tables, wakes, count)?;
        if same_costs(&costs, &tables.events) {
            return Ok(());
        }
        tables.events = costs;
    }
    Ok(())
}

// Fills the table of the events one after the other, each once.
fn settle_in_order(
    alloc: Global,
    tables: &mut Tables,
    kernel: &Kernel,
    wakes: &[Wake],
    order: &[u32],
) -> Result<bool, AllocError>
    requires passing { tables.old.passing.items ≡ passes_from [] kernel.now.codes }
    requires wakes { spec.AreWakes kernel.now (map cap (instances_from kernel.now.body 0 kernel.now.codes)) wakes.now }
    ensures same { OnOk result (tables.new ≡ record tables.old { events = tables.new.events }) }
    ensures events { IfOk result (λ settled. settled ≡ true → SameTables tables.old.part (costs tables.new.events.items) (emissions kernel.now (length kernel.now.events))) }
{
    let count = kernel.events.items().len();
    if order.len() > count {
        return Ok(false);
    }
    let groups = grouped(alloc, wakes, count)?;
    tables.events = vec![in alloc; 0u64; count]?;
    fill_in_order(alloc, tables, kernel, &groups, order)?;
    let settled = is_settled(alloc, tables, wakes, count)?;
    Ok(settled)
}

/// Fills the table of the events: in an order in which each emission comes behind those that it causes, where this is one, and else in
/// rounds.
pub fn settle(
    alloc: Global,
    tables: &mut Tables,
    kernel: &Kernel,
    wakes: &[Wake],
    order: &[u32],
) -> Result<(), AllocError>
    requires passing { tables.old.passing.items ≡ passes_from [] kernel.now.codes }
    requires wakes { spec.AreWakes kernel.now (map cap (instances_from kernel.now.body 0 kernel.now.codes)) wakes.now }
    ensures same { OnOk result (tables.new ≡ record tables.old { events = tables.new.events }) }
    ensures events { OnOk result (SameTables tables.old.part (costs tables.new.events.items) (emissions kernel.now (length kernel.now.events))) }
{
    if settle_in_order(alloc, tables, kernel, wakes, order)? {
        return Ok(());
    }
    tables.events = Vec::new(alloc);
    settle_in_rounds(alloc, tables, kernel, wakes)
}
