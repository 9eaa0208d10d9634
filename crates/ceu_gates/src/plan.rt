ghost use Rattle.std.specs.Prelude.{◌≡◌, ◌≤◌, ◌++◌, [], map, IfOk, OnOk};
ghost use Rattle.ceu_tree.specs.Needs.{gates, gates_from};
ghost use Rattle.ceu_tree.specs.Proper.{Proper};
ghost use Rattle.ceu_gates.specs.Ranges as spec;
ghost use Rattle.ceu_gates.specs.Ranges.{reach, first_gate, gate_count, IsByNode};

use crate::ranges::{GateRange, place_block};
use ceu_base::Seq;
use ceu_tree::{KCode, Kernel};
use std::alloc::{AllocError, Global};

/// The first gate of each node and how many it has, by the node's number and relative to the first gate of its frame.
#[derive(Debug, Drop)]
pub struct GatePlan {
    pub first: Seq<u16>,
    pub count: Seq<u16>,
}

// Each body once, in the order of the codes, since a code uses only codes above it.
fn place_codes(
    codes: &[KCode],
    gates: &mut Vec<u32>,
    rows: &mut Vec<GateRange>,
) -> Result<(), AllocError>
    requires { reach (spec.codes_ranges gates.old.items codes.now) ≤ 65535 }
    ensures gates { OnOk result (gates.new.items ≡ gates_from gates.old.items codes.now) }
    ensures rows { OnOk result (rows.new.items ≡ rows.old.items ++ spec.codes_ranges gates.old.items codes.now) }
{
    for code in codes {
        let count = place_block(gates, 0, &code.body, rows)?;
        gates.push(count)?;
    }
    Ok(())
}

// Every node, in the order of the numbers.
fn place_all(alloc: Global, kernel: &Kernel) -> Result<Vec<GateRange>, AllocError>
    requires { reach (spec.ranges kernel.now) ≤ 65535 }
    ensures { IfOk result (λ rows. rows.items ≡ spec.ranges kernel.now) }
{
    let mut gates = Vec::new(alloc);
    let mut bodies = Vec::new(alloc);
    place_codes(kernel.codes.items(), &mut gates, &mut bodies)?;
    let mut rows = Vec::new(alloc);
    place_block(&gates, 0, &kernel.body, &mut rows)?;
    rows.extend_from_slice(&bodies)?;
    Ok(rows)
}

fn by_node(alloc: Global, rows: &[GateRange]) -> Result<GatePlan, AllocError>
    requires { reach rows.now ≤ 65535 }
    ensures first { IfOk result (λ plan. plan.first ≡ map spec.the_first rows.now) }
    ensures count { IfOk result (λ plan. plan.count ≡ map spec.the_count rows.now) }
{
    let mut first = Seq::new(alloc);
    let mut count = Seq::new(alloc);
    for row in rows {
        first.push(row.first as u16)?;
        count.push(row.count as u16)?;
    }
    Ok(GatePlan { first, count })
}

/// The gates of each statement and each block.
pub fn gate_plan(alloc: Global, kernel: &Kernel) -> Result<GatePlan, AllocError>
    requires proper { Proper kernel.now }
    requires few { gates kernel.now ≤ 3000 }
    ensures first { IfOk result (λ plan. IsByNode kernel.now (first_gate kernel.now) plan.first) }
    ensures count { IfOk result (λ plan. IsByNode kernel.now (gate_count kernel.now) plan.count) }
{
    let rows = place_all(alloc, kernel)?;
    let plan = by_node(alloc, &rows)?;
    Ok(plan)
}
