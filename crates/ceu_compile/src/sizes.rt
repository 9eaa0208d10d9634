// The sizes of a program.
ghost use Rattle.std.specs.Prelude.{◌≡◌, ◌≤◌, ◌+◌, ◌*◌, IfOk, Some, None, MatchOption};
ghost use Rattle.ceu_compile.specs.Sizes as spec;
ghost use Rattle.ceu_compile.specs.Sizes.{too_large};
ghost use Rattle.ceu_tree.specs.Cut.{cut};
ghost use Rattle.ceu_tree.specs.Depth as depths;
ghost use Rattle.ceu_tree.specs.Needs as needs;

use ceu_base::Rule;
use ceu_bound::{depth, weight};
use ceu_gates::gate_need;
use ceu_slots::slot_need;
use ceu_tree::Kernel;
use std::alloc::{AllocError, Global};

/// The bytes of a program's memory, or the first limit on sizes that the program is over.
#[derive(Clone, Copy, Debug, PartialEq, Eq)]
pub(crate) enum Size {
    Memory(u32),
    Over(Rule),
}

// The first limit that these sizes are over.
fn over(memory: u64, gates: u32, weight: u32) -> Option<Rule>
    ensures { result ≡ spec.over memory gates weight }
{
    if memory > 65_535 {
        Some(Rule::Z1)
    } else if gates > 3_000 {
        Some(Rule::Z2)
    } else if weight > 65_535 {
        Some(Rule::Z3)
    } else {
        None
    }
}

// The bytes of memory: a header, the evaluation cells, the gates and the slots.
fn memory_of(depth: u32, gates: u32, slots: u32) -> u64
    ensures { result ≡ 16 + 8 * depth + 19 * gates + slots }
{
    16 + 8 * u64::from(depth) + 19 * u64::from(gates) + u64::from(slots)
}

/// The size of a program.
pub(crate) fn size_of(alloc: Global, kernel: &Kernel) -> Result<Size, AllocError>
    ensures { IfOk result (λ size. spec.IsSize size kernel.now) }
{
    let slots = slot_need(alloc, kernel)?;
    let gates = gate_need(alloc, kernel)?;
    let memory = memory_of(depth(kernel), gates, slots);
    match over(memory, gates, weight(kernel)) {
        Some(rule) => Ok(Size::Over(rule)),
        None => Ok(Size::Memory(memory as u32)),
    }
}
