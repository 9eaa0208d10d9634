// How many instances of each code there may be at once: each code is counted once, from the last to the first.
ghost use Rattle.std.specs.Prelude.{◌≡◌, ◌≢◌, ℕ, ◌+◌, ◌*◌, ◌<◌, ◌≤◌, map, length, slice_index, IfOk, OnOk};
ghost use Rattle.ceu_tree.specs.Costs.{instances_from, block_uses};
ghost use Rattle.ceu_tree.specs.Greatest.{total};
ghost use Rattle.ceu_paths.specs.Cap.{cap};
ghost use Rattle.ceu_bound.specs.Using.{times_used};

use crate::measures::{plus, product};
use ceu_paths::{CAP, CodeUse, uses_in};
use ceu_tree::{KBlock, Kernel};
use std::alloc::{AllocError, Global};

fn add_use(counts: &mut Vec<u64>, code_use: CodeUse, holders: u64, below: usize)
    ensures len { length counts.new.items ≡ length counts.old.items }
    ensures above { (j : ℕ) → below ≤ j → slice_index counts.new.items j ≡ slice_index counts.old.items j }
    ensures each { (j : ℕ) → j < below → j < length counts.old.items → cap (slice_index counts.new.items j) ≡ cap (slice_index counts.old.items j + holders * times_used j code_use) }
{
    let at = code_use.code as usize;
    if at < below && at < counts.len() {
        let more = product(holders, u64::from(code_use.times));
        counts[at] = plus(counts[at], more);
    }
}

// Adds the uses in a body that has so many instances to the codes below a number.
fn add_uses(counts: &mut Vec<u64>, uses: &[CodeUse], holders: u64, below: usize)
    ensures len { length counts.new.items ≡ length counts.old.items }
    ensures above { (j : ℕ) → below ≤ j → slice_index counts.new.items j ≡ slice_index counts.old.items j }
    ensures each { (j : ℕ) → j < below → j < length counts.old.items → cap (slice_index counts.new.items j) ≡ cap (slice_index counts.old.items j + holders * total (times_used j) uses.now) }
{
    for code_use in uses {
        add_use(counts, *code_use, holders, below);
    }
}

fn add_body(
    alloc: Global,
    counts: &mut Vec<u64>,
    body: &KBlock,
    holders: u64,
    below: usize,
) -> Result<(), AllocError>
    ensures len { OnOk result (length counts.new.items ≡ length counts.old.items) }
    ensures above { OnOk result ((j : ℕ) → below ≤ j → slice_index counts.new.items j ≡ slice_index counts.old.items j) }
    ensures each { OnOk result ((j : ℕ) → j < below → j < length counts.old.items → cap (slice_index counts.new.items j) ≡ cap (slice_index counts.old.items j + holders * block_uses j body.now)) }
{
    let mut uses = Vec::new(alloc);
    uses_in(body, &mut uses)?;
    add_uses(counts, &uses, holders, below);
    Ok(())
}

fn capped(counts: &mut Vec<u64>, at: usize) -> u64
    requires { at < length counts.old.items }
    ensures result { result ≡ cap (slice_index counts.old.items at) }
    ensures len { length counts.new.items ≡ length counts.old.items }
    ensures other { (j : ℕ) → j ≢ at → slice_index counts.new.items j ≡ slice_index counts.old.items j }
    ensures same { slice_index counts.new.items at ≡ result }
{
    let count = counts[at].min(CAP);
    counts[at] = count;
    count
}

/// The instances of each code, capped at 4,294,967,296: the program's body has one; an await of a code adds the instances of the body that
/// holds it, a pool so many for each of its places.
pub fn instances(alloc: Global, kernel: &Kernel) -> Result<Vec<u64>, AllocError>
    ensures { IfOk result (λ counts. counts.items ≡ map cap (instances_from kernel.now.body 0 kernel.now.codes)) }
{
    let codes = kernel.codes.items();
    let mut counts = vec![in alloc; 0u64; codes.len()]?;
    add_body(alloc, &mut counts, &kernel.body, 1, codes.len())?;
    let mut left = codes.len();
    while left > 0 {
        left -= 1;
        let holders = capped(&mut counts, left);
        add_body(alloc, &mut counts, &codes[left].body, holders, left)?;
    }
    Ok(counts)
}
