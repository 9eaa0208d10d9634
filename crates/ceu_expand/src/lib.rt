//! The kernel tree of a program: what its statements stand for, with numbers in place of names.
#![tactic(auto)]

ghost use Rattle.std.specs.Prelude.{◌≡◌, IfOk};
ghost use Rattle.ceu_expand.specs.Expansion.{kernel_of};

mod around;
mod draft;
mod expressions;
mod names;
mod parts;
mod statements;
#[cfg(test)]
mod tests;

use crate::draft::Draft;
use ceu_scopes::Scopes;
use ceu_tree::{Kernel, Tree};
use ceu_types::Types;
use std::alloc::{AllocError, Global};

/// The kernel of a program, whose scopes and types these are.
#[tactic(auto, unfolding(crate::specs::Expansion::kernel_of))]
pub fn expand(
    alloc: Global,
    tree: &Tree,
    scopes: &Scopes,
    types: &Types,
) -> Result<Kernel, AllocError>
    ensures { IfOk result (λ kernel. kernel ≡ kernel_of scopes.now types.now tree.now) }
{
    let mut counted = Draft::new(alloc, 0, 0);
    counted.program(alloc, scopes, types, &tree.body)?;
    let mut draft = Draft::new(alloc, counted.node, counted.slot);
    let body = draft.program(alloc, scopes, types, &tree.body)?;
    let Draft {
        codes,
        inputs,
        outputs,
        events,
        ..
    } = draft;
    Ok(Kernel {
        body,
        codes,
        inputs,
        outputs,
        events,
    })
}
