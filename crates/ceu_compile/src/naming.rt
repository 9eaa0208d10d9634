// The names and the types of a program.
ghost use Rattle.std.specs.Prelude.{◌≡◌, Ok, IfOk, IfErr};
ghost use Rattle.ceu_compile.specs.Resolved.{IsResolved, IsUnresolved};
ghost use Rattle.ceu_scopes.specs.Names.{scopes_of};

use crate::errors::{CompileError, check_error};
use ceu_scopes::{Scopes, resolve};
use ceu_tree::Tree;
use ceu_types::{Types, type_tree};
use std::alloc::Global;

/// The declarations of a program's names and the types of its expressions.
#[derive(Drop)]
pub(crate) struct Resolution {
    pub(crate) scopes: Scopes,
    pub(crate) types: Types,
}

/// Asks the rules on names and then those on types.
pub(crate) fn resolved(alloc: Global, tree: &Tree) -> Result<Resolution, CompileError>
    ensures resolved { IfOk result (λ r. IsResolved tree.now r.scopes r.types.exps) }
    ensures refused { IfErr result (λ e. IsUnresolved tree.now e) }
{
    match resolve(alloc, tree) {
        Ok(scopes) => with_scopes(alloc, tree, scopes),
        Err(e) => Err(check_error(e)),
    }
}

fn with_scopes(alloc: Global, tree: &Tree, scopes: Scopes) -> Result<Resolution, CompileError>
    requires { scopes_of tree.now ≡ Ok scopes }
    ensures resolved { IfOk result (λ r. IsResolved tree.now r.scopes r.types.exps) }
    ensures refused { IfErr result (λ e. IsUnresolved tree.now e) }
{
    match type_tree(alloc, tree, &scopes) {
        Ok(types) => Ok(Resolution { scopes, types }),
        Err(e) => Err(check_error(e)),
    }
}
