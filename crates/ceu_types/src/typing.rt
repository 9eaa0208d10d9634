ghost use Rattle.std.specs.Prelude.{◌≡◌, Ok, IfOk, IfErr};
ghost use Rattle.ceu_types.specs.Statements.{types_of, IsCause};
ghost use Rattle.ceu_types.specs.Statements as spec;

use crate::around::Around;
use crate::found::Found;
use crate::statements::block_found;
use ceu_base::{CheckError, Seq, Ty};
use ceu_scopes::Scopes;
use ceu_tree::Tree;
use sqlite_items::Items;
use std::alloc::Global;

/// The types of a program's expressions, one for each node of an expression, in pre-order.
#[derive(Drop)]
pub struct Types {
    pub exps: Seq<Ty>,
}

fn nothing_found(alloc: Global) -> Found
    ensures { result ≡ spec.nothing_found }
{
    Found {
        names: 0,
        types: Seq::new(alloc),
        labels: Items::new(alloc),
        own: None,
        broken: None,
        beyond_every: false,
        beyond_async: false,
        beyond_finalizer: false,
    }
}

/// Gives each expression of a program its type, or refuses the program by the rule on types that it breaks first: the first broken
/// place in pre-order, at one place the lowest rule. The scopes are those of the tree. Time is linear in the program, but that an
/// expression's operators are looked at once for each operator around them.
#[tactic(auto, unfolding(crate::specs::Statements::types_of))]
pub fn type_tree(alloc: Global, tree: &Tree, scopes: &Scopes) -> Result<Types, CheckError>
    ensures accepted { IfOk result (λ t. types_of scopes.now tree.now ≡ Ok t.exps) }
    ensures refused { IfErr result (λ e. IsCause e (types_of scopes.now tree.now)) }
{
    let mut found = nothing_found(alloc);
    match block_found(&mut found, alloc, scopes, Around::program(), &tree.body) {
        Ok(()) => match found.broken {
            None => Ok(Types { exps: found.types }),
            Some(broken) => Err(CheckError::Refused(broken.rule, broken.pos)),
        },
        Err(_) => Err(CheckError::Memory),
    }
}
