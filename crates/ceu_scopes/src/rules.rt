ghost use Rattle.std.specs.Prelude.{◌≡◌, reverse};
ghost use Rattle.ceu_scopes.specs.Answers.{Gives};
ghost use Rattle.ceu_scopes.specs.Rules as spec;
ghost use Rattle.ceu_scopes.specs.Walk.{decl_of};

use crate::known::{Known, Role};
use crate::scope::{Scope, is_listed, is_own, seen, seen_outer};
use ceu_base::{CheckError, Pos, Rule};
use ceu_tree::{Class, Ident, Spawn};

/// The declaration that a name has where it is used, or the rule that the use breaks for want of one.
pub fn decl_of(scopes: &[Scope], name: &Ident) -> Result<Known, Rule>
    ensures { result ≡ decl_of (reverse scopes.now) name.now }
{
    let text = name.name.text();
    if name.outer {
        return seen_outer(scopes, text).ok_or(Rule::N4);
    }
    match seen(scopes, text) {
        Some(known) => Ok(known),
        None => Err(if is_own(scopes, text) {
            Rule::N5
        } else {
            Rule::N1
        }),
    }
}

fn takes(role: Role, class: Class) -> bool
    ensures { result ≡ spec.takes role class }
{
    match role {
        Role::Read => matches!(class, Class::Var | Class::Param | Class::LoopVar),
        Role::Written => matches!(class, Class::Var | Class::Param),
        Role::Listed => matches!(class, Class::Var | Class::Param | Class::LoopVar),
        Role::Input => matches!(class, Class::Input),
        Role::Event => matches!(class, Class::Event),
        Role::Emitted => matches!(class, Class::Output | Class::Event),
        Role::Asked => matches!(class, Class::Alias),
        Role::Alias => matches!(class, Class::Alias),
        Role::Pool => matches!(class, Class::Pool),
        Role::Code => matches!(class, Class::Code),
    }
}

fn needs_list(role: Role) -> bool
    ensures { result ≡ spec.needs_list role }
{
    matches!(
        role,
        Role::Read | Role::Written | Role::Listed | Role::Asked
    )
}

fn use_broken(role: Role, scopes: &[Scope], known: Known) -> Option<Rule>
    ensures { result ≡ spec.use_broken role (reverse scopes.now) known }
{
    if !takes(role, known.class) {
        Some(Rule::N3)
    } else if needs_list(role) && !is_listed(scopes, known) {
        Some(Rule::N6)
    } else {
        None
    }
}

/// The declaration of a name that is used for this.
#[tactic(auto, using(crate::proofs::Laws::steps), unfolding(crate::specs::Rules::resolved))]
pub fn resolved(role: Role, scopes: &[Scope], name: &Ident) -> Result<Known, CheckError>
    ensures { Gives result (λ known. known) (spec.resolved role (reverse scopes.now) name.now) }
{
    match decl_of(scopes, name) {
        Err(rule) => Err(CheckError::Refused(rule, name.pos)),
        Ok(known) => match use_broken(role, scopes, known) {
            Some(rule) => Err(CheckError::Refused(rule, name.pos)),
            None => Ok(known),
        },
    }
}

/// The rule that an alias breaks, if it is set by this spawn.
pub fn set_broken(scopes: &[Scope], spawn: &Spawn, alias: Known) -> Option<Rule>
    ensures { result ≡ spec.set_broken (reverse scopes.now) spawn.now alias }
{
    let code = decl_of(scopes, &spawn.call.code).ok()?;
    let pool = decl_of(scopes, &spawn.pool).ok()?;
    if alias.code != code.number {
        Some(Rule::N3)
    } else if matches!(pool.class, Class::Pool) && alias.block < pool.block {
        Some(Rule::N7)
    } else {
        None
    }
}

/// Whether the innermost block declares the name already.
pub fn is_taken(scopes: &[Scope], name: &str) -> bool
    ensures { result ≡ spec.is_taken (reverse scopes.now) name.now }
{
    match scopes.split_last() {
        None => false,
        Some((scope, _)) => scope.names.find(name).is_some(),
    }
}

/// The rule that an input, an output or code breaks, unless it is declared in the outermost block.
pub fn inside_broken(scopes: &[Scope]) -> Option<Rule>
    ensures { result ≡ spec.inside_broken (reverse scopes.now) }
{
    if scopes.len() > 1 {
        Some(Rule::N3)
    } else {
        None
    }
}
