ghost use Rattle.std.specs.Prelude.{◌≡◌, option_copied, drop, slice_get};
ghost use Rattle.ceu_types.specs.Uses as spec;
ghost use Rattle.ceu_types.specs.Notes as notes;

use ceu_base::Ty;
use ceu_scopes::Scopes;
use ceu_tree::{Class, Decl};

/// The place behind a use of a name in the list of uses.
#[tactic(auto, unfolding(crate::specs::Notes::past))]
pub fn past(scopes: &Scopes, place: usize) -> usize
    ensures { result ≡ notes.past scopes.now place }
{
    if place < scopes.uses.items().len() {
        place + 1
    } else {
        place
    }
}

fn type_of_decl(decl: Option<&Decl>) -> Ty
    ensures { result ≡ spec.type_of_decl (option_copied decl.entry) }
{
    match decl {
        Some(decl) => decl.ty,
        None => Ty::None,
    }
}

/// The declared type of a use.
#[tactic(auto, unfolding(crate::specs::Uses::use_type))]
pub fn use_type(scopes: &Scopes, place: usize) -> Ty
    ensures { result ≡ spec.use_type scopes.now place }
{
    match scopes.uses.items().get(place) {
        Some(number) => type_of_decl(scopes.decls.items().get(*number as usize)),
        None => Ty::None,
    }
}

fn is_parameter(class: Class) -> bool
    ensures { result ≡ spec.is_parameter class }
{
    match class {
        Class::Param => true,
        _ => false,
    }
}

fn is_output(class: Class) -> bool
    ensures { result ≡ spec.is_output class }
{
    match class {
        Class::Output => true,
        _ => false,
    }
}

fn is_output_decl(decl: Option<&Decl>) -> bool
    ensures { result ≡ spec.is_output_decl (option_copied decl.entry) }
{
    match decl {
        Some(decl) => is_output(decl.class),
        None => false,
    }
}

/// Whether a use names an output.
#[tactic(auto, unfolding(crate::specs::Uses::is_output_use))]
pub fn is_output_use(scopes: &Scopes, place: usize) -> bool
    ensures { result ≡ spec.is_output_use scopes.now place }
{
    match scopes.uses.items().get(place) {
        Some(number) => is_output_decl(scopes.decls.items().get(*number as usize)),
        None => false,
    }
}

/// The declarations from this one on.
fn from_decl(decls: &[Decl], at: usize) -> &[Decl]
    ensures { result.now ≡ drop at decls.now }
{
    if at < decls.len() { &decls[at..] } else { &[] }
}

/// The declarations behind that of a use.
fn behind<'a>(scopes: &'a Scopes, place: usize) -> &'a [Decl]
    ensures { result.now ≡ spec.behind scopes.now.decls (slice_get scopes.now.uses place) }
{
    match scopes.uses.items().get(place) {
        Some(number) => from_decl(scopes.decls.items(), *number as usize + 1),
        None => &[],
    }
}

/// Whether a list of declarations begins with just so many parameters.
#[tactic(auto, using(crate::proofs::Parameters::parameters))]
fn has_leading(decls: &[Decl], count: usize) -> bool
    ensures { result ≡ spec.has_leading count decls.now }
{
    for (i, decl) in decls.iter().enumerate() {
        let more = is_parameter(decl.class);
        if i == count || !more {
            return i == count && !more;
        }
    }
    decls.len() == count
}

/// Whether the code that a use names has so many parameters.
#[tactic(auto, unfolding(crate::specs::Uses::has_parameters))]
pub fn has_parameters(scopes: &Scopes, place: usize, count: usize) -> bool
    ensures { result ≡ spec.has_parameters scopes.now place count }
{
    has_leading(behind(scopes, place), count)
}

/// The type of a parameter of the code that a use names.
#[tactic(auto, unfolding(crate::specs::Uses::parameter_type))]
pub fn parameter_type(scopes: &Scopes, place: usize, i: usize) -> Ty
    ensures { result ≡ spec.parameter_type scopes.now place i }
{
    type_of_decl(behind(scopes, place).get(i))
}
