ghost use Rattle.std.specs.Prelude.{◌≡◌, reverse};
ghost use Rattle.ceu_scopes.specs.Shown.{found};
ghost use Rattle.ceu_scopes.specs.Walk as spec;

use crate::known::Known;
use crate::names::{Listed, Names};
use ceu_base::Name;
use ceu_tree::Class;

/// What stands between a block and the block around it: nothing, an async with its list, or the head of the code of this name.
#[derive(Drop)]
pub enum Border {
    Plain,
    Async(Listed),
    Body(Name),
}

/// An open block: its number, its border, and the names that it shows.
#[derive(Drop)]
pub struct Scope {
    pub block: u32,
    pub border: Border,
    pub names: Names,
}

pub fn is_global(class: Class) -> bool
    ensures { result ≡ spec.is_global class }
{
    matches!(class, Class::Input | Class::Output | Class::Code)
}

pub fn is_shared(class: Class) -> bool
    ensures { result ≡ spec.is_shared class }
{
    matches!(class, Class::Var | Class::Event)
}

fn through(border: &Border, known: Option<Known>) -> Option<Known>
    ensures { result ≡ spec.through border.now known }
{
    match border {
        Border::Body(_) => known.filter(|known| is_global(known.class)),
        Border::Plain => known,
        Border::Async(_) => known,
    }
}

/// The first declaration of a name from the innermost block outward.
pub fn seen(scopes: &[Scope], name: &str) -> Option<Known>
    ensures { result ≡ spec.seen (reverse scopes.now) name.now }
{
    match scopes.split_last() {
        None => None,
        Some((scope, outside)) => match scope.names.find(name) {
            Some(known) => Some(known),
            None => through(&scope.border, seen(outside, name)),
        },
    }
}

fn is_own_at(border: &Border, name: &str) -> bool
    ensures { result ≡ spec.is_own_at border.now name.now }
{
    match border {
        Border::Body(own) => name == own.text(),
        Border::Plain => false,
        Border::Async(_) => false,
    }
}

/// Whether the name is that of the code in whose body the place lies.
pub fn is_own(scopes: &[Scope], name: &str) -> bool
    ensures { result ≡ spec.is_own (reverse scopes.now) name.now }
{
    match scopes.split_last() {
        None => false,
        Some((scope, outside)) => is_own_at(&scope.border, name) || is_own(outside, name),
    }
}

fn is_body(border: &Border) -> bool
    ensures { result ≡ spec.is_body border.now }
{
    matches!(border, Border::Body(_))
}

fn in_code(scopes: &[Scope]) -> bool
    ensures { result ≡ spec.in_code (reverse scopes.now) }
{
    match scopes.split_last() {
        None => false,
        Some((scope, outside)) => is_body(&scope.border) || in_code(outside),
    }
}

#[tactic(auto, using(crate::proofs::Reversed::outermost_laws))]
fn found_outermost(scopes: &[Scope], name: &str) -> Option<Known>
    ensures { result ≡ found (spec.outermost (reverse scopes.now)) name.now }
{
    match scopes.split_first() {
        None => None,
        Some((scope, _)) => scope.names.find(name),
    }
}

/// The declaration of `outer.NAME`.
pub fn seen_outer(scopes: &[Scope], name: &str) -> Option<Known>
    ensures { result ≡ spec.seen_outer (reverse scopes.now) name.now }
{
    if in_code(scopes) {
        found_outermost(scopes, name).filter(|known| is_shared(known.class))
    } else {
        None
    }
}

fn admits(border: &Border, number: u32) -> bool
    ensures { result ≡ spec.admits border.now number }
{
    match border {
        Border::Async(listed) => listed.contains(number),
        Border::Plain => true,
        Border::Body(_) => true,
    }
}

/// Whether each async between the place and the block that declares it lists the declaration.
pub fn is_listed(scopes: &[Scope], known: Known) -> bool
    ensures { result ≡ spec.is_listed (reverse scopes.now) known }
{
    match scopes.split_last() {
        None => true,
        Some((scope, outside)) => {
            scope.block == known.block
                || (admits(&scope.border, known.number) && is_listed(outside, known))
        }
    }
}

/// The number of the innermost block.
pub fn block_of(scopes: &[Scope]) -> u32
    ensures { result ≡ spec.block_of (reverse scopes.now) }
{
    match scopes.split_last() {
        None => 0,
        Some((scope, _)) => scope.block,
    }
}
