ghost use Rattle.std.specs.Prelude.{◌≡◌, OnOk, IfOk, Some, option_copied};
ghost use Rattle.ceu_expand.specs.Uses as spec;

use crate::around::Around;
use crate::draft::{Draft, LabelNode, more_text};
use ceu_base::{Name, Ty};
use ceu_scopes::Scopes;
use ceu_tree::{Class, Decl, Ident, Loc};
use std::alloc::AllocError;

/// The declaration of a use of a name.
fn decl_of(scopes: &Scopes, place: usize) -> Option<&Decl>
    ensures { option_copied result ≡ spec.decl_of scopes.now place }
{
    match scopes.uses.items().get(place) {
        Some(number) => scopes.decls.items().get(*number as usize),
        None => None,
    }
}

fn class_is_output(class: Class) -> bool
    ensures { result ≡ spec.is_output class }
{
    match class {
        Class::Output => true,
        _ => false,
    }
}

/// Whether the next use names an output.
pub fn names_output(scopes: &Scopes, place: usize) -> bool
    ensures { result ≡ spec.names_output scopes.now place }
{
    match decl_of(scopes, place) {
        Some(decl) => class_is_output(decl.class),
        None => false,
    }
}

fn use_type(scopes: &Scopes, place: usize) -> Ty
    ensures { result ≡ spec.type_at scopes.now place }
{
    match decl_of(scopes, place) {
        Some(decl) => decl.ty,
        None => Ty::None,
    }
}

fn number_at(numbers: &[u32], at: u32) -> u32
    ensures { result ≡ spec.number_at numbers.now (Some at) }
{
    match numbers.get(at as usize) {
        Some(number) => *number,
        None => 0,
    }
}

/// What the declaration of a use stands for.
fn use_number(scopes: &Scopes, place: usize, numbers: &[u32]) -> u32
    ensures { result ≡ spec.number_of scopes.now numbers.now place }
{
    match scopes.uses.items().get(place) {
        Some(at) => number_at(numbers, *at),
        None => 0,
    }
}

#[tactic(auto, unfolding(crate::specs::Uses::node_or))]
fn node_or(label: &LabelNode, name: &Name, node: u32) -> u32
    ensures { result ≡ spec.node_or label.now name.now node }
{
    if label.name.text() == name.text() {
        label.node
    } else {
        node
    }
}

#[tactic(auto, using(crate::proofs::Labels::labels))]
fn label_node(labels: &[LabelNode], name: &Name) -> u32
    ensures { result ≡ spec.label_node labels.now name.now 0 }
{
    let mut node = 0;
    for label in labels {
        node = node_or(label, name, node);
    }
    node
}

impl Draft {
    /// Goes past the next use of a name. What it stands for.
    #[tactic(auto, unfolding(crate::specs::Uses::used, crate::specs::Uses::use_number))]
    pub fn used(&mut self, scopes: &Scopes) -> Result<u32, AllocError>
        ensures number { IfOk result (λ n. n ≡ spec.use_number scopes.now self.old) }
        ensures after { OnOk result (self.new ≡ spec.used self.old) }
    {
        let number = use_number(scopes, self.uses, self.numbers.items());
        self.uses = more_text(self.uses)?;
        Ok(number)
    }

    /// Goes past the next use of a name. The variable that it names.
    #[tactic(auto, unfolding(crate::specs::Uses::variable))]
    pub fn variable(&mut self, scopes: &Scopes, x: &Ident) -> Result<Loc, AllocError>
        ensures variable { IfOk result (λ l. l ≡ spec.variable scopes.now x.now self.old) }
        ensures after { OnOk result (self.new ≡ spec.used self.old) }
    {
        let ty = use_type(scopes, self.uses);
        let slot = self.used(scopes)?;
        Ok(Loc {
            outer: x.outer,
            slot,
            ty,
        })
    }

    /// The node that an escape leaves.
    #[tactic(auto, unfolding(crate::specs::Uses::target))]
    pub fn target(&self, around: Around, label: &Option<Ident>) -> u32
        ensures { result ≡ spec.target around label.now self.now }
    {
        match label {
            None => around.plain,
            Some(l) => label_node(self.labels.as_slice(), &l.name),
        }
    }
}
