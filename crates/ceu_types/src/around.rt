ghost use Rattle.std.specs.Prelude.{◌≡◌, OnOk};
ghost use Rattle.ceu_types.specs.Around as spec;

use crate::found::{Found, LabelTarget};
use crate::kinds::is_none;
use ceu_base::{Name, Rule, Ty};
use ceu_tree::{Exp, Ident, Label};
use std::alloc::{AllocError, Global};

/// What stands around a statement: whether a loop does, and what the target of a plain escape takes, or nothing where an async stands
/// between.
#[derive(Clone, Copy, Debug, PartialEq, Eq)]
pub struct Around {
    pub in_loop: bool,
    pub plain: Option<Ty>,
}

impl Around {
    pub fn program() -> Around
        ensures { result ≡ spec.program_around }
    {
        Around {
            in_loop: false,
            plain: Some(Ty::S32),
        }
    }

    pub fn code(result_type: Ty) -> Around
        ensures { result ≡ spec.code_around result_type }
    {
        Around {
            in_loop: false,
            plain: Some(result_type),
        }
    }

    pub fn of_async() -> Around
        ensures { result ≡ spec.async_around }
    {
        Around {
            in_loop: false,
            plain: None,
        }
    }

    pub fn of_loop(self) -> Around
        ensures { result ≡ spec.loop_around self }
    {
        Around {
            in_loop: true,
            plain: self.plain,
        }
    }

    /// Inside a `do` that takes a value of this type.
    #[tactic(auto, unfolding(crate::specs::Around::do_around))]
    pub fn of_do(self, label: &Label, takes: Ty) -> Around
        ensures { result ≡ spec.do_around label.now takes self }
    {
        match label {
            Label::Plain => Around {
                in_loop: self.in_loop,
                plain: Some(takes),
            },
            Label::Under => self,
            Label::Named(_) => self,
        }
    }
}

impl Found {
    /// A `do` with this label begins, which takes a value of this type.
    #[tactic(auto, unfolding(crate::specs::Around::labelled))]
    pub fn labelled(&mut self, alloc: Global, label: &Label, takes: Ty) -> Result<(), AllocError>
        ensures { OnOk result (self.new ≡ spec.labelled label.now takes self.old) }
    {
        match label {
            Label::Plain => Ok(()),
            Label::Under => Ok(()),
            Label::Named(l) => {
                let name = Name::new(alloc, l.name.text())?;
                self.labels.push(LabelTarget { name, takes })
            }
        }
    }

    /// The `do` with this label ends.
    #[tactic(auto, unfolding(crate::specs::Around::unlabelled), using(crate::proofs::Labels::labels))]
    pub fn unlabelled(&mut self, label: &Label)
        ensures { self.new ≡ spec.unlabelled label.now self.old }
    {
        match label {
            Label::Plain => (),
            Label::Under => (),
            Label::Named(_) => {
                self.labels.pop();
            }
        }
    }

    /// A break or a continue.
    #[tactic(auto, unfolding(crate::specs::Around::jumped))]
    pub fn jumps(&mut self, around: Around)
        ensures { self.new ≡ spec.jumped around self.old }
    {
        if !around.in_loop {
            self.asks_own(false, Rule::T5);
            self.not_in_async();
        }
    }

    /// What the target of an escape takes.
    #[tactic(auto, unfolding(crate::specs::Around::target_takes))]
    pub fn target_takes(&self, around: Around, label: &Option<Ident>) -> Option<Ty>
        ensures { result ≡ spec.target_takes around self.now label.now }
    {
        match label {
            None => around.plain,
            Some(l) => label_takes(self.labels.as_slice(), &l.name),
        }
    }

    #[tactic(auto, unfolding(crate::specs::Around::escaped))]
    pub fn escapes(&mut self, takes: Option<Ty>, value: &Option<Exp>)
        ensures { self.new ≡ spec.escaped takes value.now self.old }
    {
        match takes {
            None => {
                self.asks_own(false, Rule::T5);
                self.not_in_async();
            }
            Some(t) => self.asks_own(takes_value(t, value), Rule::T5),
        }
    }
}

fn takes_if_named(label: &LabelTarget, name: &Name) -> Option<Ty>
    ensures { result ≡ spec.takes_if_named label.now name.now }
{
    if label.name.text() == name.text() {
        Some(label.takes)
    } else {
        None
    }
}

/// What the innermost `do` with this label takes.
#[tactic(auto, using(crate::proofs::Labels::labels))]
fn label_takes(labels: &[LabelTarget], name: &Name) -> Option<Ty>
    ensures { result ≡ spec.label_takes labels.now name.now }
{
    let mut takes = None;
    for label in labels {
        takes = takes_if_named(label, name).or(takes);
    }
    takes
}

/// An escape, as an emission, has a value exactly where its target takes one.
#[tactic(auto, unfolding(crate::specs::Around::takes_value))]
pub fn takes_value(takes: Ty, value: &Option<Exp>) -> bool
    ensures { result ≡ spec.takes_value takes value.now }
{
    match value {
        None => is_none(takes),
        Some(_) => !is_none(takes),
    }
}
