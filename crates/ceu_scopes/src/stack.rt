ghost use Rattle.std.specs.Prelude.{◌≡◌, [], ◌∷◌, reverse, MatchOption, OnOk};
ghost use Rattle.ceu_scopes.specs.Shown.{rest_of};

use std::alloc::{AllocFailed, Global};
use std::marker::Model;

/// What is open around a place. Contracts see it as a list from the innermost out.
#[derive(Drop)]
pub struct Stack<T> {
    items: Vec<T>,
}

impl<T> Model for Stack<T> {
    ghost use Rattle.std.specs.Prelude.{List, reverse};
    ghost use Rattle.std.specs.Coded.{coded_list};

    ghost Value = { List T };

    ghost coded = { coded_list T.code };

    ghost view = { λ s. reverse s.items.items };
}

impl<T> Stack<T> {
    pub fn new(alloc: Global) -> Stack<T>
        ensures { result ≡ [] }
    {
        Stack {
            items: Vec::new(alloc),
        }
    }

    /// The outermost first.
    pub fn outermost_first(&self) -> &[T]
        ensures { reverse result.now ≡ self.now }
    {
        self.items.as_slice()
    }

    pub fn pop(&mut self) -> Option<T>
        ensures top { MatchOption result (self.old ≡ []) (λ x. self.old ≡ x ∷ self.new) }
        ensures rest { self.new ≡ rest_of self.old }
    {
        self.items.pop()
    }
}

impl<T: Drop> Stack<T> {
    pub fn push(&mut self, item: T) -> Result<(), AllocFailed<T>>
        ensures { OnOk result (self.new ≡ item ∷ self.old) }
    {
        self.items.push(item)?;
        Ok(())
    }
}
