ghost use Rattle.std.specs.Prelude.{◌≡◌, [], OnOk};
ghost use Rattle.ceu_scopes.specs.Shown.{found, entered, is_among, added};

use crate::known::Known;
use indexmap::{IndexMap, IndexSet};
use std::alloc::{AllocError, Global};
use std::marker::Model;

/// The names that a block shows, with their declarations, in order.
#[derive(Drop)]
pub struct Names {
    map: IndexMap<String, Known>,
}

impl Model for Names {
    ghost use Rattle.std.specs.Prelude.{List, ℕ};
    ghost use Rattle.ceu_scopes.specs.declared.known.Known.{Known};
    ghost use Rattle.ceu_scopes.specs.Entries.{pairs};

    ghost Value = { List (List ℕ × Known) };

    ghost view = { λ n. pairs n.map.entries };
}

impl Names {
    pub fn new(alloc: Global) -> Names
        ensures { result ≡ [] }
    {
        Names {
            map: IndexMap::new(alloc),
        }
    }

    pub fn find(&self, name: &str) -> Option<Known>
        ensures { result ≡ found self.now name.now }
    {
        self.map.get(name).copied()
    }

    /// Shows the name. One that is shown already takes the new declaration.
    pub fn enter(&mut self, alloc: Global, name: &str, known: Known) -> Result<(), AllocError>
        ensures { OnOk result (self.new ≡ entered self.old name.now known) }
    {
        let key = String::from_str(alloc, name)?;
        self.map.insert(key, known)?;
        Ok(())
    }
}

/// The numbers of the variables that an async lists, each once.
#[derive(Drop)]
pub struct Listed {
    set: IndexSet<u32>,
}

impl Model for Listed {
    ghost use Rattle.std.specs.Prelude.{List, ℕ};

    ghost Value = { List ℕ };

    ghost view = { λ l. l.set.keys };
}

impl Listed {
    pub fn new(alloc: Global) -> Listed
        ensures { result ≡ [] }
    {
        Listed {
            set: IndexSet::new(alloc),
        }
    }

    pub fn contains(&self, number: u32) -> bool
        ensures { result ≡ is_among number self.now }
    {
        self.set.contains(&number)
    }

    pub fn add(&mut self, number: u32) -> Result<(), AllocError>
        ensures { OnOk result (self.new ≡ added self.old number) }
    {
        self.set.insert(number)?;
        Ok(())
    }
}
