// A shelf in memory. It tells its files, and fails on the calls that it was told.
ghost use Rattle.std.specs.Prelude.{◌≡◌, [], ◌∷◌, ◌++◌, OnOk, OnErr};
ghost use Rattle.ceu_io.specs.Files.{Puts};

use crate::calls::is_listed;
use crate::{Fetched, Shelf, ShelfError};
use std::alloc::{AllocError, Global};
use std::collections::BTreeMap;
use std::marker::Model;

/// Files by name. The calls of `fetch`, counted from 1, that it was told fail.
#[derive(Drop)]
pub struct MemShelf {
    alloc: Global,
    files: BTreeMap<String, Vec<u8>>,
    calls: u64,
    faults: u64,
    fails: Vec<u32>,
}

impl Model for MemShelf {
    ghost use Rattle.ceu_io.specs.Files.{ShelfInMemory, texts};

    ghost Value = { ShelfInMemory };

    ghost view = { λ s. record { files = texts s.files.entries; calls = s.calls; faults = s.faults; fails = s.fails.items } };
}

impl MemShelf {
    pub fn new(alloc: Global) -> MemShelf
        ensures { result ≡ record { files = []; calls = 0; faults = 0; fails = [] } }
    {
        MemShelf {
            alloc,
            files: BTreeMap::new(alloc),
            calls: 0,
            faults: 0,
            fails: Vec::new(alloc),
        }
    }

    /// Puts a file under a name, in place of an earlier one.
    pub fn put(&mut self, name: &str, bytes: &[u8]) -> Result<(), AllocError>
        ensures put { OnOk result (Puts self.old.files self.new.files name.now bytes.now) }
        ensures others { OnOk result (self.new ≡ record self.old { files = self.new.files }) }
        ensures refused { OnErr result (self.new ≡ self.old) }
    {
        let name = String::from_str(self.alloc, name)?;
        let bytes = Vec::from_slice(self.alloc, bytes)?;
        self.files.insert(name, bytes)?;
        Ok(())
    }

    /// Lets that call of `fetch` fail.
    pub fn fail_on(&mut self, call: u32) -> Result<(), AllocError>
        ensures listed { OnOk result (self.new ≡ record self.old { fails = self.old.fails ++ call ∷ [] }) }
        ensures refused { OnErr result (self.new ≡ self.old) }
    {
        self.fails.push(call)?;
        Ok(())
    }
}

impl Shelf for MemShelf {
    ghost use Rattle.std.specs.Prelude.{◌≡◌, ◌↔◌, IfOk, IsTrue, Some, ◌≢◌};
    ghost use Rattle.ceu_io.specs.Calls.{next_count};
    ghost use Rattle.ceu_io.specs.Files.{file_of, fetch_fails};
    ghost use Rattle.ceu_io.specs.Shelves.{Fetches, IsWithin, HasShelfCause};
    ghost use Rattle.ceu_io.specs.Told.{WhereTold};

    ghost faults = { λ s. s.faults };

    ghost files = { λ s. Some (file_of s.files) };

    fn fetch(&mut self, alloc: Global, name: &str, limit: usize) -> Result<Fetched, ShelfError>
        ensures fetched { IfOk result (λ f. WhereTold (Some (file_of self.old.files)) (Some (file_of self.new.files)) (λ old new. Fetches f limit name.now old)) }
        ensures within { IfOk result (λ f. IsWithin f limit) }
        ensures same { Some (file_of self.new.files) ≡ Some (file_of self.old.files) }
        ensures cause { HasShelfCause self.old.faults self.new.faults result }
        // In memory the answer is determined, but for want of memory.
        ensures fails { (result ≡ Err ShelfError.Failed) ↔ IsTrue (fetch_fails self.old) }
        ensures done { result ≢ Err ShelfError.Failed → self.new ≡ record self.old { calls = next_count self.old.calls } }
        ensures failed { result ≡ Err ShelfError.Failed → self.new ≡ record self.old { calls = next_count self.old.calls; faults = next_count self.old.faults } }
    {
        self.calls = self.calls.saturating_add(1);
        if is_listed(&self.fails, self.calls) {
            self.faults = self.faults.saturating_add(1);
            return Err(ShelfError::Failed);
        }
        let Some(bytes) = self.files.get(name) else {
            return Ok(Fetched::Absent);
        };
        if bytes.len() > limit {
            return Ok(Fetched::TooLong);
        }
        Ok(Fetched::Bytes(Vec::from_slice(alloc, bytes)?))
    }
}
