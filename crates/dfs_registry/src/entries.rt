ghost use Rattle.std.specs.Prelude.{◌≡◌, ◌≤◌, ◌<◌, ◌+◌, ◌++◌, ◌∷◌, [], false, length, slice_get, Some, OnOk};
ghost use Rattle.std.specs.List.{find};
ghost use Rattle.std.specs.Option.{option_copied};
ghost use Rattle.dfs_registry.specs.Body.{has_name, lists_name, greatest_job};

use crate::Listed;
use dfs_record::{NoMemory, SnapName};
use indexmap::IndexMap;
use std::alloc::Global;
use std::marker::Model;

// The publications in order, found by name.
#[derive(Drop)]
pub struct Entries {
    by_name: IndexMap<SnapName, Listed>,
    greatest: u32,
}

impl Model for Entries {
    ghost use Rattle.std.specs.HashMap.{values, spare};
    ghost use Rattle.dfs_registry.specs.Seen.{EntriesState, IsIndexed};

    ghost Value = { EntriesState };

    ghost view = { λ e. record { items = values e.by_name; spare = spare e.by_name } };

    ghost invariant = { λ e. IsIndexed e.by_name.entries e.greatest };
}

impl Entries {
    pub fn new(alloc: Global) -> Entries
        ensures { result.items ≡ [] }
    {
        Entries {
            by_name: IndexMap::new(alloc),
            greatest: 0,
        }
    }

    pub fn len(&self) -> usize
        ensures { result ≡ length self.now.items }
    {
        self.by_name.len()
    }

    pub fn get(&self, index: usize) -> &Listed
        requires { index < length self.now.items }
        ensures { slice_get self.now.items index ≡ Some result.now }
    {
        &self.by_name[index]
    }

    pub fn find(&self, name: &SnapName) -> Option<&Listed>
        ensures { option_copied result ≡ find (has_name name.now) self.now.items }
    {
        self.by_name.get(name)
    }

    pub fn lists(&self, name: &SnapName) -> bool
        ensures { result ≡ lists_name self.now.items name.now }
    {
        self.by_name.contains_key(name)
    }

    // The greatest job, and 0 where there is none.
    pub fn greatest(&self) -> u32
        ensures { result ≡ greatest_job self.now.items }
    {
        self.greatest
    }

    // Takes room for one more.
    pub fn reserve(&mut self) -> Result<(), NoMemory>
        ensures items { self.new.items ≡ self.old.items }
        ensures room { self.old.spare ≤ self.new.spare }
        ensures spare { OnOk result (1 ≤ self.new.spare) }
    {
        match self.by_name.reserve(1) {
            Ok(()) => Ok(()),
            Err(_) => Err(NoMemory),
        }
    }

    // Adds a publication for which there is room. `name` is its name once more.
    pub fn keep(&mut self, name: SnapName, listed: Listed)
        requires named { name ≡ listed.name }
        requires new { lists_name self.old.items listed.name ≡ false }
        requires spare { 1 ≤ self.old.spare }

        ensures items { self.new.items ≡ self.old.items ++ listed ∷ [] }
        ensures spare { self.old.spare ≤ self.new.spare + 1 }
    {
        self.greatest = self.greatest.max(listed.job);
        match self.by_name.insert(name, listed) {
            Ok(_) => {}
            Err(_) => unreachable!(),
        }
    }

    // Takes room, and adds a publication.
    pub fn push(&mut self, alloc: Global, listed: Listed) -> Result<(), NoMemory>
        requires { lists_name self.old.items listed.name ≡ false }
        ensures { OnOk result (self.new.items ≡ self.old.items ++ listed ∷ []) }
    {
        self.reserve()?;
        let name = listed.name.copy(alloc)?;
        self.keep(name, listed);
        Ok(())
    }
}
