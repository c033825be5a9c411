//! The latest look-ups of a job: what was found at each of the keys that were asked for last.
//!
//! The layer above sees the list of its pairs, each a key and what was found there, the latest first. No key stands in
//! it twice, and it is never longer than its capacity, which no call changes. The pairs that go are those used longest
//! ago. What is put has to be valid, and so is what is found. A look-up goes by a hash of its key, whose seed is fixed,
//! and takes no memory.
//!
//! The definitions stand in `specs/`: the list and what each call makes of it in `Latest`, what is found after runs of
//! calls in `Runs`, and what a list ends as after a look-up in `Ends`.
#![tactic(auto)]

ghost use Rattle.std.specs.Prelude.{◌≡◌, ◌≤◌, [], option_copied, IfOk, IfSome, OnOk, OnErr};
ghost use Rattle.std.specs.Borrow.{sem};
ghost use Rattle.std.specs.Map.{lookup};
ghost use Rattle.dfs_cache.specs.Latest.{latest, brought_forward, put_first, taken_off, same_key, IsFound, IsLatest};
ghost use Rattle.dfs_cache.specs.Ends.{ends_as};

mod laws;

use dfs_record::{Entry, Key, NoMemory};
pub use laws::what_is_found;
use lru::LruCache;
use std::alloc::Global;
use std::marker::Model;
use std::num::NonZeroUsize;

/// The pairs of the latest look-ups, the latest first.
#[derive(Drop)]
pub struct Lookups {
    cache: LruCache<Key, Option<Entry>>,
}

impl Model for Lookups {
    ghost use Rattle.dfs_cache.specs.Latest.{Latest, latest, latest_code, IsLatest};

    ghost Value = { Latest };

    ghost coded = { latest_code };

    ghost view = { λ lookups. latest lookups.cache.entries lookups.cache.cap };

    ghost invariant = { λ lookups. IsLatest (latest lookups.cache.entries lookups.cache.cap) };
}

impl Lookups {
    /// No pair yet, and room for at most `capacity` of them. Memory is taken as they come.
    pub fn new(alloc: Global, capacity: u32) -> Result<Lookups, NoMemory>
        requires { 1 ≤ capacity }
        ensures { IfOk result (λ lookups. lookups ≡ latest [] capacity) }
    {
        let cap = NonZeroUsize::new(capacity as usize).unwrap();
        Ok(Lookups {
            cache: LruCache::sparse(alloc, cap)?,
        })
    }

    /// What was found at the key, whose pair then stands at the front. `None` exactly where no pair has the key.
    pub fn get(&mut self, key: &Key) -> Option<&Option<Entry>>
        ensures* forward { sem 𝓛 (ends_as self.entry (brought_forward key.now self.old)) }
        ensures found { option_copied result ≡ lookup (same_key key.now) self.old.pairs }
        ensures valid { IfSome (option_copied result) IsFound }
        ensures latest { IsLatest self.old }
    {
        self.cache.get(key)
    }

    /// Puts the pair at the front in place of the key's older pair. The last pair goes where the list would pass the
    /// capacity.
    pub fn put(&mut self, key: Key, found: Option<Entry>) -> Result<(), NoMemory>
        requires valid { IsFound found }
        ensures front { OnOk result (self.new ≡ put_first key found self.old) }
        ensures unchanged { OnErr result (self.new ≡ self.old) }
        ensures latest { IsLatest self.old }
    {
        match self.cache.put(key, found) {
            Ok(_) => Ok(()),
            Err(_) => Err(NoMemory),
        }
    }

    /// Takes the key's pair off, if there is one.
    pub fn forget(&mut self, key: &Key)
        ensures off { self.new ≡ taken_off key.now self.old }
        ensures latest { IsLatest self.old }
    {
        self.cache.pop(key);
    }
}

#[cfg(test)]
mod tests;
