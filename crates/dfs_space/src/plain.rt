ghost use Rattle.std.specs.Prelude.{◌≡◌, All, Some, None, IfOk, IfSome, OnOk, OnErr, option_copied, map};
ghost use Rattle.std.specs.declared.ops.Bound.TheVariants.{Included};
ghost use Rattle.dfs_record.specs.KeyMap.{empty, get, insert, remove};
ghost use Rattle.dfs_record.specs.Namespace.{Namespace, after_record};
ghost use Rattle.dfs_record.specs.Record.{IsKey, IsEntry, IsRecord};
ghost use Rattle.dfs_space.specs.Children.{child_of, children, has_child};
ghost use Rattle.dfs_space.specs.PlainSpace.{IsStored};
ghost use Rattle.dfs_space.specs.Span.{first_key, next_dir, end_of};

use crate::{Listing, Space, first_key, next_dir};
use dfs_host::Fault;
use dfs_record::{DirId, Entry, Key, NoMemory, Record, Value};
use std::alloc::Global;
use std::collections::BTreeMap;
use std::collections::btree_map::Range;
use std::marker::Model;
use std::ops::Bound;

/// A namespace in an ordered map in memory, seen as the finite map.
#[derive(Drop)]
pub struct PlainSpace {
    entries: BTreeMap<Key, Entry>,
    alloc: Global,
}

impl Model for PlainSpace {
    ghost use Rattle.std.specs.Prelude.{All};
    ghost use Rattle.dfs_record.specs.Namespace.{Namespace, namespace_code};
    ghost use Rattle.dfs_record.specs.KeyMap.{from_entries};
    ghost use Rattle.dfs_space.specs.PlainSpace.{IsStored};

    ghost Value = { Namespace };

    ghost coded = { namespace_code };

    ghost view = { λ s. from_entries s.entries.entries };

    ghost invariant = { λ s. All IsStored s.entries.entries };
}

impl PlainSpace {
    pub fn new(alloc: Global) -> PlainSpace
        ensures { result ≡ empty }
    {
        PlainSpace {
            entries: BTreeMap::new(alloc),
            alloc,
        }
    }

    fn find(&self, key: &Key) -> Option<&Entry>
        ensures value { option_copied result ≡ get self.now key.now }
        ensures valid { IfSome result (λ entry. IsEntry entry.now) }
    {
        self.entries.get(key)
    }

    fn put(&mut self, key: Key, entry: Entry) -> Result<(), NoMemory>
        requires key { IsKey key }
        requires entry { IsEntry entry }

        ensures ok { OnOk result (self.new ≡ insert self.old key entry) }
        ensures err { OnErr result (self.new ≡ self.old) }
    {
        match self.entries.insert(key, entry) {
            Ok(_) => Ok(()),
            Err(_) => Err(NoMemory),
        }
    }

    fn delete(&mut self, key: &Key)
        ensures { self.new ≡ remove self.old key.now }
    {
        let _ = self.entries.remove(key);
    }

    fn has_child(&self, dir: DirId) -> Result<bool, NoMemory>
        ensures { IfOk result (λ answer. answer ≡ has_child self.now dir) }
    {
        let span = span(self.alloc, dir)?;
        Ok(self.entries.range(span).next().is_some())
    }

    fn children(&self, dir: DirId) -> Result<Listing, NoMemory>
        ensures { IfOk result (λ listing. listing ≡ children self.now dir) }
    {
        let span = span(self.alloc, dir)?;
        listed(self.alloc, self.entries.range(span))
    }
}

// The names of these entries with what stands there.
fn listed(alloc: Global, entries: Range<'_, Key, Entry>) -> Result<Listing, NoMemory>
    requires { All IsStored entries }
    ensures { IfOk result (λ listing. listing ≡ map child_of entries.entry) }
{
    let mut listing = Listing::new(alloc);
    for (key, entry) in entries {
        listing.push((key.name.copy(alloc)?, entry.copy(alloc)?))?;
    }
    Ok(listing)
}

// The bounds between which a directory's keys lie, and no other ones.
fn span(alloc: Global, dir: DirId) -> Result<(Bound<Key>, Bound<Key>), NoMemory>
    ensures { IfOk result (λ span. span ≡ (Included (first_key dir), end_of (next_dir dir))) }
{
    let start = first_key(alloc, dir)?;
    match next_dir(dir) {
        Some(next) => {
            let end = first_key(alloc, next)?;
            Ok((Bound::Included(start), Bound::Excluded(end)))
        }
        None => Ok((Bound::Included(start), Bound::Unbounded)),
    }
}

/// It tells, answers no fault but `NoMemory`, and goes on after one.
impl Space for PlainSpace {
    ghost use Rattle.std.specs.Prelude.{◌≡◌, refl};
    ghost use Rattle.dfs_space.specs.PlainSpace.{plain_state, plain_follows, plain_follows_itself, plain_follows_on};

    ghost StandsFor = { λ s m. s ≡ m };

    ghost state = { λ s. plain_state };

    ghost follows = { plain_follows };

    ghost AfterFault = { λ s. Unit {0} };

    ghost told = { λ x m is. refl };

    ghost follows_itself = { plain_follows_itself };

    ghost follows_on = { plain_follows_on };

    fn lookup(&mut self, key: &Key) -> Result<Option<Entry>, Fault> {
        let alloc = self.alloc;
        match self.find(key) {
            Some(entry) => match entry.copy(alloc) {
                Ok(entry) => Ok(Some(entry)),
                Err(_) => Err(Fault::NoMemory),
            },
            None => Ok(None),
        }
    }

    fn any_child(&mut self, dir: DirId) -> Result<bool, Fault> {
        match self.has_child(dir) {
            Ok(answer) => Ok(answer),
            Err(_) => Err(Fault::NoMemory),
        }
    }

    fn list(&mut self, dir: DirId) -> Result<Listing, Fault> {
        match self.children(dir) {
            Ok(listing) => Ok(listing),
            Err(_) => Err(Fault::NoMemory),
        }
    }

    fn store(&mut self, rec: Record) -> Result<(), Fault> {
        let Record { key, value } = rec;
        match value {
            Value::Del => {
                self.delete(&key);
                Ok(())
            }
            Value::Put(entry) => match self.put(key, entry) {
                Ok(()) => Ok(()),
                Err(_) => Err(Fault::NoMemory),
            },
        }
    }
}
