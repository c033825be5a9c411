ghost use Rattle.std.specs.Prelude.{◌≡◌, ◌<◌, ◌++◌, [], ◌∷◌, length, Some, slice_get, All, OnOk, OnErr};
ghost use Rattle.dfs_space.specs.Children.{IsChild};

use dfs_record::{Entry, Name, NoMemory};
use std::alloc::Global;
use std::marker::Model;

/// The entries of a directory, seen as the list of names and entries.
#[derive(Debug, Drop)]
pub struct Listing {
    items: Vec<(Name, Entry)>,
}

impl Model for Listing {
    ghost use Rattle.std.specs.Prelude.{List, All};
    ghost use Rattle.dfs_record.specs.declared.Name.{Name};
    ghost use Rattle.dfs_record.specs.declared.Entry.{Entry};
    ghost use Rattle.dfs_space.specs.Children.{IsChild};

    ghost Value = { List (Name × Entry) };

    ghost view = { λ listing. listing.items.items };

    ghost invariant = { λ listing. All IsChild listing.items.items };
}

impl Listing {
    pub fn new(alloc: Global) -> Listing
        ensures { result ≡ [] }
    {
        Listing {
            items: Vec::new(alloc),
        }
    }

    pub fn len(&self) -> usize
        ensures length { result ≡ length self.now }
        ensures valid { All IsChild self.now }
    {
        self.items.len()
    }

    pub fn get(&self, index: usize) -> &(Name, Entry)
        requires { index < length self.now }
        ensures value { slice_get self.now index ≡ Some result.now }
        ensures valid { IsChild result.now }
    {
        &self.items[index]
    }

    pub fn push(&mut self, item: (Name, Entry)) -> Result<(), NoMemory>
        requires { IsChild item }
        ensures ok { OnOk result (self.new ≡ self.old ++ item ∷ []) }
        ensures err { OnErr result (self.new ≡ self.old) }
    {
        match self.items.push(item) {
            Ok(()) => Ok(()),
            Err(_) => Err(NoMemory),
        }
    }
}
