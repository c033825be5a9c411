ghost use Rattle.std.specs.Prelude.{◌≡◌, ◌<◌, ◌++◌, [], ◌∷◌, length, Some, slice_get, OnOk, OnErr};
ghost use Rattle.std.specs.List.{list_any};
ghost use Rattle.dfs_space.specs.Children.{is_same_dir};

use dfs_record::{DirId, NoMemory};
use std::alloc::Global;
use std::marker::Model;

/// The directories that a walk passed, seen as their list: the root first, the place's parent last.
#[derive(Debug, Drop)]
pub struct Passed {
    items: Vec<DirId>,
}

impl Model for Passed {
    ghost use Rattle.std.specs.Prelude.{List};
    ghost use Rattle.dfs_record.specs.declared.DirId.{DirId};

    ghost Value = { List DirId };

    ghost view = { λ passed. passed.items.items };
}

impl Passed {
    pub fn new(alloc: Global) -> Passed
        ensures { result ≡ [] }
    {
        Passed {
            items: Vec::new(alloc),
        }
    }

    pub fn len(&self) -> usize
        ensures { result ≡ length self.now }
    {
        self.items.len()
    }

    pub fn get(&self, index: usize) -> &DirId
        requires { index < length self.now }
        ensures { slice_get self.now index ≡ Some result.now }
    {
        &self.items[index]
    }

    pub fn push(&mut self, dir: DirId) -> Result<(), NoMemory>
        ensures ok { OnOk result (self.new ≡ self.old ++ dir ∷ []) }
        ensures err { OnErr result (self.new ≡ self.old) }
    {
        match self.items.push(dir) {
            Ok(()) => Ok(()),
            Err(_) => Err(NoMemory),
        }
    }

    /// Whether the directory is one of them.
    pub fn contains(&self, dir: DirId) -> bool
        ensures { result ≡ list_any (is_same_dir dir) self.now }
    {
        self.items.iter().any(|passed| dir.cmp(passed).is_eq())
    }
}
