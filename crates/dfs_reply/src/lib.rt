//! The replies to the lines of a script, and the bytes that say them.
//!
//! The layer above makes a `Reply` and has its text from `print`: with `Ok` exactly that text was appended, and
//! with `NoMemory` nothing was. `specs/Text` has the text of each reply, `specs/Piece` the words of which a line
//! is written.
#![tactic(auto)]

ghost use Rattle.std.specs.Prelude.{◌≡◌, ◌<◌, ◌++◌, [], ◌∷◌, length, Some, slice_get, OnOk, OnErr};

mod printing;

use dfs_record::{Entry, NoMemory, SnapName};
use dfs_space::Listing;
pub use printing::print;
use std::alloc::Global;
use std::marker::Model;

/// The snapshots of a registry in its order, seen as the list of their names and jobs.
#[derive(Debug, Drop)]
pub struct SnapList {
    items: Vec<(SnapName, u32)>,
}

impl Model for SnapList {
    ghost use Rattle.std.specs.Prelude.{List, ℕ};
    ghost use Rattle.dfs_record.specs.declared.SnapName.{SnapName};

    ghost Value = { List (SnapName × ℕ) };

    ghost view = { λ list. list.items.items };
}

impl SnapList {
    pub fn new(alloc: Global) -> SnapList
        ensures { result ≡ [] }
    {
        SnapList {
            items: Vec::new(alloc),
        }
    }

    pub fn len(&self) -> usize
        ensures { result ≡ length self.now }
    {
        self.items.len()
    }

    pub fn get(&self, index: usize) -> &(SnapName, u32)
        requires { index < length self.now }
        ensures { slice_get self.now index ≡ Some result.now }
    {
        &self.items[index]
    }

    /// Adds a name and its job at the end.
    pub fn push(&mut self, item: (SnapName, u32)) -> Result<(), NoMemory>
        ensures ok { OnOk result (self.new ≡ self.old ++ item ∷ []) }
        ensures err { OnErr result (self.new ≡ self.old) }
    {
        match self.items.push(item) {
            Ok(()) => Ok(()),
            Err(_) => Err(NoMemory),
        }
    }
}

/// Why a line is refused.
#[derive(Clone, Copy, Debug, PartialEq, Eq)]
pub enum Word {
    /// The line is outside the grammar of lines.
    Syntax,
    /// The line has too many bytes.
    Long,
    /// The job's word names a job already.
    LiveJob,
    /// The word names no job.
    NoJob,
    /// A count has reached its limit.
    Full,
    /// A snapshot of this name was never published.
    NoSnap,
    /// A snapshot of this name was published before.
    Taken,
    /// The operation has no meaning for the root.
    Root,
    /// Nothing stands at the path, or on the way to it.
    NoEnt,
    /// A file stands where a directory has to.
    NotDir,
    /// A directory stands where a file has to.
    IsDir,
    /// Something stands at the path already.
    Exists,
    /// The directory has a child.
    NotEmpty,
    /// A directory would be moved below itself.
    Inside,
    /// Another plan is under way.
    Busy,
    /// No plan is under way.
    NoPlan,
    /// The plan has no part with this number.
    Range,
    /// The part was merged before.
    Done,
}

/// The reply to a line.
#[derive(Debug, Drop)]
pub enum Reply {
    /// Not a byte, as for a comment.
    Nothing,
    Ok,
    /// A job began and has this number.
    Job(u32),
    Stat(Entry),
    Listing(Listing),
    Snapshots(SnapList),
    /// The last part of a plan was merged.
    Merged,
    /// A job has so many runs, and so many records in them.
    Stats { runs: u64, records: u64 },
    /// A snapshot of this name was published, with this count of records.
    Published { name: SnapName, count: u64 },
    /// The log of this snapshot is damaged.
    Damaged(SnapName),
    /// The line was refused, and nothing is changed.
    Error(Word),
}
