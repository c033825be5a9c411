//! Paths and the escaped words that spell them, and the operations that name paths.
//!
//! The layer above gives words and gets paths: `Path::read` answers exactly the path that a word
//! means, and each path, mode and number of an operation that was read is in its range.
//! `specs/Escape` has the escapes of words, `specs/Path` what a word means as a path, and
//! `specs/Op` which operations are valid.
#![tactic(auto)]

ghost use Rattle.std.specs.Prelude.{◌≡◌, ◌<◌, IfOk, None, Some, length, slice_get};
ghost use Rattle.dfs_record.specs.Name.{IsName};
ghost use Rattle.dfs_path.specs.Escape.{PrintedReadsBack};
ghost use Rattle.dfs_path.specs.Path.{IsPath, path_of};

mod components;
mod escape;

pub use components::cut;
use components::read_names;
use dfs_record::{Name, Reference};
pub use escape::{read_escaped, unescape, write_escaped};
use std::alloc::Global;
use std::marker::Model;
use thiserror::Error;

/// A path from the root, seen as the list of its names. The root is the empty list.
///
/// It has at most 64 names, which with a slash for each have at most 4,096 bytes.
#[derive(Debug, Drop)]
pub struct Path {
    names: Vec<Name>,
}

impl Model for Path {
    ghost use Rattle.std.specs.Prelude.{List};
    ghost use Rattle.dfs_record.specs.declared.Name.{Name};
    ghost use Rattle.dfs_path.specs.Path.{IsPath};

    ghost Value = { List Name };

    ghost view = { λ path. path.names.items };

    ghost invariant = { λ path. IsPath path.names.items };
}

/// Why a word is no path, or its escapes mean nothing.
#[derive(Clone, Copy, Debug, PartialEq, Eq, Error)]
pub enum PathFault {
    /// The word is outside the grammar.
    #[error("Bad")]
    Bad,
    #[error("NoMemory")]
    NoMemory,
}

impl Path {
    /// The path that a word means, which is split at its slashes before escapes are read.
    pub fn read(alloc: Global, word: &[u8]) -> Result<Path, PathFault>
        ensures means { IfOk result (λ path. path_of word.now ≡ Some path) }
        ensures bad { result ≡ Err PathFault.Bad → path_of word.now ≡ None }
        ensures valid { IfOk result IsPath }
    {
        match word {
            [b'/'] => Ok(Path {
                names: Vec::new(alloc),
            }),
            [b'/', components @ ..] => {
                let names = read_names(alloc, components)?;
                Ok(Path { names })
            }
            _ => Err(PathFault::Bad),
        }
    }

    /// How many names it has: none for the root.
    pub fn len(&self) -> usize
        ensures length { result ≡ length self.now }
        ensures valid { IsPath self.now }
    {
        self.names.len()
    }

    /// The name at an index, counted from the root.
    pub fn get(&self, index: usize) -> &Name
        requires { index < length self.now }
        ensures value { slice_get self.now index ≡ Some result.now }
        ensures valid { IsName result.now }
    {
        &self.names[index]
    }
}

/// What a plan covers.
#[derive(Clone, Copy, Debug, PartialEq, Eq)]
pub enum Scope {
    /// The job's own layers.
    Own,
    /// The job's own layers and the snapshots that it stands on.
    All,
}

/// An operation on a namespace. Modes are at most 7777 in octal digits.
#[derive(Debug, Drop)]
pub enum Op {
    Mkdir {
        path: Path,
        mode: u16,
        time: u64,
    },
    Create {
        path: Path,
        mode: u16,
        time: u64,
        size: u64,
        reference: Reference,
    },
    Unlink {
        path: Path,
    },
    Rmdir {
        path: Path,
    },
    Rename {
        from: Path,
        to: Path,
    },
    Setattr {
        path: Path,
        mode: u16,
        time: u64,
    },
    Stat {
        path: Path,
    },
    List {
        path: Path,
    },
}

/// What `write_escaped` prints reads back as the bytes that it was printed from.
pub fn printed_reads_back()
    ensures { PrintedReadsBack }
{}
