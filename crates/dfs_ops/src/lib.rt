//! The operations on a namespace, on any space.
//!
//! `apply` reads what an operation has to know, decides, and then stores the operation's records.
//! The layer above gets the answer of the definition; after `Done` the map is the old one with the
//! definition's records in order, and every other answer but a fault leaves the map and the job's
//! numbers.
//! `specs/Op` has the definition of the operations, `specs/Applied` what `apply` did on a space
//! whether or not it tells what it has, and `specs/Within` what an operation keeps of the
//! identities in a namespace, as the laws state it.
#![tactic(auto)]

mod applying;
mod deciding;
mod laws;
mod planning;
mod reaching;

pub use applying::apply;
use dfs_record::Entry;
use dfs_space::Listing;
pub use laws::{outcomes_bounded, records_within};

/// A job's number, how many directories it made, and how many records.
#[derive(Clone, Copy, Debug, PartialEq, Eq)]
pub struct Ids {
    pub job: u32,
    pub counter: u32,
    pub made: u32,
}

/// The answer to an operation.
#[derive(Debug, Drop)]
pub enum OpReply {
    /// The operation was done.
    Done,
    /// What `stat` shows.
    Entry(Entry),
    /// What `list` shows.
    Listing(Listing),
    /// The root can't be changed.
    Root,
    /// A name of the path has no entry.
    NoEnt,
    /// A file stands where a directory is wanted.
    NotDir,
    /// A directory stands where a file is wanted.
    IsDir,
    /// Something stands in the place already.
    Exists,
    /// The directory has a child.
    NotEmpty,
    /// A directory can't go into itself.
    Inside,
    /// The job has made as many records as it may.
    Full,
}
