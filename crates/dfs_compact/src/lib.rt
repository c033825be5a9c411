//! Compaction in parts: runs are merged range by range, in any order, and the parts are joined into one run.
//!
//! `Compaction::begin` cuts the keys of its sources into parts, `part` merges one of them into tables of a log, and `take` answers
//! the run of all. The layer above relies on this: in whatever order the parts were merged, the run is stored for the merged list of
//! the sources, and its change set may stand in their place.
//!
//! The definitions stand in `specs/`: which records a part has in `Parts`, and what it is for a compaction to stand on files in
//! `Compaction`.
#![tactic(auto)]

mod compaction;
mod keys;
mod sources;

pub use compaction::{Compaction, Parted};
