//! The merged list of several sources of records: each key once, in rising order, with the value of the last source
//! that has it.
//!
//! The layer above sees a merge as the list of its sources, oldest first, and by the meanings of `Records`. While a
//! source has blocks to load, the merge has the records that what is still to be loaded can't change.
//!
//! Which source stands first is kept in a tree of matches, so that a record costs a logarithm of their number.
//!
//! The definitions stand in `specs/`: what sources have together in `Sources`, which of them is taken first in `Rank`,
//! and the matches in `Tree`.
#![tactic(auto)]

mod merge;
mod rank;
mod tree;

pub use merge::Merge;
