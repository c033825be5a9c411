//! Fences: where the blocks of a table lie, and between which keys the records of each stand.
//!
//! `Fences` is seen as the list of its fences, which rise and do not overlap. `Fences::read` answers a list exactly where
//! the bytes are its index, and `None` exactly where they are the index of no list; `write` appends the one spelling.
//! `find` answers the one fence that covers a key, and `range` those that meet a range of keys. `blocks_lie` tells from the bytes of
//! an index, before memory is asked for, whether its blocks may lie where they are said to.
//!
//! The definitions stand in `specs/`: which bytes are the index of which fences in `Index`, which fence covers a key in
//! `Cover`, and which fences meet a range in `Ranges`.
#![tactic(auto)]

mod fence;
mod fences;
mod laws;
mod places;
mod reading;
mod writing;

pub use fence::Fence;
pub use fences::Fences;
pub use laws::{index_laws, one_covers};
pub use places::{blocks_lie, lies};
