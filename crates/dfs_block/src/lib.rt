//! Blocks of records, as they stand in a log.
//!
//! A block is seen as the list of its records. `Block::read` answers a list exactly where the bytes are its block, and
//! `None` exactly where they are the block of no list; what it lends points into these bytes. `Block::find_in` does the
//! same and looks a key up, in one pass. `BlockBuilder` is seen as the list of the records that were pushed, and its bytes
//! are the block of that list.
//!
//! The definitions stand in `specs/`: which bytes are the block of which records in `Block`.
#![tactic(auto)]

mod block;
mod builder;
mod laws;
mod records;

pub use block::Block;
pub use builder::BlockBuilder;
pub use laws::{one_list, rises_by_last};
pub use records::BlockRecords;
