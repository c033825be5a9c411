//! The buffer of a job's newest records: of each key the last value that was put, deletions among them.
//!
//! The layer above sees a buffer as the change set of the records that were put since it was cleared, with their
//! number. The records stand in rising order of their keys, in chunks of 64 records at most, so that a put is two
//! binary searches and moves the records of one chunk at most, and records that come in rising order are appended.
//!
//! The definitions stand in `specs/`: what a buffer is seen as in `Buffer`, lists in chunks and where a key stands
//! in them in `Chunks`.
#![tactic(auto)]

mod buffer;
mod chunks;
mod cursor;

pub use buffer::Buffer;
pub use cursor::BufferRecords;
