//! Cursors: sources of records that stand over a slice, and over a part of another source.
//!
//! The layer above sees each of them by the meanings of `Records`. `SliceRecords` has the records of its slice,
//! `RangeRecords` has of another source what lies from one key up to, not with, another, and `EitherRecords` is a
//! source of one kind or of another.
//!
//! The definitions stand in `specs/`: the part between two keys, and what is unread of it, in `Ranges`, what a meaning
//! of two kinds gives in `Either`, and what a slice keeps behind its first record in `Slices`.
#![tactic(auto)]

mod either;
mod ranges;
mod slices;

pub use either::EitherRecords;
pub use ranges::RangeRecords;
pub use slices::SliceRecords;
