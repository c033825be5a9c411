//! Change sets of jobs in their logs.
//!
//! `ChangeWriter::finish` ends the log that a run lies in, as the log of a publication. `Change::open` opens the log of a registry's
//! entry and checks all of it, and `Change::find` looks a key up in it.
//!
//! When a log is whole, and which change set it has, is the relation `HasChanges` (specs/Whole); `log_meaning` (specs/Meant) is the
//! same as a function of the file's bytes, and laws hold the two equal.
#![tactic(auto)]

mod change;
mod find;
mod laws;
mod sealing;

pub use change::Change;
pub use laws::{logs_are_whole_or_damaged, nothing_behind_means};
pub use sealing::{ChangeWriter, Sealed};
