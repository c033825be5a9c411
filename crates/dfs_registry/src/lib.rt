//! The registry: a list of publications in file 0, each behind a gate that is opened last.
//!
//! The layer above opens it (`Registry::open`), makes a publication ready (`prepare`), and adds it without taking memory (`commit`).
//! It learns what file 0 stands for, and what a crash at any moment of opening or of a commit leaves of it. `specs/Reading` says which
//! list a file's bytes stand for, `specs/Body` what one publication is, `specs/Standing` when a registry stands on a host,
//! `specs/Opening` what opening answers and why, and `specs/Seen` what a registry is seen as.
#![tactic(auto)]

mod entries;
mod fault;
mod format;
mod gate;
mod laws;
mod listed;
mod opening;
mod parse;
mod pending;
mod reading;
mod registry;
mod settle;

pub use fault::RegFault;
pub use laws::what_is_written_is_read;
pub use listed::Listed;
pub use pending::{Pending, PrepFault};
pub use registry::Registry;
