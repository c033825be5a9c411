//! Files in memory that fail as a test says, and files of a folder. Nothing stands on it.
//!
//! Each module holds the tests of one crate, which are proved here so that the crate itself is proved once.
#![tactic(auto)]

#[cfg(test)]
mod folders;
#[cfg(test)]
mod memory;
