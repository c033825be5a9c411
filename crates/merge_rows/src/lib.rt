//! Worked cursors, buffers, merges, plans and compactions. Nothing stands on it.
//!
//! Each module holds the tests of one crate, which are proved here so that the crate itself is proved once.
#![tactic(auto)]

#[cfg(test)]
mod buffers;
#[cfg(test)]
mod compactions;
#[cfg(test)]
mod cursors;
#[cfg(test)]
mod merges;
#[cfg(test)]
mod plans;
