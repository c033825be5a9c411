//! Worked records, manifests, blocks and indexes of fences. Nothing stands on it.
//!
//! Each module holds the tests of one crate, which are proved here so that the crate itself is proved once.
#![tactic(auto)]

#[cfg(test)]
mod blocks;
#[cfg(test)]
mod fences;
#[cfg(test)]
mod manifests;
#[cfg(test)]
mod records;
