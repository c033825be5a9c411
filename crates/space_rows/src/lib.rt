//! Worked namespaces: walks, operations, and views over layers. Nothing stands on it.
//!
//! Each module holds the tests of one crate, which are proved here so that the crate itself is proved once.
#![tactic(auto)]

#[cfg(test)]
mod operations;
#[cfg(test)]
mod spaces;
#[cfg(test)]
mod views;
#[cfg(test)]
mod walks;
