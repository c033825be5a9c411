//! Worked paths, lines of scripts, replies and generated workloads. Nothing stands on it.
//!
//! Each module holds the tests of one crate, which are proved here so that the crate itself is proved once.
#![tactic(auto)]

#[cfg(test)]
mod generated;
#[cfg(test)]
mod lines;
#[cfg(test)]
mod paths;
#[cfg(test)]
mod replies;
