//! Manifests: where the indexes of a run's tables lie in the file of their log.
//!
//! A manifest is seen as the list of its tables, each the place and the length of its index. `Manifest::read` answers a
//! list exactly where the bytes are its manifest, and `None` exactly where they are the manifest of no list; `write`
//! appends the one spelling.
//!
//! The definitions stand in `specs/`: which bytes are the manifest of which tables in `Manifest`.
#![tactic(auto)]

mod laws;
mod manifest;
mod writing;

pub use laws::manifest_laws;
pub use manifest::Manifest;
pub use writing::write;
