//! What the operations on a namespace need of it: the trait `Space`, and a space in memory.
//!
//! A space stands for the finite map from keys to entries. The layer above looks a key up, asks for
//! the children of a directory and stores records, each with its answer on the map, its cause where
//! it is a fault, and how the later state follows from the earlier one.
//! `specs/Space` has the state of a space and the causes of its answers, `specs/Children` what a
//! directory has, `specs/Span` where its keys lie.
#![tactic(auto)]

mod laws;
mod listing;
mod plain;
mod space;
mod span;

pub use laws::span_laws;
pub use listing::Listing;
pub use plain::PlainSpace;
pub use space::Space;
pub use span::{first_key, next_dir};
