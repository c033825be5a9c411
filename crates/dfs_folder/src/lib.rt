//! A host over a real folder, and a source over a reader: the program's edge to the system, which is trusted.
//!
//! No contract can say what a folder holds or what a reader gives, so both tell nothing (`specs/FolderHost`). The layer above learns the
//! cause of each answer: `Failed` comes only where the counter of that kind of fault rose, and every other answer leaves the counters.
//! `specs/Names` says which path a file has. What else is done in the folder is said at `FolderHost`.
#![tactic(auto)]

mod answer;
mod folder;
mod host;
mod laws;
mod names;
mod opened;
mod source;

pub use host::FolderHost;
pub use laws::own_names;
pub use source::StdinSource;
