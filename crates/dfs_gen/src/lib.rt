//! A workload that is generated: a script of any number of creates as a source of bytes, and the summary of its replies.
//!
//! The layer above takes the script from a `GenSource` as it takes any other from its source, counts each reply in a `Summary`, and
//! says the summary's one line. `specs/Script` has the lines of the script, and `specs/Summary` the counts and the line.
#![tactic(auto)]

mod line;
mod source;
mod summary;
mod text;

pub use source::GenSource;
pub use summary::Summary;
