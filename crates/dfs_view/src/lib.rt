//! The namespace of a job, over its layers.
//!
//! A job's records lie in layers: the buffer that is open, the runs in its log that were closed, and below them the runs of
//! the change sets that it selected. `View` borrows a host and the layers of one job, and is a `Space` whose map is what their
//! records leave, the latest record of a key counting.
//!
//! The definitions stand in `specs/`: layers as lists of records in `Lists`, what layers stand for on a host in `Layers`, and how
//! a view goes on in `View`.
#![tactic(auto)]

mod children;
mod layers;
mod lookup;
mod sources;
mod view;

pub use layers::{Layers, flush};
pub use view::View;
