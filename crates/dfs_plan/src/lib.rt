//! The parts of a plan: ranges that cut all keys into parts which can be merged one by one, in any order.
//!
//! `Plan::new` takes the first keys of the blocks that are to be merged, and `Plan::range` answers the two ends of
//! a part. The layer above relies on two things: the ends are exactly those of the definition, and each key lies in
//! exactly one part (`one_part`).
//!
//! The definitions stand in `specs/`: boundaries and parts in `Parts`, what a plan is seen as in `Plan`.
#![tactic(auto)]

mod laws;
mod plan;

pub use laws::one_part;
pub use plan::Plan;
