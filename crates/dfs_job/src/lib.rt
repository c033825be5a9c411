//! A live job: its numbers, its layers and its log.
//!
//! `Job::begin` starts a job over the change sets that it selects, `op` and `flush` put its records into layers of its log, `stats`
//! counts the closed ones, `plan` and `part` merge them into one, and `publish_tables` seals all of them as one run. Each call is a
//! step of the plain job of `specs/Job`, which is its numbers, the change sets, the records in layers and the plan under way;
//! `specs/Stands` says when a job stands for a plain one on a host and what is so of every job.
#![tactic(auto)]

mod answers;
mod applying;
mod job;
mod planning;
mod publishing;
mod settings;

pub use answers::{JobPart, Planned};
pub use job::{Job, Stats};
pub use planning::UnderWay;
pub use settings::Settings;
