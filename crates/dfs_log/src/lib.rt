//! The log of a job: bytes that are appended to the job's file behind a header of 12 bytes, up to a limit.
//!
//! The layer above gives each piece to `append`, which answers its place, and calls `seal` once, before it lists the log. Each call
//! writes the log's file alone. `specs/Logs.antt` has the header, what a writer is seen as, and what it is to stand on a host.
#![tactic(auto)]

mod log;

pub use log::LogWriter;
