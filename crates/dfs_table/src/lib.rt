//! Tables of a log, and runs of them.
//!
//! A run is the records of a change set in the order of their keys, cut into blocks, and the blocks into tables, each with an index
//! of its blocks' fences. `TableWriter` writes a run to a log; `Table::open` reads a table back and checks all of it; `Tables::find`
//! answers the one table of a run that spans a key, and `Table::find` looks the key up in it; `RunRecords` goes over the records of
//! the blocks that meet a range of keys.
//!
//! The definitions stand in `specs/`: when a table and a run are stored in a file, and which records they have, in `Stored`; what a
//! writer stands for in `Writer`; how records are cut into blocks and tables in `Cut`; which table lies at a place of a log in
//! `Opened`; which one spans a key in `Spans`; what a cursor has before it in `RunRecords`.
#![tactic(auto)]

mod find;
mod identities;
mod open;
mod run;
mod run_records;
mod search;
mod table;
mod writer;
mod writing;

pub use open::OpenFault;
pub use run::{Run, Tables};
pub use run_records::RunRecords;
pub use table::{BlockBytes, Table};
pub use writer::TableWriter;
pub use writing::{write_run, write_tables};
