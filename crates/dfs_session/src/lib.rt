//! The session of a script: the registry, the live jobs, and what each line does to them.
//!
//! `Session::open` reads the registry of a host, and `Session::step` works one line and answers its reply. Both speak of the plain
//! session of specs/Session: publications with their change sets, settings, and the plain jobs of `dfs_job`. The layer above has the
//! reply, the session after the line, what files and images stand for, and each answer's cause (specs/Worked). specs/Files says what
//! files stand for and specs/Images what images hold, specs/Stands and specs/Sound when a session stands for a plain one and what is
//! so of all, specs/Writes which files are written, specs/Selected and specs/Taken what a begin selects and takes, specs/Kept and
//! specs/Places what begins keep and where it lies, specs/Reads how often they read, specs/Run what a script writes, specs/Isolation
//! and specs/Room what jobs are told and need.
#![tactic(auto)]

ghost use Rattle.dfs_session.specs.Isolation.{IsIsolated};
ghost use Rattle.dfs_session.specs.Places.{ArePlaced};

mod begin;
mod commands;
mod keeping;
mod publish;
mod selection;
mod session;
mod settings;

pub use session::Session;

/// What a job is told about its namespace are the answers that it would get alone.
pub fn isolated()
    ensures { IsIsolated }
{}

/// The tables that a live job reads lie in its own file or in that of a name of its begin.
pub fn placed()
    ensures { ArePlaced }
{}
