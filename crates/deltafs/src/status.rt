//! The statuses of a run.

ghost use Rattle.std.specs.Prelude.{◌≡◌};
ghost use Rattle.deltafs.specs.Lines.{status_after};
ghost use Rattle.deltafs.specs.Refusals.{status_of};

use dfs_host::Fault;
use dfs_registry::RegFault;

/// How a run ends.
#[derive(Clone, Copy, Debug, PartialEq, Eq)]
pub enum Status {
    /// The script came to its end, and each of its lines was worked.
    Done,
    /// The words are not those of a run. Nothing was taken and nothing said.
    Usage,
    /// File 0 is no registry. Nothing was taken, said or written.
    NotRegistry,
    /// The registry is damaged at this place. Nothing was taken, said or written.
    RegistryDamaged(u64),
    /// A call on a file failed.
    DiskFault,
    /// The output failed within a reply, or within the summary: some first bytes of it were said, or none.
    OutputFault,
    /// The source failed.
    SourceFault,
    /// No memory was found.
    NoMemory,
    /// The log of a job would pass its limit, or a run would need more than 131,072 tables.
    LogFull,
    /// The limit was taken of the script, and its end had not come.
    ScriptTooLong,
    /// A block that was read again was not the block that its index states.
    Changed,
}

impl Status {
    ghost use Rattle.std.specs.Prelude.{◌≡◌};
    ghost use Rattle.deltafs.specs.Status.{number_of};

    /// The number that the program ends with.
    pub fn number(self) -> u8
        ensures { result ≡ number_of self }
    {
        match self {
            Status::Done => 0,
            Status::Usage => 2,
            Status::NotRegistry => 3,
            Status::RegistryDamaged(_) => 4,
            Status::DiskFault => 5,
            Status::OutputFault => 6,
            Status::SourceFault => 7,
            Status::NoMemory => 8,
            Status::LogFull => 9,
            Status::ScriptTooLong => 10,
            Status::Changed => 11,
        }
    }
}

// Why a run stops at a line: at its working, or at its reply.
#[derive(Clone, Copy, Debug, PartialEq, Eq)]
pub enum Stop {
    Fault(Fault),
    Output,
}

impl Stop {
    ghost use Rattle.std.specs.Prelude.{◌≡◌};
    ghost use Rattle.deltafs.specs.Lines.{status_by};

    pub fn status(self) -> Status
        ensures { result ≡ status_by self }
    {
        match self {
            Stop::Fault(Fault::NoMemory) => Status::NoMemory,
            Stop::Fault(Fault::Disk) => Status::DiskFault,
            Stop::Fault(Fault::LogFull) => Status::LogFull,
            Stop::Fault(Fault::Changed { .. }) => Status::Changed,
            Stop::Output => Status::OutputFault,
        }
    }
}

// The status where a registry was not opened.
pub fn unopened(fault: RegFault) -> Status
    ensures { result ≡ status_of fault }
{
    match fault {
        RegFault::NotRegistry => Status::NotRegistry,
        RegFault::Damaged(place) => Status::RegistryDamaged(place),
        RegFault::NoMemory => Status::NoMemory,
        RegFault::Disk => Status::DiskFault,
    }
}

// The status of a run whose lines came to this.
pub fn ended(outcome: Result<(), Stop>) -> Status
    ensures { result ≡ status_after outcome }
{
    match outcome {
        Ok(()) => Status::Done,
        Err(stop) => stop.status(),
    }
}
