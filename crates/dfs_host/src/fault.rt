use std::alloc::{AllocError, AllocFailed};
use thiserror::Error;

/// A call of a device failed. What it left is said at the call.
#[derive(Clone, Copy, Debug, PartialEq, Eq, Hash, Error)]
#[error("Failed")]
pub struct Failed;

/// No memory was found.
#[derive(Clone, Copy, Debug, PartialEq, Eq, Hash, Error)]
#[error("NoMemory")]
pub struct NoMemory;

/// What ends a run.
#[derive(Clone, Copy, Debug, PartialEq, Eq, Hash, Error)]
pub enum Fault {
    /// No memory was found.
    #[error("NoMemory")]
    NoMemory,
    /// A call on a file failed.
    #[error("Disk")]
    Disk,
    /// A log would pass its limit, or a run would have too many tables.
    #[error("LogFull")]
    LogFull,
    /// The block at place `at` of the file, read again, was not the block that its index states. It cannot come until tables are read
    /// block by block: no block is read a second time.
    #[error("Changed")]
    Changed { file: u32, at: u64 },
}

impl From<AllocError> for NoMemory {
    fn from(_: AllocError) -> Self {
        NoMemory
    }
}

impl<T: Drop> From<AllocFailed<T>> for NoMemory {
    fn from(_: AllocFailed<T>) -> Self {
        NoMemory
    }
}

impl From<Failed> for Fault {
    ghost use Rattle.std.specs.Prelude.{◌≡◌};
    ghost use Rattle.dfs_host.specs.declared.fault.Fault.TheVariants.{Disk};

    ghost from_gives = { λ _ e. e ≡ Disk };

    fn from(_: Failed) -> Self {
        Fault::Disk
    }
}

impl From<NoMemory> for Fault {
    ghost use Rattle.std.specs.Prelude.{◌≡◌};
    ghost use Rattle.dfs_host.specs.declared.fault.Fault.TheVariants.{NoMemory};

    ghost from_gives = { λ _ e. e ≡ NoMemory };

    fn from(_: NoMemory) -> Self {
        Fault::NoMemory
    }
}
