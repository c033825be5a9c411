//! The walk along a path, on any space.
//!
//! The walk goes by the path alone, from the root on, so directories may stand at several places
//! and in each other. The layer above gets the place where the path ends, what stands there, and
//! the directories that were passed, or the refusal that the definition gives.
//! `specs/Walk` has the definition, and `specs/Walked` how the answers of the code are seen.
#![tactic(auto)]

mod passed;
mod walking;

use dfs_host::Fault;
use dfs_record::{Entry, Key, NoMemory};
pub use passed::Passed;
use thiserror::Error;
pub use walking::walk;

/// Where a walk ends: the place, which the root has not, what stands there, and the directories
/// that were passed.
#[derive(Debug, Drop)]
pub struct Walked {
    pub place: Option<Key>,
    pub found: Option<Entry>,
    pub passed: Passed,
}

/// Why a walk has no end.
#[derive(Clone, Copy, Debug, PartialEq, Eq, Error)]
pub enum WalkFault {
    /// A name on the way has no entry.
    #[error("NoEnt")]
    NoEnt,
    /// A name on the way is a file's.
    #[error("NotDir")]
    NotDir,
    /// The space failed, or memory ran out.
    #[error("Fault")]
    Fault(Fault),
}

impl From<NoMemory> for WalkFault {
    ghost use Rattle.std.specs.Prelude.{◌≡◌};
    ghost use Rattle.dfs_host.specs.declared.fault.Fault.TheVariants.{NoMemory as OutOfMemory};
    ghost use Rattle.dfs_walk.specs.declared.WalkFault.TheVariants.{Fault as Failed};

    ghost from_gives = { λ _ e. e ≡ Failed OutOfMemory };

    fn from(_: NoMemory) -> Self {
        WalkFault::Fault(Fault::NoMemory)
    }
}

impl From<Fault> for WalkFault {
    ghost use Rattle.std.specs.Prelude.{◌≡◌};
    ghost use Rattle.dfs_walk.specs.declared.WalkFault.TheVariants.{Fault as Failed};

    ghost from_gives = { λ fault e. e ≡ Failed fault };

    fn from(fault: Fault) -> Self {
        WalkFault::Fault(fault)
    }
}
