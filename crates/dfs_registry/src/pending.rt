use crate::Listed;
use dfs_record::{NoMemory, SnapName};
use std::marker::Model;
use thiserror::Error;

/// Why a publication is not prepared.
#[derive(Clone, Copy, Debug, PartialEq, Eq, Error)]
pub enum PrepFault {
    /// Its name is listed.
    #[error("Taken")]
    Taken,
    /// The registry has its greatest number of entries.
    #[error("Full")]
    Full,
    #[error("NoMemory")]
    NoMemory,
}

impl From<NoMemory> for PrepFault {
    ghost use Rattle.std.specs.Prelude.{◌≡◌};
    ghost use Rattle.dfs_registry.specs.declared.pending.PrepFault.TheVariants.{NoMemory};

    ghost from_gives = { λ _ e. e ≡ NoMemory };

    fn from(_: NoMemory) -> Self {
        PrepFault::NoMemory
    }
}

/// A publication that was prepared, seen as the publication. It holds the memory that its commit needs, but for the entry's
/// room, which the registry has.
#[derive(Drop)]
pub struct Pending {
    pub(crate) listed: Listed,
    // its name once more, and its bytes with a closed gate
    pub(crate) name: SnapName,
    pub(crate) bytes: Vec<u8>,
}

impl Model for Pending {
    ghost use Rattle.dfs_registry.specs.declared.listed.Listed.{Listed as PublicationState};
    ghost use Rattle.dfs_registry.specs.Seen.{IsPrepared};

    ghost Value = { PublicationState };

    ghost view = { λ p. p.listed };

    ghost invariant = { λ p. IsPrepared p.listed p.name p.bytes.items };
}
