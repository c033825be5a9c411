//! A caller of the registry, and worked files over a host in memory. Nothing stands on it.
//!
//! `add` shows that what `prepare` leaves is all that `commit` asks for. The tests open worked files and damaged ones.
#![tactic(auto)]

ghost use Rattle.std.specs.Prelude.{◌≡◌, ◌↔◌, ◌++◌, ◌∷◌, [], false, length, IsFalse, IsTrue, IsErrOf, OnOk};
ghost use Rattle.dfs_host.specs.Counts.{Rose};
ghost use Rattle.dfs_host.specs.Host.{Told};
ghost use Rattle.dfs_record.specs.Name.{is_between};
ghost use Rattle.dfs_registry.specs.Body.{lists_job, lists_name};
ghost use Rattle.dfs_registry.specs.Standing.{RegistryStands};

use dfs_host::Host;
use dfs_registry::{Listed, PrepFault, Registry};

/// Why a publication was not added.
#[derive(Clone, Copy, Debug, PartialEq, Eq)]
pub enum AddFault {
    Prepare(PrepFault),
    Disk,
}

/// Prepares a publication and commits it.
pub fn add<H: Host>(host: &mut H, registry: &mut Registry, listed: Listed) -> Result<(), AddFault>
    requires live { IsFalse registry.old.spent }
    requires job_apart { lists_job registry.old.entries listed.job ≡ false }
    requires job_range { IsTrue (is_between 1 4294967294 listed.job) }
    requires stands { Told (H.state host.old) (RegistryStands (H.state host.old) registry.old) }

    ensures added { OnOk result (registry.new.entries ≡ registry.old.entries ++ listed ∷ []) }
    ensures stands { Told (H.state host.old) (OnOk result (RegistryStands (H.state host.new) registry.new)) }

    // The cause of each refusal but for want of memory.
    ensures taken { IsErrOf result (AddFault.Prepare PrepFault.Taken) ↔ IsTrue (lists_name registry.old.entries listed.name) }
    ensures full { IsErrOf result (AddFault.Prepare PrepFault.Full) ↔ ((lists_name registry.old.entries listed.name ≡ false) × (length registry.old.entries ≡ 4096)) }
    ensures disk { IsErrOf result AddFault.Disk → Rose (H.state host.old).disk_faults (H.state host.new).disk_faults }
    ensures other { (IsErrOf result AddFault.Disk → ⊥) → (H.state host.new).disk_faults ≡ (H.state host.old).disk_faults }
{
    match registry.prepare(listed) {
        Ok(pending) => match registry.commit(host, pending) {
            Ok(()) => Ok(()),
            Err(_) => Err(AddFault::Disk),
        },
        Err(fault) => Err(AddFault::Prepare(fault)),
    }
}

#[cfg(test)]
mod tests;
