ghost use Rattle.std.specs.Prelude.{◌≡◌, ◌↔◌, ◌≤◌, ◌<◌, ◌+◌, ◌++◌, ◌∷◌, [], false, true, length, slice_get, Some, IfOk, IfSome, IsTrue, IsFalse, OnOk, OnErr};
ghost use Rattle.std.specs.List.{find};
ghost use Rattle.std.specs.Option.{option_copied};
ghost use Rattle.dfs_host.specs.Host.{Told, ChangesOnly, Only, HasDiskCause};
ghost use Rattle.dfs_record.specs.Name.{is_between};
ghost use Rattle.dfs_registry.specs.Body.{has_name, lists_name, lists_job, repeats, greatest_job, next_of};
ghost use Rattle.dfs_registry.specs.Reading.{HasOldOrNew, IsListing, gate_of};
ghost use Rattle.dfs_registry.specs.Seen.{IsPlaced};
ghost use Rattle.dfs_registry.specs.Standing.{RegistryStands, LeavesList};

use crate::entries::Entries;
use crate::format::{GREATEST_JOB, MOST, OPEN};
use crate::listed::spell;
use crate::settle::write_and_sync;
use crate::{Listed, Pending, PrepFault};
use dfs_host::{Failed, Host};
use dfs_record::SnapName;
use std::alloc::Global;
use std::marker::Model;

/// The list of publications, seen as the list, the number of entries that it has room for, and whether it is spent. A spent
/// registry commits no more.
#[derive(Drop)]
pub struct Registry {
    alloc: Global,
    entries: Entries,
    // the place of the standing gate
    gate: u64,
    spent: bool,
}

impl Model for Registry {
    ghost use Rattle.dfs_registry.specs.Seen.{RegistryState, IsPlaced};

    ghost Value = { RegistryState };

    ghost view = { λ r. record { entries = r.entries.items; spare = r.entries.spare; spent = r.spent } };

    ghost invariant = { λ r. IsPlaced r.entries.items r.gate };
}

impl Registry {
    // A registry that is not spent.
    pub(crate) fn of(alloc: Global, entries: Entries, gate: u64) -> Registry
        requires { IsPlaced entries.items gate }
        ensures entries { result.entries ≡ entries.items }
        ensures listing { IsListing result.entries }
        ensures live { IsFalse result.spent }
    {
        Registry {
            alloc,
            entries,
            gate,
            spent: false,
        }
    }

    // The place of the standing gate.
    pub(crate) fn gate(&self) -> u64
        ensures gate { result ≡ gate_of self.now.entries }
        ensures listing { IsListing self.now.entries }
    {
        self.gate
    }

    /// How many publications there are; at most 4,096.
    pub fn count(&self) -> usize
        ensures count { result ≡ length self.now.entries }
        ensures listing { IsListing self.now.entries }
    {
        self.entries.len()
    }

    /// The publication at an index.
    pub fn entry(&self, index: usize) -> &Listed
        requires { index < length self.now.entries }
        ensures { slice_get self.now.entries index ≡ Some result.now }
    {
        self.entries.get(index)
    }

    /// The publication of a name.
    pub fn find(&self, name: &SnapName) -> Option<&Listed>
        ensures { option_copied result ≡ find (has_name name.now) self.now.entries }
    {
        self.entries.find(name)
    }

    /// The job after the greatest one, and 1 for an empty list. `None` where the greatest one is the last job that there is.
    pub fn next_job(&self) -> Option<u32>
        ensures next { result ≡ next_of (greatest_job self.now.entries) }
        ensures unlisted { IfSome result (λ job. lists_job self.now.entries job ≡ false) }
        ensures in_range { IfSome result (λ job. IsTrue (is_between 1 4294967294 job)) }
    {
        let greatest = self.entries.greatest();
        if greatest == GREATEST_JOB {
            None
        } else {
            Some(greatest + 1)
        }
    }

    /// Makes ready to add a publication whose job is new: its bytes, and room in the list. The list stays.
    pub fn prepare(&mut self, listed: Listed) -> Result<Pending, PrepFault>
        requires job_apart { lists_job self.old.entries listed.job ≡ false }
        requires job_range { IsTrue (is_between 1 4294967294 listed.job) }

        ensures taken { (result ≡ Err PrepFault.Taken) ↔ IsTrue (lists_name self.old.entries listed.name) }
        ensures full { (result ≡ Err PrepFault.Full) ↔ ((lists_name self.old.entries listed.name ≡ false) × (length self.old.entries ≡ 4096)) }
        ensures pending { IfOk result (λ pending. pending ≡ listed) }
        ensures apart { OnOk result (repeats self.new.entries listed ≡ false) }
        ensures few { OnOk result (length self.new.entries < 4096) }
        ensures spare { OnOk result (1 ≤ self.new.spare) }
        ensures list { self.new.entries ≡ self.old.entries }
        ensures room { self.old.spare ≤ self.new.spare }
        ensures spent { self.new.spent ≡ self.old.spent }
    {
        if self.entries.lists(&listed.name) {
            return Err(PrepFault::Taken);
        }
        if self.entries.len() == MOST {
            return Err(PrepFault::Full);
        }
        self.entries.reserve()?;
        let name = listed.name.copy(self.alloc)?;
        let bytes = spell(self.alloc, &listed)?;
        Ok(Pending {
            listed,
            name,
            bytes,
        })
    }

    /// Adds a publication: writes it behind the standing gate and settles it, and then opens the gate. After `Failed` the
    /// registry is spent. It takes no memory.
    pub fn commit<H: Host>(&mut self, host: &mut H, pending: Pending) -> Result<(), Failed>
        requires live { IsFalse self.old.spent }
        requires apart { repeats self.old.entries pending ≡ false }
        requires few { length self.old.entries < 4096 }
        requires spare { 1 ≤ self.old.spare }
        requires stands { Told (H.state host.old) (RegistryStands (H.state host.old) self.old) }

        ensures stands { Told (H.state host.old) (OnOk result (RegistryStands (H.state host.new) self.new)) }
        ensures added { OnOk result (self.new.entries ≡ self.old.entries ++ pending ∷ []) }

        // Every image since the start has the old list, or the old list and the publication, also where a device call failed.
        ensures images { Told (H.state host.old) (ChangesOnly 0 (HasOldOrNew self.old.entries pending) (H.state host.old) (H.state host.new)) }

        // Afterwards every image has the publication.
        ensures durable { Told (H.state host.old) (OnOk result (LeavesList (H.state host.new) (self.old.entries ++ pending ∷ []))) }

        ensures cause { HasDiskCause (H.state host.old) (H.state host.new) result }
        ensures reads { (H.state host.new).reads ≡ (H.state host.old).reads }
        ensures room { OnOk result (self.old.spare ≤ self.new.spare + 1) }
        ensures live { OnOk result (IsFalse self.new.spent) }
        ensures spent { OnErr result (self.new ≡ record self.old { spent = true }) }
    {
        let gate = self.gate;
        let place = gate + 1;
        let body: &[u8] = &pending.bytes;
        self.spent = true;
        write_and_sync(host, 0, place, body)?;
        write_and_sync(host, 0, gate, &[OPEN])?;
        let Pending {
            listed,
            name,
            bytes,
        } = pending;
        self.entries.keep(name, listed);
        self.gate = gate + bytes.len() as u64;
        self.spent = false;
        Ok(())
    }
}
