//! What a job selects: the change sets of publications, in order.

ghost use Rattle.std.specs.Prelude.{◌≡◌, ◌++◌, ◌∷◌, [], ℕ, Bool, find, map, IfOk, IfErr, IfNone, IfSome, IsSome, IsSomeAnd, OnOk, IsErrOf, IsTrue, None};
ghost use Rattle.std.specs.Option.{option_copied};
ghost use Rattle.std.specs.List.{AllByRecursion, list_all};
ghost use Rattle.dfs_host.specs.Counts.{RoseBy};
ghost use Rattle.dfs_host.specs.Fault.{HasFaultCause};
ghost use Rattle.dfs_host.specs.Host.{Told, OnlyReads, bytes_of};
ghost use Rattle.dfs_change.specs.Meant.{log_meaning};
ghost use Rattle.dfs_record.specs.declared.SnapName.{SnapName as ASnapName};
ghost use Rattle.dfs_registry.specs.Body.{has_job};
ghost use Rattle.dfs_session.specs.Kept.{EachBegun, IsIndexed, IsInside, IsKept, IsOpened, IsOwn};
ghost use Rattle.dfs_session.specs.Reads.{HasFirstReads, IsUnkept, Knows, reads_for};
ghost use Rattle.dfs_session.specs.Selected.{AreEntries, AreInside, AreNamedBy, IsSelection, chosen_in, is_listed};
ghost use Rattle.dfs_session.specs.Sound.{IsEntry};
ghost use Rattle.dfs_session.specs.Taken.{IsFor};

use crate::keeping::Kept;
use dfs_change::Change;
use dfs_host::{Fault, Host};
use dfs_record::SnapName;
use dfs_registry::{Listed, Registry};
use dfs_script::Names;
use dfs_table::OpenFault;
use std::alloc::Global;
use std::rc::Rc;

/// The change sets in the order of their names, or the first publication whose log is damaged.
#[derive(Drop)]
pub enum Selection {
    Changes(Vec<Rc<Change>>),
    Damaged(SnapName),
}

/// Selects the publications of the names, in the order of the names. The log of each is read once, also where its name stands several
/// times, and not at all where its change is kept.
pub fn select<H: Host>(
    alloc: Global,
    host: &mut H,
    registry: &Registry,
    kept: &Kept,
    names: &Names,
) -> Result<Selection, Fault>
    requires names { IsTrue (list_all (is_listed registry.now.entries) names.now) }
    requires kept { IsIndexed kept.now }
    requires entries { EachBegun (IsEntry registry.now.entries) kept.now }
    requires inside { EachBegun IsInside kept.now }
    requires opened { Told (H.state host.old) (EachBegun (IsOwn (H.state host.old)) kept.now) }

    ensures selection { Told (H.state host.old) (IfOk result (IsSelection (H.state host.old) (chosen_in registry.now.entries names.now))) }
    ensures entries { IfOk result (AreEntries registry.now.entries) }
    ensures inside { IfOk result AreInside }
    ensures names { IfOk result (AreNamedBy names.now) }
    // Nothing is read where each is kept, whatever the answer.
    ensures reads { AllByRecursion (λ l. IsKept kept.now l.job) (chosen_in registry.now.entries names.now) → (H.state host.new).reads ≡ (H.state host.old).reads }
    // What is selected is read the first time that its name comes, where it is not kept, and only then.
    ensures anew { (known : ASnapName → Bool) → Knows registry.now.entries kept.now known → IfOk result (HasFirstReads known (H.state host.old).reads (H.state host.new).reads) }
    ensures only { OnlyReads (H.state host.old) (H.state host.new) }
    ensures cause { HasFaultCause (H.state host.old) (H.state host.new) result }
    ensures never_full { IsErrOf result Fault.LogFull → ⊥ }
    ensures never_changed { (file at : ℕ) → IsErrOf result (Fault.Changed file at) → ⊥ }
{
    // It says that no two publications have one job.
    let _ = registry.count();
    let mut changes = Vec::new(alloc);
    for index in 0..names.len() {
        let Some(listed) = registry.find(names.get(index)) else {
            unreachable!();
        };
        match take(alloc, host, kept, &changes, listed)? {
            Some(change) => add(&mut changes, change)?,
            None => return damaged(alloc, &listed.name),
        }
    }
    Ok(Selection::Changes(changes))
}

// The change set of an entry as it is kept or was selected before, or else as `open` answers it.
fn take<H: Host>(
    alloc: Global,
    host: &mut H,
    kept: &Kept,
    changes: &[Rc<Change>],
    listed: &Listed,
) -> Result<Option<Rc<Change>>, Fault>
    requires kept { IsIndexed kept.now }
    requires of_kept { EachBegun (IsFor (H.state host.old) listed.now) kept.now }
    requires of_changes { AllByRecursion (IsFor (H.state host.old) listed.now) (map (λ c. c.value) changes.now) }

    ensures opened { Told (H.state host.old) (IfOk result (λ found. IfSome found (λ change. IsOpened (H.state host.old) listed.now change.value))) }
    ensures damaged { Told (H.state host.old) (IfOk result (λ found. IfNone found (log_meaning (bytes_of (H.state host.old) listed.now.job) listed.now ≡ None))) }
    ensures listed { IfOk result (λ found. IfSome found (λ change. change.value.listed ≡ listed.now)) }
    ensures inside { IfOk result (λ found. IfSome found (λ change. IsInside change.value)) }
    ensures reads { IsKept kept.now listed.now.job → (H.state host.new).reads ≡ (H.state host.old).reads }
    ensures once { IsSome (find (λ c. has_job listed.now.job c.value.listed) changes.now) → (H.state host.new).reads ≡ (H.state host.old).reads }
    // What is neither kept nor selected before is opened, once.
    ensures anew { IsUnkept kept.now listed.now.job → find (λ c. has_job listed.now.job c.value.listed) changes.now ≡ None
        → IfOk result (λ found. IfSome found (λ change. RoseBy (reads_for change.value) (H.state host.old).reads (H.state host.new).reads)) }
    ensures only { OnlyReads (H.state host.old) (H.state host.new) }
    ensures cause { HasFaultCause (H.state host.old) (H.state host.new) result }
    ensures never_full { IsErrOf result Fault.LogFull → ⊥ }
    ensures never_changed { (file at : ℕ) → IsErrOf result (Fault.Changed file at) → ⊥ }
{
    if let Some(change) = kept.find(listed.job) {
        return shared(change);
    }
    match made_by(changes, listed.job) {
        Some(change) => shared(change),
        None => open(alloc, host, listed),
    }
}

// The change set among these that a job published.
fn made_by(changes: &[Rc<Change>], job: u32) -> Option<&Rc<Change>>
    ensures { option_copied result ≡ find (λ c. has_job job c.value.listed) changes.now }
{
    changes.iter().find(|change| change.listed.job == job)
}

// The same change set, for one more name that selects it.
fn shared(change: &Rc<Change>) -> Result<Option<Rc<Change>>, Fault>
    ensures same { IfOk result (λ found. IsSomeAnd found (λ other. other.value ≡ change.now.value)) }
    ensures memory { IfErr result (λ fault. fault ≡ Fault.NoMemory) }
{
    match change.clone() {
        Ok(change) => Ok(Some(change)),
        Err(_) => Err(Fault::NoMemory),
    }
}

// The change set of an entry, and `None` where its log is damaged.
fn open<H: Host>(alloc: Global, host: &mut H, listed: &Listed) -> Result<Option<Rc<Change>>, Fault>
    ensures opened { Told (H.state host.old) (IfOk result (λ found. IfSome found (λ change. IsOpened (H.state host.old) listed.now change.value))) }
    ensures damaged { Told (H.state host.old) (IfOk result (λ found. IfNone found (log_meaning (bytes_of (H.state host.old) listed.now.job) listed.now ≡ None))) }
    ensures listed { IfOk result (λ found. IfSome found (λ change. change.value.listed ≡ listed.now)) }
    ensures inside { IfOk result (λ found. IfSome found (λ change. IsInside change.value)) }
    ensures reads { IfOk result (λ found. IfSome found (λ change. RoseBy (reads_for change.value) (H.state host.old).reads (H.state host.new).reads)) }
    ensures only { OnlyReads (H.state host.old) (H.state host.new) }
    ensures cause { HasFaultCause (H.state host.old) (H.state host.new) result }
    ensures never_full { IsErrOf result Fault.LogFull → ⊥ }
    ensures never_changed { (file at : ℕ) → IsErrOf result (Fault.Changed file at) → ⊥ }
{
    match Change::open(alloc, host, listed) {
        Ok(change) => Ok(Some(change)),
        Err(OpenFault::Malformed) => Ok(None),
        Err(OpenFault::Fault(fault)) => Err(fault),
    }
}

fn add(changes: &mut Vec<Rc<Change>>, change: Rc<Change>) -> Result<(), Fault>
    ensures added { OnOk result (changes.new.items ≡ changes.old.items ++ change ∷ []) }
    ensures memory { IfErr result (λ fault. fault ≡ Fault.NoMemory) }
{
    match changes.push(change) {
        Ok(()) => Ok(()),
        Err(_) => Err(Fault::NoMemory),
    }
}

fn damaged(alloc: Global, name: &SnapName) -> Result<Selection, Fault>
    ensures name { IfOk result (λ selection. selection ≡ Selection.Damaged name.now) }
    ensures memory { IfErr result (λ fault. fault ≡ Fault.NoMemory) }
{
    match name.copy(alloc) {
        Ok(name) => Ok(Selection::Damaged(name)),
        Err(_) => Err(Fault::NoMemory),
    }
}
