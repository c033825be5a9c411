//! Change sets that were published, in the tables of their logs.

ghost use Rattle.std.specs.Prelude.{◌≡◌, ◌≤◌, ◌+◌, ◌&&◌, nat_le, ◌++◌, ◌∷◌, ◌↔◌, ◌⊎◌, ℕ, [], List, length, take, IfOk, IfSome, IsErrOf, IsSome, IsTrue, OnOk};
ghost use Rattle.std.specs.Str.{bytes_eq};
ghost use Rattle.std.specs.List.{AllByRecursion};
ghost use Rattle.dfs_fence.specs.declared.fence.Fence.{Fence};
ghost use Rattle.dfs_fence.specs.Index.{AreApart};
ghost use Rattle.dfs_host.specs.Counts.{RoseBy};
ghost use Rattle.dfs_host.specs.Host.{Told, bytes_of, HasDiskCause, OnlyReads};
ghost use Rattle.dfs_log.specs.Logs.{log_header};
ghost use Rattle.dfs_manifest.specs.Manifest.{IsManifest};
ghost use Rattle.dfs_record.specs.Delta.{delta};
ghost use Rattle.dfs_table.specs.Identities.{IsWithin};
ghost use Rattle.dfs_table.specs.Opened.{HasOpenCause};
ghost use Rattle.dfs_table.specs.Stored.{IsStored, IsTableOf, part, run_records};
ghost use Rattle.dfs_table.specs.Tables.{AreTables, all_fences};
ghost use Rattle.dfs_table.specs.Writer.{AreIn};
ghost use Rattle.dfs_host.specs.declared.fault.Fault.{Fault as AnyFault};
ghost use Rattle.dfs_table.specs.declared.open.OpenFault.{OpenFault as AnyOpenFault};
ghost use Rattle.dfs_change.specs.Whole.{AreTablesAt, HasChanges, IndexesLie, IndexesMayLie, IsDamaged, IsLogged, IsWhole, end_of, extents_of, joined, reads_of, table_fences};

use dfs_fence::lies;
use dfs_host::{Failed, Fault, Host};
use dfs_manifest::Manifest;
use dfs_registry::Listed;
use dfs_table::{OpenFault, Run, Table, Tables};
use std::alloc::Global;
use std::rc::Rc;

/// The most bytes of a manifest.
const MOST_MANIFEST_BYTES: u32 = 1_572_868;

// The most bytes of an index.
const MOST_INDEX_BYTES: u32 = 2_220_036;

/// A change set that was published: its entry in the registry, and the run in its job's log.
#[derive(Debug, Drop)]
pub struct Change {
    pub listed: Listed,
    pub run: Rc<Run>,
}

impl Change {
    /// The change set of an entry, of whose log the header, the manifest, each index and each block are read once. `Malformed` where
    /// the log is damaged.
    pub fn open<H: Host>(
        alloc: Global,
        host: &mut H,
        listed: &Listed,
    ) -> Result<Rc<Change>, OpenFault>
        ensures changes { Told (H.state host.old) (IfOk result (λ change. HasChanges (bytes_of (H.state host.old) listed.now.job) listed.now (delta (run_records (bytes_of (H.state host.old) listed.now.job) change.value.run.value.tables)))) }
        ensures stored { Told (H.state host.old) (IfOk result (λ change. IsStored (bytes_of (H.state host.old) listed.now.job) change.value.run.value (delta (run_records (bytes_of (H.state host.old) listed.now.job) change.value.run.value.tables)))) }
        ensures within { Told (H.state host.old) (IfOk result (λ change. AllByRecursion (IsWithin listed.now.job) (run_records (bytes_of (H.state host.old) listed.now.job) change.value.run.value.tables))) }
        // The log is whole with just the tables of the run.
        ensures whole { Told (H.state host.old) (IfOk result (λ change. IsWhole (bytes_of (H.state host.old) listed.now.job) listed.now (extents_of change.value.run.value.tables) (table_fences change.value.run.value.tables))) }
        ensures listed { IfOk result (λ change. change.value.listed ≡ listed.now) }
        ensures file { IfOk result (λ change. AreIn listed.now.job change.value.run.value.tables) }
        ensures malformed { Told (H.state host.old) (IsErrOf result OpenFault.Malformed → IsDamaged (bytes_of (H.state host.old) listed.now.job) listed.now) }

        // Memory is asked for only where the file is a log and has the manifest's place, and a manifest may be so long.
        ensures memory { Told (H.state host.old) (IsErrOf result (OpenFault.Fault Fault.NoMemory) → IsLogged (bytes_of (H.state host.old) listed.now.job) listed.now) }

        // Once the manifest was read behind the header, only where each index that it tells of may lie before the manifest's end.
        ensures memory_indexes { Told (H.state host.old) (IsErrOf result (OpenFault.Fault Fault.NoMemory) → RoseBy 1 (H.state host.old).reads (H.state host.new).reads ⊎ IndexesMayLie (bytes_of (H.state host.old) listed.now.job) listed.now) }
        ensures short { OnOk result (listed.now.len ≤ 1572868) }
        ensures short_memory { IsErrOf result (OpenFault.Fault Fault.NoMemory) → listed.now.len ≤ 1572868 }
        ensures never_full { IsErrOf result (OpenFault.Fault Fault.LogFull) → ⊥ }
        ensures never_changed { (file at : ℕ) → IsErrOf result (OpenFault.Fault (Fault.Changed file at)) → ⊥ }
        ensures only { OnlyReads (H.state host.old) (H.state host.new) }
        ensures cause { HasOpenCause (H.state host.old) (H.state host.new) result }
        ensures reads { IfOk result (λ change. RoseBy (reads_of (table_fences change.value.run.value.tables)) (H.state host.old).reads (H.state host.new).reads) }
    {
        let run = open_run(alloc, host, listed)?;
        let copy = Listed {
            name: listed.name.copy(alloc)?,
            job: listed.job,
            at: listed.at,
            len: listed.len,
            count: listed.count,
        };
        share(alloc, copy, run)
    }
}

// The two together, each to be shared.
fn share(alloc: Global, listed: Listed, run: Run) -> Result<Rc<Change>, OpenFault>
    ensures change { IfOk result (λ change. (change.value.listed ≡ listed) × (change.value.run.value ≡ run)) }
    ensures fault { (fault : AnyOpenFault) → IsErrOf result fault → fault ≡ OpenFault.Fault Fault.NoMemory }
{
    let Ok(run) = Rc::new(alloc, run) else {
        return Err(OpenFault::Fault(Fault::NoMemory));
    };
    match Rc::new(alloc, Change { listed, run }) {
        Ok(change) => Ok(change),
        Err(_) => Err(OpenFault::Fault(Fault::NoMemory)),
    }
}

// The run in the log of an entry.
fn open_run<H: Host>(alloc: Global, host: &mut H, listed: &Listed) -> Result<Run, OpenFault>
    ensures changes { Told (H.state host.old) (IfOk result (λ run. HasChanges (bytes_of (H.state host.old) listed.now.job) listed.now (delta (run_records (bytes_of (H.state host.old) listed.now.job) run.tables)))) }
    ensures whole { Told (H.state host.old) (IfOk result (λ run. IsWhole (bytes_of (H.state host.old) listed.now.job) listed.now (extents_of run.tables) (table_fences run.tables))) }
    ensures stored { Told (H.state host.old) (IfOk result (λ run. AllByRecursion (IsTableOf (bytes_of (H.state host.old) listed.now.job)) run.tables)) }
    ensures within { Told (H.state host.old) (IfOk result (λ run. AllByRecursion (IsWithin listed.now.job) (run_records (bytes_of (H.state host.old) listed.now.job) run.tables))) }
    ensures tables { IfOk result (λ run. AreTables run.tables) }
    ensures file { IfOk result (λ run. AreIn listed.now.job run.tables) }
    ensures malformed { Told (H.state host.old) (IsErrOf result OpenFault.Malformed → IsDamaged (bytes_of (H.state host.old) listed.now.job) listed.now) }
    ensures logged { Told (H.state host.old) (OnOk result (IsLogged (bytes_of (H.state host.old) listed.now.job) listed.now)) }
    ensures memory { Told (H.state host.old) (IsErrOf result (OpenFault.Fault Fault.NoMemory) → IsLogged (bytes_of (H.state host.old) listed.now.job) listed.now) }
    ensures memory_indexes { Told (H.state host.old) (IsErrOf result (OpenFault.Fault Fault.NoMemory) → RoseBy 1 (H.state host.old).reads (H.state host.new).reads ⊎ IndexesMayLie (bytes_of (H.state host.old) listed.now.job) listed.now) }
    ensures short { OnOk result (listed.now.len ≤ 1572868) }
    ensures short_memory { IsErrOf result (OpenFault.Fault Fault.NoMemory) → listed.now.len ≤ 1572868 }
    ensures never_full { IsErrOf result (OpenFault.Fault Fault.LogFull) → ⊥ }
    ensures never_changed { (file at : ℕ) → IsErrOf result (OpenFault.Fault (Fault.Changed file at)) → ⊥ }
    ensures only { OnlyReads (H.state host.old) (H.state host.new) }
    ensures cause { HasOpenCause (H.state host.old) (H.state host.new) result }
    ensures reads { IfOk result (λ run. RoseBy (reads_of (table_fences run.tables)) (H.state host.old).reads (H.state host.new).reads) }
{
    let Some(end) = find_end(host, listed)? else {
        return Err(OpenFault::Malformed);
    };
    if listed.len > MOST_MANIFEST_BYTES {
        return Err(OpenFault::Malformed);
    }
    let bytes = read_manifest(alloc, host, listed)?;
    let Some(manifest) = Manifest::read(&bytes) else {
        return Err(OpenFault::Malformed);
    };
    let tables = open_tables(alloc, host, listed, &manifest, end)?;
    let run = Run { tables };
    if run.count() == listed.count {
        Ok(run)
    } else {
        Err(OpenFault::Malformed)
    }
}

// The place behind the manifest of an entry, where the file is the log of its job and has that place.
fn find_end<H: Host>(host: &mut H, listed: &Listed) -> Result<Option<u64>, OpenFault>
    ensures end { IfOk result (λ end. IfSome end (λ end. end ≡ end_of listed.now)) }
    ensures logged { Told (H.state host.old) (IfOk result (λ end. IsSome end ↔ IsLogged (bytes_of (H.state host.old) listed.now.job) listed.now)) }
    ensures fault { (fault : AnyOpenFault) → IsErrOf result fault → fault ≡ OpenFault.Fault Fault.Disk }
    ensures only { OnlyReads (H.state host.old) (H.state host.new) }
    ensures cause { HasOpenCause (H.state host.old) (H.state host.new) result }
    ensures reads { IfOk result (λ end. IfSome end (λ end. RoseBy 1 (H.state host.old).reads (H.state host.new).reads)) }
{
    let Ok(len) = host.len(listed.job) else {
        return Err(OpenFault::Fault(Fault::Disk));
    };
    if !holds_manifest(len, listed) {
        return Ok(None);
    }
    match is_log(host, listed.job) {
        Ok(true) => Ok(Some(listed.at + u64::from(listed.len))),
        Ok(false) => Ok(None),
        Err(_) => Err(OpenFault::Fault(Fault::Disk)),
    }
}

// Whether a file of so many bytes has the manifest's place behind a header.
fn holds_manifest(len: u64, listed: &Listed) -> bool
    ensures { result ≡ (nat_le 12 listed.now.at && nat_le (listed.now.at + listed.now.len) len) }
{
    12 <= listed.at && listed.at <= len && u64::from(listed.len) <= len - listed.at
}

// Whether a file of at least 12 bytes is the log of its job.
fn is_log<H: Host>(host: &mut H, job: u32) -> Result<bool, Failed>
    requires { Told (H.state host.old) (12 ≤ length (bytes_of (H.state host.old) job)) }
    ensures answer { Told (H.state host.old) (IfOk result (λ is. is ≡ bytes_eq (take 12 (bytes_of (H.state host.old) job)) (log_header job))) }
    ensures only { OnlyReads (H.state host.old) (H.state host.new) }
    ensures cause { HasDiskCause (H.state host.old) (H.state host.new) result }
    ensures reads { RoseBy 1 (H.state host.old).reads (H.state host.new).reads }
{
    let mut front = [0u8; 12];
    match host.read_at(job, 0, &mut front) {
        Ok(_) => Ok(front.as_slice() == front_of(job).as_slice()),
        Err(_) => Err(Failed),
    }
}

// The first bytes of a job's log.
fn front_of(job: u32) -> [u8; 12]
    ensures { result ≡ log_header job }
{
    let mut front = *b"DFSLOG01\0\0\0\0";
    front[8..].copy_from_slice(&job.to_be_bytes());
    front
}

// The bytes of the manifest.
fn read_manifest<H: Host>(
    alloc: Global,
    host: &mut H,
    listed: &Listed,
) -> Result<Vec<u8>, OpenFault>
    requires { Told (H.state host.old) (IsLogged (bytes_of (H.state host.old) listed.now.job) listed.now) }
    ensures bytes { Told (H.state host.old) (IfOk result (λ bytes. bytes.items ≡ part (bytes_of (H.state host.old) listed.now.job) listed.now.at listed.now.len)) }
    ensures malformed { Told (H.state host.old) (IsErrOf result OpenFault.Malformed → IsDamaged (bytes_of (H.state host.old) listed.now.job) listed.now) }
    ensures never_full { IsErrOf result (OpenFault.Fault Fault.LogFull) → ⊥ }
    ensures never_changed { (file at : ℕ) → IsErrOf result (OpenFault.Fault (Fault.Changed file at)) → ⊥ }
    ensures only { OnlyReads (H.state host.old) (H.state host.new) }
    ensures cause { HasOpenCause (H.state host.old) (H.state host.new) result }
    ensures reads { OnOk result (RoseBy 1 (H.state host.old).reads (H.state host.new).reads) }

    // Memory is asked for before the read alone.
    ensures memory { IsErrOf result (OpenFault.Fault Fault.NoMemory) → (H.state host.new).reads ≡ (H.state host.old).reads }
{
    let Ok(mut bytes) = Vec::from_elem(alloc, 0, listed.len as usize) else {
        return Err(OpenFault::Fault(Fault::NoMemory));
    };
    match host.read_at(listed.job, listed.at, &mut bytes) {
        Ok(count) if count == bytes.len() => Ok(bytes),
        Ok(_) => Err(OpenFault::Malformed),
        Err(_) => Err(OpenFault::Fault(Fault::Disk)),
    }
}

// The tables that the manifest tells of, where their keys rise over all of them.
fn open_tables<H: Host>(
    alloc: Global,
    host: &mut H,
    listed: &Listed,
    manifest: &Manifest<'_>,
    end: u64,
) -> Result<Tables, OpenFault>
    requires end { end ≡ end_of listed.now }
    requires inside { Told (H.state host.old) (end ≤ length (bytes_of (H.state host.old) listed.now.job)) }
    ensures opened { Told (H.state host.old) (IfOk result (λ tables. AreTablesAt (bytes_of (H.state host.old) listed.now.job) listed.now manifest.now (table_fences tables))) }
    ensures places { IfOk result (λ tables. extents_of tables ≡ manifest.now) }
    ensures stored { Told (H.state host.old) (IfOk result (AllByRecursion (IsTableOf (bytes_of (H.state host.old) listed.now.job)))) }
    ensures tables { IfOk result AreTables }
    ensures few { IfOk result (λ tables. length tables ≡ length manifest.now) }
    ensures file { IfOk result (AreIn listed.now.job) }
    ensures malformed { Told (H.state host.old) (IsErrOf result OpenFault.Malformed → (fss : List (List Fence)) → AreTablesAt (bytes_of (H.state host.old) listed.now.job) listed.now manifest.now fss → ¬ (AreApart (joined fss))) }

    // Memory is asked for only where an index of that length may lie at each of the manifest's places.
    ensures memory { IsErrOf result (OpenFault.Fault Fault.NoMemory) → IndexesLie end manifest.now }
    ensures never_full { IsErrOf result (OpenFault.Fault Fault.LogFull) → ⊥ }
    ensures never_changed { (file at : ℕ) → IsErrOf result (OpenFault.Fault (Fault.Changed file at)) → ⊥ }
    ensures only { OnlyReads (H.state host.old) (H.state host.new) }
    ensures cause { HasOpenCause (H.state host.old) (H.state host.new) result }
    ensures reads { IfOk result (λ tables. RoseBy (length tables + length (all_fences tables)) (H.state host.old).reads (H.state host.new).reads) }
{
    if !indexes_lie(manifest, end) {
        return Err(OpenFault::Malformed);
    }
    let mut tables = Tables::new(alloc);
    for index in 0..manifest.count() {
        let (at, len) = manifest.table(index);
        let table = Table::open(alloc, host, listed.job, at, len, end)?;
        add(&mut tables, table)?;
    }
    Ok(tables)
}

// Whether an index may lie at each of the manifest's places.
fn indexes_lie(manifest: &Manifest<'_>, end: u64) -> bool
    ensures { IsTrue result ↔ IndexesLie end manifest.now }
{
    for index in 0..manifest.count() {
        let (at, len) = manifest.table(index);
        if !lies(at, len, MOST_INDEX_BYTES, end) {
            return false;
        }
    }
    true
}

// Puts the table behind the others, where its keys are above theirs.
fn add(tables: &mut Tables, table: Table) -> Result<(), OpenFault>
    requires { 1 ≤ length table.fences }
    ensures added { OnOk result (tables.new ≡ tables.old ++ table ∷ []) }
    ensures tables { OnOk result (AreTables tables.new) }
    ensures malformed { IsErrOf result OpenFault.Malformed → ¬ (AreApart (all_fences (tables.old ++ table ∷ []))) }
    ensures fault { (fault : AnyFault) → IsErrOf result (OpenFault.Fault fault) → fault ≡ Fault.NoMemory }
{
    if !tables.takes(&table) {
        return Err(OpenFault::Malformed);
    }
    match tables.push(table) {
        Ok(()) => Ok(()),
        Err(_) => Err(OpenFault::Fault(Fault::NoMemory)),
    }
}
