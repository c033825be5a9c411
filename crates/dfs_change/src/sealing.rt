//! Runs that are sealed in the log that they lie in.

ghost use Rattle.std.specs.Prelude.{◌≡◌, ◌≤◌, ◌<◌, ◌+◌, ◌*◌, ◌++◌, ◌↔◌, ℕ, List, length, take, true, IsTrue, IsFalse, IsErrOf, IfOk, OnOk, OnErr};
ghost use Rattle.std.specs.List.{AllByRecursion};
ghost use Rattle.dfs_host.specs.Disk.{IsSettled};
ghost use Rattle.dfs_host.specs.Fault.{HasFaultCause};
ghost use Rattle.dfs_host.specs.Host.{Told, bytes_of, Only};
ghost use Rattle.dfs_record.specs.Delta.{delta};
ghost use Rattle.dfs_log.specs.Logs.{LogStands};
ghost use Rattle.dfs_manifest.specs.Manifest.{manifest_bytes};
ghost use Rattle.dfs_table.specs.Counts.{count_of};
ghost use Rattle.dfs_table.specs.Identities.{IsWithin};
ghost use Rattle.dfs_table.specs.Stored.{IsTableOf, run_records};
ghost use Rattle.dfs_table.specs.Tables.{all_fences};
ghost use Rattle.dfs_table.specs.Writer.{AreIn};
ghost use Rattle.dfs_change.specs.Sealing.{entry_of};
ghost use Rattle.dfs_change.specs.Whole.{HasChanges, extents_of as extents};

use dfs_host::{Fault, Host};
use dfs_log::LogWriter;
use dfs_manifest::write;
use dfs_record::NoMemory;
use dfs_table::{Run, Tables};
use std::alloc::Global;

/// Where the manifest of a change set stands in a log: its place and length in bytes, and how many records the change set has.
#[derive(Clone, Copy, Debug, PartialEq, Eq)]
pub struct Sealed {
    pub at: u64,
    pub len: u32,
    pub count: u64,
}

/// What ends the log of a publication.
pub struct ChangeWriter;

impl ChangeWriter {
    /// Appends the manifest of the run to the log that the run lies in, and settles the log. What was sealed is the log of a
    /// publication, with the change set of the run's records. `LogFull` and `NoMemory` write nothing. After a fault the log is spent.
    pub fn finish<H: Host>(
        alloc: Global,
        host: &mut H,
        log: &mut LogWriter,
        run: &Run,
    ) -> Result<Sealed, Fault>
        requires live { IsFalse log.old.spent }
        requires log { Told (H.state host.old) (LogStands (H.state host.old) log.old) }
        requires file { AreIn log.old.file run.now.tables }
        requires few { length run.now.tables ≤ 131072 }
        requires stored { Told (H.state host.old) (AllByRecursion (IsTableOf (bytes_of (H.state host.old) log.old.file)) run.now.tables) }
        requires within { Told (H.state host.old) (AllByRecursion (IsWithin log.old.file) (run_records (bytes_of (H.state host.old) log.old.file) run.now.tables)) }

        // The entry of what was sealed has the change set of the run's records.
        ensures changes { Told (H.state host.old) (IfOk result (λ sealed. (name : List ℕ) → HasChanges (bytes_of (H.state host.new) log.old.file) (entry_of name log.old.file sealed) (delta (run_records (bytes_of (H.state host.old) log.old.file) run.now.tables)))) }
        ensures appended { Told (H.state host.old) (OnOk result (bytes_of (H.state host.new) log.old.file ≡ bytes_of (H.state host.old) log.old.file ++ manifest_bytes (extents run.now.tables))) }
        ensures settled { Told (H.state host.old) (OnOk result (IsSettled ((H.state host.new).disk.files log.old.file))) }
        ensures log { Told (H.state host.old) (OnOk result (LogStands (H.state host.new) log.new)) }

        ensures at { IfOk result (λ sealed. sealed.at ≡ log.old.len) }
        ensures len { IfOk result (λ sealed. sealed.len ≡ length (manifest_bytes (extents run.now.tables))) }
        ensures count { IfOk result (λ sealed. sealed.count ≡ count_of (all_fences run.now.tables)) }
        ensures longer { OnOk result (log.new ≡ record log.old { len = log.old.len + length (manifest_bytes (extents run.now.tables)) }) }

        // What the log had stays, also where a device call failed.
        ensures before { Told (H.state host.old) (take log.old.len (bytes_of (H.state host.new) log.old.file) ≡ bytes_of (H.state host.old) log.old.file) }

        // `LogFull` exactly where the log refused the manifest.
        ensures full { IsErrOf result Fault.LogFull ↔ (0 < log.new.refused) }
        ensures over { 0 < log.new.refused → log.new.limit < log.new.len + log.new.refused }
        ensures growth { log.new.len + log.new.refused ≤ log.old.len + (4 + 16 * length run.now.tables) }
        ensures nothing_written { IsErrOf result Fault.LogFull → H.state host.new ≡ H.state host.old }
        ensures unchanged { IsErrOf result Fault.NoMemory → (H.state host.new ≡ H.state host.old) × (log.new ≡ record log.old { spent = true }) }
        ensures log_spent { OnErr result (IsTrue log.new.spent) }
        ensures never_changed { (file at : ℕ) → IsErrOf result (Fault.Changed file at) → ⊥ }
        ensures only { Only log.old.file (H.state host.old) (H.state host.new) }
        ensures cause { HasFaultCause (H.state host.old) (H.state host.new) result }
        ensures reads { (H.state host.new).reads ≡ (H.state host.old).reads }
        ensures same { (log.new.file ≡ log.old.file) × (log.new.limit ≡ log.old.limit) }
    {
        let at = log.len();
        let count = run.count();
        let Ok(bytes) = manifest(alloc, &run.tables) else {
            log.spend();
            return Err(Fault::NoMemory);
        };
        log.append(host, &bytes)?;
        log.seal(host)?;
        Ok(Sealed {
            at,
            len: bytes.len() as u32,
            count,
        })
    }
}

// The manifest of the tables.
fn manifest(alloc: Global, tables: &Tables) -> Result<Vec<u8>, NoMemory>
    requires { length tables.now ≤ 131072 }
    ensures { IfOk result (λ bytes. bytes.items ≡ manifest_bytes (extents tables.now)) }
{
    let places = extents_of(alloc, tables)?;
    let mut bytes = Vec::new(alloc);
    write(&places, &mut bytes)?;
    Ok(bytes)
}

// Where the indexes of the tables lie.
fn extents_of(alloc: Global, tables: &Tables) -> Result<Vec<(u64, u32)>, NoMemory>
    ensures { IfOk result (λ places. places.items ≡ extents tables.now) }
{
    let mut places = Vec::with_capacity(alloc, tables.len())?;
    for index in 0..tables.len() {
        let table = tables.get(index);
        let Ok(()) = places.push((table.index_at, table.index_len)) else {
            return Err(NoMemory);
        };
    }
    Ok(places)
}
