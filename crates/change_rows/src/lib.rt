//! A caller of change sets in logs, and worked logs over a host in memory. Nothing stands on it.
//!
//! `publish_and_find` shows that a log that was sealed opens, on every host that tells, and that its change set answers a key with
//! what was published.
#![tactic(auto)]

ghost use Rattle.std.specs.Prelude.{◌≡◌, ◌∷◌, [], ℕ, List, IsErrOf, IsFalse, IfOk};
ghost use Rattle.dfs_host.specs.Fault.{HasFaultCause};
ghost use Rattle.dfs_host.specs.Host.{Told, bytes_of};
ghost use Rattle.dfs_log.specs.Logs.{LogStands};
ghost use Rattle.dfs_record.specs.declared.Record.{Record};
ghost use Rattle.dfs_record.specs.Delta.{Delta, delta, last_value};
ghost use Rattle.dfs_record.specs.Lend.{key_of, record_of};
ghost use Rattle.dfs_table.specs.Opened.{HasOpenCause};
ghost use Rattle.dfs_change.specs.Identities.{FitsJob};
ghost use Rattle.dfs_change.specs.Sealing.{entry_of};
ghost use Rattle.dfs_change.specs.Whole.{HasChanges};

use dfs_change::{Change, ChangeWriter, Sealed};
use dfs_host::{Fault, Host};
use dfs_log::LogWriter;
use dfs_record::{KeyRef, RecordRef, SnapName, Value};
use dfs_registry::Listed;
use dfs_table::{OpenFault, TableWriter};
use std::alloc::Global;

/// Publishes a change set of one record in the log, opens it by its entry under a name, and looks a key up in it.
pub fn publish_and_find<H: Host>(
    alloc: Global,
    host: &mut H,
    log: &mut LogWriter,
    name: SnapName,
    rec: RecordRef<'_>,
    key: KeyRef<'_>,
) -> Result<Option<Value>, OpenFault>
    requires live { IsFalse log.old.spent }
    requires stands { Told (H.state host.old) (LogStands (H.state host.old) log.old) }
    requires fit { FitsJob log.old.file (record_of rec) }
    ensures found { Told (H.state host.old) (IfOk result (λ found. found ≡ last_value (key_of key.entry) (record_of rec.entry ∷ []))) }
    // What was published is whole.
    ensures whole { Told (H.state host.old) (IsErrOf result OpenFault.Malformed → ⊥) }
    ensures cause { HasOpenCause (H.state host.old) (H.state host.new) result }
{
    let job = log.file();
    let sealed = match seal_one(alloc, host, log, rec) {
        Ok(sealed) => sealed,
        Err(fault) => return Err(OpenFault::Fault(fault)),
    };
    let listed = Listed {
        name,
        job,
        at: sealed.at,
        len: sealed.len,
        count: sealed.count,
    };
    open_and_find(alloc, host, &listed, key)
}

// Writes the record to the log as a run, and seals it.
fn seal_one<H: Host>(
    alloc: Global,
    host: &mut H,
    log: &mut LogWriter,
    rec: RecordRef<'_>,
) -> Result<Sealed, Fault>
    requires live { IsFalse log.old.spent }
    requires stands { Told (H.state host.old) (LogStands (H.state host.old) log.old) }
    requires fit { FitsJob log.old.file (record_of rec) }
    ensures changes { Told (H.state host.old) (IfOk result (λ sealed. (name : List ℕ) → HasChanges (bytes_of (H.state host.new) log.old.file) (entry_of name log.old.file sealed) (delta (record_of rec.entry ∷ [])))) }
    ensures cause { HasFaultCause (H.state host.old) (H.state host.new) result }
{
    let Ok(mut writer) = TableWriter::new(alloc, 1) else {
        return Err(Fault::NoMemory);
    };
    writer.push(host, log, rec)?;
    let run = writer.finish(host, log)?;
    ChangeWriter::finish(alloc, host, log, &run)
}

// Opens the change set of an entry, and looks the key up in it.
fn open_and_find<H: Host>(
    alloc: Global,
    host: &mut H,
    listed: &Listed,
    key: KeyRef<'_>,
) -> Result<Option<Value>, OpenFault>
    ensures found { Told (H.state host.old) ((rs : List Record) → HasChanges (bytes_of (H.state host.old) listed.now.job) listed.now (delta rs) → IfOk result (λ found. found ≡ last_value (key_of key.entry) rs)) }
    ensures whole { Told (H.state host.old) ((d : Delta) → HasChanges (bytes_of (H.state host.old) listed.now.job) listed.now d → IsErrOf result OpenFault.Malformed → ⊥) }
    ensures cause { HasOpenCause (H.state host.old) (H.state host.new) result }
{
    let change = Change::open(alloc, host, listed)?;
    match change.find(alloc, host, key) {
        Ok(found) => Ok(found),
        Err(fault) => Err(OpenFault::Fault(fault)),
    }
}

#[cfg(test)]
mod tests;
