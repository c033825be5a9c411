//! A caller of tables in logs, and worked tables over a host in memory. Nothing stands on it.
//!
//! `write_and_find` shows that a run that was written answers a key with the record that was pushed, on every host that tells.
#![tactic(auto)]

ghost use Rattle.std.specs.Prelude.{◌≡◌, ◌∷◌, [], IsFalse, IfOk};
ghost use Rattle.dfs_host.specs.Fault.{HasFaultCause};
ghost use Rattle.dfs_host.specs.Host.{Told};
ghost use Rattle.dfs_log.specs.Logs.{LogStands};
ghost use Rattle.dfs_record.specs.Delta.{last_value};
ghost use Rattle.dfs_record.specs.Lend.{key_of, record_of};
ghost use Rattle.dfs_record.specs.Record.{IsRecord};
ghost use Rattle.dfs_record.specs.Records.{IsBelow};

use dfs_host::{Fault, Host};
use dfs_log::LogWriter;
use dfs_record::{KeyRef, RecordRef, Value};
use dfs_table::TableWriter;
use std::alloc::Global;

/// Writes a run of two records to the log, and looks a key up in its table.
pub fn write_and_find<H: Host>(
    alloc: Global,
    host: &mut H,
    log: &mut LogWriter,
    first: RecordRef<'_>,
    second: RecordRef<'_>,
    key: KeyRef<'_>,
) -> Result<Option<Value>, Fault>
    requires live { IsFalse log.old.spent }
    requires stands { Told (H.state host.old) (LogStands (H.state host.old) log.old) }
    requires valid { IsRecord (record_of first) × IsRecord (record_of second) }
    requires rise { IsBelow (key_of first.key) (key_of second.key) }
    ensures found { Told (H.state host.old) (IfOk result (λ found. found ≡ last_value (key_of key.entry) (record_of first.entry ∷ record_of second.entry ∷ []))) }
    ensures cause { HasFaultCause (H.state host.old) (H.state host.new) result }
{
    let Ok(mut writer) = TableWriter::new(alloc, 1) else {
        return Err(Fault::NoMemory);
    };
    writer.push(host, log, first)?;
    writer.push(host, log, second)?;
    let run = writer.finish(host, log)?;
    run.tables.get(0).find(alloc, host, key)
}

#[cfg(test)]
mod tests;
