//! Runs that are written from a source of records.

ghost use Rattle.std.specs.Prelude.{◌≡◌, ◌≤◌, ◌<◌, ◌+◌, ◌*◌, ◌⊎◌, ◌↔◌, ℕ, Bool, length, take, IsFalse, IsTrue, IsErrOf, IfOk, OnOk, OnErr};
ghost use Rattle.std.specs.List.{AllByRecursion, sum_by};
ghost use Rattle.dfs_host.specs.Fault.{HasFaultCause};
ghost use Rattle.dfs_host.specs.Host.{Told, bytes_of, Only};
ghost use Rattle.dfs_record.specs.declared.Key.{Key as OwnKey};
ghost use Rattle.dfs_record.specs.Delta.{delta};
ghost use Rattle.dfs_log.specs.Logs.{LogStands};
ghost use Rattle.dfs_table.specs.Counts.{count_of};
ghost use Rattle.dfs_table.specs.Stored.{IsStored, run_records};
ghost use Rattle.dfs_table.specs.Tables.{all_fences};
ghost use Rattle.dfs_table.specs.Cut.{IsCut, tables_needed};
ghost use Rattle.dfs_table.specs.Writer.{AreIn, EndsPass, KeyPasses, table_len};

use crate::{Run, TableWriter};
use dfs_host::{Fault, Host};
use dfs_log::LogWriter;
use dfs_record::{Head, Records};
use std::alloc::Global;

/// The most tables of a run.
const MOST_TABLES: u32 = 131_072;

/// Writes the records of the source, all of them loaded, to the log as a run, a block at a time. After a fault the log
/// keeps what it had, and is spent.
pub fn write_run<H: Host, R: Records + Drop>(
    alloc: Global,
    host: &mut H,
    log: &mut LogWriter,
    records: R,
) -> Result<Run, Fault>
    requires loaded { R.unread records ≡ 0 }
    // Each of 131,072 tables has 4,096 blocks, and each block a record at least.
    requires few { length (R.rest records) ≤ 536870912 }
    requires live { IsFalse log.old.spent }
    requires stands { Told (H.state host.old) (LogStands (H.state host.old) log.old) }

    ensures stored { Told (H.state host.old) (IfOk result (λ run. IsStored (bytes_of (H.state host.new) log.old.file) run (delta (R.rest records)))) }
    ensures records { Told (H.state host.old) (IfOk result (λ run. run_records (bytes_of (H.state host.new) log.old.file) run.tables ≡ R.rest records)) }
    ensures count { IfOk result (λ run. count_of (all_fences run.tables) ≡ length (R.rest records)) }
    ensures file { IfOk result (λ run. AreIn log.old.file run.tables) }
    ensures few { IfOk result (λ run. length run.tables ≤ 131072) }
    // Each block takes records as long as they fit, and each table but the last has 4,096 blocks.
    ensures cut { IfOk result (λ run. IsCut (R.rest records) run.tables) }
    // What the keys of all records pass, the first and the last key of each block pass.
    ensures passing { (p : OwnKey → Bool) → AllByRecursion (KeyPasses p) (R.rest records) → IfOk result (λ run. AllByRecursion (EndsPass p) (all_fences run.tables)) }
    ensures log { Told (H.state host.old) (OnOk result (LogStands (H.state host.new) log.new)) }
    ensures live { OnOk result (IsFalse log.new.spent) }

    // What the log had stays, also where a device call failed.
    ensures before { Told (H.state host.old) (take log.old.len (bytes_of (H.state host.new) log.old.file) ≡ bytes_of (H.state host.old) log.old.file) }

    // `LogFull` exactly where the log refused a piece.
    ensures full { IsErrOf result Fault.LogFull ↔ (0 < log.new.refused) }
    ensures over { 0 < log.new.refused → log.new.limit < log.new.len + log.new.refused }
    // The log grows by the run's blocks and indexes alone.
    ensures wrote { IfOk result (λ run. log.new.len ≡ log.old.len + sum_by table_len run.tables) }
    ensures growth { log.new.len + log.new.refused ≤ log.old.len + 1100 * length (R.rest records) }
    ensures never_changed { (file at : ℕ) → IsErrOf result (Fault.Changed file at) → ⊥ }
    ensures only { Only log.old.file (H.state host.old) (H.state host.new) }
    ensures cause { HasFaultCause (H.state host.old) (H.state host.new) result }
    ensures reads { (H.state host.new).reads ≡ (H.state host.old).reads }
    ensures same { (log.new.file ≡ log.old.file) × (log.new.limit ≡ log.old.limit) }
    ensures log_spent { OnErr result (IsTrue log.new.spent) }
{
    write_tables(alloc, host, log, records, MOST_TABLES)
}

/// Writes the records of the source, all of them loaded, to the log as a run of at most so many tables, a block at a time. After a
/// fault the log keeps what it had, and is spent.
pub fn write_tables<H: Host, R: Records + Drop>(
    alloc: Global,
    host: &mut H,
    log: &mut LogWriter,
    mut records: R,
    tables_left: u32,
) -> Result<Run, Fault>
    requires loaded { R.unread records ≡ 0 }
    requires live { IsFalse log.old.spent }
    requires stands { Told (H.state host.old) (LogStands (H.state host.old) log.old) }

    ensures stored { Told (H.state host.old) (IfOk result (λ run. IsStored (bytes_of (H.state host.new) log.old.file) run (delta (R.rest records)))) }
    ensures records { Told (H.state host.old) (IfOk result (λ run. run_records (bytes_of (H.state host.new) log.old.file) run.tables ≡ R.rest records)) }
    ensures count { IfOk result (λ run. count_of (all_fences run.tables) ≡ length (R.rest records)) }
    ensures file { IfOk result (λ run. AreIn log.old.file run.tables) }
    ensures few { IfOk result (λ run. length run.tables ≤ tables_left) }
    // Each block takes records as long as they fit, and each table but the last has 4,096 blocks.
    ensures cut { IfOk result (λ run. IsCut (R.rest records) run.tables) }
    // What the keys of all records pass, the first and the last key of each block pass.
    ensures passing { (p : OwnKey → Bool) → AllByRecursion (KeyPasses p) (R.rest records) → IfOk result (λ run. AllByRecursion (EndsPass p) (all_fences run.tables)) }
    ensures log { Told (H.state host.old) (OnOk result (LogStands (H.state host.new) log.new)) }
    ensures live { OnOk result (IsFalse log.new.spent) }

    // What the log had stays, also where a device call failed.
    ensures before { Told (H.state host.old) (take log.old.len (bytes_of (H.state host.new) log.old.file) ≡ bytes_of (H.state host.old) log.old.file) }

    // `LogFull` exactly where the log refused a piece or the records need more tables, but for want of memory and a disk fault.
    ensures full { IsErrOf result Fault.LogFull → (0 < log.new.refused) ⊎ (tables_left < tables_needed (R.rest records)) }
    ensures refused { 0 < log.new.refused → IsErrOf result Fault.LogFull }
    ensures too_many { tables_left < tables_needed (R.rest records) → OnOk result ⊥ }
    ensures over { 0 < log.new.refused → log.new.limit < log.new.len + log.new.refused }
    // The log grows by the run's blocks and indexes alone.
    ensures wrote { IfOk result (λ run. log.new.len ≡ log.old.len + sum_by table_len run.tables) }
    ensures growth { log.new.len + log.new.refused ≤ log.old.len + 1100 * length (R.rest records) }
    ensures never_changed { (file at : ℕ) → IsErrOf result (Fault.Changed file at) → ⊥ }
    ensures only { Only log.old.file (H.state host.old) (H.state host.new) }
    ensures cause { HasFaultCause (H.state host.old) (H.state host.new) result }
    ensures reads { (H.state host.new).reads ≡ (H.state host.old).reads }
    ensures same { (log.new.file ≡ log.old.file) × (log.new.limit ≡ log.old.limit) }
    ensures log_spent { OnErr result (IsTrue log.new.spent) }
{
    // Read here, since the length is within the limit of every log.
    let _ = log.len();
    let Ok(mut writer) = TableWriter::new(alloc, tables_left) else {
        log.spend();
        return Err(Fault::NoMemory);
    };
    while let Head::Item(rec) = records.head() {
        writer.push(host, log, rec)?;
        records.advance();
    }
    writer.finish(host, log)
}
