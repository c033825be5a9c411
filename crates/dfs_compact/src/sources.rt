//! A part of the sources, merged.

ghost use Rattle.std.specs.Prelude.{◌≡◌, ◌≤◌, ◌<◌, ◌+◌, ◌*◌, ◌⊎◌, ℕ, List, length, take, map, IsFalse, IsTrue, IsErrOf, IfOk, OnOk, OnErr, option_copied};
ghost use Rattle.std.specs.List.{AllByRecursion, sum_by};
ghost use Rattle.dfs_host.specs.Fault.{HasFaultCause};
ghost use Rattle.dfs_host.specs.Host.{Told, bytes_of, Only};
ghost use Rattle.dfs_record.specs.Delta.{Delta, delta, records_of};
ghost use Rattle.dfs_record.specs.Records.{Files};
ghost use Rattle.dfs_cursor.specs.Ranges.{is_within, part as part_between};
ghost use Rattle.dfs_log.specs.Logs.{LogStands};
ghost use Rattle.dfs_plan.specs.Parts.{boundary};
ghost use Rattle.dfs_table.specs.Counts.{count_of};
ghost use Rattle.dfs_table.specs.Cut.{IsCut, tables_needed};
ghost use Rattle.dfs_table.specs.Stored.{IsStored};
ghost use Rattle.dfs_table.specs.Tables.{all_fences};
ghost use Rattle.dfs_table.specs.Writer.{AreIn, EndsPass, KeyPasses, table_len};
ghost use Rattle.dfs_compact.specs.Parts.{AreSources, IsSource, count_all, merged_part};

use dfs_cursor::RangeRecords;
use dfs_host::{Fault, Host};
use dfs_log::LogWriter;
use dfs_merge::Merge;
use dfs_plan::Plan;
use dfs_record::{Key, NoMemory, Records};
use dfs_table::{Run, RunRecords, write_tables};
use std::alloc::Global;
use std::rc::Rc;

// A part of a run.
type Source<'a> = RangeRecords<'a, RunRecords<'a>>;

/// Writes the merged records of a part of the sources to the log, as a run of at most so many tables.
pub(crate) fn write_part<H: Host>(
    alloc: Global,
    host: &mut H,
    log: &mut LogWriter,
    sources: &[Rc<Run>],
    plan: &Plan,
    part: u16,
    tables_left: u32,
) -> Result<Run, Fault>
    requires part { part < plan.now.parts }
    requires live { IsFalse log.old.spent }
    requires stands { Told (H.state host.old) (LogStands (H.state host.old) log.old) }

    ensures stored { (ds : List Delta) → Told (H.state host.old) (AreSources (bytes_of (H.state host.old)) (map (λ r. r.value) sources.now) ds → IfOk result (λ run. IsStored (bytes_of (H.state host.new) log.old.file) run (delta (merged_part (boundary plan.now.keys plan.now.parts part) (boundary plan.now.keys plan.now.parts (part + 1)) ds)))) }
    ensures cut { (ds : List Delta) → Told (H.state host.old) (AreSources (bytes_of (H.state host.old)) (map (λ r. r.value) sources.now) ds → IfOk result (λ run. IsCut (merged_part (boundary plan.now.keys plan.now.parts part) (boundary plan.now.keys plan.now.parts (part + 1)) ds) run.tables)) }
    ensures within { IfOk result (λ run. AllByRecursion (EndsPass (is_within (boundary plan.now.keys plan.now.parts part) (boundary plan.now.keys plan.now.parts (part + 1)))) (all_fences run.tables)) }
    ensures most { IfOk result (λ run. count_of (all_fences run.tables) ≤ count_all (map (λ r. r.value) sources.now)) }
    ensures enough { IfOk result (λ run. 4096 * length run.tables ≤ count_of (all_fences run.tables) + 4095) }
    ensures file { IfOk result (λ run. AreIn log.old.file run.tables) }
    ensures log { Told (H.state host.old) (OnOk result (LogStands (H.state host.new) log.new)) }
    ensures live { OnOk result (IsFalse log.new.spent) }
    ensures before { Told (H.state host.old) (take log.old.len (bytes_of (H.state host.new) log.old.file) ≡ bytes_of (H.state host.old) log.old.file) }
    ensures few { IfOk result (λ run. length run.tables ≤ tables_left) }
    // `LogFull` where the log refused a piece, and else only where the part needs more tables.
    ensures full { IsErrOf result Fault.LogFull → (0 < log.new.refused) ⊎ (4096 * tables_left < count_all (map (λ r. r.value) sources.now)) }
    ensures too_many { (ds : List Delta) → Told (H.state host.old) (AreSources (bytes_of (H.state host.old)) (map (λ r. r.value) sources.now) ds → IsErrOf result Fault.LogFull → (0 < log.new.refused) ⊎ (tables_left < tables_needed (merged_part (boundary plan.now.keys plan.now.parts part) (boundary plan.now.keys plan.now.parts (part + 1)) ds))) }
    ensures refused { 0 < log.new.refused → IsErrOf result Fault.LogFull }
    ensures over { 0 < log.new.refused → log.new.limit < log.new.len + log.new.refused }
    ensures wrote { IfOk result (λ run. log.new.len ≡ log.old.len + sum_by table_len run.tables) }
    ensures growth { IfOk result (λ run. log.new.len + log.new.refused ≤ log.old.len + 1100 * count_of (all_fences run.tables)) }
    ensures growth_of_part { (ds : List Delta) → Told (H.state host.old) (AreSources (bytes_of (H.state host.old)) (map (λ r. r.value) sources.now) ds → log.new.len + log.new.refused ≤ log.old.len + 1100 * length (merged_part (boundary plan.now.keys plan.now.parts part) (boundary plan.now.keys plan.now.parts (part + 1)) ds)) }
    ensures growth_at_most { log.new.len + log.new.refused ≤ log.old.len + 1100 * count_all (map (λ r. r.value) sources.now) }
    ensures never_changed { (file at : ℕ) → IsErrOf result (Fault.Changed file at) → ⊥ }
    ensures only { Only log.old.file (H.state host.old) (H.state host.new) }
    ensures cause { HasFaultCause (H.state host.old) (H.state host.new) result }
    ensures reads { (H.state host.new).reads ≡ (H.state host.old).reads }
    ensures same { (log.new.file ≡ log.old.file) × (log.new.limit ≡ log.old.limit) }
    ensures log_spent { OnErr result (IsTrue log.new.spent) }
{
    let _ = log.len();
    let (low, high) = plan.range(part);
    let Ok(records) = merged(alloc, sources, low, high) else {
        log.spend();
        return Err(Fault::NoMemory);
    };
    write_tables(alloc, host, log, records, tables_left)
}

// The merged records of the sources from one key up to, not with, another.
fn merged<'a>(
    alloc: Global,
    sources: &'a [Rc<Run>],
    low: Option<&'a Key>,
    high: Option<&'a Key>,
) -> Result<Merge<Source<'a>>, NoMemory>
    ensures rest { (files : Files) (ds : List Delta) → AreSources files (map (λ r. r.value) sources.entry.now) ds → IfOk result (λ merge. ⟦<Merge<Source<'a>> as Records>⟧.rest merge ≡ merged_part (option_copied low.entry) (option_copied high.entry) ds) }
    ensures unread { IfOk result (λ merge. ⟦<Merge<Source<'a>> as Records>⟧.unread merge ≡ 0) }
    ensures few { IfOk result (λ merge. length (⟦<Merge<Source<'a>> as Records>⟧.rest merge) ≤ count_all (map (λ r. r.value) sources.entry.now)) }
    ensures within { IfOk result (λ merge. AllByRecursion (KeyPasses (is_within (option_copied low.entry) (option_copied high.entry))) (⟦<Merge<Source<'a>> as Records>⟧.rest merge)) }
{
    let parts = parts_of(alloc, sources, low, high)?;
    Merge::new(alloc, parts)
}

// Each source from one key up to, not with, another.
fn parts_of<'a>(
    alloc: Global,
    sources: &'a [Rc<Run>],
    low: Option<&'a Key>,
    high: Option<&'a Key>,
) -> Result<Vec<Source<'a>>, NoMemory>
    ensures rests { (files : Files) (ds : List Delta) → AreSources files (map (λ r. r.value) sources.entry.now) ds → IfOk result (λ parts. map ⟦<Source<'a> as Records>⟧.rest parts.items ≡ map (λ d. part_between (option_copied low.entry) (option_copied high.entry) (records_of d)) ds) }
    ensures loaded { IfOk result (λ parts. AllByRecursion (λ s. ⟦<Source<'a> as Records>⟧.unread s ≡ 0) parts.items) }
    ensures few { IfOk result (λ parts. sum_by (λ s. length (⟦<Source<'a> as Records>⟧.rest s)) parts.items ≤ count_all (map (λ r. r.value) sources.entry.now)) }
    ensures within { IfOk result (λ parts. AllByRecursion (λ s. AllByRecursion (KeyPasses (is_within (option_copied low.entry) (option_copied high.entry))) (⟦<Source<'a> as Records>⟧.rest s)) parts.items) }
{
    let mut parts = Vec::new(alloc);
    for run in sources {
        let part = part_of_run(alloc, run, low, high)?;
        let Ok(()) = parts.push(part) else {
            return Err(NoMemory);
        };
    }
    Ok(parts)
}

fn part_of_run<'a>(
    alloc: Global,
    run: &'a Run,
    low: Option<&'a Key>,
    high: Option<&'a Key>,
) -> Result<Source<'a>, NoMemory>
    ensures rest { (files : Files) (d : Delta) → IsSource files run.entry.now d → IfOk result (λ part. ⟦<Source<'a> as Records>⟧.rest part ≡ part_between (option_copied low.entry) (option_copied high.entry) (records_of d)) }
    ensures loaded { IfOk result (λ part. ⟦<Source<'a> as Records>⟧.unread part ≡ 0) }
    ensures few { IfOk result (λ part. length (⟦<Source<'a> as Records>⟧.rest part) ≤ count_of (all_fences run.entry.now.tables)) }
    ensures within { IfOk result (λ part. AllByRecursion (KeyPasses (is_within (option_copied low.entry) (option_copied high.entry))) (⟦<Source<'a> as Records>⟧.rest part)) }
{
    let records = RunRecords::new(alloc, run, low, high)?;
    Ok(RangeRecords::new(records, low, high))
}
