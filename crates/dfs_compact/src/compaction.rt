//! Compactions.

ghost use Rattle.std.specs.Prelude.{◌≡◌, ◌≤◌, ◌<◌, ◌+◌, ◌*◌, ◌++◌, ◌∷◌, ◌⊎◌, ◌↔◌, [], ℕ, List, length, take, map, replicate, slice_get, slice_set, vec_capacity, IsFalse, IsTrue, IsErrOf, IfOk, OnOk, OnErr};
ghost use Rattle.std.specs.List.{sum_by};
ghost use Rattle.std.specs.List.Sorted.{IsPermutation};
ghost use Rattle.dfs_host.specs.Fault.{HasFaultCause};
ghost use Rattle.dfs_host.specs.Host.{Told, bytes_of, Only};
ghost use Rattle.dfs_record.specs.declared.Record.{Record as OwnRecord};
ghost use Rattle.dfs_record.specs.Delta.{Delta, delta, merged as merged_list, records_of};
ghost use Rattle.dfs_record.specs.Namespace.{replay};
ghost use Rattle.dfs_record.specs.Records.{Files};
ghost use Rattle.dfs_log.specs.Logs.{LogStands};
ghost use Rattle.dfs_plan.specs.Parts.{AreSorted};
ghost use Rattle.dfs_table.specs.declared.run.Run.{Run as AnyRun};
ghost use Rattle.dfs_table.specs.Counts.{count_of};
ghost use Rattle.dfs_table.specs.Cut.{tables_needed};
ghost use Rattle.dfs_table.specs.Stored.{IsStored};
ghost use Rattle.dfs_table.specs.Tables.{all_fences};
ghost use Rattle.dfs_table.specs.Writer.{AreIn, table_len};
ghost use Rattle.dfs_compact.specs.Parts.{AreSources, count_all, first_keys, tables_in, tables_of};
ghost use Rattle.dfs_compact.specs.Compaction.{AreMerged, HasOutcome, IsAdded, IsMerged, IsOverfull, IsPartOf, IsPastWith, IsRefusal, IsWritten, Stands, part_of};

use crate::keys::keys_of;
use crate::sources::write_part;
use dfs_host::{Fault, Host};
use dfs_log::LogWriter;
use dfs_plan::Plan;
use dfs_record::NoMemory;
use dfs_table::{Run, Table, Tables};
use std::alloc::Global;
use std::marker::Model;
use std::rc::Rc;

// The most tables of a run.
const MOST_TABLES: usize = 131_072;

/// What became of a call of `Compaction::part`.
#[derive(Debug, Clone, Copy, PartialEq, Eq, Drop)]
pub enum Parted {
    /// The part was merged, and others are left.
    Merged,
    /// The part was merged, and it was the last one.
    Last,
    /// There is no part with this number.
    Range,
    /// The part was merged before.
    Done,
}

/// Runs that are merged in parts, each into tables of one log.
#[derive(Drop)]
pub struct Compaction {
    sources: Vec<Rc<Run>>,
    plan: Plan,
    merged: Vec<Option<Run>>,
    // how many tables the merged parts have, and room for them
    tables: usize,
    room: Vec<Table>,
    spent: bool,
}

impl Model for Compaction {
    ghost use Rattle.std.specs.Prelude.{◌≡◌, ◌≤◌, [], length, map, vec_capacity};
    ghost use Rattle.dfs_compact.specs.Compaction.{CompactionState, IsCompaction};
    ghost use Rattle.dfs_compact.specs.Parts.{tables_of};

    ghost Value = { CompactionState };

    ghost view = { λ c. record { sources = map (λ r. r.value) c.sources.items; keys = c.plan.keys; parts = c.plan.parts; merged = c.merged.items; spent = c.spent } };

    ghost invariant = { λ c. IsCompaction (map (λ r. r.value) c.sources.items) c.plan.keys c.plan.parts c.merged.items × (length (tables_of c.merged.items) ≡ c.tables) × (c.room.items ≡ []) × (c.tables ≤ vec_capacity c.room) };
}

impl Compaction {
    /// The compaction of these runs, oldest first, in so many parts. The first keys of all their blocks cut the keys into parts.
    pub fn begin(alloc: Global, sources: Vec<Rc<Run>>, parts: u16) -> Result<Compaction, NoMemory>
        requires some { 1 ≤ parts }
        requires most { parts ≤ 256 }

        ensures sources { IfOk result (λ c. c.sources ≡ map (λ r. r.value) sources.items) }
        ensures parts { IfOk result (λ c. c.parts ≡ parts) }
        ensures keys { IfOk result (λ c. IsPermutation (first_keys (map (λ r. r.value) sources.items)) c.keys) }
        ensures sorted { IfOk result (λ c. AreSorted c.keys) }
        ensures none { IfOk result (λ c. c.merged ≡ replicate parts None) }
        ensures inside { (file : ℕ) → IfOk result (λ c. AreIn file (tables_of c.merged)) }
        ensures live { IfOk result (λ c. IsFalse c.spent) }
        ensures stands { (files : Files) (file : ℕ) (ds : List Delta) → AreSources files (map (λ r. r.value) sources.items) ds → IfOk result (λ c. Stands files file c ds) }
    {
        let plan = Plan::new(alloc, keys_of(alloc, &sources)?, parts)?;
        let merged = none_merged(alloc, parts)?;
        Ok(Compaction {
            sources,
            plan,
            merged,
            tables: 0,
            room: Vec::new(alloc),
            spent: false,
        })
    }

    /// Merges the part with this number: its records of the sources are written to the log as tables. The log is that of the parts
    /// merged before. After a fault the compaction and the log are spent.
    pub fn part<H: Host>(
        &mut self,
        alloc: Global,
        host: &mut H,
        log: &mut LogWriter,
        part: u64,
    ) -> Result<Parted, Fault>
        requires live { IsFalse self.old.spent }
        requires log_live { IsFalse log.old.spent }
        requires file { AreIn log.old.file (tables_of self.old.merged) }
        requires log { Told (H.state host.old) (LogStands (H.state host.old) log.old) }

        // Exactly these numbers are refused, and then nothing changes.
        ensures range { (result ≡ Ok Parted.Range) ↔ (self.old.parts ≤ part) }
        ensures done { (result ≡ Ok Parted.Done) ↔ IsMerged self.old part }
        ensures refused { IfOk result (λ done. IsRefusal done → (self.new ≡ self.old) × (H.state host.new ≡ H.state host.old) × (log.new ≡ log.old)) }

        // Else the part, and nothing else of the compaction, becomes the run that was written. It is the last one exactly where now
        // all are merged.
        ensures added { IfOk result (λ done. IsWritten done → IsAdded self.old self.new part) }
        ensures last { (result ≡ Ok Parted.Last) → AreMerged self.new }
        ensures merged { (result ≡ Ok Parted.Merged) → ¬ (AreMerged self.new) }

        // Wherever the compaction stood it stands: each merged part is stored in the log for the merged list of its range.
        ensures stands { (ds : List Delta) → Told (H.state host.old) (Stands (bytes_of (H.state host.old)) log.old.file self.old ds → OnOk result (Stands (bytes_of (H.state host.new)) log.old.file self.new ds)) }
        ensures same { (self.new.sources ≡ self.old.sources) × (self.new.keys ≡ self.old.keys) × (self.new.parts ≡ self.old.parts) }
        ensures file { OnOk result (AreIn log.old.file (tables_of self.new.merged)) }
        ensures live { OnOk result (IsFalse self.new.spent × IsFalse log.new.spent) }
        ensures spent { OnErr result (IsTrue self.new.spent) }
        ensures log_spent { OnErr result (IsTrue log.new.spent) }

        // What the log had stays, also where a device call failed.
        ensures log { Told (H.state host.old) (OnOk result (LogStands (H.state host.new) log.new)) }
        ensures before { Told (H.state host.old) (take log.old.len (bytes_of (H.state host.new) log.old.file) ≡ bytes_of (H.state host.old) log.old.file) }
        ensures log_same { (log.new.file ≡ log.old.file) × (log.new.limit ≡ log.old.limit) }

        // `LogFull` exactly where the log refused a piece or, with the part, the run of all parts would pass 131,072 tables, but for
        // want of memory and a disk fault.
        ensures passes { (ds : List Delta) → Told (H.state host.old) (Stands (bytes_of (H.state host.old)) log.old.file self.old ds → IsErrOf result Fault.LogFull → (0 < log.new.refused) ⊎ IsPastWith self.old ds part) }
        ensures too_many { (ds : List Delta) → Told (H.state host.old) (Stands (bytes_of (H.state host.old)) log.old.file self.old ds → IsPastWith self.old ds part → IfOk result IsRefusal) }
        ensures needed { (ds : List Delta) → Told (H.state host.old) (Stands (bytes_of (H.state host.old)) log.old.file self.old ds → IfOk result (λ done. IsWritten done → length (tables_of self.new.merged) ≡ length (tables_of self.old.merged) + tables_needed (part_of self.old ds part))) }
        // What bounds that by counts, on every host and where it stands: a full table has 4,096 blocks, and each a record at least.
        ensures full { IsErrOf result Fault.LogFull → (0 < log.new.refused) ⊎ (536870912 < 4096 * length (tables_of self.old.merged) + count_all self.old.sources) }
        ensures overfull { (ds : List Delta) → Told (H.state host.old) (Stands (bytes_of (H.state host.old)) log.old.file self.old ds → IsErrOf result Fault.LogFull → (0 < log.new.refused) ⊎ IsOverfull self.old) }
        ensures refuses { 0 < log.new.refused → IsErrOf result Fault.LogFull }
        ensures over { 0 < log.new.refused → log.new.limit < log.new.len + log.new.refused }

        // The log grows by the part's blocks and indexes alone.
        ensures wrote { OnOk result (log.new.len + sum_by table_len (tables_of self.old.merged) ≡ log.old.len + sum_by table_len (tables_of self.new.merged)) }
        // A record of the part costs the log at most 1,100 bytes, those of a part that failed counted, and a part has at most as many as
        // the sources.
        ensures growth_of_part { (ds : List Delta) → Told (H.state host.old) (Stands (bytes_of (H.state host.old)) log.old.file self.old ds → log.new.len + log.new.refused ≤ log.old.len + 1100 * length (part_of self.old ds part)) }
        ensures growth { OnOk result (log.new.len + 1100 * count_of (all_fences (tables_of self.old.merged)) ≤ log.old.len + 1100 * count_of (all_fences (tables_of self.new.merged))) }
        ensures most { IfOk result (λ done. IsWritten done → (run : AnyRun) → slice_get self.new.merged part ≡ Some (Some run) → count_of (all_fences run.tables) ≤ count_all self.old.sources) }
        // One table at most of a part is not full.
        ensures tables { OnOk result (4096 * length (tables_of self.new.merged) ≤ 4096 * length (tables_of self.old.merged) + count_all self.old.sources + 4095) }
        // All parts together have at most as many as well, wherever the compaction stands.
        ensures most_of_all { IfOk result (λ done. IsWritten done → (files : Files) (file : ℕ) (ds : List Delta) → Stands files file self.new ds → count_of (all_fences (tables_of self.new.merged)) ≤ count_all self.new.sources) }
        // A record of all parts costs it so much once, those of a part that failed counted.
        ensures growth_of_all { (ds : List Delta) → Told (H.state host.old) (Stands (bytes_of (H.state host.old)) log.old.file self.old ds → log.new.len + log.new.refused + 1100 * count_of (all_fences (tables_of self.old.merged)) ≤ log.old.len + 1100 * count_all self.old.sources) }
        ensures growth_at_most { log.new.len + log.new.refused ≤ log.old.len + 1100 * count_all self.old.sources }

        ensures never_changed { (file at : ℕ) → IsErrOf result (Fault.Changed file at) → ⊥ }
        ensures only { Only log.old.file (H.state host.old) (H.state host.new) }
        ensures cause { HasFaultCause (H.state host.old) (H.state host.new) result }
        ensures reads { (H.state host.new).reads ≡ (H.state host.old).reads }
    {
        // Read here, since a log that is not spent refused nothing.
        let _ = log.len();
        if part >= self.merged.len() as u64 {
            return Ok(Parted::Range);
        }
        let index = part as usize;
        if self.merged[index].is_some() {
            return Ok(Parted::Done);
        }
        self.spent = true;
        let left = (MOST_TABLES - self.tables) as u32;
        let run = write_part(
            alloc,
            host,
            log,
            &self.sources,
            &self.plan,
            index as u16,
            left,
        )?;
        let Ok(()) = self.keep(index, run) else {
            log.spend();
            return Err(Fault::NoMemory);
        };
        self.spent = false;
        Ok(self.outcome())
    }

    /// The run of all parts, in the order of their ranges. It takes no memory.
    pub fn take(self) -> Run
        requires live { IsFalse self.spent }
        requires merged { AreMerged self }

        ensures tables { result.tables ≡ tables_of self.merged }

        // In whatever order the parts were merged: wherever the compaction stands, the run is stored for the merged list of the change
        // sets, and any change set that it is stored for may stand in their place.
        ensures stored { (files : Files) (file : ℕ) (ds : List Delta) → Stands files file self ds → IsStored (files file) result (delta (merged_list (map records_of ds))) }
        ensures replays { (files : Files) (file : ℕ) (ds : List Delta) (d : Delta) → Stands files file self ds → IsStored (files file) result d → (below above : List Delta) (rs : List OwnRecord) → replay (below ++ ds ++ above) rs ≡ replay (below ++ d ∷ [] ++ above) rs }

        ensures most { (files : Files) (file : ℕ) (ds : List Delta) → Stands files file self ds → count_of (all_fences result.tables) ≤ count_all self.sources }
        ensures few { length result.tables ≤ 131072 }
        // Each part has one table at most that is not full.
        ensures enough { 4096 * length result.tables ≤ count_of (all_fences result.tables) + 4095 * self.parts }
    {
        Run {
            tables: Tables::from_vec(join(self.room, self.merged)),
        }
    }

    // Keeps what the part was merged to, and takes room for its tables.
    fn keep(&mut self, index: usize, run: Run) -> Result<(), NoMemory>
        requires within { slice_get self.old.merged index ≡ Some None }
        requires few { length (tables_of self.old.merged) + length run.tables ≤ 131072 }
        requires part { IsPartOf self.old.sources self.old.keys self.old.parts index run }
        ensures kept { OnOk result (self.new ≡ record self.old { merged = slice_set self.old.merged index (Some run) }) }
        ensures unchanged { OnErr result (self.new ≡ self.old) }
    {
        let tables = self.tables + run.tables.len();
        self.room.reserve(tables)?;
        self.merged[index] = Some(run);
        self.tables = tables;
        Ok(())
    }

    // Whether the part that was merged is the last one.
    fn outcome(&self) -> Parted
        ensures { HasOutcome self.now result }
    {
        if self.merged.iter().all(|run| run.is_some()) {
            Parted::Last
        } else {
            Parted::Merged
        }
    }
}

// No part is merged.
fn none_merged(alloc: Global, parts: u16) -> Result<Vec<Option<Run>>, NoMemory>
    ensures { IfOk result (λ merged. merged.items ≡ replicate parts None) }
{
    let mut merged = Vec::new(alloc);
    for _ in 0..parts {
        let Ok(()) = merged.push(None) else {
            return Err(NoMemory);
        };
    }
    Ok(merged)
}

// The tables of all parts, in their order.
fn join(room: Vec<Table>, merged: Vec<Option<Run>>) -> Vec<Table>
    requires none { room.items ≡ [] }
    requires room { length (tables_of merged.items) ≤ vec_capacity room }
    ensures { result.items ≡ tables_of merged.items }
{
    let mut joined = room;
    for run in merged {
        add(&mut joined, run);
    }
    joined
}

// Adds the tables of a part, for which there is room.
fn add(joined: &mut Vec<Table>, run: Option<Run>)
    requires { length joined.old.items + length (tables_in run) ≤ vec_capacity joined.old }
    ensures items { joined.new.items ≡ joined.old.items ++ tables_in run }
    ensures capacity { vec_capacity joined.old ≤ vec_capacity joined.new }
{
    let Some(run) = run else {
        return;
    };
    let mut tables = run.tables.into_vec();
    let Ok(()) = joined.append(&mut tables) else {
        unreachable!();
    };
}
