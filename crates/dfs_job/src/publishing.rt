//! What a job publishes.

ghost use Rattle.std.specs.Prelude.{◌≡◌, ◌≢◌, ◌≤◌, ◌<◌, ◌+◌, ◌*◌, ◌⊎◌, ◌↔◌, ℕ, List, IsFalse, IsTrue, IfOk, OnOk, IsErrOf, IsSomeAnd, Some, None, flat_map, map, replicate, slice_get, length};
ghost use Rattle.std.specs.List.{AllByRecursion, sum_by};
ghost use Rattle.std.specs.List.Sorted.{IsPermutation};
ghost use Rattle.dfs_host.specs.Disk.{IsSettled};
ghost use Rattle.dfs_host.specs.Fault.{HasFaultCause};
ghost use Rattle.dfs_host.specs.Host.{Told, Only, bytes_of};
ghost use Rattle.dfs_record.specs.declared.Record.{Record as AnyRecord};
ghost use Rattle.dfs_record.specs.Delta.{Delta, delta};
ghost use Rattle.dfs_record.specs.KeyMap.{len};
ghost use Rattle.dfs_log.specs.Logs.{LogStands};
ghost use Rattle.dfs_change.specs.Meant.{log_meaning};
ghost use Rattle.dfs_change.specs.Sealing.{entry_of};
ghost use Rattle.dfs_view.specs.Layers.{AreStored, own_runs, run_count};
ghost use Rattle.dfs_view.specs.View.{IsOwnRun, closed_count};
ghost use Rattle.dfs_table.specs.Stored.{IsStored};
ghost use Rattle.dfs_table.specs.Writer.{AreIn, table_len};
ghost use Rattle.dfs_compact.specs.Compaction.{AreMerged, IsOverfull, Stands as CompactionStands};
ghost use Rattle.dfs_compact.specs.Parts.{AreSources, count_all, first_keys, tables_below, tables_of};
ghost use Rattle.dfs_plan.specs.Parts.{AreSorted};
ghost use Rattle.dfs_record.specs.Records.{Files};
ghost use Rattle.dfs_job.specs.Sealed.{AreSealable, HasManifest, IsRunOfJob, IsSealable, SealsLayers};
ghost use Rattle.dfs_job.specs.Stands.{MergeTo, Passes, TellsOf, may_pass, table_count};

use crate::Job;
use crate::planning::add_runs;
use dfs_change::{ChangeWriter, Sealed};
use dfs_compact::Compaction;
use dfs_host::{Fault, Host};
use dfs_log::LogWriter;
use dfs_record::NoMemory;
use dfs_table::Run;
use dfs_view::{Layers, flush};
use std::alloc::Global;
use std::rc::Rc;

impl Job {
    ghost use Rattle.std.specs.Prelude.{◌≡◌, ◌≤◌, ◌<◌, ◌+◌, ◌*◌, ◌⊎◌, ℕ, List, length, IsTrue, IfOk, OnOk, IsErrOf, Some};
    ghost use Rattle.dfs_host.specs.Disk.{IsSettled};
    ghost use Rattle.dfs_host.specs.Fault.{HasFaultCause};
    ghost use Rattle.dfs_host.specs.Host.{Told, Only, bytes_of};
    ghost use Rattle.dfs_record.specs.KeyMap.{len};
    ghost use Rattle.dfs_change.specs.Meant.{log_meaning};
    ghost use Rattle.dfs_change.specs.Sealing.{entry_of};
    ghost use Rattle.dfs_view.specs.Layers.{own_runs};
    ghost use Rattle.dfs_job.specs.Job.{Job as PlainJob, after_flush, layer_changes, need, own_changes};
    ghost use Rattle.dfs_job.specs.Sealed.{SealsLayers};
    ghost use Rattle.dfs_job.specs.Stands.{JobIsSound, JobStands, Passes, TellsOf, flushed_firsts, flushed_tables, own_count, publishes_too_many};

    /// Seals all layers of the job as one run in its log: the only one as it stands, several ones merged in as many parts as the
    /// settings say, none as a run without a table. What it selected is no part of that, and a plan under way is given up. The job is
    /// over then, so that it is spent whatever the answer.
    pub fn publish_tables<H: Host>(&mut self, alloc: Global, host: &mut H) -> Result<Sealed, Fault>
        requires sound { JobIsSound (H.state host.old) self.old }

        // The entry of what was sealed has the changes of all layers, with settled bytes.
        ensures changes { (j : PlainJob) → Told (H.state host.old) (JobStands (H.state host.old) self.old j
            → IfOk result (λ sealed. (name : List ℕ) → log_meaning (bytes_of (H.state host.new) self.old.ids.job) (entry_of name self.old.ids.job sealed) ≡ Some (own_changes j))) }
        ensures count { (j : PlainJob) → Told (H.state host.old) (JobStands (H.state host.old) self.old j → IfOk result (λ sealed. sealed.count ≡ len (own_changes j))) }
        // The manifest tells of so many tables: those of the only layer, or of as many parts as the settings say.
        ensures tables { (j : PlainJob) → Told (H.state host.old) (JobStands (H.state host.old) self.old j
            → IfOk result (λ sealed. TellsOf (flushed_firsts self.old j) (flushed_tables self.old j) self.old.settings.parts (layer_changes (after_flush j)) sealed.len)) }
        // A job with one closed layer and an empty open one writes its manifest alone, behind what its log had: no table of that layer is
        // written again.
        ensures alone { length (own_runs self.old.layers) ≡ 1 → self.old.layers.buffer.made ≡ 0 → IfOk result (λ sealed. sealed.at ≡ self.old.layers.log.len) }
        // The manifest is that of the only layer's run, or of the run that several, or none, were merged to, and nothing else was written.
        ensures seals { Told (H.state host.old) (IfOk result (λ sealed. SealsLayers (bytes_of (H.state host.new) self.old.ids.job) self.old.layers self.new.layers sealed.at sealed.len)) }
        // Nothing stands behind the manifest, in the log and in its file.
        ensures ends { IfOk result (λ sealed. self.new.layers.log.len ≡ sealed.at + sealed.len) }
        ensures file_ends { Told (H.state host.old) (IfOk result (λ sealed. length (bytes_of (H.state host.new) self.old.ids.job) ≡ sealed.at + sealed.len)) }
        ensures settled { Told (H.state host.old) (OnOk result (IsSettled ((H.state host.new).disk.files self.old.ids.job))) }
        ensures number { self.new.ids ≡ self.old.ids }
        ensures settings { self.new.settings ≡ self.old.settings }
        ensures basis { self.new.layers.basis.items ≡ self.old.layers.basis.items }
        // `LogFull` exactly where the log refused a piece or the merged run would pass 131,072 tables, but for want of memory and a disk
        // fault; what bounds the tables by counts, on every host, is `full`.
        ensures passes { (j : PlainJob) → Told (H.state host.old) (JobStands (H.state host.old) self.old j → IsErrOf result Fault.LogFull → (0 < self.new.layers.log.refused) ⊎ Passes (flushed_firsts self.old j) self.old.settings.parts (layer_changes (after_flush j))) }
        ensures too_many { (j : PlainJob) → Told (H.state host.old) (JobStands (H.state host.old) self.old j → Passes (flushed_firsts self.old j) self.old.settings.parts (layer_changes (after_flush j)) → OnOk result ⊥) }
        ensures full { IsErrOf result Fault.LogFull → (0 < self.new.layers.log.refused) ⊎ IsTrue (publishes_too_many self.old) }
        ensures refuses { 0 < self.new.layers.log.refused → IsErrOf result Fault.LogFull }
        ensures short { (j : PlainJob) → Told (H.state host.old) (JobStands (H.state host.old) self.old j → IsErrOf result Fault.LogFull → j.settings.log_bytes < need j) }
        // Beside that a merged record costs at most 1,100 bytes, a table 16 in the manifest, and a refused piece is counted, which did not fit.
        ensures growth { Told (H.state host.old) (self.new.layers.log.len + self.new.layers.log.refused ≤ self.old.layers.log.len + (1100 * self.old.layers.buffer.made + (1116 * (own_count self.old + self.old.layers.buffer.made) + 4))) }
        ensures past { 0 < self.new.layers.log.refused → self.old.layers.log.limit < self.new.layers.log.len + self.new.layers.log.refused }
        ensures only { Only self.old.ids.job (H.state host.old) (H.state host.new) }
        ensures cause { HasFaultCause (H.state host.old) (H.state host.new) result }
        ensures reads { (H.state host.new).reads ≡ (H.state host.old).reads }
        ensures spent { IsTrue self.new.spent }
    {
        self.spent = true;
        flush(alloc, host, &mut self.layers)?;
        seal(alloc, host, &mut self.layers, self.settings.parts)
    }
}

// Seals the closed layers as one run, which several are merged to in so many parts.
fn seal<H: Host>(
    alloc: Global,
    host: &mut H,
    layers: &mut Layers,
    parts: u16,
) -> Result<Sealed, Fault>
    requires some { 1 ≤ parts }
    requires most { parts ≤ 256 }
    requires live { IsFalse layers.old.log.spent }
    requires stands { Told (H.state host.old) (LogStands (H.state host.old) layers.old.log) }
    requires own { AllByRecursion (IsOwnRun layers.old.log.file) (own_runs layers.old) }
    requires sealable { Told (H.state host.old) (AreSealable (H.state host.old) layers.old.log.file (own_runs layers.old)) }

    ensures changes { (ls : List (List AnyRecord)) → Told (H.state host.old) (IsSealable (H.state host.old) layers.old.log.file (own_runs layers.old) ls
        → IfOk result (λ sealed. (name : List ℕ) → log_meaning (bytes_of (H.state host.new) layers.old.log.file) (entry_of name layers.old.log.file sealed) ≡ Some (delta (flat_map (λ rs. rs) ls)))) }
    ensures count { (ls : List (List AnyRecord)) → Told (H.state host.old) (IsSealable (H.state host.old) layers.old.log.file (own_runs layers.old) ls → IfOk result (λ sealed. sealed.count ≡ len (delta (flat_map (λ rs. rs) ls)))) }
    ensures tables { (ls : List (List AnyRecord)) → Told (H.state host.old) (IsSealable (H.state host.old) layers.old.log.file (own_runs layers.old) ls
        → IfOk result (λ sealed. TellsOf (first_keys (own_runs layers.old)) (table_count (own_runs layers.old)) parts (map delta ls) sealed.len)) }
    // The only run is sealed by its manifest alone, behind what the log had.
    ensures alone { length (own_runs layers.old) ≡ 1 → IfOk result (λ sealed. sealed.at ≡ layers.old.log.len) }
    ensures seals { Told (H.state host.old) (IfOk result (λ sealed. SealsLayers (bytes_of (H.state host.new) layers.old.log.file) layers.old layers.new sealed.at sealed.len)) }
    // Nothing stands behind the manifest.
    ensures ends { IfOk result (λ sealed. layers.new.log.len ≡ sealed.at + sealed.len) }
    ensures log { Told (H.state host.old) (OnOk result (LogStands (H.state host.new) layers.new.log)) }
    ensures file { layers.new.log.file ≡ layers.old.log.file }
    ensures settled { Told (H.state host.old) (OnOk result (IsSettled ((H.state host.new).disk.files layers.old.log.file))) }
    ensures same { (layers.new.basis.items ≡ layers.old.basis.items) × (layers.new.runs.items ≡ layers.old.runs.items) }
    ensures passes { (ls : List (List AnyRecord)) → Told (H.state host.old) (IsSealable (H.state host.old) layers.old.log.file (own_runs layers.old) ls
        → IsErrOf result Fault.LogFull → (0 < layers.new.log.refused) ⊎ Passes (first_keys (own_runs layers.old)) parts (map delta ls)) }
    ensures too_many { (ls : List (List AnyRecord)) → Told (H.state host.old) (IsSealable (H.state host.old) layers.old.log.file (own_runs layers.old) ls
        → Passes (first_keys (own_runs layers.old)) parts (map delta ls) → OnOk result ⊥) }
    ensures full { IsErrOf result Fault.LogFull → (0 < layers.new.log.refused) ⊎ IsTrue (may_pass (closed_count layers.old) parts) }
    ensures overfull { Told (H.state host.old) (IsErrOf result Fault.LogFull → (0 < layers.new.log.refused) ⊎ (536870912 < closed_count layers.old + 4095 * parts)) }
    ensures refuses { 0 < layers.new.log.refused → IsErrOf result Fault.LogFull }
    ensures past { 0 < layers.new.log.refused → layers.old.log.limit < layers.new.log.len + layers.new.log.refused }
    // A merged record costs at most 1,100 bytes, a table 16 in the manifest.
    ensures growth { Told (H.state host.old) (layers.new.log.len + layers.new.log.refused ≤ layers.old.log.len + (1116 * closed_count layers.old + 4)) }
    ensures only { Only layers.old.log.file (H.state host.old) (H.state host.new) }
    ensures cause { HasFaultCause (H.state host.old) (H.state host.new) result }
    ensures reads { (H.state host.new).reads ≡ (H.state host.old).reads }
{
    if layers.runs.len() == 1 {
        return finish(alloc, host, &mut layers.log, run_at(&layers.runs, 0));
    }
    let run = merge_runs(alloc, host, &mut layers.log, &layers.runs, parts)?;
    finish(alloc, host, &mut layers.log, &run)
}

// Ends the log with the run.
fn finish<H: Host>(
    alloc: Global,
    host: &mut H,
    log: &mut LogWriter,
    run: &Run,
) -> Result<Sealed, Fault>
    requires live { IsFalse log.old.spent }
    requires stands { Told (H.state host.old) (LogStands (H.state host.old) log.old) }
    requires own { IsOwnRun log.old.file run.now }
    requires of_job { Told (H.state host.old) (IsRunOfJob (H.state host.old) log.old.file run.now) }

    ensures changes { (d : Delta) → Told (H.state host.old) (IsStored (bytes_of (H.state host.old) log.old.file) run.now d
        → IfOk result (λ sealed. (name : List ℕ) → log_meaning (bytes_of (H.state host.new) log.old.file) (entry_of name log.old.file sealed) ≡ Some d)) }
    ensures count { (d : Delta) → Told (H.state host.old) (IsStored (bytes_of (H.state host.old) log.old.file) run.now d → IfOk result (λ sealed. sealed.count ≡ len d)) }
    ensures len { IfOk result (λ sealed. sealed.len ≡ 4 + 12 * length run.now.tables) }
    ensures manifest { Told (H.state host.old) (IfOk result (λ sealed. HasManifest (bytes_of (H.state host.new) log.old.file) sealed.at sealed.len run.now)) }
    // The manifest stands behind what the log had, and nothing behind it.
    ensures at { IfOk result (λ sealed. sealed.at ≡ log.old.len) }
    ensures ends { IfOk result (λ sealed. log.new.len ≡ sealed.at + sealed.len) }
    ensures log { Told (H.state host.old) (OnOk result (LogStands (H.state host.new) log.new)) }
    ensures file { log.new.file ≡ log.old.file }
    ensures settled { Told (H.state host.old) (OnOk result (IsSettled ((H.state host.new).disk.files log.old.file))) }
    ensures full { IsErrOf result Fault.LogFull ↔ (0 < log.new.refused) }
    ensures past { 0 < log.new.refused → log.old.limit < log.new.len + log.new.refused }
    ensures growth { Told (H.state host.old) (log.new.len + log.new.refused ≤ log.old.len + (16 * run_count run.now + 4)) }
    ensures only { Only log.old.file (H.state host.old) (H.state host.new) }
    ensures cause { HasFaultCause (H.state host.old) (H.state host.new) result }
    ensures reads { (H.state host.new).reads ≡ (H.state host.old).reads }
{
    ChangeWriter::finish(alloc, host, log, run)
}

// Merges all runs to one in the log, in so many parts.
fn merge_runs<H: Host>(
    alloc: Global,
    host: &mut H,
    log: &mut LogWriter,
    runs: &[Rc<Run>],
    parts: u16,
) -> Result<Run, Fault>
    requires some { 1 ≤ parts }
    requires most { parts ≤ 256 }
    requires live { IsFalse log.old.spent }
    requires stands { Told (H.state host.old) (LogStands (H.state host.old) log.old) }
    requires own { AllByRecursion (IsOwnRun log.old.file) (map (λ r. r.value) runs.now) }
    requires several { length runs.now ≢ 1 }

    ensures stored { (ls : List (List AnyRecord)) → Told (H.state host.old) (AreStored (bytes_of (H.state host.old) log.old.file) (map (λ r. r.value) runs.now) ls
        → IfOk result (λ run. IsStored (bytes_of (H.state host.new) log.old.file) run (delta (flat_map (λ rs. rs) ls)))) }
    ensures own { IfOk result (IsOwnRun log.old.file) }
    ensures count { (ls : List (List AnyRecord)) → Told (H.state host.old) (AreStored (bytes_of (H.state host.old) log.old.file) (map (λ r. r.value) runs.now) ls
        → IfOk result (λ run. run_count run ≤ sum_by run_count (map (λ r. r.value) runs.now))) }
    ensures tables { (ls : List (List AnyRecord)) → Told (H.state host.old) (AreStored (bytes_of (H.state host.old) log.old.file) (map (λ r. r.value) runs.now) ls
        → IfOk result (λ run. MergeTo (first_keys (map (λ r. r.value) runs.now)) parts (map delta ls) (length run.tables))) }
    ensures log { Told (H.state host.old) (OnOk result (LogStands (H.state host.new) log.new)) }
    ensures live { OnOk result (IsFalse log.new.spent) }
    ensures passes { (ls : List (List AnyRecord)) → Told (H.state host.old) (AreStored (bytes_of (H.state host.old) log.old.file) (map (λ r. r.value) runs.now) ls
        → IsErrOf result Fault.LogFull → (0 < log.new.refused) ⊎ Passes (first_keys (map (λ r. r.value) runs.now)) parts (map delta ls)) }
    ensures too_many { (ls : List (List AnyRecord)) → Told (H.state host.old) (AreStored (bytes_of (H.state host.old) log.old.file) (map (λ r. r.value) runs.now) ls
        → Passes (first_keys (map (λ r. r.value) runs.now)) parts (map delta ls) → OnOk result ⊥) }
    ensures full { IsErrOf result Fault.LogFull → (0 < log.new.refused) ⊎ IsTrue (may_pass (sum_by run_count (map (λ r. r.value) runs.now)) parts) }
    ensures overfull { (ls : List (List AnyRecord)) → Told (H.state host.old) (AreStored (bytes_of (H.state host.old) log.old.file) (map (λ r. r.value) runs.now) ls
        → IsErrOf result Fault.LogFull → (0 < log.new.refused) ⊎ (536870912 < sum_by run_count (map (λ r. r.value) runs.now) + 4095 * parts)) }
    ensures refuses { 0 < log.new.refused → IsErrOf result Fault.LogFull }
    ensures over { 0 < log.new.refused → log.new.limit < log.new.len + log.new.refused }
    // The log grows by the run's blocks and indexes alone.
    ensures wrote { IfOk result (λ run. log.new.len ≡ log.old.len + sum_by table_len run.tables) }
    ensures growth { (ls : List (List AnyRecord)) → Told (H.state host.old) (AreStored (bytes_of (H.state host.old) log.old.file) (map (λ r. r.value) runs.now) ls
        → log.new.len + log.new.refused ≤ log.old.len + 1100 * sum_by run_count (map (λ r. r.value) runs.now)) }
    ensures same { (log.new.file ≡ log.old.file) × (log.new.limit ≡ log.old.limit) }
    ensures never_changed { (file at : ℕ) → IsErrOf result (Fault.Changed file at) → ⊥ }
    ensures only { Only log.old.file (H.state host.old) (H.state host.new) }
    ensures cause { HasFaultCause (H.state host.old) (H.state host.new) result }
    ensures reads { (H.state host.new).reads ≡ (H.state host.old).reads }
{
    // Read here, since a log that is not spent refused nothing.
    let _ = log.len();
    let Ok(mut compaction) = compaction_of(alloc, runs, parts) else {
        return Err(Fault::NoMemory);
    };
    merge_parts(alloc, host, log, &mut compaction, parts)?;
    Ok(compaction.take())
}

// The compaction of the runs, of which no part is merged.
fn compaction_of(alloc: Global, runs: &[Rc<Run>], parts: u16) -> Result<Compaction, NoMemory>
    requires some { 1 ≤ parts }
    requires most { parts ≤ 256 }
    ensures sources { IfOk result (λ c. c.sources ≡ map (λ r. r.value) runs.now) }
    ensures parts { IfOk result (λ c. c.parts ≡ parts) }
    ensures keys { IfOk result (λ c. IsPermutation (first_keys (map (λ r. r.value) runs.now)) c.keys) }
    ensures sorted { IfOk result (λ c. AreSorted c.keys) }
    ensures none { IfOk result (λ c. c.merged ≡ replicate parts None) }
    ensures live { IfOk result (λ c. IsFalse c.spent) }
    ensures stands { (files : Files) (file : ℕ) (ds : List Delta) → AreSources files (map (λ r. r.value) runs.now) ds → IfOk result (λ c. CompactionStands files file c ds) }
{
    let mut sources = Vec::new(alloc);
    add_runs(&mut sources, runs)?;
    Compaction::begin(alloc, sources, parts)
}

// Merges all parts, one after the other.
fn merge_parts<H: Host>(
    alloc: Global,
    host: &mut H,
    log: &mut LogWriter,
    compaction: &mut Compaction,
    parts: u16,
) -> Result<(), Fault>
    requires none { compaction.old.merged ≡ replicate parts None }
    requires parts { compaction.old.parts ≡ parts }
    requires live { IsFalse compaction.old.spent }
    requires log_live { IsFalse log.old.spent }
    requires stands { Told (H.state host.old) (LogStands (H.state host.old) log.old) }

    ensures merged { OnOk result (AreMerged compaction.new) }
    ensures sources { compaction.new.sources ≡ compaction.old.sources }
    ensures inside { OnOk result (AreIn log.old.file (tables_of compaction.new.merged)) }
    ensures kept { (ds : List Delta) → Told (H.state host.old) (CompactionStands (bytes_of (H.state host.old)) log.old.file compaction.old ds → OnOk result (CompactionStands (bytes_of (H.state host.new)) log.old.file compaction.new ds)) }
    ensures live { OnOk result (IsFalse compaction.new.spent × IsFalse log.new.spent) }
    ensures log { Told (H.state host.old) (OnOk result (LogStands (H.state host.new) log.new)) }
    ensures passes { (ds : List Delta) → Told (H.state host.old) (CompactionStands (bytes_of (H.state host.old)) log.old.file compaction.old ds → IsErrOf result Fault.LogFull → (0 < log.new.refused) ⊎ (131072 < tables_below compaction.old.keys parts ds parts)) }
    ensures needed { (ds : List Delta) → Told (H.state host.old) (CompactionStands (bytes_of (H.state host.old)) log.old.file compaction.old ds → OnOk result (length (tables_of compaction.new.merged) ≡ tables_below compaction.old.keys parts ds parts)) }
    ensures full { IsErrOf result Fault.LogFull → (0 < log.new.refused) ⊎ IsTrue (may_pass (count_all compaction.old.sources) parts) }
    ensures overfull { (ds : List Delta) → Told (H.state host.old) (CompactionStands (bytes_of (H.state host.old)) log.old.file compaction.old ds → IsErrOf result Fault.LogFull → (0 < log.new.refused) ⊎ IsOverfull compaction.old) }
    ensures refuses { 0 < log.new.refused → IsErrOf result Fault.LogFull }
    ensures over { 0 < log.new.refused → log.new.limit < log.new.len + log.new.refused }
    ensures wrote { OnOk result (log.new.len ≡ log.old.len + sum_by table_len (tables_of compaction.new.merged)) }
    ensures growth { (ds : List Delta) → Told (H.state host.old) (CompactionStands (bytes_of (H.state host.old)) log.old.file compaction.old ds → log.new.len + log.new.refused ≤ log.old.len + 1100 * count_all compaction.old.sources) }
    ensures same { (log.new.file ≡ log.old.file) × (log.new.limit ≡ log.old.limit) }
    ensures never_changed { (file at : ℕ) → IsErrOf result (Fault.Changed file at) → ⊥ }
    ensures only { Only log.old.file (H.state host.old) (H.state host.new) }
    ensures cause { HasFaultCause (H.state host.old) (H.state host.new) result }
    ensures reads { (H.state host.new).reads ≡ (H.state host.old).reads }
{
    // Read here, since a log that is not spent refused nothing.
    let _ = log.len();
    for part in 0..parts {
        compaction.part(alloc, host, log, part as u64)?;
    }
    Ok(())
}

/// The run with this number.
pub(crate) fn run_at(runs: &[Rc<Run>], index: usize) -> &Run
    requires { index < length runs.now }
    ensures { IsSomeAnd (slice_get (map (λ r. r.value) runs.now) index) (λ r. r ≡ result.now) }
{
    &runs[index]
}
