//! Jobs.

use crate::Settings;
use crate::applying::apply_to;
use crate::planning::UnderWay;
use crate::publishing::run_at;
use dfs_buffer::Buffer;
use dfs_change::Change;
use dfs_host::{Failed, Fault, Host};
use dfs_log::LogWriter;
use dfs_ops::{Ids, OpReply};
use dfs_path::Op;
use dfs_view::{Layers, flush};
use std::alloc::Global;
use std::rc::Rc;

/// A live job: its numbers, its layers with their log, the settings that it was begun with, how many plans it made, and the one that
/// is under way.
#[derive(Drop)]
pub struct Job {
    pub ids: Ids,
    pub layers: Layers,
    pub settings: Settings,
    pub plans: u16,
    pub plan: Option<UnderWay>,
    pub spent: bool,
}

/// How many closed layers a job has, and how many keys, each layer's counted by itself.
#[derive(Clone, Copy, Debug, PartialEq, Eq)]
pub struct Stats {
    pub runs: u64,
    pub records: u64,
}

impl Job {
    ghost use Rattle.std.specs.Prelude.{◌≡◌, ◌≤◌, ◌<◌, ◌+◌, ◌*◌, ◌↔◌, List, length, map, take, IsFalse, IsTrue, IfOk, OnOk, OnErr, IsErrOf};
    ghost use Rattle.std.specs.List.{AllByRecursion, AllZip};
    ghost use Rattle.dfs_host.specs.Fault.{HasFaultCause};
    ghost use Rattle.dfs_host.specs.Host.{HostState, Told, Only, HasDiskCause, bytes_of};
    ghost use Rattle.dfs_ops.specs.Applied.{IsReply};
    ghost use Rattle.dfs_ops.specs.Op.{next_id};
    ghost use Rattle.dfs_ops.specs.Within.{HasNothingIn};
    ghost use Rattle.dfs_path.specs.Op.{IsOp};
    ghost use Rattle.dfs_record.specs.Delta.{Delta};
    ghost use Rattle.dfs_view.specs.View.{AddsCut, AddsOpen, GrowsByRuns, LeavesLog};
    ghost use Rattle.dfs_job.specs.Job.{Job as PlainJob, after, after_flush, begun, does, first_ids, key_count, namespace_of, need, run_count};
    ghost use Rattle.dfs_job.specs.Stands.{AreSettings, IsEarlier, IsSelectable, IsStoredFor, JobIsFit, JobIsSound, JobStands};

    /// A new job over the change sets that it selects, in the order of selection, with an empty log.
    pub fn begin<H: Host>(
        alloc: Global,
        host: &mut H,
        number: u32,
        basis: Vec<Rc<Change>>,
        settings: Settings,
    ) -> Result<Job, Failed>
        requires number { 1 ≤ number }
        requires settings { AreSettings settings }
        requires earlier { AllByRecursion (IsEarlier number) (map (λ c. c.value) basis.items) }
        requires selectable { Told (H.state host.old) (AllByRecursion (IsSelectable (H.state host.old)) (map (λ c. c.value) basis.items)) }

        ensures sound { IfOk result (JobIsSound (H.state host.new)) }
        ensures ids { IfOk result (λ job. job.ids ≡ first_ids number) }
        ensures settings { IfOk result (λ job. job.settings ≡ settings) }
        ensures basis { IfOk result (λ job. job.layers.basis.items ≡ basis.items) }
        ensures stands { (ds : List Delta) → Told (H.state host.old) (AllZip (IsStoredFor (H.state host.old)) (map (λ c. c.value) basis.items) ds → IfOk result (λ job. JobStands (H.state host.new) job (begun number ds settings))) }
        ensures only { Only number (H.state host.old) (H.state host.new) }
        ensures cause { HasDiskCause (H.state host.old) (H.state host.new) result }
        ensures reads { (H.state host.new).reads ≡ (H.state host.old).reads }
    {
        let log = LogWriter::start(host, number, settings.log_bytes)?;
        Ok(Job {
            ids: Ids {
                job: number,
                counter: 0,
                made: 0,
            },
            layers: Layers {
                log,
                buffer: Buffer::new(alloc),
                limit: settings.buffer,
                runs: Vec::new(alloc),
                basis,
            },
            settings,
            plans: 0,
            plan: None,
            spent: false,
        })
    }

    /// Applies an operation to what the job sees. After a fault the job is spent.
    pub fn op<H: Host>(&mut self, alloc: Global, host: &mut H, op: &Op) -> Result<OpReply, Fault>
        requires sound { JobIsSound (H.state host.old) self.old }
        requires op { IsOp op.now }

        ensures sound { OnOk result (JobIsSound (H.state host.new) self.new) }
        // On every host on which the job stands, and for every plain job for which it stands there.
        ensures answer { (j : PlainJob) → Told (H.state host.old) (JobStands (H.state host.old) self.old j → IfOk result (λ answer. answer ≡ (does j op.now).answer)) }
        ensures stands { (j : PlainJob) → Told (H.state host.old) (JobStands (H.state host.old) self.old j → OnOk result (JobStands (H.state host.new) self.new (after j (does j op.now)))) }
        // A directory that a mkdir made is empty: nothing stands in the one that this operation made, or would have made.
        ensures fresh { (j : PlainJob) → Told (H.state host.old) (JobStands (H.state host.old) self.old j → OnOk result (HasNothingIn (namespace_of (after j (does j op.now))) (next_id j.ids))) }
        ensures valid { IfOk result IsReply }
        // Each run that comes is cut as its records say.
        ensures cut { Told (H.state host.old) (AddsCut (H.state host.new) self.old.layers self.new.layers) }
        // The log grows by the blocks and indexes of these runs alone.
        ensures wrote { OnOk result (GrowsByRuns self.old.layers self.new.layers) }
        // Nothing is written while the open layer has room for the operation's records.
        ensures room { (j : PlainJob) → Told (H.state host.old) (JobStands (H.state host.old) self.old j → self.old.layers.buffer.made + length (does j op.now).records < self.old.layers.limit
            → LeavesLog (H.state host.old) (H.state host.new) self.old.layers self.new.layers) }
        ensures number { OnOk result (self.new.ids.job ≡ self.old.ids.job) }
        ensures settings { self.new.settings ≡ self.old.settings }
        ensures basis { self.new.layers.basis.items ≡ self.old.layers.basis.items }
        // `LogFull` exactly where the log refused a piece, and only where it is too short for what the job selected and made.
        ensures full { IsErrOf result Fault.LogFull ↔ (0 < self.new.layers.log.refused) }
        ensures short { (j : PlainJob) → Told (H.state host.old) (JobStands (H.state host.old) self.old j → IsErrOf result Fault.LogFull → j.settings.log_bytes < need (after j (does j op.now))) }
        // A record of the open layer or of the operation costs the log at most 1,100 bytes, a refused piece counted, which did not fit.
        ensures growth { self.new.layers.log.len + self.new.layers.log.refused ≤ self.old.layers.log.len + 1100 * (self.old.layers.buffer.made + 2) }
        ensures past { 0 < self.new.layers.log.refused → self.old.layers.log.limit < self.new.layers.log.len + self.new.layers.log.refused }
        ensures before { Told (H.state host.old) (take (length (bytes_of (H.state host.old) self.old.layers.log.file)) (bytes_of (H.state host.new) self.old.layers.log.file) ≡ bytes_of (H.state host.old) self.old.layers.log.file) }
        ensures only { Only self.old.ids.job (H.state host.old) (H.state host.new) }
        ensures cause { HasFaultCause (H.state host.old) (H.state host.new) result }
        ensures reads { (H.state host.new).reads ≡ (H.state host.old).reads }
        ensures spent { OnErr result (IsTrue self.new.spent) }
    {
        self.spent = true;
        let answer = apply_to(alloc, host, &mut self.layers, op, &mut self.ids)?;
        self.spent = false;
        Ok(answer)
    }

    /// Closes the open layer, where it has a record. After a fault the job is spent.
    pub fn flush<H: Host>(&mut self, alloc: Global, host: &mut H) -> Result<(), Fault>
        requires sound { JobIsSound (H.state host.old) self.old }

        ensures sound { OnOk result (JobIsSound (H.state host.new) self.new) }
        ensures stands { (j : PlainJob) → Told (H.state host.old) (JobStands (H.state host.old) self.old j → OnOk result (JobStands (H.state host.new) self.new (after_flush j))) }
        // The run of the open layer is cut as its records say.
        ensures cut { OnOk result (AddsOpen self.old.layers self.new.layers) }
        // The log grows by that run's blocks and indexes alone.
        ensures wrote { OnOk result (GrowsByRuns self.old.layers self.new.layers) }
        ensures idle { self.old.layers.buffer.made ≡ 0 → LeavesLog (H.state host.old) (H.state host.new) self.old.layers self.new.layers }
        ensures number { self.new.ids ≡ self.old.ids }
        ensures settings { self.new.settings ≡ self.old.settings }
        ensures basis { self.new.layers.basis.items ≡ self.old.layers.basis.items }
        ensures plan { (self.new.plan ≡ self.old.plan) × (self.new.plans ≡ self.old.plans) }
        ensures full { IsErrOf result Fault.LogFull ↔ (0 < self.new.layers.log.refused) }
        ensures short { (j : PlainJob) → Told (H.state host.old) (JobStands (H.state host.old) self.old j → IsErrOf result Fault.LogFull → j.settings.log_bytes < need j) }
        // A record of the open layer costs the log at most 1,100 bytes, a refused piece counted, which did not fit.
        ensures growth { self.new.layers.log.len + self.new.layers.log.refused ≤ self.old.layers.log.len + 1100 * self.old.layers.buffer.made }
        ensures past { 0 < self.new.layers.log.refused → self.old.layers.log.limit < self.new.layers.log.len + self.new.layers.log.refused }
        ensures before { Told (H.state host.old) (take (length (bytes_of (H.state host.old) self.old.layers.log.file)) (bytes_of (H.state host.new) self.old.layers.log.file) ≡ bytes_of (H.state host.old) self.old.layers.log.file) }
        ensures only { Only self.old.ids.job (H.state host.old) (H.state host.new) }
        ensures cause { HasFaultCause (H.state host.old) (H.state host.new) result }
        ensures reads { (H.state host.new).reads ≡ (H.state host.old).reads }
        ensures spent { OnErr result (IsTrue self.new.spent) }
    {
        self.spent = true;
        flush(alloc, host, &mut self.layers)?;
        self.spent = false;
        Ok(())
    }

    /// How many closed layers the job has, and how many keys are in them.
    pub fn stats(&self) -> Stats
        requires fit { JobIsFit self.now }
        ensures runs { (host : HostState) (j : PlainJob) → JobStands host self.now j → result.runs ≡ run_count j }
        ensures records { (host : HostState) (j : PlainJob) → JobStands host self.now j → result.records ≡ key_count j }
    {
        let mut records: u64 = 0;
        for index in 0..self.layers.runs.len() {
            records = records.saturating_add(run_at(&self.layers.runs, index).count());
        }
        Stats {
            runs: self.layers.runs.len() as u64,
            records,
        }
    }

    /// Gives the job up. Nothing is written, and its log stays as it is.
    pub fn drop_job(self) {}
}
