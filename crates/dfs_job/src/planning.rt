//! Plans: what a job has is merged part by part.

ghost use Rattle.std.specs.Prelude.{◌≡◌, ◌≤◌, ◌⊎◌, ◌++◌, ◌∷◌, [], List, length, map, drop, IfOk, OnOk};
ghost use Rattle.dfs_table.specs.declared.run.Run.{Run as AnyRun};
ghost use Rattle.dfs_view.specs.Layers.{own_runs};
ghost use Rattle.dfs_job.specs.Parted.{answer_by, placed_run};
ghost use Rattle.dfs_job.specs.Stands.{left_changes, sources_of};

use crate::{Job, JobPart, Planned};
use dfs_change::Change;
use dfs_compact::{Compaction, Parted};
use dfs_host::{Fault, Host};
use dfs_path::Scope;
use dfs_record::NoMemory;
use dfs_table::Run;
use dfs_view::Layers;
use std::alloc::Global;
use std::rc::Rc;

/// The most plans of a job.
const MOST_PLANS: u16 = 65_535;

/// A plan under way: what it covers, the compaction that merges it, and how many closed layers it covers.
#[derive(Drop)]
pub struct UnderWay {
    pub scope: Scope,
    pub compaction: Compaction,
    pub covered: usize,
}

impl Job {
    ghost use Rattle.std.specs.Prelude.{◌≡◌, ◌≤◌, ◌<◌, ◌+◌, ◌*◌, ◌⊎◌, ◌↔◌, [], length, None, Ok, IsSome, IsSomeAnd, IsFalse, IsTrue, IfOk, IfErr, IfSome, OnOk, OnErr, IsErrOf};
    ghost use Rattle.dfs_host.specs.Fault.{HasFaultCause};
    ghost use Rattle.dfs_host.specs.Host.{HostState, Told, Only};
    ghost use Rattle.dfs_view.specs.Layers.{Stand, own_runs};
    ghost use Rattle.dfs_view.specs.View.{AddsOpen, GrowsByRuns, runs_len};
    ghost use Rattle.dfs_job.specs.Job.{Job as PlainJob, after_part, after_plan, joined_as, merged_as, need, part_answer, plan_answer, with_plan};
    ghost use Rattle.dfs_compact.specs.Compaction.{IsMerged};
    ghost use Rattle.dfs_job.specs.Parted.{IsRefusedPart, IsRefusedPlan};
    ghost use Rattle.dfs_job.specs.Stands.{IsWholePlan, JobIsFit, JobIsSound, JobStands, PassesWith, behind_plan, merges_too_many, plan_count, plan_len};

    /// Begins a plan over the closed layers, with scope all over the selected change sets as well. It closes the open layer. Without
    /// a number of parts it has as many as the settings say. After a fault the job is spent.
    pub fn plan<H: Host>(
        &mut self,
        alloc: Global,
        host: &mut H,
        scope: Scope,
        parts: Option<u16>,
    ) -> Result<Planned, Fault>
        requires sound { JobIsSound (H.state host.old) self.old }
        requires parts { IfSome parts (λ n. (1 ≤ n) × (n ≤ 256)) }

        ensures sound { OnOk result (JobIsSound (H.state host.new) self.new) }
        ensures answer { (j : PlainJob) → Told (H.state host.old) (JobStands (H.state host.old) self.old j → IfOk result (λ answer. answer ≡ plan_answer j)) }
        // Whether a plan is refused, on every host. One that is changes nothing.
        ensures busy { (result ≡ Ok Planned.Busy) ↔ IsSome self.old.plan }
        ensures most { (result ≡ Ok Planned.Full) ↔ ((self.old.plan ≡ None) × (self.old.plans ≡ 65535)) }
        ensures refused { IfOk result (λ answer. IsRefusedPlan answer → (self.new ≡ self.old) × (H.state host.new ≡ H.state host.old)) }
        ensures stands { (j : PlainJob) → Told (H.state host.old) (JobStands (H.state host.old) self.old j → OnOk result (JobStands (H.state host.new) self.new (after_plan j scope parts))) }
        // The run of the open layer, which a plan that is made closes, is cut as its records say.
        ensures cut { (result ≡ Ok Planned.Made) → AddsOpen self.old.layers self.new.layers }
        // The log grows by that run's blocks and indexes alone.
        ensures wrote { OnOk result (GrowsByRuns self.old.layers self.new.layers) }
        ensures number { self.new.ids ≡ self.old.ids }
        ensures settings { self.new.settings ≡ self.old.settings }
        ensures basis { self.new.layers.basis.items ≡ self.old.layers.basis.items }
        ensures full { IsErrOf result Fault.LogFull ↔ (0 < self.new.layers.log.refused) }
        ensures short { (j : PlainJob) → Told (H.state host.old) (JobStands (H.state host.old) self.old j → IsErrOf result Fault.LogFull → j.settings.log_bytes < need (after_plan j scope parts)) }
        // A record of the open layer costs the log at most 1,100 bytes, a refused piece counted, which did not fit.
        ensures growth { self.new.layers.log.len + self.new.layers.log.refused ≤ self.old.layers.log.len + 1100 * self.old.layers.buffer.made }
        ensures past { 0 < self.new.layers.log.refused → self.old.layers.log.limit < self.new.layers.log.len + self.new.layers.log.refused }
        ensures only { Only self.old.ids.job (H.state host.old) (H.state host.new) }
        ensures cause { HasFaultCause (H.state host.old) (H.state host.new) result }
        ensures reads { (H.state host.new).reads ≡ (H.state host.old).reads }
        ensures spent { OnErr result (IsTrue self.new.spent) }
    {
        // Read here, since a log that is not spent refused nothing.
        let _ = self.layers.log.len();
        if self.plan.is_some() {
            return Ok(Planned::Busy);
        }
        if self.plans == MOST_PLANS {
            return Ok(Planned::Full);
        }
        self.flush(alloc, host)?;
        self.cover(alloc, scope, parts.unwrap_or(self.settings.parts))
    }

    // A new plan over the closed layers, where no layer is open.
    fn cover(&mut self, alloc: Global, scope: Scope, parts: u16) -> Result<Planned, Fault>
        requires fit { JobIsFit self.old }
        requires none { self.old.plan ≡ None }
        requires few { self.old.plans < 65535 }
        requires some { 1 ≤ parts }
        requires most { parts ≤ 256 }

        ensures fit { OnOk result (JobIsFit self.new) }
        ensures made { IfOk result (λ answer. answer ≡ Planned.Made) }
        ensures stands { (host : HostState) (j : PlainJob) → IsTrue host.tells → JobStands host self.old j → OnOk result (JobStands host self.new (with_plan scope parts j)) }
        ensures memory { IfErr result (λ fault. fault ≡ Fault.NoMemory) }
        ensures number { self.new.ids ≡ self.old.ids }
        ensures settings { self.new.settings ≡ self.old.settings }
        ensures layers { self.new.layers ≡ self.old.layers }
        ensures spent { OnErr result (IsTrue self.new.spent) }
    {
        self.spent = true;
        let Ok(sources) = sources(alloc, &self.layers, scope) else {
            return Err(Fault::NoMemory);
        };
        let Ok(compaction) = Compaction::begin(alloc, sources, parts) else {
            return Err(Fault::NoMemory);
        };
        self.plan = Some(UnderWay {
            scope,
            compaction,
            covered: self.layers.runs.len(),
        });
        self.plans += 1;
        self.spent = false;
        Ok(Planned::Made)
    }

    /// Merges the part of the plan with this number into the log. With the last part the plan is over: one layer stands in the place
    /// of all that it covered. After a fault the job is spent.
    pub fn part<H: Host>(
        &mut self,
        alloc: Global,
        host: &mut H,
        part: u64,
    ) -> Result<JobPart, Fault>
        requires sound { JobIsSound (H.state host.old) self.old }

        ensures sound { OnOk result (JobIsSound (H.state host.new) self.new) }
        ensures answer { (j : PlainJob) → Told (H.state host.old) (JobStands (H.state host.old) self.old j → IfOk result (λ answer. answer ≡ part_answer j part)) }
        // Whether a part is refused, on every host. One that is changes nothing.
        ensures no_plan { (result ≡ Ok JobPart.NoPlan) ↔ (self.old.plan ≡ None) }
        ensures range { (result ≡ Ok JobPart.Range) ↔ IsSomeAnd self.old.plan (λ u. u.compaction.parts ≤ part) }
        ensures done { (result ≡ Ok JobPart.Done) ↔ IsSomeAnd self.old.plan (λ u. IsMerged u.compaction part) }
        ensures refused { IfOk result (λ answer. IsRefusedPart answer → (self.new ≡ self.old) × (H.state host.new ≡ H.state host.old)) }
        ensures stands { (j : PlainJob) → Told (H.state host.old) (JobStands (H.state host.old) self.old j → OnOk result (JobStands (H.state host.new) self.new (after_part j part))) }
        ensures number { self.new.ids ≡ self.old.ids }
        ensures settings { self.new.settings ≡ self.old.settings }
        // The log grows by the part's blocks and indexes alone, and with the last part the run of all parts stands in the place of what the
        // plan covered.
        ensures wrote { (result ≡ Ok JobPart.Merged) → self.new.layers.log.len + plan_len self.old.plan ≡ self.old.layers.log.len + plan_len self.new.plan }
        ensures wrote_last { (result ≡ Ok JobPart.Last) → self.new.layers.log.len + plan_len self.old.plan + runs_len (behind_plan self.old.plan (own_runs self.old.layers)) ≡ self.old.layers.log.len + runs_len (own_runs self.new.layers) }
        // With the last part of a plan over the basis that becomes empty.
        ensures basis { (self.new.layers.basis.items ≡ self.old.layers.basis.items) ⊎ (self.new.layers.basis.items ≡ []) }
        // `LogFull` exactly where the log refused a piece or, with the part, the run of the plan would pass 131,072 tables, but for want
        // of memory and a disk fault; what bounds the tables by counts, on every host, is `full`.
        ensures passes { (j : PlainJob) → Told (H.state host.old) (JobStands (H.state host.old) self.old j → IsErrOf result Fault.LogFull → (0 < self.new.layers.log.refused) ⊎ PassesWith self.old.plan j.plan j part) }
        ensures too_many { (j : PlainJob) → Told (H.state host.old) (JobStands (H.state host.old) self.old j → PassesWith self.old.plan j.plan j part → OnOk result ⊥) }
        ensures full { IsErrOf result Fault.LogFull → (0 < self.new.layers.log.refused) ⊎ IsTrue (merges_too_many self.old) }
        ensures refuses { 0 < self.new.layers.log.refused → IsErrOf result Fault.LogFull }
        ensures short { (j : PlainJob) → Told (H.state host.old) (JobStands (H.state host.old) self.old j → IsErrOf result Fault.LogFull → j.settings.log_bytes < need j) }
        // A record of the plan's sources costs the log at most 1,100 bytes, a refused piece counted, which did not fit.
        ensures growth { self.new.layers.log.len + self.new.layers.log.refused ≤ self.old.layers.log.len + 1100 * plan_count self.old.plan }
        ensures past { 0 < self.new.layers.log.refused → self.old.layers.log.limit < self.new.layers.log.len + self.new.layers.log.refused }
        ensures only { Only self.old.ids.job (H.state host.old) (H.state host.new) }
        ensures cause { HasFaultCause (H.state host.old) (H.state host.new) result }
        ensures reads { (H.state host.new).reads ≡ (H.state host.old).reads }
        ensures spent { OnErr result (IsTrue self.new.spent) }
    {
        // Read here, since a log that is not spent refused nothing.
        let _ = self.layers.log.len();
        if self.plan.is_none() {
            return Ok(JobPart::NoPlan);
        }
        let answer = self.merge(alloc, host, part)?;
        if let JobPart::Last = answer {
            self.join(alloc)?;
        }
        Ok(answer)
    }

    // Merges a part of the plan under way.
    fn merge<H: Host>(&mut self, alloc: Global, host: &mut H, part: u64) -> Result<JobPart, Fault>
        requires fit { JobIsFit self.old }
        requires some { IsSome self.old.plan }
        requires stand { Told (H.state host.old) (Stand (H.state host.old) self.old.layers) }

        ensures fit { OnOk result (JobIsFit self.new) }
        ensures answer { (j : PlainJob) → Told (H.state host.old) (JobStands (H.state host.old) self.old j → IfOk result (λ answer. answer ≡ part_answer j part)) }
        ensures planned { result ≡ Ok JobPart.NoPlan → ⊥ }
        ensures range { (result ≡ Ok JobPart.Range) ↔ IsSomeAnd self.old.plan (λ u. u.compaction.parts ≤ part) }
        ensures done { (result ≡ Ok JobPart.Done) ↔ IsSomeAnd self.old.plan (λ u. IsMerged u.compaction part) }
        ensures refused { IfOk result (λ answer. IsRefusedPart answer → (self.new ≡ self.old) × (H.state host.new ≡ H.state host.old)) }
        ensures stands { (j : PlainJob) → Told (H.state host.old) (JobStands (H.state host.old) self.old j → IfOk result (λ answer. JobStands (H.state host.new) self.new (merged_as answer j part))) }
        ensures last { IfOk result (λ answer. answer ≡ JobPart.Last → IsWholePlan self.new.plan) }
        // The log grows by the part's blocks and indexes alone.
        ensures wrote { OnOk result (self.new.layers.log.len + plan_len self.old.plan ≡ self.old.layers.log.len + plan_len self.new.plan) }
        ensures behind { OnOk result (behind_plan self.new.plan (own_runs self.new.layers) ≡ behind_plan self.old.plan (own_runs self.old.layers)) }
        ensures number { self.new.ids ≡ self.old.ids }
        ensures settings { self.new.settings ≡ self.old.settings }
        ensures basis { self.new.layers.basis.items ≡ self.old.layers.basis.items }
        ensures passes { (j : PlainJob) → Told (H.state host.old) (JobStands (H.state host.old) self.old j → IsErrOf result Fault.LogFull → (0 < self.new.layers.log.refused) ⊎ PassesWith self.old.plan j.plan j part) }
        ensures too_many { (j : PlainJob) → Told (H.state host.old) (JobStands (H.state host.old) self.old j → PassesWith self.old.plan j.plan j part → OnOk result ⊥) }
        ensures full { IsErrOf result Fault.LogFull → (0 < self.new.layers.log.refused) ⊎ IsTrue (merges_too_many self.old) }
        ensures refuses { 0 < self.new.layers.log.refused → IsErrOf result Fault.LogFull }
        ensures short { (j : PlainJob) → Told (H.state host.old) (JobStands (H.state host.old) self.old j → IsErrOf result Fault.LogFull → j.settings.log_bytes < need j) }
        // A record of the plan's sources costs the log at most 1,100 bytes, a refused piece counted, which did not fit.
        ensures growth { self.new.layers.log.len + self.new.layers.log.refused ≤ self.old.layers.log.len + 1100 * plan_count self.old.plan }
        ensures past { 0 < self.new.layers.log.refused → self.old.layers.log.limit < self.new.layers.log.len + self.new.layers.log.refused }
        ensures only { Only self.old.ids.job (H.state host.old) (H.state host.new) }
        ensures cause { HasFaultCause (H.state host.old) (H.state host.new) result }
        ensures reads { (H.state host.new).reads ≡ (H.state host.old).reads }
        ensures spent { OnErr result (IsTrue self.new.spent) }
    {
        let Some(plan) = self.plan.take() else {
            unreachable!();
        };
        self.spent = true;
        let mut plan = plan;
        let parted = plan
            .compaction
            .part(alloc, host, &mut self.layers.log, part)?;
        self.plan = Some(plan);
        self.spent = false;
        Ok(answer_of(parted))
    }

    // Puts one layer in the place of all that the plan covered, whose parts were all merged.
    fn join(&mut self, alloc: Global) -> Result<(), Fault>
        requires fit { JobIsFit self.old }
        requires whole { IsWholePlan self.old.plan }

        ensures fit { OnOk result (JobIsFit self.new) }
        ensures stands { (host : HostState) (j : PlainJob) → IsTrue host.tells → JobStands host self.old j → OnOk result (JobStands host self.new (joined_as j.plan j)) }
        ensures number { self.new.ids ≡ self.old.ids }
        ensures settings { self.new.settings ≡ self.old.settings }
        ensures basis { (self.new.layers.basis.items ≡ self.old.layers.basis.items) ⊎ (self.new.layers.basis.items ≡ []) }
        ensures log { self.new.layers.log ≡ self.old.layers.log }
        ensures runs { OnOk result (runs_len (own_runs self.new.layers) ≡ plan_len self.old.plan + runs_len (behind_plan self.old.plan (own_runs self.old.layers))) }
        ensures memory { IfErr result (λ fault. fault ≡ Fault.NoMemory) }
        ensures spent { OnErr result (IsTrue self.new.spent) }
    {
        let Some(plan) = self.plan.take() else {
            unreachable!();
        };
        self.spent = true;
        let Ok(runs) = joined(
            alloc,
            plan.compaction.take(),
            &self.layers.runs,
            plan.covered,
        ) else {
            return Err(Fault::NoMemory);
        };
        self.layers.runs = runs;
        leave(&mut self.layers.basis, plan.scope);
        self.spent = false;
        Ok(())
    }
}

// What became of the part.
fn answer_of(parted: Parted) -> JobPart
    ensures { result ≡ answer_by parted }
{
    match parted {
        Parted::Merged => JobPart::Merged,
        Parted::Last => JobPart::Last,
        Parted::Range => JobPart::Range,
        Parted::Done => JobPart::Done,
    }
}

// The run, where it has a record, in the place of the first runs.
fn joined(
    alloc: Global,
    run: Run,
    runs: &[Rc<Run>],
    covered: usize,
) -> Result<Vec<Rc<Run>>, NoMemory>
    requires { covered ≤ length runs.now }
    ensures { IfOk result (λ joined. map (λ r. r.value) joined.items ≡ placed_run run ++ drop covered (map (λ r. r.value) runs.now)) }
{
    let mut joined = place(alloc, run)?;
    add_runs(&mut joined, &runs[covered..])?;
    Ok(joined)
}

// The run alone, and nothing where it has no record.
fn place(alloc: Global, run: Run) -> Result<Vec<Rc<Run>>, NoMemory>
    ensures { IfOk result (λ placed. map (λ r. r.value) placed.items ≡ placed_run run) }
{
    let mut placed = Vec::new(alloc);
    if run.tables.len() == 0 {
        return Ok(placed);
    }
    let Ok(run) = Rc::new(alloc, run) else {
        return Err(NoMemory);
    };
    match placed.push(run) {
        Ok(()) => Ok(placed),
        Err(_) => Err(NoMemory),
    }
}

// Leaves of the selected change sets what the plan did not cover.
fn leave(basis: &mut Vec<Rc<Change>>, scope: Scope)
    ensures left { map (λ c. c.value) basis.new.items ≡ left_changes scope (map (λ c. c.value) basis.old.items) }
    ensures either { (basis.new.items ≡ basis.old.items) ⊎ (basis.new.items ≡ []) }
{
    if scope == Scope::All {
        basis.clear();
    }
}

// The runs that a plan over all closed layers covers, the oldest first.
fn sources(alloc: Global, layers: &Layers, scope: Scope) -> Result<Vec<Rc<Run>>, NoMemory>
    ensures { IfOk result (λ runs. map (λ r. r.value) runs.items ≡ sources_of scope (length (own_runs layers.now)) layers.now) }
{
    let mut sources = Vec::new(alloc);
    if scope == Scope::All {
        add_basis(&mut sources, &layers.basis)?;
    }
    add_runs(&mut sources, &layers.runs)?;
    Ok(sources)
}

// Adds the runs of the change sets.
fn add_basis(sources: &mut Vec<Rc<Run>>, basis: &[Rc<Change>]) -> Result<(), NoMemory>
    ensures { OnOk result (map (λ r. r.value) sources.new.items ≡ map (λ r. r.value) sources.old.items ++ map (λ c. c.run.value) (map (λ c. c.value) basis.now)) }
{
    for change in basis {
        add(sources, &change.run)?;
    }
    Ok(())
}

/// Adds the runs, which are shared.
pub(crate) fn add_runs(sources: &mut Vec<Rc<Run>>, runs: &[Rc<Run>]) -> Result<(), NoMemory>
    ensures { OnOk result (map (λ r. r.value) sources.new.items ≡ map (λ r. r.value) sources.old.items ++ map (λ r. r.value) runs.now) }
{
    for run in runs {
        add(sources, run)?;
    }
    Ok(())
}

// Adds a run, which is shared.
fn add(sources: &mut Vec<Rc<Run>>, run: &Rc<Run>) -> Result<(), NoMemory>
    ensures { OnOk result (map (λ r. r.value) sources.new.items ≡ map (λ r. r.value) sources.old.items ++ run.now.value ∷ []) }
{
    let Ok(run) = run.clone() else {
        return Err(NoMemory);
    };
    match sources.push(run) {
        Ok(()) => Ok(()),
        Err(_) => Err(NoMemory),
    }
}
