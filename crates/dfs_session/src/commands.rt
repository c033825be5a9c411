//! The commands of a live job, and the list of snapshots.

ghost use Rattle.std.specs.Prelude.{◌≡◌, map, IfOk, IfErr};
ghost use Rattle.dfs_session.specs.Session.{told as told_by, told_of_part as part_told, told_of_plan as plan_told};

use crate::Session;
use crate::session::text_of;
use crate::settings::with_setting;
use dfs_host::{Fault, Host};
use dfs_job::{JobPart, Planned};
use dfs_ops::OpReply;
use dfs_path::{Op, Scope};
use dfs_registry::Registry;
use dfs_reply::{Reply, SnapList, Word};
use dfs_script::{JobWord, Setting};
use std::alloc::Global;

// The reply that tells an answer.
fn told(answer: OpReply) -> Reply
    ensures { result ≡ told_by answer }
{
    match answer {
        OpReply::Done => Reply::Ok,
        OpReply::Entry(entry) => Reply::Stat(entry),
        OpReply::Listing(listing) => Reply::Listing(listing),
        OpReply::Root => Reply::Error(Word::Root),
        OpReply::NoEnt => Reply::Error(Word::NoEnt),
        OpReply::NotDir => Reply::Error(Word::NotDir),
        OpReply::IsDir => Reply::Error(Word::IsDir),
        OpReply::Exists => Reply::Error(Word::Exists),
        OpReply::NotEmpty => Reply::Error(Word::NotEmpty),
        OpReply::Inside => Reply::Error(Word::Inside),
        OpReply::Full => Reply::Error(Word::Full),
    }
}

// The reply that tells what became of a plan.
fn told_of_plan(planned: Planned) -> Reply
    ensures { result ≡ plan_told planned }
{
    match planned {
        Planned::Made => Reply::Ok,
        Planned::Busy => Reply::Error(Word::Busy),
        Planned::Full => Reply::Error(Word::Full),
    }
}

// The reply that tells what became of a part.
fn told_of_part(part: JobPart) -> Reply
    ensures { result ≡ part_told part }
{
    match part {
        JobPart::Merged => Reply::Ok,
        JobPart::Last => Reply::Merged,
        JobPart::NoPlan => Reply::Error(Word::NoPlan),
        JobPart::Range => Reply::Error(Word::Range),
        JobPart::Done => Reply::Error(Word::Done),
    }
}

// The names and jobs of the publications, in the registry's order.
fn snapshots(alloc: Global, registry: &Registry) -> Result<SnapList, Fault>
    ensures list { IfOk result (λ list. list ≡ map (λ l. (l.name, l.job)) registry.now.entries) }
    ensures memory { IfErr result (λ fault. fault ≡ Fault.NoMemory) }
{
    let mut list = SnapList::new(alloc);
    for index in 0..registry.count() {
        let listed = registry.entry(index);
        let Ok(name) = listed.name.copy(alloc) else {
            return Err(Fault::NoMemory);
        };
        if list.push((name, listed.job)).is_err() {
            return Err(Fault::NoMemory);
        }
    }
    Ok(list)
}

impl Session {
    ghost use Rattle.std.specs.Prelude.{◌≡◌, IfErr, IfSome, IsTrue, OnOk};
    ghost use Rattle.dfs_host.specs.Host.{OnlyReads, Told};
    ghost use Rattle.dfs_path.specs.Op.{IsOp};
    ghost use Rattle.dfs_script.specs.Scopes.{is_parts};
    ghost use Rattle.dfs_script.specs.declared.Line.TheVariants.{Flush, Part, Plan, Space};
    ghost use Rattle.dfs_script.specs.Settings.{is_in_range};
    ghost use Rattle.dfs_session.specs.Session.{Session as PlainSession, ends, flushes, live_job, merges, operates_for, plans, tells_snapshots, tells_stats};
    ghost use Rattle.dfs_session.specs.Sound.{IsSound, IsSoundInMemory, live_in};
    ghost use Rattle.dfs_session.specs.Stands.{Stands};
    ghost use Rattle.dfs_session.specs.Worked.{HasRoom, IsRefusedAtOnce, IsSeen, IsWorked, PartPasses, StaysInMemory, IsWorkedInMemory, flushing, merging, operating, plain, planning, setting};

    /// Sets what jobs that begin later are given.
    pub(crate) fn set(&mut self, what: Setting, value: u64) -> Result<Vec<u8>, Fault>
        requires sound { IsSoundInMemory self.old }
        requires range { IsTrue (is_in_range what value) }
        ensures worked { IsWorkedInMemory (setting what value) self.old self.new result }
        ensures memory { IfErr result (λ fault. fault ≡ Fault.NoMemory) }
    {
        self.settings = with_setting(self.settings, what, value);
        text_of(self.alloc, &Reply::Ok)
    }

    /// Tells the names and jobs of the publications.
    pub(crate) fn tell_snapshots(&self) -> Result<Vec<u8>, Fault>
        requires { IsSoundInMemory self.now }
        ensures worked { IsWorkedInMemory (plain tells_snapshots) self.now self.now result }
        ensures memory { IfErr result (λ fault. fault ≡ Fault.NoMemory) }
    {
        let list = snapshots(self.alloc, &self.registry)?;
        text_of(self.alloc, &Reply::Snapshots(list))
    }

    /// Applies an operation to the namespace of a live job.
    pub(crate) fn operate<H: Host>(
        &mut self,
        host: &mut H,
        word: &JobWord,
        op: &Op,
    ) -> Result<Vec<u8>, Fault>
        requires sound { IsSound (H.state host.old) self.old }
        requires op { IsOp op.now }
        ensures worked { IsWorked (operating word.now op.now) (H.state host.old) (H.state host.new) self.old self.new result }
        ensures at_once { (s : PlainSession) → Told (H.state host.old) (Stands (H.state host.old) self.old s → IsRefusedAtOnce (Space word.now op.now) (operates_for s word.now op.now).reply → StaysInMemory result (H.state host.old) (H.state host.new)) }
        ensures looks { (s : PlainSession) → Told (H.state host.old) (Stands (H.state host.old) self.old s → IsSeen (operates_for s word.now op.now).reply → OnlyReads (H.state host.old) (H.state host.new)) }
        ensures idle { (s : PlainSession) → Told (H.state host.old) (Stands (H.state host.old) self.old s → HasRoom s (Space word.now op.now) → H.state host.new ≡ H.state host.old) }
        ensures reads { (H.state host.new).reads ≡ (H.state host.old).reads }
    {
        let Some(job) = self.jobs.get_mut(word) else {
            return text_of(self.alloc, &Reply::Error(Word::NoJob));
        };
        let answer = job.op(self.alloc, host, op)?;
        text_of(self.alloc, &told(answer))
    }

    /// Closes the open layer of a live job.
    pub(crate) fn flush<H: Host>(&mut self, host: &mut H, word: &JobWord) -> Result<Vec<u8>, Fault>
        requires { IsSound (H.state host.old) self.old }
        ensures worked { IsWorked (flushing word.now) (H.state host.old) (H.state host.new) self.old self.new result }
        ensures at_once { (s : PlainSession) → Told (H.state host.old) (Stands (H.state host.old) self.old s → IsRefusedAtOnce (Flush word.now) (flushes s word.now).reply → StaysInMemory result (H.state host.old) (H.state host.new)) }
        ensures idle { (s : PlainSession) → Told (H.state host.old) (Stands (H.state host.old) self.old s → HasRoom s (Flush word.now) → H.state host.new ≡ H.state host.old) }
        ensures reads { (H.state host.new).reads ≡ (H.state host.old).reads }
    {
        let Some(job) = self.jobs.get_mut(word) else {
            return text_of(self.alloc, &Reply::Error(Word::NoJob));
        };
        job.flush(self.alloc, host)?;
        text_of(self.alloc, &Reply::Ok)
    }

    /// Begins a plan of a live job.
    pub(crate) fn plan<H: Host>(
        &mut self,
        host: &mut H,
        word: &JobWord,
        scope: Scope,
        parts: Option<u16>,
    ) -> Result<Vec<u8>, Fault>
        requires sound { IsSound (H.state host.old) self.old }
        requires parts { IfSome parts (λ n. IsTrue (is_parts n)) }
        ensures worked { IsWorked (planning word.now scope parts) (H.state host.old) (H.state host.new) self.old self.new result }
        ensures at_once { (s : PlainSession) → Told (H.state host.old) (Stands (H.state host.old) self.old s → IsRefusedAtOnce (Plan word.now scope parts) (plans s word.now scope parts).reply → StaysInMemory result (H.state host.old) (H.state host.new)) }
        ensures reads { (H.state host.new).reads ≡ (H.state host.old).reads }
    {
        let Some(job) = self.jobs.get_mut(word) else {
            return text_of(self.alloc, &Reply::Error(Word::NoJob));
        };
        let answer = job.plan(self.alloc, host, scope, parts)?;
        text_of(self.alloc, &told_of_plan(answer))
    }

    /// Merges a part of the plan of a live job.
    pub(crate) fn part<H: Host>(
        &mut self,
        host: &mut H,
        word: &JobWord,
        part: u64,
    ) -> Result<Vec<u8>, Fault>
        requires { IsSound (H.state host.old) self.old }
        ensures worked { IsWorked (merging word.now part) (H.state host.old) (H.state host.new) self.old self.new result }
        ensures too_many { (s : PlainSession) → Told (H.state host.old) (Stands (H.state host.old) self.old s → PartPasses (live_in self.old word.now) (live_job s word.now) part → OnOk result ⊥) }
        ensures at_once { (s : PlainSession) → Told (H.state host.old) (Stands (H.state host.old) self.old s → IsRefusedAtOnce (Part word.now part) (merges s word.now part).reply → StaysInMemory result (H.state host.old) (H.state host.new)) }
        ensures reads { (H.state host.new).reads ≡ (H.state host.old).reads }
    {
        let Some(job) = self.jobs.get_mut(word) else {
            return text_of(self.alloc, &Reply::Error(Word::NoJob));
        };
        let answer = job.part(self.alloc, host, part)?;
        text_of(self.alloc, &told_of_part(answer))
    }

    /// Tells how many closed layers a live job has, and how many keys are in them.
    pub(crate) fn tell_stats(&self, word: &JobWord) -> Result<Vec<u8>, Fault>
        requires { IsSoundInMemory self.now }
        ensures worked { IsWorkedInMemory (plain (λ s. tells_stats s word.now)) self.now self.now result }
        ensures memory { IfErr result (λ fault. fault ≡ Fault.NoMemory) }
    {
        let Some(job) = self.jobs.get(word) else {
            return text_of(self.alloc, &Reply::Error(Word::NoJob));
        };
        let stats = job.stats();
        text_of(
            self.alloc,
            &Reply::Stats {
                runs: stats.runs,
                records: stats.records,
            },
        )
    }

    /// Ends a live job, which publishes nothing.
    pub(crate) fn end(&mut self, word: &JobWord) -> Result<Vec<u8>, Fault>
        requires { IsSoundInMemory self.old }
        ensures worked { IsWorkedInMemory (plain (λ s. ends s word.now)) self.old self.new result }
        ensures memory { IfErr result (λ fault. fault ≡ Fault.NoMemory) }
    {
        let Some(job) = self.jobs.remove(word) else {
            return text_of(self.alloc, &Reply::Error(Word::NoJob));
        };
        self.kept.end(job.ids.job);
        job.drop_job();
        text_of(self.alloc, &Reply::Ok)
    }
}
