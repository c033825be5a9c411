//! The session: opened over a host's registry, and worked line by line.

ghost use Rattle.std.specs.Prelude.{◌≡◌, ◌≤◌, IfOk, IfErr, OnOk};
ghost use Rattle.dfs_registry.specs.Body.{greatest_job};
ghost use Rattle.dfs_reply.specs.Text.{text};

use crate::keeping::Kept;
use dfs_host::{Fault, Host};
use dfs_job::{Job, Settings};
use dfs_registry::{RegFault, Registry};
use dfs_reply::{Reply, Word, print};
use dfs_script::{JobWord, Line, LineFault, read_line};
use std::alloc::Global;
use std::collections::BTreeMap;

/// The registry and the live jobs of a script. After a fault it is spent.
#[derive(Drop)]
pub struct Session {
    pub alloc: Global,
    pub registry: Registry,
    /// What jobs are given that begin.
    pub settings: Settings,
    /// The greatest number of a job that is listed or was begun.
    pub greatest: u32,
    /// The live jobs by their words, at most 64.
    pub jobs: BTreeMap<JobWord, Job>,
    /// What the begins of the live jobs selected.
    pub kept: Kept,
    pub spent: bool,
}

// The greatest listed job, and 0 where there is none.
fn greatest_listed(registry: &Registry) -> u32
    ensures greatest { result ≡ greatest_job registry.now.entries }
    ensures last { result ≤ 4294967294 }
{
    match registry.next_job() {
        Some(next) => next - 1,
        None => 4_294_967_294,
    }
}

// The text of a reply.
pub fn text_of(alloc: Global, reply: &Reply) -> Result<Vec<u8>, Fault>
    ensures text { IfOk result (λ bytes. bytes.items ≡ text reply.now) }
    ensures memory { IfErr result (λ fault. fault ≡ Fault.NoMemory) }
{
    let mut bytes = Vec::new(alloc);
    match print(reply, &mut bytes) {
        Ok(()) => Ok(bytes),
        Err(_) => Err(Fault::NoMemory),
    }
}

impl Session {
    ghost use Rattle.std.specs.Prelude.{◌≡◌, ◌≢◌, ◌<◌, ◌⊎◌, ℕ, List, Some, Ok, IfOk, IfErr, IfSome, OnOk, OnErr, IsTrue, IsErrOf};
    ghost use Rattle.std.specs.List.{AllByRecursion, list_all};
    ghost use Rattle.dfs_host.specs.Disk.{IsSettled};
    ghost use Rattle.dfs_host.specs.Fault.{HasFaultCause};
    ghost use Rattle.dfs_host.specs.declared.fault.Fault.{Fault as AFault};
    ghost use Rattle.dfs_host.specs.Host.{HostState, Told, LeavesOnly, ChangesOnly, Only, OnlyReads, bytes_of};
    ghost use Rattle.dfs_registry.specs.Opening.{HasRegCause, IsShut};
    ghost use Rattle.dfs_registry.specs.Reading.{registry as reading};
    ghost use Rattle.dfs_reply.specs.Text.{text};
    ghost use Rattle.dfs_script.specs.Valid.{IsLine};
    ghost use Rattle.dfs_session.specs.Files.{value_on};
    ghost use Rattle.dfs_session.specs.Images.{Holds, HoldsEither, HoldsNow};
    ghost use Rattle.dfs_session.specs.Session.{Session as PlainSession, Registry as Publications, after_command, opened_with, step as step_of};
    ghost use Rattle.dfs_record.specs.declared.SnapName.{SnapName};
    ghost use Rattle.dfs_script.specs.Line.{meaning};
    ghost use Rattle.dfs_script.specs.declared.JobWord.{JobWord as AJobWord};
    ghost use Rattle.dfs_script.specs.declared.Line.TheVariants.{Begin};
    ghost use Rattle.dfs_session.specs.Reads.{ReadsOnce};
    ghost use Rattle.dfs_session.specs.Selected.{is_selected};
    ghost use Rattle.dfs_session.specs.Sound.{IsSound, jobs_of};
    ghost use Rattle.dfs_job.specs.Stands.{AreSettings};
    ghost use Rattle.dfs_session.specs.Sealing.{SealsFor, seals_for};
    ghost use Rattle.dfs_session.specs.Stands.{Stands, LeavesValue};
    ghost use Rattle.dfs_session.specs.Worked.{AreNamed, ChangesNone, HasRoom, OpensAs, IsFromMemory, IsPast, IsRefusedAtOnce, IsShort, IsWorked, StaysInMemory, changes_none, from_memory, has_refused, has_room, job_by, log_by, many_by, names_by, names_of, of_command, of_line, passes_by, passes_of, refused_at_once, settings_by, writes_by};
    ghost use Rattle.dfs_session.specs.Writes.{FileStays, LogsStay, OnlyThese};

    /// Opens the registry of a host. Jobs that begin are given the settings.
    pub fn open<H: Host>(
        alloc: Global,
        host: &mut H,
        settings: Settings,
    ) -> Result<Session, RegFault>
        requires { AreSettings settings }

        // The answer is what the registry's file stood for, but for want of memory and a failed device call.
        ensures answer { Told (H.state host.old) (OpensAs (reading (bytes_of (H.state host.old) 0)) result) }
        ensures sound { IfOk result (IsSound (H.state host.new)) }
        ensures settings { IfOk result (λ session. session.settings ≡ settings) }
        ensures stands { (registry : Publications) → Told (H.state host.old) (((file : ℕ) → IsSettled ((H.state host.old).disk.files file)) → value_on (H.state host.old) ≡ Some registry
            → IfOk result (λ session. Stands (H.state host.new) session (opened_with settings registry))) }
        // What the files stand for stays, whatever the answer.
        ensures value { Told (H.state host.old) (IsSettled ((H.state host.old).disk.files 0) → value_on (H.state host.new) ≡ value_on (H.state host.old)) }
        // Each image since the start has the registry, also where a device call failed.
        ensures images { (registry : Publications) → Told (H.state host.old) (((file : ℕ) → IsSettled ((H.state host.old).disk.files file)) → value_on (H.state host.old) ≡ Some registry
            → LeavesOnly (Holds registry) (H.state host.old) (H.state host.new)) }
        // File 0 alone is written, and where it is no registry, or a damaged one, nothing is, whatever the answer.
        ensures only { Only 0 (H.state host.old) (H.state host.new) }
        ensures shut { Told (H.state host.old) (IsShut (reading (bytes_of (H.state host.old) 0)) → OnlyReads (H.state host.old) (H.state host.new)) }
        // It means what it meant in each image since the start.
        ensures meaning { Told (H.state host.old) (IsSettled ((H.state host.old).disk.files 0)
            → ChangesOnly 0 (λ bytes. reading bytes ≡ reading (bytes_of (H.state host.old) 0)) (H.state host.old) (H.state host.new)) }
        ensures refused { IsErrOf result RegFault.NotRegistry → OnlyReads (H.state host.old) (H.state host.new) }
        ensures broken { (place : ℕ) → IsErrOf result (RegFault.Damaged place) → OnlyReads (H.state host.old) (H.state host.new) }
        // For want of memory nothing is written.
        ensures unwritten { IsErrOf result RegFault.NoMemory → OnlyReads (H.state host.old) (H.state host.new) }
        ensures cause { HasRegCause (H.state host.old) (H.state host.new) result }
    {
        let registry = Registry::open(alloc, host)?;
        let greatest = greatest_listed(&registry);
        Ok(Session {
            alloc,
            registry,
            settings,
            greatest,
            jobs: BTreeMap::new(alloc),
            kept: Kept::new(alloc),
            spent: false,
        })
    }

    /// Works one line of a script, without its LF, and answers its reply: empty for none. After a fault the session is spent.
    pub fn step<H: Host>(&mut self, host: &mut H, line: &[u8]) -> Result<Vec<u8>, Fault>
        requires { IsSound (H.state host.old) self.old }

        ensures sound { OnOk result (IsSound (H.state host.new) self.new) }
        // The settings change by the lines that say so, on every host.
        ensures settings { OnOk result (self.new.settings ≡ settings_by self.old.settings (meaning line.now)) }
        ensures reply { (s : PlainSession) → Told (H.state host.old) (Stands (H.state host.old) self.old s → IfOk result (λ reply. reply.items ≡ text (step_of s line.now).reply)) }
        ensures stands { (s : PlainSession) → Told (H.state host.old) (Stands (H.state host.old) self.old s → OnOk result (Stands (H.state host.new) self.new (step_of s line.now).session)) }
        ensures value { (s : PlainSession) → Told (H.state host.old) (Stands (H.state host.old) self.old s
            → LeavesValue result s.registry (step_of s line.now).session.registry (value_on (H.state host.new))) }
        // Each image since the start has the registry before the line or after it, whatever the answer and also where a device call
        // failed, and once the line was answered every image has the one after it.
        ensures images { (s : PlainSession) → Told (H.state host.old) (Stands (H.state host.old) self.old s
            → LeavesOnly (HoldsEither s.registry (step_of s line.now).session.registry) (H.state host.old) (H.state host.new)) }
        ensures durable { (s : PlainSession) → Told (H.state host.old) (Stands (H.state host.old) self.old s → OnOk result (HoldsNow (step_of s line.now).session.registry (H.state host.new))) }
        // No file is written but the log of the line's job and, by a publication, the registry. So the logs of the
        // publications before the line stay.
        ensures writes { OnlyThese (writes_by (meaning line.now) self.old) (H.state host.old) (H.state host.new) }
        ensures logs { (s : PlainSession) → Told (H.state host.old) (Stands (H.state host.old) self.old s → LogsStay s.registry (H.state host.old) (H.state host.new)) }
        // A publication seals the layers of its job as their run by its manifest, with which its log ends, and writes nothing else there.
        ensures sealed { (s : PlainSession) → Told (H.state host.old) (Stands (H.state host.old) self.old s → OnOk result (seals_for (meaning line.now) s (H.state host.new) self.old self.new)) }
        // No fault but a failed device call comes once the registry is touched: a line that ends with one leaves its file as it was.
        ensures faults { (fault : AFault) → Told (H.state host.old) (IsErrOf result fault → fault ≢ Fault.Disk → FileStays 0 (H.state host.old) (H.state host.new)) }
        ensures cause { HasFaultCause (H.state host.old) (H.state host.new) result }
        // `LogFull` exactly where the log of the line's job refused a piece or the run that the line merges would pass 131,072 tables,
        // but for want of memory and a disk fault; on a host that tells nothing, only where by counts it may need more. And only
        // where the log of that job is too short for what the job selected and made, this line counted.
        ensures passes { (s : PlainSession) → Told (H.state host.old) (Stands (H.state host.old) self.old s → IsErrOf result Fault.LogFull → IsTrue (log_by (meaning line.now) (jobs_of self.new)) ⊎ passes_by (meaning line.now) s self.old) }
        ensures too_many { (s : PlainSession) → Told (H.state host.old) (Stands (H.state host.old) self.old s → passes_by (meaning line.now) s self.old → OnOk result ⊥) }
        // A line that is refused by what the session has in memory meets no fault but want of memory, and makes no call on the host.
        ensures at_once { (s : PlainSession) → Told (H.state host.old) (Stands (H.state host.old) self.old s → refused_at_once (meaning line.now) (step_of s line.now).reply → StaysInMemory result (H.state host.old) (H.state host.new)) }
        // A line that is refused, a damaged snapshot among the causes, and one that only looks at what its job sees write nothing.
        ensures looks { (s : PlainSession) → Told (H.state host.old) (Stands (H.state host.old) self.old s → changes_none (meaning line.now) (step_of s line.now).reply → OnlyReads (H.state host.old) (H.state host.new)) }
        // An operation whose records fit into the open layer of its job, and a flush that finds none there, make no call on the host.
        ensures idle { (s : PlainSession) → Told (H.state host.old) (Stands (H.state host.old) self.old s → has_room s (meaning line.now) → H.state host.new ≡ H.state host.old) }
        // A line that asks for nothing but what the session has meets no other fault on any host, and makes no call.
        ensures in_memory { from_memory (meaning line.now) → StaysInMemory result (H.state host.old) (H.state host.new) }
        ensures full { IsErrOf result Fault.LogFull → IsTrue (log_by (meaning line.now) (jobs_of self.new)) ⊎ IsTrue (many_by (meaning line.now) self.old) }
        ensures refused { IsTrue (has_refused self.new) → IsErrOf result Fault.LogFull }
        ensures past { AllByRecursion (λ e. IsPast e.1) (jobs_of self.new) }
        ensures short { (s : PlainSession) → Told (H.state host.old) (Stands (H.state host.old) self.old s → IsErrOf result Fault.LogFull → IsShort (job_by s (meaning line.now))) }
        // Each live job keeps the names of its begin, as long as it lives.
        ensures names { OnOk result (AreNamed (names_by (meaning line.now)) self.old self.new) }
        // No line but a begin reads.
        ensures unread { names_by (meaning line.now) ≡ None → (H.state host.new).reads ≡ (H.state host.old).reads }
        // A begin reads a change set only the first time that its name comes, and only where no live job selected it.
        ensures once { IfSome (names_by (meaning line.now)) (ReadsOnce (H.state host.old).reads (H.state host.new).reads self.old self.new) }
        // A begin reads nothing where each of its names stands in the begin of a live job.
        ensures kept { (word : AJobWord) (names : List SnapName) → meaning line.now ≡ Ok (Begin word names) → IsTrue (list_all (is_selected self.old) names) → OnOk result ((H.state host.new).reads ≡ (H.state host.old).reads) }
        ensures spent { OnErr result (IsTrue self.new.spent) }
    {
        match self.work(host, line) {
            Ok(reply) => Ok(reply),
            Err(fault) => {
                self.spent = true;
                Err(fault)
            }
        }
    }

    // Works a line.
    fn work<H: Host>(&mut self, host: &mut H, line: &[u8]) -> Result<Vec<u8>, Fault>
        requires { IsSound (H.state host.old) self.old }
        ensures worked { IsWorked (of_line line.now) (H.state host.old) (H.state host.new) self.old self.new result }
        ensures once { IfSome (names_by (meaning line.now)) (ReadsOnce (H.state host.old).reads (H.state host.new).reads self.old self.new) }
        ensures too_many { (s : PlainSession) → Told (H.state host.old) (Stands (H.state host.old) self.old s → passes_by (meaning line.now) s self.old → OnOk result ⊥) }
        ensures at_once { (s : PlainSession) → Told (H.state host.old) (Stands (H.state host.old) self.old s → refused_at_once (meaning line.now) (step_of s line.now).reply → StaysInMemory result (H.state host.old) (H.state host.new)) }
        ensures looks { (s : PlainSession) → Told (H.state host.old) (Stands (H.state host.old) self.old s → changes_none (meaning line.now) (step_of s line.now).reply → OnlyReads (H.state host.old) (H.state host.new)) }
        ensures in_memory { from_memory (meaning line.now) → StaysInMemory result (H.state host.old) (H.state host.new) }
        ensures idle { (s : PlainSession) → Told (H.state host.old) (Stands (H.state host.old) self.old s → has_room s (meaning line.now) → H.state host.new ≡ H.state host.old) }
        ensures unread { names_by (meaning line.now) ≡ None → (H.state host.new).reads ≡ (H.state host.old).reads }
        ensures sealed { (s : PlainSession) → Told (H.state host.old) (Stands (H.state host.old) self.old s → OnOk result (seals_for (meaning line.now) s (H.state host.new) self.old self.new)) }
        ensures faults { (fault : AFault) → Told (H.state host.old) (IsErrOf result fault → fault ≢ Fault.Disk → FileStays 0 (H.state host.old) (H.state host.new)) }
    {
        match read_line(self.alloc, line) {
            Ok(line) => self.obey(host, line),
            Err(LineFault::Long) => text_of(self.alloc, &Reply::Error(Word::Long)),
            Err(LineFault::Syntax) => text_of(self.alloc, &Reply::Error(Word::Syntax)),
            Err(LineFault::NoMemory) => Err(Fault::NoMemory),
        }
    }

    // Does what a line says.
    fn obey<H: Host>(&mut self, host: &mut H, line: Line) -> Result<Vec<u8>, Fault>
        requires sound { IsSound (H.state host.old) self.old }
        requires line { IsLine line }
        ensures worked { IsWorked (of_command line) (H.state host.old) (H.state host.new) self.old self.new result }
        ensures once { IfSome (names_of line) (ReadsOnce (H.state host.old).reads (H.state host.new).reads self.old self.new) }
        ensures too_many { (s : PlainSession) → Told (H.state host.old) (Stands (H.state host.old) self.old s → passes_of line s self.old → OnOk result ⊥) }
        ensures at_once { (s : PlainSession) → Told (H.state host.old) (Stands (H.state host.old) self.old s → IsRefusedAtOnce (line) (after_command s line).reply → StaysInMemory result (H.state host.old) (H.state host.new)) }
        ensures looks { (s : PlainSession) → Told (H.state host.old) (Stands (H.state host.old) self.old s → ChangesNone line (after_command s line).reply → OnlyReads (H.state host.old) (H.state host.new)) }
        ensures in_memory { IsFromMemory line → StaysInMemory result (H.state host.old) (H.state host.new) }
        ensures idle { (s : PlainSession) → Told (H.state host.old) (Stands (H.state host.old) self.old s → HasRoom s line → H.state host.new ≡ H.state host.old) }
        ensures unread { names_of line ≡ None → (H.state host.new).reads ≡ (H.state host.old).reads }
        ensures sealed { (s : PlainSession) → Told (H.state host.old) (Stands (H.state host.old) self.old s → OnOk result (SealsFor line s (H.state host.new) self.old self.new)) }
        ensures faults { (fault : AFault) → Told (H.state host.old) (IsErrOf result fault → fault ≢ Fault.Disk → FileStays 0 (H.state host.old) (H.state host.new)) }
    {
        match line {
            Line::Nothing => text_of(self.alloc, &Reply::Nothing),
            Line::Set { what, value } => self.set(what, value),
            Line::Snapshots => self.tell_snapshots(),
            Line::Begin { job, names } => self.begin(host, job, &names),
            Line::Space { job, op } => self.operate(host, &job, &op),
            Line::Flush { job } => self.flush(host, &job),
            Line::Plan { job, scope, parts } => self.plan(host, &job, scope, parts),
            Line::Part { job, part } => self.part(host, &job, part),
            Line::Stats { job } => self.tell_stats(&job),
            Line::Publish { job, name } => self.publish(host, &job, name),
            Line::End { job } => self.end(&job),
        }
    }
}
