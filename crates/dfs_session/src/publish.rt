//! Publications: the changes of a job in its log, and then the entry of the registry.

ghost use Rattle.std.specs.Prelude.{◌≡◌, ◌≤◌, ◌<◌, ◌++◌, ◌∷◌, [], ℕ, List, false, length, Some, IsTrue, IsFalse, IfOk, IfErr, OnOk, IsErrOf};
ghost use Rattle.dfs_host.specs.Disk.{IsSettled};
ghost use Rattle.dfs_host.specs.Fault.{HasFaultCause};
ghost use Rattle.dfs_host.specs.Host.{Told, Only, ChangesOnly, bytes_of};
ghost use Rattle.dfs_record.specs.Name.{is_between};
ghost use Rattle.dfs_registry.specs.Body.{lists_name, lists_job};
ghost use Rattle.dfs_registry.specs.Reading.{HasOldOrNew};
ghost use Rattle.dfs_registry.specs.Standing.{RegistryStands};
ghost use Rattle.dfs_reply.specs.Text.{text};
ghost use Rattle.dfs_reply.specs.declared.Reply.{Reply as AReply};

use crate::Session;
use crate::session::text_of;
use dfs_host::{Fault, Host};
use dfs_record::SnapName;
use dfs_registry::{Listed, PrepFault, Registry};
use dfs_reply::{Reply, Word};
use dfs_script::JobWord;
use std::alloc::Global;

// How many publications there may be.
const MOST_PUBLICATIONS: usize = 4096;

// The text of the reply to a publication.
fn published(alloc: Global, name: &SnapName, count: u64) -> Result<Vec<u8>, Fault>
    ensures text { IfOk result (λ bytes. bytes.items ≡ text (Reply.Published name.now count)) }
    ensures memory { IfErr result (λ fault. fault ≡ Fault.NoMemory) }
{
    match name.copy(alloc) {
        Ok(name) => text_of(alloc, &Reply::Published { name, count }),
        Err(_) => Err(Fault::NoMemory),
    }
}

// Lists a publication whose name and job are new.
fn list<H: Host>(host: &mut H, registry: &mut Registry, listed: Listed) -> Result<(), Fault>
    requires live { IsFalse registry.old.spent }
    requires name_apart { lists_name registry.old.entries listed.name ≡ false }
    requires job_apart { lists_job registry.old.entries listed.job ≡ false }
    requires job_range { IsTrue (is_between 1 4294967294 listed.job) }
    requires few { length registry.old.entries < 4096 }
    requires stands { Told (H.state host.old) (RegistryStands (H.state host.old) registry.old) }

    ensures listed { OnOk result (registry.new.entries ≡ registry.old.entries ++ listed ∷ []) }
    ensures live { OnOk result (IsFalse registry.new.spent) }
    ensures stands { Told (H.state host.old) (OnOk result (RegistryStands (H.state host.new) registry.new)) }
    // Each image since the start has the list before or the list with the entry.
    ensures images { Told (H.state host.old) (ChangesOnly 0 (HasOldOrNew registry.old.entries listed) (H.state host.old) (H.state host.new)) }
    ensures only { Only 0 (H.state host.old) (H.state host.new) }
    ensures reads { (H.state host.new).reads ≡ (H.state host.old).reads }
    ensures memory { IsErrOf result Fault.NoMemory → H.state host.new ≡ H.state host.old }
    ensures never_full { IsErrOf result Fault.LogFull → ⊥ }
    ensures never_changed { (file at : ℕ) → IsErrOf result (Fault.Changed file at) → ⊥ }
    ensures cause { HasFaultCause (H.state host.old) (H.state host.new) result }
{
    match registry.prepare(listed) {
        Ok(pending) => match registry.commit(host, pending) {
            Ok(()) => Ok(()),
            Err(_) => Err(Fault::Disk),
        },
        Err(PrepFault::NoMemory) => Err(Fault::NoMemory),
        Err(PrepFault::Taken | PrepFault::Full) => unreachable!(),
    }
}

impl Session {
    ghost use Rattle.std.specs.Prelude.{◌≡◌, ◌≢◌, ◌<◌, false, length, IsErrOf, IsSome, OnOk};
    ghost use Rattle.dfs_host.specs.declared.fault.Fault.{Fault as AFault};
    ghost use Rattle.dfs_host.specs.Host.{Told};
    ghost use Rattle.dfs_registry.specs.Body.{lists_name};
    ghost use Rattle.dfs_script.specs.declared.Line.TheVariants.{Publish};
    ghost use Rattle.dfs_session.specs.Session.{Session as PlainSession, live_job, publishes_for};
    ghost use Rattle.dfs_session.specs.Sound.{IsSound, listed_in, live_in};
    ghost use Rattle.dfs_session.specs.Sealing.{AddsSealed};
    ghost use Rattle.dfs_session.specs.Stands.{Stands};
    ghost use Rattle.dfs_session.specs.Worked.{IsRefusedAtOnce, IsWorked, NameIsFree, PublicationPasses, StaysInMemory, publishing, publishing_anew};
    ghost use Rattle.dfs_session.specs.Writes.{FileStays};

    /// Publishes the changes of a job, which ends.
    pub(crate) fn publish<H: Host>(
        &mut self,
        host: &mut H,
        word: &JobWord,
        name: SnapName,
    ) -> Result<Vec<u8>, Fault>
        requires { IsSound (H.state host.old) self.old }
        ensures worked { IsWorked (publishing word.now name) (H.state host.old) (H.state host.new) self.old self.new result }
        ensures too_many { (s : PlainSession) → Told (H.state host.old) (Stands (H.state host.old) self.old s → NameIsFree s word.now name × PublicationPasses (live_in self.old word.now) (live_job s word.now) → OnOk result ⊥) }
        ensures at_once { (s : PlainSession) → Told (H.state host.old) (Stands (H.state host.old) self.old s → IsRefusedAtOnce (Publish word.now name) (publishes_for s word.now name).reply → StaysInMemory result (H.state host.old) (H.state host.new)) }
        ensures faults { (fault : AFault) → Told (H.state host.old) (IsErrOf result fault → fault ≢ Fault.Disk → FileStays 0 (H.state host.old) (H.state host.new)) }
        ensures sealed { (s : PlainSession) → Told (H.state host.old) (Stands (H.state host.old) self.old s → NameIsFree s word.now name → OnOk result (AddsSealed (H.state host.new) self.old self.new (live_in self.old word.now) (live_job s word.now))) }
        ensures reads { (H.state host.new).reads ≡ (H.state host.old).reads }
    {
        if !self.jobs.contains_key(word) {
            return text_of(self.alloc, &Reply::Error(Word::NoJob));
        }
        if self.registry.find(&name).is_some() {
            return text_of(self.alloc, &Reply::Error(Word::Taken));
        }
        if self.registry.count() >= MOST_PUBLICATIONS {
            return text_of(self.alloc, &Reply::Error(Word::Full));
        }
        self.publish_anew(host, word, name)
    }

    // Publishes under a new name. The reply's text is made before the registry is written, so that no memory is taken from there on.
    fn publish_anew<H: Host>(
        &mut self,
        host: &mut H,
        word: &JobWord,
        name: SnapName,
    ) -> Result<Vec<u8>, Fault>
        requires sound { IsSound (H.state host.old) self.old }
        requires anew { lists_name (listed_in self.old) name ≡ false }
        requires few { length (listed_in self.old) < 4096 }

        ensures worked { IsWorked (publishing_anew word.now name) (H.state host.old) (H.state host.new) self.old self.new result }
        ensures too_many { (s : PlainSession) → Told (H.state host.old) (Stands (H.state host.old) self.old s → PublicationPasses (live_in self.old word.now) (live_job s word.now) → OnOk result ⊥) }
        ensures faults { (fault : AFault) → Told (H.state host.old) (IsErrOf result fault → fault ≢ Fault.Disk → FileStays 0 (H.state host.old) (H.state host.new)) }
        ensures sealed { (s : PlainSession) → Told (H.state host.old) (Stands (H.state host.old) self.old s → IsSome (live_job s word.now) → OnOk result (AddsSealed (H.state host.new) self.old self.new (live_in self.old word.now) (live_job s word.now))) }
        ensures reads { (H.state host.new).reads ≡ (H.state host.old).reads }
    {
        let alloc = self.alloc;
        let Some(job) = self.jobs.get_mut(word) else {
            return text_of(alloc, &Reply::Error(Word::NoJob));
        };
        let number = job.ids.job;
        let sealed = job.publish_tables(alloc, host)?;
        let reply = published(alloc, &name, sealed.count)?;
        let listed = Listed {
            name,
            job: number,
            at: sealed.at,
            len: sealed.len,
            count: sealed.count,
        };
        list(host, &mut self.registry, listed)?;
        let _ = self.jobs.remove(word);
        self.kept.end(number);
        Ok(reply)
    }
}
