//! Begins: what a job selects, and the job over it.

use crate::Session;
use crate::selection::{Selection, select};
use crate::session::text_of;
use dfs_change::Change;
use dfs_host::{Fault, Host};
use dfs_job::Job;
use dfs_reply::{Reply, Word};
use dfs_script::{JobWord, Names};
use std::rc::Rc;

// How many jobs may live at once, and the last number of a job.
const MOST_LIVE: usize = 64;

const LAST_JOB: u32 = 4_294_967_294;

impl Session {
    ghost use Rattle.std.specs.Prelude.{◌≡◌, ◌<◌, nat_le, ◌||◌, List, length, map, None};
    ghost use Rattle.std.specs.List.{AllByRecursion, AllZip, list_all};
    ghost use Rattle.dfs_host.specs.Host.{OnlyReads, Told};
    ghost use Rattle.dfs_record.specs.Delta.{Delta};
    ghost use Rattle.dfs_job.specs.Stands.{IsStoredFor};
    ghost use Rattle.dfs_session.specs.Kept.{IsInside, IsOwn, begin_in};
    ghost use Rattle.dfs_session.specs.Reads.{ReadsOnce};
    ghost use Rattle.dfs_session.specs.Selected.{is_listed};
    ghost use Rattle.dfs_session.specs.Sound.{IsEntry, IsSound, listed_in, jobs_of, live_in};
    ghost use Rattle.dfs_script.specs.declared.Line.TheVariants.{Begin};
    ghost use Rattle.dfs_session.specs.Session.{Session as PlainSession, begins};
    ghost use Rattle.dfs_session.specs.Stands.{Stands};
    ghost use Rattle.dfs_session.specs.Worked.{IsRefusal, IsRefusedAtOnce, IsWorked, StaysInMemory, beginning, beginning_over};

    /// Begins a job over the publications of the names.
    pub(crate) fn begin<H: Host>(
        &mut self,
        host: &mut H,
        word: JobWord,
        names: &Names,
    ) -> Result<Vec<u8>, Fault>
        requires { IsSound (H.state host.old) self.old }
        ensures worked { IsWorked (beginning word names.now) (H.state host.old) (H.state host.new) self.old self.new result }
        ensures once { ReadsOnce (H.state host.old).reads (H.state host.new).reads self.old self.new names.now }
        ensures at_once { (s : PlainSession) → Told (H.state host.old) (Stands (H.state host.old) self.old s → IsRefusedAtOnce (Begin word names.now) (begins s word names.now).reply → StaysInMemory result (H.state host.old) (H.state host.new)) }
        ensures looks { (s : PlainSession) → Told (H.state host.old) (Stands (H.state host.old) self.old s → IsRefusal (begins s word names.now).reply → OnlyReads (H.state host.old) (H.state host.new)) }
    {
        if self.jobs.contains_key(&word) {
            return text_of(self.alloc, &Reply::Error(Word::LiveJob));
        }
        if self.is_full() {
            return text_of(self.alloc, &Reply::Error(Word::Full));
        }
        if !self.lists(names) {
            return text_of(self.alloc, &Reply::Error(Word::NoSnap));
        }
        match select(self.alloc, host, &self.registry, &self.kept, names)? {
            Selection::Changes(changes) => self.begin_over(host, word, changes),
            Selection::Damaged(name) => text_of(self.alloc, &Reply::Damaged(name)),
        }
    }

    // Whether no job can be begun.
    fn is_full(&self) -> bool
        ensures { result ≡ (nat_le 64 (length (jobs_of self.now)) || nat_le 4294967294 self.now.greatest) }
    {
        self.jobs.len() >= MOST_LIVE || self.greatest >= LAST_JOB
    }

    // Whether each of the names is that of a publication.
    fn lists(&self, names: &Names) -> bool
        ensures { result ≡ list_all (is_listed (listed_in self.now)) names.now }
    {
        for index in 0..names.len() {
            if self.registry.find(names.get(index)).is_none() {
                return false;
            }
        }
        true
    }

    // Begins a job over the change sets that it selected.
    fn begin_over<H: Host>(
        &mut self,
        host: &mut H,
        word: JobWord,
        changes: Vec<Rc<Change>>,
    ) -> Result<Vec<u8>, Fault>
        requires sound { IsSound (H.state host.old) self.old }
        requires entries { AllByRecursion (IsEntry (listed_in self.old)) (map (λ c. c.value) changes.items) }
        requires inside { AllByRecursion IsInside (map (λ c. c.value) changes.items) }
        requires opened { Told (H.state host.old) (AllByRecursion (IsOwn (H.state host.old)) (map (λ c. c.value) changes.items)) }
        requires last { self.old.greatest < 4294967294 }
        requires absent { live_in self.old word ≡ None }

        ensures worked { (basis : List Delta) → Told (H.state host.old) (AllZip (IsStoredFor (H.state host.old)) (map (λ c. c.value) changes.items) basis)
            → IsWorked (beginning_over word (map (λ c. c.listed.name) (map (λ c. c.value) changes.items)) basis) (H.state host.old) (H.state host.new) self.old self.new result }
        ensures begun { self.old.greatest < self.new.greatest → begin_in self.new.kept self.new.greatest ≡ map (λ c. c.value) changes.items }
        ensures reads { (H.state host.new).reads ≡ (H.state host.old).reads }
    {
        let number = self.greatest + 1;
        let reply = text_of(self.alloc, &Reply::Job(number))?;
        if self.kept.keep(self.alloc, number, &changes).is_err() {
            return Err(Fault::NoMemory);
        }
        let job = Job::begin(self.alloc, host, number, changes, self.settings)?;
        match self.jobs.insert(word, job) {
            Ok(_) => {
                self.greatest = number;
                Ok(reply)
            }
            Err(_) => Err(Fault::NoMemory),
        }
    }
}
