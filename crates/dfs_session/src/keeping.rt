//! The changes that are kept for the begins of live jobs.

ghost use Rattle.std.specs.Prelude.{◌≡◌, ◌≢◌, ◌⊎◌, ℕ, [], Some, None, map, IfNone, IfSome, OnOk};
ghost use Rattle.dfs_session.specs.Kept.{IsIndexed, IsKept, begin_in, kept_at, use_of};
ghost use Rattle.dfs_session.specs.declared.keeping.Use.{Use as AUse};

use dfs_change::Change;
use dfs_record::NoMemory;
use std::alloc::Global;
use std::collections::BTreeMap;
use std::ops::Bound;
use std::rc::Rc;

/// That a publication was selected by a live job: the numbers of both, first that of the job that made it.
#[derive(Clone, Copy, Debug, PartialEq, Eq, PartialOrd, Ord)]
pub struct Use {
    pub change: u32,
    pub job: u32,
}

/// The changes that the begins of live jobs selected, found by publication. No count of uses is needed: a publication has an entry
/// for each job that uses it.
#[derive(Drop)]
pub struct Kept {
    pub uses: BTreeMap<Use, Rc<Change>>,
    /// By the number of the job, in the order of its names.
    pub begins: BTreeMap<u32, Vec<Rc<Change>>>,
}

impl Kept {
    /// Nothing is kept.
    pub fn new(alloc: Global) -> Kept
        ensures none { (number : ℕ) → begin_in result number ≡ [] }
        ensures indexed { IsIndexed result }
    {
        Kept {
            uses: BTreeMap::new(alloc),
            begins: BTreeMap::new(alloc),
        }
    }

    /// A change that is kept of the publication that a job made.
    pub fn find(&self, job: u32) -> Option<&Rc<Change>>
        ensures found { IfSome result (λ change. (user : ℕ) × (kept_at self.now (record { change = job; job = user }) ≡ Some change.now.value)) }
        ensures none { IfNone result (IsKept self.now job → ⊥) }
    {
        let first = Use {
            change: job,
            job: 0,
        };
        let last = Use {
            change: job,
            job: u32::MAX,
        };
        match self
            .uses
            .range((Bound::Included(first), Bound::Included(last)))
            .next()
        {
            Some((_, change)) => Some(change),
            None => None,
        }
    }

    /// Keeps what a job's begin selected.
    pub fn keep(
        &mut self,
        alloc: Global,
        number: u32,
        changes: &[Rc<Change>],
    ) -> Result<(), NoMemory>
        requires indexed { IsIndexed self.old }
        requires anew { begin_in self.old number ≡ [] }

        ensures indexed { OnOk result (IsIndexed self.new) }
        ensures begun { OnOk result (begin_in self.new number ≡ map (λ c. c.value) changes.now) }
        ensures others { OnOk result ((other : ℕ) → other ≢ number → begin_in self.new other ≡ begin_in self.old other) }
    {
        let mut begun = Vec::new(alloc);
        for change in changes {
            self.add(number, change)?;
            if begun.push(change.clone()?).is_err() {
                return Err(NoMemory);
            }
        }
        match self.begins.insert(number, begun) {
            Ok(_) => Ok(()),
            Err(_) => Err(NoMemory),
        }
    }

    // Keeps one change for a job.
    fn add(&mut self, number: u32, change: &Rc<Change>) -> Result<(), NoMemory>
        ensures here { OnOk result (kept_at self.new (use_of number change.now.value) ≡ Some change.now.value) }
        ensures others { OnOk result ((u : AUse) → (u ≡ use_of number change.now.value) ⊎ (kept_at self.new u ≡ kept_at self.old u)) }
        ensures begins { self.new.begins ≡ self.old.begins }
    {
        let entry = Use {
            change: change.listed.job,
            job: number,
        };
        match self.uses.insert(entry, change.clone()?) {
            Ok(_) => Ok(()),
            Err(_) => Err(NoMemory),
        }
    }

    /// Keeps nothing more for a job.
    pub fn end(&mut self, number: u32)
        requires { IsIndexed self.old }

        ensures indexed { IsIndexed self.new }
        ensures ended { begin_in self.new number ≡ [] }
        ensures others { (other : ℕ) → other ≢ number → begin_in self.new other ≡ begin_in self.old other }
    {
        let Some(changes) = self.begins.remove(&number) else {
            return;
        };
        for change in &changes {
            self.forget(number, change);
        }
    }

    // Keeps a change for a job no more.
    fn forget(&mut self, number: u32, change: &Change)
        ensures here { kept_at self.new (use_of number change.now) ≡ None }
        ensures others { (u : AUse) → (u ≡ use_of number change.now) ⊎ (kept_at self.new u ≡ kept_at self.old u) }
        ensures begins { self.new.begins ≡ self.old.begins }
    {
        let _ = self.uses.remove(&Use {
            change: change.listed.job,
            job: number,
        });
    }
}
