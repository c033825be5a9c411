//! The matches between sources.

ghost use Rattle.std.specs.Prelude.{◌≡◌, ℕ, ◌<◌, IfOk, IsFalse};
ghost use Rattle.dfs_merge.specs.Sources.{sources as sources_of};
ghost use Rattle.dfs_merge.specs.Tree.{winner_of, IsTournament, AreReplayed, ArePassedIn};

use crate::rank::{better, has_key_of, pass_same};
use dfs_record::{NoMemory, Records};
use std::alloc::Global;

/// Sources side by side, and which of them stands first: each match is between two halves, and has the better of their
/// winners. When a source changes, its own matches alone are played again.
#[derive(Drop)]
pub(crate) enum Tree {
    /// One source, by its index.
    Source(usize),
    /// The right half begins at the source `middle`.
    Match {
        winner: usize,
        middle: usize,
        left: Box<Tree>,
        right: Box<Tree>,
    },
}

impl Tree {
    /// The matches of the sources from `low` up to, not with, `high`.
    pub(crate) fn build<C: Records>(
        alloc: Global,
        sources: &[C],
        low: usize,
        high: usize,
    ) -> Result<Tree, NoMemory>
        requires { low < high }
        ensures { IfOk result (IsTournament (sources_of C.rest C.unread C.bound sources.now) low high) }
    {
        if high - low == 1 {
            return Ok(Tree::Source(low));
        }
        let middle = low + (high - low) / 2;
        let left = Tree::build(alloc, sources, low, middle)?;
        let right = Tree::build(alloc, sources, middle, high)?;
        let winner = better(sources, left.winner(), right.winner());
        Ok(Tree::Match {
            winner,
            middle,
            left: boxed(alloc, left)?,
            right: boxed(alloc, right)?,
        })
    }

    /// The source that stands first.
    pub(crate) fn winner(&self) -> usize
        ensures { result ≡ winner_of self.now }
    {
        match self {
            Tree::Source(index) => *index,
            Tree::Match { winner, .. } => *winner,
        }
    }

    /// Plays the matches of a source again, which has changed.
    pub(crate) fn replay<C: Records>(&mut self, sources: &[C], source: usize)
        ensures { AreReplayed (sources_of C.rest C.unread C.bound sources.now) source self.old self.new }
    {
        if let Tree::Match {
            winner,
            middle,
            left,
            right,
        } = self
        {
            if source < *middle {
                left.replay(sources, source);
            } else {
                right.replay(sources, source);
            }
            *winner = better(sources, left.winner(), right.winner());
        }
    }

    /// Takes the first key of a source off all others, plays the matches of those that had it again, and answers
    /// whether there were such. A half whose winner has another key is left alone.
    pub(crate) fn pass_others<C: Records>(&mut self, sources: &mut Vec<C>, first: usize) -> bool
        ensures passed { ArePassedIn C.rest C.unread C.bound C.Comes first self.old self.new sources.old.items sources.new.items }
        ensures same { IsFalse result → (sources.new.items ≡ sources.old.items) × (winner_of self.new ≡ winner_of self.old) }
    {
        match self {
            Tree::Source(index) => pass_same(sources, *index, first),
            Tree::Match {
                winner,
                left,
                right,
                ..
            } => {
                if *winner != first && !has_key_of(sources, *winner, first) {
                    return false;
                }
                let in_left = left.pass_others(sources, first);
                let in_right = right.pass_others(sources, first);
                if !in_left && !in_right {
                    return false;
                }
                *winner = better(sources, left.winner(), right.winner());
                true
            }
        }
    }
}

fn boxed(alloc: Global, tree: Tree) -> Result<Box<Tree>, NoMemory>
    ensures { IfOk result (λ b. b.value ≡ tree) }
{
    match Box::new(alloc, tree) {
        Ok(boxed) => Ok(boxed),
        Err(_) => Err(NoMemory),
    }
}
