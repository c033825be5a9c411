//! Lists of fences.

ghost use Rattle.std.specs.Prelude.{◌≡◌, ◌≤◌, ◌<◌, ◌++◌, ◌∷◌, ◌↔◌, ℕ, List, [], IfOk, IfSome, IsSome, IsSomeAnd, None, OnErr, OnOk, Some, length, option_copied, slice_get};
ghost use Rattle.dfs_record.specs.Lend.{key_of};
ghost use Rattle.dfs_record.specs.Name.{is_between};
ghost use Rattle.dfs_fence.specs.declared.fence.Fence.{Fence};
ghost use Rattle.dfs_fence.specs.Cover.{CoversAt, NoneCovers};
ghost use Rattle.dfs_fence.specs.Index.{AreFences, IsAboveLast, IsFence, IsIndex, IsNoIndex, last_end, most_fences};
ghost use Rattle.dfs_fence.specs.Ranges.{AreThoseThatMeet, NoneMeets, has_room};
ghost use Rattle.dfs_fence.specs.Points.{IsBeginsPoint, IsEndsPoint, IsFromPoint, IsToPoint};
ghost use Rattle.dfs_fence.specs.Reading.{BeginsAsIndex, fence_at, is_above, may_follow as may_follow_end};
ghost use Rattle.dfs_fence.specs.Spelled.{AreSpelled, NoneSpelled};

use crate::Fence;
use crate::reading::fence_front;
use dfs_record::{Key, KeyRef, NoMemory, read_u32};
use std::alloc::Global;
use std::marker::Model;

/// The most fences of an index.
pub(crate) const MOST_FENCES: u32 = 4096;

/// The fences of a table, seen as their list.
#[derive(Debug, Drop)]
pub struct Fences {
    pub(crate) fences: Vec<Fence>,
}

impl Model for Fences {
    ghost use Rattle.std.specs.Prelude.{List};
    ghost use Rattle.dfs_fence.specs.declared.fence.Fence.{Fence};
    ghost use Rattle.dfs_fence.specs.Index.{AreFences};

    ghost Value = { List Fence };

    ghost view = { λ fences. fences.fences.items };

    ghost invariant = { λ fences. AreFences fences.fences.items };
}

impl Fences {
    /// No fence yet. Memory is taken as they come.
    pub fn new(alloc: Global) -> Fences
        ensures { result ≡ [] }
    {
        Fences {
            fences: Vec::new(alloc),
        }
    }

    /// How many fences there are.
    pub fn len(&self) -> usize
        ensures len { result ≡ length self.now }
        ensures fences { AreFences self.now }
    {
        self.fences.len()
    }

    /// The fence with this number.
    pub fn get(&self, index: usize) -> &Fence
        requires { index < length self.now }
        ensures fence { slice_get self.now index ≡ Some result.now }
        ensures fences { AreFences self.now }
    {
        &self.fences[index]
    }

    /// Puts the fence, whose first key is above the last fence, behind the others. Without memory the list stays as it was.
    pub fn push(&mut self, fence: Fence) -> Result<(), NoMemory>
        requires fence { IsFence fence }
        requires above { IsAboveLast (last_end self.old) fence.first }
        requires few { length self.old < most_fences }
        ensures pushed { OnOk result (self.new ≡ self.old ++ fence ∷ []) }
        ensures unchanged { OnErr result (self.new ≡ self.old) }
    {
        match self.fences.push(fence) {
            Ok(()) => Ok(()),
            Err(_) => Err(NoMemory),
        }
    }

    /// The fences whose index the bytes are. `None` exactly where they are the index of none.
    pub fn read(alloc: Global, bytes: &[u8]) -> Result<Option<Fences>, NoMemory>
        ensures found { IfOk result (λ o. IfSome o (λ fences. IsIndex bytes.now fences)) }
        // They are the index of no other list.
        ensures only { IfOk result (λ o. (fs : List Fence) → IsIndex bytes.now fs → IsSomeAnd o (λ fences. fences ≡ fs)) }
        ensures none { IfOk result (λ o. (o ≡ None) ↔ IsNoIndex bytes.now) }

        // Memory is asked for only where the bytes begin as an index does.
        ensures memory { OnErr result (BeginsAsIndex bytes.now) }
    {
        let Some(count) = read_u32(bytes) else {
            return Ok(None);
        };
        if !is_count(count) {
            return Ok(None);
        }
        let (_, fences) = bytes.split_at(4);
        parse(alloc, count, fences)
    }

    /// The number of the one fence that covers the key. `None` exactly where none does.
    pub fn find(&self, key: KeyRef<'_>) -> Option<usize>
        ensures found { IfSome result (λ index. CoversAt self.now (key_of key.entry) index) }
        ensures only { (index : ℕ) → CoversAt self.now (key_of key.entry) index → result ≡ Some index }
        ensures none { (result ≡ None) ↔ NoneCovers self.now (key_of key.entry) }
    {
        let index = self.ending_below(key);
        if index == self.len() {
            return None;
        }
        let first = self.get(index).first.lend();
        if key.order(first).is_lt() {
            return None;
        }
        Some(index)
    }

    /// The numbers of the first fence that meets the range from `low` up to, not with, `high`, and of the one behind the
    /// last. Where none meets it, the two are equal. `None` is an open end.
    pub fn range(&self, low: Option<&Key>, high: Option<&Key>) -> (usize, usize)
        ensures those { AreThoseThatMeet (option_copied low.entry) (option_copied high.entry) self.now result }
        ensures order { result.0 ≤ result.1 }
        ensures within { result.1 ≤ length self.now }
        ensures empty { NoneMeets (option_copied low.entry) (option_copied high.entry) self.now → result.0 ≡ result.1 }
    {
        if !has_room(low, high) {
            return (0, 0);
        }
        (self.from(low), self.to(high))
    }

    // How many fences lie below the low end.
    fn from(&self, low: Option<&Key>) -> usize
        ensures point { IsFromPoint self.now (option_copied low.entry) result }
        ensures within { result ≤ length self.now }
        ensures fences { AreFences self.now }
    {
        // Read here, since each fence ends at or behind its begin.
        let _ = &self.fences;
        match low {
            Some(low) => self.ending_below(low.lend()),
            None => 0,
        }
    }

    // How many fences begin below the high end.
    fn to(&self, high: Option<&Key>) -> usize
        ensures point { IsToPoint self.now (option_copied high.entry) result }
        ensures within { result ≤ length self.now }
    {
        match high {
            Some(high) => self.beginning_below(high.lend()),
            None => self.fences.len(),
        }
    }

    // How many fences end below the key.
    fn ending_below(&self, key: KeyRef<'_>) -> usize
        ensures point { IsEndsPoint self.now (key_of key.entry) result }
        ensures within { result ≤ length self.now }
        ensures fences { AreFences self.now }
    {
        let fences = self.fences.as_slice();
        fences.partition_point(|fence| fence.last.lend().order(key).is_lt())
    }

    // How many fences begin below the key.
    fn beginning_below(&self, key: KeyRef<'_>) -> usize
        ensures point { IsBeginsPoint self.now (key_of key.entry) result }
        ensures within { result ≤ length self.now }
    {
        let fences = self.fences.as_slice();
        fences.partition_point(|fence| fence.first.lend().order(key).is_lt())
    }

    // Whether a fence with these keys may stand behind the others.
    fn may_follow(&self, first: KeyRef<'_>, last: KeyRef<'_>) -> bool
        ensures { result ≡ may_follow_end (last_end self.now) (key_of first.entry) (key_of last.entry) }
    {
        first.order(last).is_le() && self.is_below(first)
    }

    // Whether the last fence lies below the key.
    fn is_below(&self, key: KeyRef<'_>) -> bool
        ensures { result ≡ is_above (last_end self.now) (key_of key.entry) }
    {
        match self.fences.last() {
            Some(fence) => fence.last.lend().order(key).is_lt(),
            None => true,
        }
    }
}

// Whether there may be so many fences in an index.
fn is_count(count: u32) -> bool
    ensures { result ≡ is_between 1 4096 count }
{
    1 <= count && count <= MOST_FENCES
}

// Whether the low end is below the high one.
fn has_room(low: Option<&Key>, high: Option<&Key>) -> bool
    ensures { result ≡ has_room (option_copied low.entry) (option_copied high.entry) }
{
    match (low, high) {
        (Some(low), Some(high)) => low.lend().order(high.lend()).is_lt(),
        _ => true,
    }
}

// So many fences, where the bytes are these and nothing else.
fn parse(alloc: Global, count: u32, bytes: &[u8]) -> Result<Option<Fences>, NoMemory>
    requires { count ≤ 4096 }
    ensures found { IfOk result (λ o. IfSome o (λ fences. AreSpelled count bytes.now fences)) }
    ensures none { IfOk result (λ o. (o ≡ None) ↔ NoneSpelled count bytes.now) }

    // Memory is asked for only where a fence stands at the front.
    ensures memory { OnErr result (IsSome (fence_at bytes.now)) }
{
    let mut fences = Fences::new(alloc);
    let mut rest = bytes;
    for _turn in 0..count {
        let Some((fence, behind)) = fence_front(rest) else {
            return Ok(None);
        };
        if !fences.may_follow(fence.first, fence.last) {
            return Ok(None);
        }
        fences.push(fence.to_fence(alloc)?)?;
        rest = behind;
    }
    if rest.is_empty() {
        Ok(Some(fences))
    } else {
        Ok(None)
    }
}
