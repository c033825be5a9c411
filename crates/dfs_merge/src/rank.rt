//! Which source is taken first.

ghost use Rattle.std.specs.Prelude.{◌≡◌, slice_index_or, IsFalse};
ghost use Rattle.dfs_record.specs.Records.{IsHead};
ghost use Rattle.dfs_merge.specs.Sources.{sources as sources_of, ended};
ghost use Rattle.dfs_merge.specs.Rank.{rank_at, rank_cmp, head_cmp, class_of_head, have_one_key, better_of, IsStep};

use dfs_record::{Head, Records};
use std::cmp::Ordering;

/// The head of a source, and an end where there is no source.
pub(crate) fn head_at<C: Records>(sources: &[C], index: usize) -> Head<'_>
    ensures { let s = slice_index_or (sources_of C.rest C.unread C.bound sources.now) index ended in IsHead s.rest s.unread result }
{
    match sources.get(index) {
        None => Head::End,
        Some(source) => source.head(),
    }
}

fn class_of(head: Head<'_>) -> u8
    ensures { result ≡ class_of_head head.entry }
{
    match head {
        Head::Hungry => 0,
        Head::Item(_) => 1,
        Head::End => 2,
    }
}

fn compare_heads(a: Head<'_>, b: Head<'_>) -> Ordering
    ensures { result ≡ head_cmp a.entry b.entry }
{
    if let Head::Item(a) = a {
        if let Head::Item(b) = b {
            return a.key.order(b.key);
        }
    }
    class_of(a).cmp(&class_of(b))
}

/// Less where the first source is taken before the second.
fn compare<C: Records>(sources: &[C], a: usize, b: usize) -> Ordering
    ensures { result ≡ rank_cmp (rank_at (sources_of C.rest C.unread C.bound sources.now) a) (rank_at (sources_of C.rest C.unread C.bound sources.now) b) }
{
    let by_head = compare_heads(head_at(sources, a), head_at(sources, b));
    by_head.then(b.cmp(&a))
}

/// Whether two sources have one first key.
pub(crate) fn has_key_of<C: Records>(sources: &[C], a: usize, b: usize) -> bool
    ensures { result ≡ have_one_key (slice_index_or (sources_of C.rest C.unread C.bound sources.now) a ended).rest (slice_index_or (sources_of C.rest C.unread C.bound sources.now) b ended).rest }
{
    let Head::Item(a) = head_at(sources, a) else {
        return false;
    };
    let Head::Item(b) = head_at(sources, b) else {
        return false;
    };
    a.key.order(b.key) == Ordering::Equal
}

/// Of two sources the one that stands first.
pub(crate) fn better<C: Records>(sources: &[C], a: usize, b: usize) -> usize
    ensures { result ≡ better_of (sources_of C.rest C.unread C.bound sources.now) a b }
{
    if compare(sources, b, a).is_lt() { b } else { a }
}

/// Passes the first record of a source that is not the first one and has its key. Where the answer is no, nothing was passed.
pub(crate) fn pass_same<C: Records>(sources: &mut Vec<C>, index: usize, first: usize) -> bool
    ensures passed { IsStep C.rest C.unread C.bound C.Comes index first sources.old.items sources.new.items }
    ensures same { IsFalse result → sources.new.items ≡ sources.old.items }
{
    if index == first {
        return false;
    }
    if !has_key_of(sources, index, first) {
        return false;
    }
    sources[index].advance();
    true
}
