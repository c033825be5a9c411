//! A part of other records.

ghost use Rattle.std.specs.Prelude.{◌≡◌, ◌↔◌, ℕ, ◌<◌, List, [], length, drop, Option, None, option_copied, IsTrue, ◌&&◌, not};
ghost use Rattle.dfs_record.specs.declared.Key.{Key as OwnKey};
ghost use Rattle.dfs_record.specs.declared.Record.{Record as OwnRecord};
ghost use Rattle.dfs_record.specs.Lend.{key_of};
ghost use Rattle.dfs_record.specs.Records.{Files};
ghost use Rattle.dfs_cursor.specs.Ranges.{is_from as is_key_from, is_up_to as is_key_up_to, part, reaches, unread_of, bound_of, PartComes, HasPassed, begins_at, part_rises, part_none, part_above, comes_rises as part_comes_rises, comes_begins as part_comes_begins, comes_loaded as part_comes_loaded, comes_one as part_comes_one};

use dfs_record::{Head, Key, KeyRef, Records};
use std::cmp::Ordering;

/// The records of another source from one key up to, not with, another. An open end is beyond every key.
///
/// Records below the lower end are passed over, and from the upper end on nothing is left, whatever the other source
/// has still to load.
#[derive(Drop)]
pub struct RangeRecords<'a, C: Records> {
    inner: C,
    low: Option<&'a Key>,
    high: Option<&'a Key>,
    ghost begins: { IsTrue (begins_at (option_copied low) (option_copied high) (C.rest inner)) },
}

fn is_from(low: Option<&Key>, key: KeyRef<'_>) -> bool
    ensures { result ≡ is_key_from (option_copied low.entry) (key_of key.entry) }
{
    match low {
        None => true,
        Some(low) => low.lend().order(key) != Ordering::Greater,
    }
}

fn is_up_to(high: Option<&Key>, key: KeyRef<'_>) -> bool
    ensures { result ≡ is_key_up_to (option_copied high.entry) (key_of key.entry) }
{
    match high {
        None => true,
        Some(high) => key.order(high.lend()) == Ordering::Less,
    }
}

impl<'a, C: Records> RangeRecords<'a, C> {
    /// The records of `inner` from `low` up to, not with, `high`.
    pub fn new(mut inner: C, low: Option<&'a Key>, high: Option<&'a Key>) -> RangeRecords<'a, C>
        ensures rest { ⟦<RangeRecords<'a, C> as Records>⟧.rest result ≡ part (option_copied low.entry) (option_copied high.entry) (C.rest inner) }
        ensures unread { ⟦<RangeRecords<'a, C> as Records>⟧.unread result ≡ unread_of (option_copied high.entry) (C.rest inner) (C.unread inner) }
        ensures bound { ⟦<RangeRecords<'a, C> as Records>⟧.bound result ≡ bound_of (option_copied high.entry) (C.rest inner) (C.bound inner) }
        // Over files where a list comes of `inner`, just its part comes.
        ensures comes { (files : Files) (l : List OwnRecord) → C.Comes inner files l → (m : List OwnRecord) → ⟦<RangeRecords<'a, C> as Records>⟧.Comes result files m ↔ (m ≡ part (option_copied low.entry) (option_copied high.entry) l) }
    {
        pass_below(&mut inner, low, high);
        RangeRecords { inner, low, high }
    }
}

impl<C: Records> Records for RangeRecords<'_, C> {
    ghost rest = { λ s. part (option_copied s.low) (option_copied s.high) (C.rest s.inner) };

    ghost unread = { λ s. unread_of (option_copied s.high) (C.rest s.inner) (C.unread s.inner) };

    ghost bound = { λ s. bound_of (option_copied s.high) (C.rest s.inner) (C.bound s.inner) };

    ghost Comes = { λ s files l. PartComes (option_copied s.low) (option_copied s.high) (C.Comes s.inner) files l };

    fn head(&self) -> Head<'_> {
        match self.inner.head() {
            Head::Item(rec) => {
                if is_up_to(self.high, rec.key) {
                    Head::Item(rec)
                } else {
                    Head::End
                }
            }
            Head::Hungry => Head::Hungry,
            Head::End => Head::End,
        }
    }

    fn advance(&mut self) {
        self.inner.advance();
    }

    ghost rest_rises = { λ s. part_rises (option_copied s.low) (option_copied s.high) (C.rest s.inner) (C.rest_rises s.inner) };

    ghost bound_none = { λ s. part_none (option_copied s.high) (C.rest s.inner) (C.bound s.inner) (C.unread s.inner) (C.bound_none s.inner) };

    ghost bound_above = { λ s. part_above (option_copied s.low) (option_copied s.high) (C.rest s.inner) (C.bound s.inner) (C.bound_above s.inner) };

    ghost comes_rises = { λ s files l h. part_comes_rises (option_copied s.low) (option_copied s.high) (C.Comes s.inner) files l h (C.comes_rises s.inner files) };

    ghost comes_begins = { λ s files l h. part_comes_begins (option_copied s.low) (option_copied s.high) (C.Comes s.inner) files l h (C.rest s.inner) (C.comes_begins s.inner files) };

    ghost comes_loaded = { λ s files l h. part_comes_loaded (option_copied s.low) (option_copied s.high) (C.Comes s.inner) files l h (C.rest s.inner) (C.unread s.inner) (C.comes_rises s.inner files) (C.comes_begins s.inner files) (C.comes_loaded s.inner files) };

    ghost comes_one = { λ s files l m h k. part_comes_one (option_copied s.low) (option_copied s.high) (C.Comes s.inner) files l h (C.comes_one s.inner files) m k };
}

/// Passes the records that lie below both ends.
fn pass_below<C: Records>(inner: &mut C, low: Option<&Key>, high: Option<&Key>)
    ensures passed { HasPassed C.rest C.unread C.bound C.Comes (option_copied low.entry) (option_copied high.entry) inner.old inner.new }
    ensures begins { IsTrue (begins_at (option_copied low.entry) (option_copied high.entry) (C.rest inner.new)) }
{
    while is_below_part(inner, low, high) {
        inner.advance();
    }
}

/// Whether the first record lies below both ends.
fn is_below_part<C: Records>(inner: &C, low: Option<&Key>, high: Option<&Key>) -> bool
    ensures { result ≡ not (begins_at (option_copied low.entry) (option_copied high.entry) (C.rest inner.now)) }
{
    match inner.head() {
        Head::Item(rec) => !is_from(low, rec.key) && is_up_to(high, rec.key),
        Head::Hungry | Head::End => false,
    }
}
