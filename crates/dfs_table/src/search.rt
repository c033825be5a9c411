//! Look-ups among the tables of a run.

ghost use Rattle.std.specs.Prelude.{◌≡◌, ◌≤◌, ◌↔◌, ℕ, length, drop, option_copied, Some, None, IfSome};
ghost use Rattle.dfs_table.specs.RunRecords.{IsFirstTable};
ghost use Rattle.dfs_record.specs.Lend.{key_of};
ghost use Rattle.dfs_table.specs.Spans.{IsEndsPoint, NoneSpans, SpansAt, ends_below as is_end_below};
ghost use Rattle.dfs_table.specs.Tables.{AreTables};

use crate::{Table, Tables};
use dfs_record::{Key, KeyRef};

impl Tables {
    /// The number of the one table that spans the key: its first key is at most the key and its last one at least. `None` exactly
    /// where none does. It is a binary search over the tables.
    pub fn find(&self, key: KeyRef<'_>) -> Option<usize>
        ensures found { IfSome result (λ index. SpansAt self.now (key_of key.entry) index) }
        ensures only { (index : ℕ) → SpansAt self.now (key_of key.entry) index → result ≡ Some index }
        ensures none { (result ≡ None) ↔ NoneSpans self.now (key_of key.entry) }
    {
        let index = self.ending_below(key);
        if index == self.len() {
            return None;
        }
        let first = self.get(index).fences.get(0).first.lend();
        if key.order(first).is_lt() {
            return None;
        }
        Some(index)
    }

    // The tables from the first on that does not end below the low end.
    pub(crate) fn from(&self, low: Option<&Key>) -> &[Table]
        ensures tables { (n : ℕ) × IsFirstTable (option_copied low.entry) self.now n × (result.now ≡ drop n self.now) }
        ensures rise { AreTables self.now }
    {
        let index = match low {
            Some(low) => self.ending_below(low.lend()),
            None => 0,
        };
        let (_, tables) = self.tables.split_at(index);
        tables
    }

    // How many tables end below the key.
    fn ending_below(&self, key: KeyRef<'_>) -> usize
        ensures point { IsEndsPoint self.now (key_of key.entry) result }
        ensures within { result ≤ length self.now }
        ensures tables { AreTables self.now }
    {
        let tables = self.tables.as_slice();
        tables.partition_point(|table| ends_below(table, key))
    }
}

// Whether the last key of the table is below the key.
fn ends_below(table: &Table, key: KeyRef<'_>) -> bool
    ensures { result ≡ is_end_below (key_of key.entry) table.now }
{
    match table.fences.len().checked_sub(1) {
        Some(last) => table.fences.get(last).last.lend().order(key).is_lt(),
        None => true,
    }
}
