//! Runs of tables.

ghost use Rattle.std.specs.Prelude.{◌≡◌, ◌≤◌, ◌<◌, ◌++◌, ◌∷◌, ◌↔◌, [], IsTrue, OnOk, OnErr, length, option_copied, slice_get, Some};
ghost use Rattle.dfs_fence.specs.Index.{AreApart, last_end};
ghost use Rattle.dfs_table.specs.Counts.{count_of};
ghost use Rattle.dfs_table.specs.Tables.{AreTables, all_fences};

use crate::Table;
use dfs_record::{Key, NoMemory};
use std::alloc::Global;
use std::marker::Model;

/// The tables of a run, seen as their list. None is empty, and the keys rise over all of them.
#[derive(Debug, Drop)]
pub struct Tables {
    pub(crate) tables: Vec<Table>,
}

impl Model for Tables {
    ghost use Rattle.std.specs.Prelude.{List};
    ghost use Rattle.dfs_table.specs.declared.table.Table.{Table};
    ghost use Rattle.dfs_table.specs.Tables.{AreTables};

    ghost Value = { List Table };

    ghost view = { λ tables. tables.tables.items };

    ghost invariant = { λ tables. AreTables tables.tables.items };
}

impl Tables {
    /// No table yet. Memory is taken as they come.
    pub fn new(alloc: Global) -> Tables
        ensures { result ≡ [] }
    {
        Tables {
            tables: Vec::new(alloc),
        }
    }

    /// These tables, without taking memory.
    pub fn from_vec(tables: Vec<Table>) -> Tables
        requires { AreTables tables.items }
        ensures { result ≡ tables.items }
    {
        Tables { tables }
    }

    /// The tables as a `Vec`, without taking memory.
    pub fn into_vec(self) -> Vec<Table>
        ensures items { result.items ≡ self }
        ensures tables { AreTables self }
    {
        self.tables
    }

    /// How many tables there are.
    pub fn len(&self) -> usize
        ensures len { result ≡ length self.now }
        ensures tables { AreTables self.now }
    {
        self.tables.len()
    }

    /// The table with this number.
    pub fn get(&self, index: usize) -> &Table
        requires { index < length self.now }
        ensures table { slice_get self.now index ≡ Some result.now }
        ensures tables { AreTables self.now }
    {
        &self.tables[index]
    }

    /// Whether the keys of the table are above those of the others.
    pub fn takes(&self, table: &Table) -> bool
        requires { 1 ≤ length table.now.fences }
        ensures { IsTrue result ↔ AreApart (all_fences (self.now ++ table.now ∷ [])) }
    {
        let first = &table.fences.get(0).first;
        match self.last_key() {
            Some(last) => last.lend().order(first.lend()).is_lt(),
            None => true,
        }
    }

    // The last key of all.
    fn last_key(&self) -> Option<&Key>
        ensures last { option_copied result ≡ last_end (all_fences self.now) }
        ensures tables { AreTables self.now }
    {
        let last = self.len().checked_sub(1)?;
        let fences = &self.get(last).fences;
        Some(&fences.get(fences.len() - 1).last)
    }

    /// Puts the table, whose keys are above those of the others, behind them. Without memory the list stays as it was.
    pub fn push(&mut self, table: Table) -> Result<(), NoMemory>
        requires some { 1 ≤ length table.fences }
        requires rise { AreApart (all_fences (self.old ++ table ∷ [])) }
        ensures pushed { OnOk result (self.new ≡ self.old ++ table ∷ []) }
        ensures tables { OnOk result (AreTables self.new) }
        ensures unchanged { OnErr result (self.new ≡ self.old) }
    {
        // Read here, since its fences may stand in one index.
        let _ = table.fences.len();
        match self.tables.push(table) {
            Ok(()) => Ok(()),
            Err(_) => Err(NoMemory),
        }
    }
}

/// Records in the order of their keys, in the blocks of tables: each key once.
#[derive(Debug, Drop)]
pub struct Run {
    pub tables: Tables,
}

impl Run {
    /// How many records it has, where it has no more tables than a manifest may tell of.
    pub fn count(&self) -> u64
        requires { length self.now.tables ≤ 131072 }
        ensures count { result ≡ count_of (all_fences self.now.tables) }
        ensures tables { AreTables self.now.tables }
    {
        let mut count = 0;
        for index in 0..self.tables.len() {
            count += self.tables.get(index).count();
        }
        count
    }
}
