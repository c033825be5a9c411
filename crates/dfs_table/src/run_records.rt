//! The records of a run, one after the other.

ghost use Rattle.std.specs.Prelude.{◌≡◌, ◌↔◌, ◌<◌, ◌≤◌, ◌-◌, ◌∷◌, ◌++◌, ℕ, List, [], length, true, false, IsTrue, IfOk, IfSome, IsSomeAnd, Some, None, option_copied, slice_get, take, drop, refl};
ghost use Rattle.std.specs.List.{AllByRecursion};
ghost use Rattle.dfs_record.specs.declared.Key.{Key as OwnKey};
ghost use Rattle.dfs_record.specs.declared.Record.{Record as OwnRecord};
ghost use Rattle.dfs_record.specs.Lend.{key_of, record_of};
ghost use Rattle.dfs_record.specs.Record.{IsRecord};
ghost use Rattle.dfs_record.specs.Records.{Files};
ghost use Rattle.dfs_block.specs.Front.{records_front};
ghost use Rattle.dfs_block.specs.Left.{IsFirst, IsFirst-prop};
ghost use Rattle.dfs_fence.specs.declared.fence.Fence.{Fence as OwnFence};
ghost use Rattle.dfs_fence.specs.Index.{last_end};
ghost use Rattle.dfs_fence.specs.Ranges.{is_below as is_key_below, is_from, has_room as has_key_between};
ghost use Rattle.dfs_table.specs.declared.table.Table.{Table as AnyTable};
ghost use Rattle.dfs_table.specs.RunRecords.{BeginsIn, IsTakenOff, Reaches, blocks_from, blocks_left, coming, records_in, records_meeting, rest_of, rising_from};
ghost use Rattle.dfs_table.specs.Stored.{IsTableOf};
ghost use Rattle.dfs_table.specs.Counts.{count_of};
ghost use Rattle.dfs_table.specs.Tables.{AreTables, all_fences};

use crate::{Run, Table};
use dfs_record::{Head, Key, KeyRef, NoMemory, RecordRef, Records, decode};
use std::alloc::Global;

/// The records of the blocks of a run that meet a range of keys. Their names and references are lent from the bytes that the
/// run holds, so that nothing is unread.
#[derive(Drop)]
pub struct RunRecords<'a> {
    first: Option<RecordRef<'a>>,
    // how many records of its block stand behind the first one, and their bytes
    left: u16,
    bytes: &'a [u8],
    blocks: Blocks<'a>,
    ghost valid: { IsFirst first } by { IsFirst-prop first },
}

// The blocks from one of the first table on, up to the first that does not begin below the high end.
#[derive(Drop)]
struct Blocks<'a> {
    tables: &'a [Table],
    next: usize,
    // of the blocks of the first table from that one on
    bytes: &'a [u8],
    high: Option<Key>,
}

impl<'a> RunRecords<'a> {
    /// A cursor over the blocks whose fences meet the range from `low` up to, not with, `high`; `None` is an open end. So it may
    /// begin below `low` and go on behind `high`, each by less than a block.
    pub fn new(
        alloc: Global,
        run: &'a Run,
        low: Option<&Key>,
        high: Option<&Key>,
    ) -> Result<RunRecords<'a>, NoMemory>
        ensures rest { (file : List ℕ) → AllByRecursion (IsTableOf file) run.entry.now.tables → IfOk result (λ records. ⟦<RunRecords<'a> as Records>⟧.rest records ≡ records_meeting (option_copied low.entry) (option_copied high.entry) file run.entry.now.tables) }
        // Over files in one of which the run is stored, just these records come.
        ensures comes { (files : Files) (number : ℕ) → AllByRecursion (IsTableOf (files number)) run.entry.now.tables → IfOk result (λ records. (l : List OwnRecord) → ⟦<RunRecords<'a> as Records>⟧.Comes records files l ↔ (l ≡ records_meeting (option_copied low.entry) (option_copied high.entry) (files number) run.entry.now.tables)) }
        ensures unread { IfOk result (λ records. ⟦<RunRecords<'a> as Records>⟧.unread records ≡ 0) }
        // On every host: no more records than the fences count.
        ensures few { IfOk result (λ records. length (⟦<RunRecords<'a> as Records>⟧.rest records) ≤ count_of (all_fences run.entry.now.tables)) }
    {
        let blocks = Blocks::new(alloc, run, low, high)?;
        let mut records = RunRecords {
            first: None,
            left: 0,
            bytes: &[],
            blocks,
        };
        records.first = records.take();
        Ok(records)
    }

    // Takes the next record off those behind the first one.
    fn take(&mut self) -> Option<RecordRef<'a>>
        ensures taken { IsTakenOff result (coming self.old.left self.old.bytes.now (blocks_left self.old.blocks.high self.old.blocks.tables.now self.old.blocks.next self.old.blocks.bytes.now)) (coming self.new.left self.new.bytes.now (blocks_left self.new.blocks.high self.new.blocks.tables.now self.new.blocks.next self.new.blocks.bytes.now)) }
        ensures valid { IsFirst result }
    {
        loop {
            if let Some((rec, behind)) = first_of(self.left, self.bytes) {
                self.left -= 1;
                self.bytes = behind;
                return Some(rec);
            }
            let (left, bytes) = self.blocks.take()?;
            self.left = left;
            self.bytes = bytes;
        }
    }
}

impl Records for RunRecords<'_> {
    ghost use Rattle.std.specs.Prelude.{◌≡◌, None, refl};
    ghost use Rattle.dfs_record.specs.Same.{same_rises, same_begins, same_one};
    ghost use Rattle.dfs_table.specs.RunRecords.{blocks_left, coming, rest_of, rest_rises};

    ghost rest = { λ s. rest_of s.first (coming s.left s.bytes.now (blocks_left s.blocks.high s.blocks.tables.now s.blocks.next s.blocks.bytes.now)) };

    ghost unread = { λ _. 0 };

    ghost bound = { λ _. None };

    ghost Comes = { λ s files l. l ≡ rest_of s.first (coming s.left s.bytes.now (blocks_left s.blocks.high s.blocks.tables.now s.blocks.next s.blocks.bytes.now)) };

    fn head(&self) -> Head<'_> {
        match self.first {
            Some(rec) => Head::Item(rec),
            None => Head::End,
        }
    }

    fn advance(&mut self) {
        if let Some(passed) = self.first {
            let next = self.take();
            self.first = if_above(passed.key, next);
        }
    }

    ghost rest_rises = { λ s. rest_rises s.first (coming s.left s.bytes.now (blocks_left s.blocks.high s.blocks.tables.now s.blocks.next s.blocks.bytes.now)) };

    ghost bound_none = { λ s. (λ _. refl, λ _. refl) };

    ghost bound_above = { λ s. tt };

    ghost comes_rises = { λ s files l e. same_rises _ l (rest_rises s.first (coming s.left s.bytes.now (blocks_left s.blocks.high s.blocks.tables.now s.blocks.next s.blocks.bytes.now))) e };

    ghost comes_begins = { λ s files l e. same_begins _ l e };

    ghost comes_loaded = { λ s files l e _. e };

    ghost comes_one = { λ s files l m e d. same_one _ l m e d };
}

impl<'a> Blocks<'a> {
    fn new(
        alloc: Global,
        run: &'a Run,
        low: Option<&Key>,
        high: Option<&Key>,
    ) -> Result<Blocks<'a>, NoMemory>
        ensures tables { AreTables run.entry.now.tables }
        ensures blocks { (file : List ℕ) → AllByRecursion (IsTableOf file) run.entry.now.tables → IfOk result (λ blocks. records_in (blocks_left blocks.high blocks.tables.now blocks.next blocks.bytes.now) ≡ records_meeting (option_copied low.entry) (option_copied high.entry) file run.entry.now.tables) }
        ensures few { IfOk result (λ blocks. length (records_in (blocks_left blocks.high blocks.tables.now blocks.next blocks.bytes.now)) ≤ count_of (all_fences run.entry.now.tables)) }
    {
        let tables = run.tables.from(low);
        let end = copied(alloc, high)?;
        if !has_room(low, high) {
            return Ok(Blocks {
                tables: &[],
                next: 0,
                bytes: &[],
                high: end,
            });
        }
        let (next, bytes) = first_block(tables, low);
        Ok(Blocks {
            tables,
            next,
            bytes,
            high: end,
        })
    }

    // Takes the next block: how many records its fence counts, and their bytes.
    fn take(&mut self) -> Option<(u16, &'a [u8])>
        ensures some { IfSome result (λ (block : _). blocks_left self.old.high self.old.tables.now self.old.next self.old.bytes.now ≡ (block.0, block.1.now) ∷ blocks_left self.new.high self.new.tables.now self.new.next self.new.bytes.now) }
        ensures none { result ≡ None → blocks_left self.old.high self.old.tables.now self.old.next self.old.bytes.now ≡ [] }
    {
        self.pass_ended();
        let [table, ..] = self.tables else {
            return None;
        };
        let fence = table.fences.get(self.next);
        if !is_below(&fence.first, self.high.as_ref()) {
            return None;
        }
        let (block, behind) = cut(self.bytes, fence.len as usize);
        let (_, records) = cut(block, 2);
        self.next += 1;
        self.bytes = behind;
        Some((fence.count, records))
    }

    // Goes on to the next table with a block to come.
    fn pass_ended(&mut self)
        ensures same { blocks_from self.new.tables.now self.new.next self.new.bytes.now ≡ blocks_from self.old.tables.now self.old.next self.old.bytes.now }
        ensures high { self.new.high ≡ self.old.high }
        ensures more { (t : AnyTable) → slice_get self.new.tables.now 0 ≡ Some t → self.new.next < length t.fences }
    {
        while let [table, others @ ..] = self.tables {
            if self.next < table.fences.len() {
                return;
            }
            self.tables = others;
            self.next = 0;
            self.bytes = first_bytes(others);
        }
    }
}

// The first block of the first table that does not end below the low end, and the bytes of the blocks from it on.
fn first_block<'a>(tables: &'a [Table], low: Option<&Key>) -> (usize, &'a [u8])
    ensures { (file : List ℕ) (t : AnyTable) → slice_get tables.entry.now 0 ≡ Some t → IsTableOf file t → Reaches (option_copied low.entry) t → BeginsIn (option_copied low.entry) file t result.0 result.1.now }
{
    match tables.first() {
        Some(table) => table.from(low),
        None => (0, &[]),
    }
}

fn copied(alloc: Global, key: Option<&Key>) -> Result<Option<Key>, NoMemory>
    ensures { IfOk result (λ copy. copy ≡ option_copied key.entry) }
{
    match key {
        Some(key) => Ok(Some(key.copy(alloc)?)),
        None => Ok(None),
    }
}

// The bytes of the blocks of the first table.
fn first_bytes(tables: &[Table]) -> &[u8]
    ensures { (t : AnyTable) → slice_get tables.entry.now 0 ≡ Some t → result.now ≡ t.blocks }
{
    match tables.first() {
        Some(table) => table.blocks.bytes(),
        None => &[],
    }
}

// So many of the bytes, and those behind them.
fn cut(bytes: &[u8], len: usize) -> (&[u8], &[u8])
    ensures front { result.0.now ≡ take len bytes.entry.now }
    ensures behind { result.1.now ≡ drop len bytes.entry.now }
{
    match bytes.split_at_checked(len) {
        Some(parts) => parts,
        None => (bytes, &[]),
    }
}

// The first of so many records that the bytes spell, and the bytes behind it.
fn first_of(left: u16, bytes: &[u8]) -> Option<(RecordRef<'_>, &[u8])>
    ensures some { IfSome result (λ (first : _). (1 ≤ left) × (records_front left bytes.entry.now ≡ record_of first.0 ∷ records_front (left - 1) first.1.now)) }
    ensures valid { IfSome result (λ (first : _). IsRecord (record_of first.0)) }
    ensures none { result ≡ None → records_front left bytes.entry.now ≡ [] }
{
    if left == 0 {
        return None;
    }
    let (rec, len) = decode(bytes)?;
    let (_, behind) = bytes.split_at(len);
    Some((rec, behind))
}

// The record, where its key is above the other one.
fn if_above<'a>(key: KeyRef<'_>, rec: Option<RecordRef<'a>>) -> Option<RecordRef<'a>>
    ensures rest { (old new : List OwnRecord) → IsTakenOff rec.entry old new → rest_of result new ≡ rising_from (key_of key.entry) old }
    ensures valid { IsFirst rec.entry → IsFirst result }
{
    let rec = rec?;
    if key.order(rec.key).is_lt() {
        Some(rec)
    } else {
        None
    }
}

// Whether the key lies below the end of a range.
fn is_below(key: &Key, high: Option<&Key>) -> bool
    ensures { result ≡ is_key_below key.now (option_copied high.entry) }
{
    match high {
        Some(high) => key.lend().order(high.lend()).is_lt(),
        None => true,
    }
}

// Whether a key may lie between the two ends.
fn has_room(low: Option<&Key>, high: Option<&Key>) -> bool
    ensures { result ≡ has_key_between (option_copied low.entry) (option_copied high.entry) }
{
    match low {
        Some(low) => is_below(low, high),
        None => true,
    }
}
