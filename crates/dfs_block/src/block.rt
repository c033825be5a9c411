//! Blocks that are read.

ghost use Rattle.std.specs.Prelude.{◌≡◌, ◌↔◌, ◌≤◌, ◌∷◌, [], IfSome, IsSomeAnd, List, Some, None, length, option_map};
ghost use Rattle.dfs_record.specs.declared.Record.{Record};
ghost use Rattle.dfs_record.specs.Delta.{last_value, or_else};
ghost use Rattle.dfs_record.specs.Lend.{key_of, record_of, value_of};
ghost use Rattle.dfs_record.specs.Record.{IsKey, IsValue};
ghost use Rattle.dfs_record.specs.Records.{Files};
ghost use Rattle.dfs_block.specs.Block.{Has, HasNot, IsBlock, IsNoBlock, first_key, last_key};
ghost use Rattle.dfs_block.specs.Front.{records_front};
ghost use Rattle.dfs_block.specs.Read.{AreNoRecords, EndAt, is_above as is_above_key, value_for};

use crate::BlockRecords;
use dfs_record::{KeyRef, RecordRef, Records, ValueRef, decode, read_u16};
use std::cmp::Ordering;
use std::marker::Model;

/// The most bytes of a block, the two of its count among them.
pub(crate) const MOST_BYTES: usize = 4096;

/// A block that was read, seen as the list of its records. What it lends points into the bytes that were read.
#[derive(Debug, Drop)]
pub struct Block<'a> {
    count: u16,
    records: &'a [u8],
    last: KeyRef<'a>,
}

impl<'a> Model for Block<'a> {
    ghost use Rattle.std.specs.Prelude.{List};
    ghost use Rattle.dfs_record.specs.declared.Record.{Record};
    ghost use Rattle.dfs_record.specs.Lend.{key_of};
    ghost use Rattle.dfs_block.specs.Front.{records_front};
    ghost use Rattle.dfs_block.specs.Read.{IsHeld};

    ghost Value = { List Record };

    ghost view = { λ block. records_front block.count block.records.now };

    ghost invariant = { λ block. IsHeld block.count block.records.now (key_of block.last) (records_front block.count block.records.now) };
}

impl<'a> Block<'a> {
    /// The block that the bytes are. `None` exactly where they are none.
    pub fn read(bytes: &'a [u8]) -> Option<Block<'a>>
        ensures found { IfSome result (λ block. IsBlock bytes.entry.now block) }
        // They are the block of no other list.
        ensures only { (rs : List Record) → IsBlock bytes.entry.now rs → IsSomeAnd result (λ block. block ≡ rs) }
        ensures none { (result ≡ None) ↔ IsNoBlock bytes.entry.now }
    {
        let (block, _) = Block::read_for(bytes, None)?;
        Some(block)
    }

    /// The block that the bytes are, and the value of its record with the key, if it has one. `None` exactly where they are no
    /// block.
    pub fn find_in(bytes: &'a [u8], key: KeyRef<'_>) -> Option<(Block<'a>, Option<ValueRef<'a>>)>
        ensures found { IfSome result (λ p. IsBlock bytes.entry.now p.0) }
        // They are the block of no other list.
        ensures only { (rs : List Record) → IsBlock bytes.entry.now rs → IsSomeAnd result (λ p. p.0 ≡ rs) }
        ensures none { (result ≡ None) ↔ IsNoBlock bytes.entry.now }
        ensures value { IfSome result (λ p. option_map value_of p.1 ≡ last_value (key_of key.entry) p.0) }
        ensures valid { IfSome result (λ p. IfSome p.1 (λ value. IsValue (value_of value))) }
    {
        Block::read_for(bytes, Some(key))
    }

    // The same, where a key may be sought.
    fn read_for(
        bytes: &'a [u8],
        key: Option<KeyRef<'_>>,
    ) -> Option<(Block<'a>, Option<ValueRef<'a>>)>
        ensures found { IfSome result (λ p. IsBlock bytes.entry.now p.0) }
        ensures only { (rs : List Record) → IsBlock bytes.entry.now rs → IsSomeAnd result (λ p. p.0 ≡ rs) }
        ensures none { (result ≡ None) ↔ IsNoBlock bytes.entry.now }
        ensures value { IfSome result (λ p. option_map value_of p.1 ≡ value_for (option_map key_of key.entry) p.0) }
        ensures valid { IfSome result (λ p. IfSome p.1 (λ value. IsValue (value_of value))) }
    {
        if bytes.len() > MOST_BYTES {
            return None;
        }
        let count = read_u16(bytes)?;
        if count == 0 {
            return None;
        }
        let (_, records) = bytes.split_at(2);
        let passed = pass_over(count, records, key)?;
        let block = Block {
            count,
            records,
            last: passed.0,
        };
        Some((block, passed.1))
    }

    /// The value of the record with the key. `None` exactly where no record has it.
    pub fn find(&self, key: KeyRef<'_>) -> Option<ValueRef<'a>>
        ensures value { option_map value_of result ≡ last_value (key_of key.entry) self.now }
        ensures found { IfSome result (λ value. Has (key_of key.entry) (value_of value) self.now) }
        ensures none { (result ≡ None) ↔ HasNot (key_of key.entry) self.now }
        ensures valid { IfSome result (λ value. IsValue (value_of value)) }
    {
        self.value_of(key)
    }

    // The same, said in one way.
    fn value_of(&self, key: KeyRef<'_>) -> Option<ValueRef<'a>>
        ensures value { option_map value_of result ≡ last_value (key_of key.entry) self.now }
        ensures valid { IfSome result (λ value. IsValue (value_of value)) }
    {
        let mut records = self.records();
        while let Some(rec) = records.first {
            match key.order(rec.key) {
                Ordering::Less => return None,
                Ordering::Equal => return Some(rec.value),
                Ordering::Greater => records.advance(),
            }
        }
        None
    }

    /// Its records, in the order of their keys.
    pub fn records(&self) -> BlockRecords<'a>
        ensures rest { ⟦<BlockRecords<'a> as Records>⟧.rest result ≡ self.now }
        ensures unread { ⟦<BlockRecords<'a> as Records>⟧.unread result ≡ 0 }
        ensures comes { (files : Files) (l : List Record) → ⟦<BlockRecords<'a> as Records>⟧.Comes result files l ↔ (l ≡ self.now) }
    {
        BlockRecords::at(self.count, self.records)
    }

    /// How many records it has.
    pub fn count(&self) -> u16
        ensures { result ≡ length self.now }
    {
        self.count
    }

    /// The key of its first record.
    pub fn first_key(&self) -> KeyRef<'a>
        ensures key { first_key self.now ≡ Some (key_of result) }
        ensures valid { IsKey (key_of result) }
    {
        match decode(self.records) {
            Some((rec, _)) => rec.key,
            None => unreachable!(),
        }
    }

    /// The key of its last record.
    pub fn last_key(&self) -> KeyRef<'a>
        ensures key { last_key self.now ≡ Some (key_of result) }
        ensures valid { IsKey (key_of result) }
    {
        self.last
    }
}

// The last key of so many records, where the bytes are these, their keys rise, and nothing else stands there. With it comes the
// value of the record with the key that is sought.
fn pass_over<'a>(
    count: u16,
    bytes: &'a [u8],
    key: Option<KeyRef<'_>>,
) -> Option<(KeyRef<'a>, Option<ValueRef<'a>>)>
    requires { 1 ≤ count }
    ensures found { IfSome result (λ p. EndAt count bytes.now (key_of p.0)) }
    ensures none { (result ≡ None) ↔ AreNoRecords count bytes.now }
    ensures value { IfSome result (λ p. option_map value_of p.1 ≡ value_for (option_map key_of key.entry) (records_front count bytes.now)) }
{
    let mut rest = bytes;
    let mut last = None;
    let mut value = None;
    for _turn in 0..count {
        let (rec, len) = decode(rest)?;
        if !is_above(last, rec.key) {
            return None;
        }
        value = value_with(value, key, rec);
        last = Some(rec.key);
        let (_, behind) = rest.split_at(len);
        rest = behind;
    }
    if !rest.is_empty() {
        return None;
    }
    match last {
        Some(last) => Some((last, value)),
        None => None,
    }
}

// The value that was found, or else that of the record, if it has the key that is sought.
fn value_with<'a>(
    found: Option<ValueRef<'a>>,
    key: Option<KeyRef<'_>>,
    rec: RecordRef<'a>,
) -> Option<ValueRef<'a>>
    ensures { option_map value_of result ≡ or_else (option_map value_of found.entry) (value_for (option_map key_of key.entry) (record_of rec.entry ∷ [])) }
{
    if found.is_some() {
        return found;
    }
    match key {
        Some(key) if key.order(rec.key).is_eq() => Some(rec.value),
        _ => None,
    }
}

// Whether the key is above the last one.
fn is_above(last: Option<KeyRef<'_>>, key: KeyRef<'_>) -> bool
    ensures { result ≡ is_above_key (option_map key_of last.entry) (key_of key.entry) }
{
    match last {
        Some(last) => last.order(key).is_lt(),
        None => true,
    }
}
