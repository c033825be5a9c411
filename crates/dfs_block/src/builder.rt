//! Blocks that are written.

ghost use Rattle.std.specs.Prelude.{◌≡◌, ◌↔◌, ◌≤◌, ◌++◌, ◌∷◌, [], IfOk, IsTrue, Some, length, drop, if◌then◌else◌};
ghost use Rattle.std.specs.Prelude.{vec_len, vec_capacity};
ghost use Rattle.std.specs.Int.{w16, to_be_bytes};
ghost use Rattle.dfs_record.specs.Lend.{key_of, record_of, value_of};
ghost use Rattle.dfs_record.specs.Record.{IsRecord, IsValue, spelling, value_bytes};
ghost use Rattle.dfs_record.specs.Writing.{HasRoom};
ghost use Rattle.dfs_block.specs.Block.{IsAboveLast, IsBlock, block_bytes, last_key, most_bytes};

use crate::block::MOST_BYTES;
use dfs_record::{NoMemory, RecordRef, ValueRef, encode};
use std::alloc::Global;
use std::marker::Model;

/// A block under construction, seen as the list of its records. Room for the longest block is taken once, by `new`.
#[derive(Debug, Drop)]
pub struct BlockBuilder {
    bytes: Vec<u8>,
    count: u16,
}

impl Model for BlockBuilder {
    ghost use Rattle.std.specs.Prelude.{List, drop};
    ghost use Rattle.dfs_record.specs.declared.Record.{Record};
    ghost use Rattle.dfs_block.specs.Front.{records_front};
    ghost use Rattle.dfs_block.specs.Built.{IsBuilt};

    ghost Value = { List Record };

    ghost view = { λ builder. records_front builder.count (drop 2 builder.bytes.items) };

    ghost invariant = { λ builder. IsBuilt builder.bytes builder.count (records_front builder.count (drop 2 builder.bytes.items)) };
}

impl BlockBuilder {
    /// No record yet.
    pub fn new(alloc: Global) -> Result<BlockBuilder, NoMemory>
        ensures { IfOk result (λ builder. builder ≡ []) }
    {
        let mut bytes = Vec::with_capacity(alloc, MOST_BYTES)?;
        bytes.extend_from_slice(&[0, 0])?;
        Ok(BlockBuilder { bytes, count: 0 })
    }

    /// Puts the record, whose key is above the last one, behind the others where the block then still has at most 4,096
    /// bytes. Else answers false, and all is as before. It needs no memory.
    pub fn push(&mut self, rec: RecordRef<'_>) -> bool
        requires valid { IsRecord (record_of rec) }
        requires above { IsAboveLast (last_key self.old) (key_of rec.key) }
        ensures fits { IsTrue result ↔ (length (block_bytes (self.old ++ record_of rec.entry ∷ [])) ≤ most_bytes) }
        ensures records { self.new ≡ (if result then self.old ++ record_of rec.entry ∷ [] else self.old) }
        ensures last { IsTrue result → last_key self.new ≡ Some (key_of rec.entry.key) }
    {
        if self.bytes.len() + record_len(rec) > MOST_BYTES {
            return false;
        }
        append(&mut self.bytes, rec);
        self.count += 1;
        put_count(&mut self.bytes, self.count);
        true
    }

    /// The bytes of the block, which are one as soon as there is a record.
    pub fn bytes(&self) -> &[u8]
        ensures spelled { result.now ≡ block_bytes self.now }
        ensures block { 1 ≤ length self.now → IsBlock result.now self.now }
    {
        &self.bytes
    }

    /// How many records there are.
    pub fn count(&self) -> u16
        ensures { result ≡ length self.now }
    {
        self.count
    }

    /// Takes all records off. The room stays.
    pub fn clear(&mut self)
        ensures { self.new ≡ [] }
    {
        self.bytes.truncate(2);
        self.count = 0;
        put_count(&mut self.bytes, 0);
    }
}

// Appends the spelling of the record, for which there is room.
fn append(bytes: &mut Vec<u8>, rec: RecordRef<'_>)
    requires valid { IsRecord (record_of rec) }
    requires room { HasRoom bytes.old (length (spelling (record_of rec))) }
    ensures items { bytes.new.items ≡ bytes.old.items ++ spelling (record_of rec.entry) }
    ensures capacity { vec_capacity bytes.old ≤ vec_capacity bytes.new }
{
    let _ = encode(rec, bytes);
}

// Writes the count into the first two bytes.
fn put_count(bytes: &mut Vec<u8>, count: u16)
    requires { 2 ≤ vec_len bytes.old }
    ensures items { bytes.new.items ≡ to_be_bytes w16 count ++ drop 2 bytes.old.items }
    ensures len { vec_len bytes.new ≡ vec_len bytes.old }
    ensures capacity { vec_capacity bytes.new ≡ vec_capacity bytes.old }
{
    let [high, low] = count.to_be_bytes();
    bytes[0] = high;
    bytes[1] = low;
}

// How many bytes spell the record.
fn record_len(rec: RecordRef<'_>) -> usize
    requires { IsRecord (record_of rec) }
    ensures len { result ≡ length (spelling (record_of rec.entry)) }
    ensures most { result ≤ 539 }
{
    9 + rec.key.name.len() + value_len(rec.value)
}

fn value_len(value: ValueRef<'_>) -> usize
    requires { IsValue (value_of value) }
    ensures len { result ≡ length (value_bytes (value_of value.entry)) }
    ensures most { result ≤ 275 }
{
    match value {
        ValueRef::Del => 1,
        ValueRef::Dir { .. } => 19,
        ValueRef::File { reference, .. } => 20 + reference.len(),
    }
}
