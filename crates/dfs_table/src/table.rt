//! Tables, and the bytes of their blocks.

ghost use Rattle.std.specs.Prelude.{◌≡◌, ◌≤◌, ◌*◌, ◌++◌, [], IfOk, OnOk, OnErr};
ghost use Rattle.dfs_table.specs.Starts.{starts_from};
ghost use Rattle.dfs_table.specs.Counts.{count_of};

use dfs_fence::Fences;
use dfs_record::NoMemory;
use std::alloc::Global;
use std::marker::Model;

/// The bytes of the blocks of a table, in the order of its fences.
#[derive(Debug, Drop)]
pub struct BlockBytes {
    bytes: Vec<u8>,
}

impl Model for BlockBytes {
    ghost use Rattle.std.specs.Prelude.{List, ℕ};

    ghost Value = { List ℕ };

    ghost view = { λ blocks. blocks.bytes.items };
}

impl BlockBytes {
    // No block yet.
    pub(crate) fn new(alloc: Global) -> BlockBytes
        ensures { result ≡ [] }
    {
        BlockBytes {
            bytes: Vec::new(alloc),
        }
    }

    /// The bytes, one block after the other.
    pub fn bytes(&self) -> &[u8]
        ensures { result.now ≡ self.now }
    {
        &self.bytes
    }

    // Puts the bytes of a block behind the others.
    pub(crate) fn add(&mut self, block: &[u8]) -> Result<(), NoMemory>
        ensures ok { OnOk result (self.new ≡ self.old ++ block.now) }
        ensures err { OnErr result (self.new ≡ self.old) }
    {
        self.bytes.extend_from_slice(block)?;
        Ok(())
    }
}

/// A table: an index and its blocks.
#[derive(Debug, Drop)]
pub struct Table {
    /// The number of the file that it lies in.
    pub file: u32,
    /// The place of its index in the file.
    pub index_at: u64,
    /// How many bytes the index has.
    pub index_len: u32,
    /// Where its blocks lie in the file.
    pub fences: Fences,
    /// The bytes of its blocks.
    pub blocks: BlockBytes,
    // where each block begins among these bytes
    pub(crate) starts: Vec<usize>,
    ghost starts_are: { starts.items ≡ starts_from 0 fences },
}

impl Table {
    /// How many records it has.
    pub fn count(&self) -> u64
        ensures count { result ≡ count_of self.now.fences }
        ensures most { result ≤ 4096 * 65535 }
    {
        let mut count = 0;
        for index in 0..self.fences.len() {
            count += u64::from(self.fences.get(index).count);
        }
        count
    }

    // Without memory nothing stays of its parts.
    pub(crate) fn new(
        alloc: Global,
        file: u32,
        index_at: u64,
        index_len: u32,
        fences: Fences,
        blocks: BlockBytes,
    ) -> Result<Table, NoMemory>
        ensures index { IfOk result (λ table. (table.file ≡ file) × (table.index_at ≡ index_at) × (table.index_len ≡ index_len)) }
        ensures fences { IfOk result (λ table. table.fences ≡ fences) }
        ensures blocks { IfOk result (λ table. table.blocks ≡ blocks) }
    {
        let starts = starts_of(alloc, &fences)?;
        Ok(Table {
            file,
            index_at,
            index_len,
            fences,
            blocks,
            starts,
        })
    }
}

// Where each block begins among the bytes of all.
fn starts_of(alloc: Global, fences: &Fences) -> Result<Vec<usize>, NoMemory>
    ensures { IfOk result (λ starts. starts.items ≡ starts_from 0 fences.now) }
{
    let mut starts = Vec::with_capacity(alloc, fences.len())?;
    let mut place = 0;
    for index in 0..fences.len() {
        let Ok(()) = starts.push(place) else {
            return Err(NoMemory);
        };
        place += fences.get(index).len as usize;
    }
    Ok(starts)
}
