//! Tables that are read back from a log.

ghost use Rattle.std.specs.Prelude.{◌≡◌, ◌≤◌, ◌<◌, ◌+◌, ◌++◌, ◌↔◌, ◌⊎◌, ℕ, List, length, Some, IfOk, OnOk, IsErrOf, IsTrue};
ghost use Rattle.std.specs.List.{AllByRecursion, Any};
ghost use Rattle.dfs_block.specs.Block.{first_key, last_key};
ghost use Rattle.dfs_fence.specs.declared.fence.Fence.{Fence as AnyFence};
ghost use Rattle.dfs_fence.specs.Places.{BlockLies, Lies};
ghost use Rattle.dfs_record.specs.Lend.{key_of};
ghost use Rattle.dfs_host.specs.Counts.{RoseBy};
ghost use Rattle.dfs_host.specs.Host.{Told, bytes_of, OnlyReads};
ghost use Rattle.dfs_host.specs.declared.fault.Fault.{Fault as AnyFault};
ghost use Rattle.dfs_table.specs.Opened.{Agrees, BlocksMayLie, HasOpenCause, IsBlockIn, IsNoTable, IsTableAt};
ghost use Rattle.dfs_table.specs.Stored.{IsIndexAt, IsTableOf, block_at, blocks_by, part};

use crate::identities::are_within;
use crate::{BlockBytes, Table};
use dfs_block::Block;
use dfs_fence::{Fence, Fences, blocks_lie, lies};
use dfs_host::{Fault, Host};
use dfs_record::{Key, KeyRef, NoMemory};
use std::alloc::Global;
use thiserror::Error;

/// Why a table or a log was not opened.
#[derive(Clone, Copy, Debug, PartialEq, Eq, Error)]
pub enum OpenFault {
    /// The bytes are not those of a table or a log.
    #[error("Malformed")]
    Malformed,
    /// It is not known whether they are.
    #[error("Fault")]
    Fault(Fault),
}

impl From<NoMemory> for OpenFault {
    ghost use Rattle.std.specs.Prelude.{◌≡◌};
    ghost use Rattle.dfs_host.specs.declared.fault.Fault.TheVariants.{NoMemory};
    ghost use Rattle.dfs_table.specs.declared.open.OpenFault.TheVariants.{Fault};

    ghost from_gives = { λ _ e. e ≡ Fault NoMemory };

    fn from(_: NoMemory) -> Self {
        OpenFault::Fault(Fault::NoMemory)
    }
}

// The most bytes of an index.
const MOST_INDEX_BYTES: u32 = 2_220_036;

// The most bytes of a block.
const MOST_BLOCK_BYTES: u32 = 4096;

impl Table {
    /// The table whose index has so many bytes at a place of a job's log. The index and each block are read once. `end` is the
    /// place behind the last byte that the table may have. A table with a byte behind the file's end is malformed.
    pub fn open<H: Host>(
        alloc: Global,
        host: &mut H,
        file: u32,
        at: u64,
        len: u32,
        end: u64,
    ) -> Result<Table, OpenFault>
        ensures table { Told (H.state host.old) (IfOk result (λ table. IsTableAt (bytes_of (H.state host.old) file) file at len end table.fences)) }
        ensures stored { Told (H.state host.old) (IfOk result (λ table. IsTableOf (bytes_of (H.state host.old) file) table)) }
        ensures some { IfOk result (λ table. 1 ≤ length table.fences) }
        ensures place { IfOk result (λ table. (table.file ≡ file) × (table.index_at ≡ at) × (table.index_len ≡ len)) }
        ensures malformed { Told (H.state host.old) (IsErrOf result OpenFault.Malformed → IsNoTable (bytes_of (H.state host.old) file) file at len end) }

        // Memory is asked for only where an index of that length may lie there.
        ensures memory { IsErrOf result (OpenFault.Fault Fault.NoMemory) → Lies at len 2220036 end }

        // Once it was read, only where its bytes begin as an index does, and each of its blocks may lie where its fence says.
        ensures memory_blocks { Told (H.state host.old) (IsErrOf result (OpenFault.Fault Fault.NoMemory) → ((H.state host.new).reads ≡ (H.state host.old).reads) ⊎ BlocksMayLie (bytes_of (H.state host.old) file) at len end) }
        ensures never_full { IsErrOf result (OpenFault.Fault Fault.LogFull) → ⊥ }
        ensures never_changed { (file at : ℕ) → IsErrOf result (OpenFault.Fault (Fault.Changed file at)) → ⊥ }
        ensures only { OnlyReads (H.state host.old) (H.state host.new) }
        ensures cause { HasOpenCause (H.state host.old) (H.state host.new) result }
        ensures reads { IfOk result (λ table. RoseBy (1 + length table.fences) (H.state host.old).reads (H.state host.new).reads) }
    {
        if !lies(at, len, MOST_INDEX_BYTES, end) {
            return Err(OpenFault::Malformed);
        }
        let fences = read_index(alloc, host, file, at, len, end)?;
        let blocks = read_blocks(alloc, host, file, end, &fences)?;
        Ok(Table::new(alloc, file, at, len, fences, blocks)?)
    }
}

// Fills the slice from a place of a file, which is malformed where it ends before.
fn read_part<H: Host>(host: &mut H, file: u32, at: u64, out: &mut [u8]) -> Result<(), OpenFault>
    ensures part { Told (H.state host.old) (OnOk result (out.new ≡ part (bytes_of (H.state host.old) file) at (length out.old))) }
    ensures whole { Told (H.state host.old) (OnOk result (length (part (bytes_of (H.state host.old) file) at (length out.old)) ≡ length out.old)) }
    ensures short { Told (H.state host.old) (IsErrOf result OpenFault.Malformed → length (bytes_of (H.state host.old) file) < at + length out.old) }
    ensures fault { (fault : AnyFault) → IsErrOf result (OpenFault.Fault fault) → fault ≡ Fault.Disk }
    ensures only { OnlyReads (H.state host.old) (H.state host.new) }
    ensures cause { HasOpenCause (H.state host.old) (H.state host.new) result }
    ensures reads { RoseBy 1 (H.state host.old).reads (H.state host.new).reads }
{
    match host.read_at(file, at, out) {
        Ok(count) if count == out.len() => Ok(()),
        Ok(_) => Err(OpenFault::Malformed),
        Err(_) => Err(OpenFault::Fault(Fault::Disk)),
    }
}

// The fences whose index lies there. It is malformed too where not each of their blocks may lie where they say.
fn read_index<H: Host>(
    alloc: Global,
    host: &mut H,
    file: u32,
    at: u64,
    len: u32,
    end: u64,
) -> Result<Fences, OpenFault>
    requires behind { 12 ≤ at }
    ensures some { IfOk result (λ fences. 1 ≤ length fences) }
    ensures index { Told (H.state host.old) (IfOk result (IsIndexAt (bytes_of (H.state host.old) file) at len)) }
    ensures lie { IfOk result (AllByRecursion (BlockLies end)) }
    ensures malformed { Told (H.state host.old) (IsErrOf result OpenFault.Malformed → (fences : List AnyFence) → IsIndexAt (bytes_of (H.state host.old) file) at len fences → ¬ (AllByRecursion (BlockLies end) fences)) }
    ensures memory { Told (H.state host.old) (IsErrOf result (OpenFault.Fault Fault.NoMemory) → ((H.state host.new).reads ≡ (H.state host.old).reads) ⊎ BlocksMayLie (bytes_of (H.state host.old) file) at len end) }
    ensures never_full { IsErrOf result (OpenFault.Fault Fault.LogFull) → ⊥ }
    ensures never_changed { (file at : ℕ) → IsErrOf result (OpenFault.Fault (Fault.Changed file at)) → ⊥ }
    ensures only { OnlyReads (H.state host.old) (H.state host.new) }
    ensures cause { HasOpenCause (H.state host.old) (H.state host.new) result }
    ensures reads { IfOk result (λ fences. RoseBy 1 (H.state host.old).reads (H.state host.new).reads) }
{
    let Ok(mut bytes) = Vec::from_elem(alloc, 0, len as usize) else {
        return Err(OpenFault::Fault(Fault::NoMemory));
    };
    read_part(host, file, at, &mut bytes)?;
    if !blocks_lie(&bytes, end) {
        return Err(OpenFault::Malformed);
    }
    match Fences::read(alloc, &bytes)? {
        Some(fences) => Ok(fences),
        None => Err(OpenFault::Malformed),
    }
}

// The bytes of the blocks of these fences.
fn read_blocks<H: Host>(
    alloc: Global,
    host: &mut H,
    file: u32,
    end: u64,
    fences: &Fences,
) -> Result<BlockBytes, OpenFault>
    ensures blocks { Told (H.state host.old) (IfOk result (λ blocks. blocks ≡ blocks_by (bytes_of (H.state host.old) file) fences.now)) }
    ensures each { Told (H.state host.old) (OnOk result (AllByRecursion (IsBlockIn (bytes_of (H.state host.old) file) file end) fences.now)) }
    ensures malformed { Told (H.state host.old) (IsErrOf result OpenFault.Malformed → ¬ (AllByRecursion (IsBlockIn (bytes_of (H.state host.old) file) file end) fences.now)) }
    ensures memory { IsErrOf result (OpenFault.Fault Fault.NoMemory) → Any (BlockLies end) fences.now }
    ensures never_full { IsErrOf result (OpenFault.Fault Fault.LogFull) → ⊥ }
    ensures never_changed { (file at : ℕ) → IsErrOf result (OpenFault.Fault (Fault.Changed file at)) → ⊥ }
    ensures only { OnlyReads (H.state host.old) (H.state host.new) }
    ensures cause { HasOpenCause (H.state host.old) (H.state host.new) result }
    ensures reads { OnOk result (RoseBy (length fences.now) (H.state host.old).reads (H.state host.new).reads) }
{
    let mut blocks = BlockBytes::new(alloc);
    let mut buffer = [0u8; 4096];
    for index in 0..fences.len() {
        read_block(host, file, end, fences.get(index), &mut buffer, &mut blocks)?;
    }
    Ok(blocks)
}

// Puts the bytes of the block of this fence behind the others. The buffer has room for a block.
fn read_block<H: Host>(
    host: &mut H,
    file: u32,
    end: u64,
    fence: &Fence,
    buffer: &mut [u8],
    blocks: &mut BlockBytes,
) -> Result<(), OpenFault>
    requires room { 4096 ≤ length buffer.old }
    ensures bytes { Told (H.state host.old) (OnOk result (blocks.new ≡ blocks.old ++ block_at (bytes_of (H.state host.old) file) fence.now)) }
    ensures block { Told (H.state host.old) (OnOk result (IsBlockIn (bytes_of (H.state host.old) file) file end fence.now)) }
    ensures malformed { Told (H.state host.old) (IsErrOf result OpenFault.Malformed → ¬ (IsBlockIn (bytes_of (H.state host.old) file) file end fence.now)) }
    ensures memory { IsErrOf result (OpenFault.Fault Fault.NoMemory) → BlockLies end fence.now }
    ensures never_full { IsErrOf result (OpenFault.Fault Fault.LogFull) → ⊥ }
    ensures never_changed { (file at : ℕ) → IsErrOf result (OpenFault.Fault (Fault.Changed file at)) → ⊥ }
    ensures only { OnlyReads (H.state host.old) (H.state host.new) }
    ensures cause { HasOpenCause (H.state host.old) (H.state host.new) result }
    ensures reads { OnOk result (RoseBy 1 (H.state host.old).reads (H.state host.new).reads) }
{
    if !lies(fence.at, fence.len, MOST_BLOCK_BYTES, end) {
        return Err(OpenFault::Malformed);
    }
    let bytes = &mut buffer[..fence.len as usize];
    read_part(host, file, fence.at, bytes)?;
    if !agrees(file, fence, bytes) {
        return Err(OpenFault::Malformed);
    }
    blocks.add(bytes)?;
    Ok(())
}

// Whether the bytes are the block of the fence, with no identity of a later job.
fn agrees(job: u32, fence: &Fence, bytes: &[u8]) -> bool
    ensures { IsTrue result ↔ Agrees job fence.now bytes.now }
{
    match Block::read(bytes) {
        Some(block) => has_ends(&block, fence) && are_within(job, &block),
        None => false,
    }
}

// Whether the block has as many records as the fence counts, and its first key and last one.
fn has_ends(block: &Block<'_>, fence: &Fence) -> bool
    ensures { IsTrue result ↔ ((length block.now ≡ fence.now.count) × (first_key block.now ≡ Some fence.now.first) × (last_key block.now ≡ Some fence.now.last)) }
{
    block.count() == fence.count
        && is_key(block.first_key(), &fence.first)
        && is_key(block.last_key(), &fence.last)
}

fn is_key(lent: KeyRef<'_>, key: &Key) -> bool
    ensures { IsTrue result ↔ (key_of lent.entry ≡ key.now) }
{
    lent.order(key.lend()).is_eq()
}
