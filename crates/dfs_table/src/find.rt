//! Look-ups in a table.

ghost use Rattle.std.specs.Prelude.{◌≡◌, ◌<◌, ℕ, List, length, drop, slice_get, option_copied, option_map, Some, IfOk, IfSome, IsSomeAnd, IsErrOf};
ghost use Rattle.dfs_table.specs.RunRecords.{BeginsIn, Reaches};
ghost use Rattle.dfs_host.specs.Host.{Told, bytes_of};
ghost use Rattle.dfs_record.specs.Delta.{last_value};
ghost use Rattle.dfs_record.specs.Lend.{key_of, value_of};
ghost use Rattle.dfs_record.specs.Record.{IsValue};
ghost use Rattle.dfs_host.specs.declared.fault.Fault.{Fault as AnyFault};
ghost use Rattle.dfs_fence.specs.declared.fence.Fence.{Fence};
ghost use Rattle.dfs_table.specs.Stored.{IsTableOf, block_at, blocks_by, table_records};

use crate::Table;
use dfs_block::Block;
use dfs_host::{Fault, Host};
use dfs_record::{Key, KeyRef, Value, ValueRef};
use std::alloc::Global;

impl Table {
    /// The value of the record with the key, and `None` exactly where no record has it. A binary search over the fences finds the
    /// one block that may have it. No call is made on the host: the table holds the bytes of its blocks.
    pub fn find<H: Host>(
        &self,
        alloc: Global,
        host: &mut H,
        key: KeyRef<'_>,
    ) -> Result<Option<Value>, Fault>
        requires stored { Told (H.state host.old) (IsTableOf (bytes_of (H.state host.old) self.now.file) self.now) }

        ensures value { Told (H.state host.old) (IfOk result (λ found. found ≡ last_value (key_of key.entry) (table_records (bytes_of (H.state host.old) self.now.file) self.now))) }
        ensures valid { IfOk result (λ found. IfSome found IsValue) }
        ensures memory { (fault : AnyFault) → IsErrOf result fault → fault ≡ Fault.NoMemory }
        ensures host { H.state host.new ≡ H.state host.old }
    {
        let _ = host;
        let Some(value) = self.lent(key) else {
            return Ok(None);
        };
        match value.to_value(alloc) {
            Ok(value) => Ok(Some(value)),
            Err(_) => Err(Fault::NoMemory),
        }
    }

    // The same, lent from the bytes of the block.
    fn lent(&self, key: KeyRef<'_>) -> Option<ValueRef<'_>>
        ensures value { (file : List ℕ) → IsTableOf file self.now → option_map value_of result ≡ last_value (key_of key.entry) (table_records file self.now) }
        ensures valid { IfSome result (λ value. IsValue (value_of value)) }
    {
        let index = self.fences.find(key)?;
        let bytes = self.block_bytes(index)?;
        let (_, value) = Block::find_in(bytes, key)?;
        value
    }

    // The number of the first block that does not end below the low end, and the bytes of the blocks from it on.
    pub(crate) fn from(&self, low: Option<&Key>) -> (usize, &[u8])
        ensures { (file : List ℕ) → IsTableOf file self.now → Reaches (option_copied low.entry) self.now → BeginsIn (option_copied low.entry) file self.now result.0 result.1.now }
    {
        let (next, _) = self.fences.range(low, None);
        (next, self.bytes_from(next))
    }

    // The bytes of the blocks from the one with this number on.
    fn bytes_from(&self, index: usize) -> &[u8]
        ensures { (file : List ℕ) → IsTableOf file self.now → index < length self.now.fences → result.now ≡ blocks_by file (drop index self.now.fences) }
    {
        if index >= self.starts.len() {
            return &[];
        }
        let Some((_, bytes)) = self.blocks.bytes().split_at_checked(self.starts[index]) else {
            return &[];
        };
        bytes
    }

    // The bytes of the block with this number, where the table has them.
    fn block_bytes(&self, index: usize) -> Option<&[u8]>
        requires { index < length self.now.fences }
        ensures { (file : List ℕ) (f : Fence) → IsTableOf file self.now → slice_get self.now.fences index ≡ Some f → IsSomeAnd result (λ bytes. bytes.now ≡ block_at file f) }
    {
        let len = self.fences.get(index).len as usize;
        let (_, behind) = self.blocks.bytes().split_at_checked(self.starts[index])?;
        let (block, _) = behind.split_at_checked(len)?;
        Some(block)
    }
}
