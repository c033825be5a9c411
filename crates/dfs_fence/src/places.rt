//! Whether blocks may lie where fences say.

ghost use Rattle.std.specs.Prelude.{◌↔◌, List, IsTrue};
ghost use Rattle.std.specs.List.{AllByRecursion};
ghost use Rattle.dfs_fence.specs.declared.fence.Fence.{Fence};
ghost use Rattle.dfs_fence.specs.Index.{IsIndex};
ghost use Rattle.dfs_fence.specs.Places.{BlockLies, Lies};
ghost use Rattle.dfs_fence.specs.Spelled.{AreSpelled};

use crate::reading::fence_front;
use dfs_record::read_u32;

// The length of a log's header.
const HEADER_LEN: u64 = 12;

// The most bytes of a block.
const MOST_BLOCK_BYTES: u32 = 4096;

/// Whether so many bytes, at most these, lie behind a log's header and end by a place.
pub fn lies(at: u64, len: u32, most: u32, end: u64) -> bool
    ensures { IsTrue result ↔ Lies at len most end }
{
    HEADER_LEN <= at && len <= most && at <= end && u64::from(len) <= end - at
}

/// Whether each block of an index may lie where its fence says, and end by a place. It is told from the bytes of the index, and no
/// memory is asked for. Of bytes that are no index nothing is told.
pub fn blocks_lie(bytes: &[u8], end: u64) -> bool
    ensures { (fences : List Fence) → IsIndex bytes.now fences → IsTrue result ↔ AllByRecursion (BlockLies end) fences }
{
    let Some(count) = read_u32(bytes) else {
        return false;
    };
    let (_, fences) = bytes.split_at(4);
    all_lie(count, fences, end)
}

// The same of so many fences, where the bytes are these and nothing else.
fn all_lie(count: u32, bytes: &[u8], end: u64) -> bool
    ensures { (fences : List Fence) → AreSpelled count bytes.now fences → IsTrue result ↔ AllByRecursion (BlockLies end) fences }
{
    let mut rest = bytes;
    for _turn in 0..count {
        let Some((fence, behind)) = fence_front(rest) else {
            return false;
        };
        if !lies(fence.at, fence.len, MOST_BLOCK_BYTES, end) {
            return false;
        }
        rest = behind;
    }
    true
}
