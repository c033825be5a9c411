//! Fences read from the front of bytes.

ghost use Rattle.std.specs.Prelude.{◌≡◌, IfOk};
ghost use Rattle.std.specs.Int.{w16, w32, w64};
ghost use Rattle.dfs_record.specs.Lend.{key_of};
ghost use Rattle.dfs_record.specs.Record.{IsKey};
ghost use Rattle.dfs_record.specs.Reading.{Gives, number_at, key_at};

use crate::Fence;
use dfs_record::{KeyRef, NoMemory, decode_key, read_u16, read_u32, read_u64};
use std::alloc::Global;

/// A fence whose keys are lent.
#[derive(Clone, Copy)]
pub struct FenceRef<'a> {
    pub at: u64,
    pub len: u32,
    pub count: u16,
    pub first: KeyRef<'a>,
    pub last: KeyRef<'a>,
}

impl FenceRef<'_> {
    ghost use Rattle.std.specs.Prelude.{◌≡◌, IfOk};
    ghost use Rattle.dfs_record.specs.Lend.{key_of};
    ghost use Rattle.dfs_record.specs.Record.{IsKey};
    ghost use Rattle.dfs_fence.specs.Reading.{fence_of};

    /// The fence with keys of its own.
    pub fn to_fence(self, alloc: Global) -> Result<Fence, NoMemory>
        requires first { IsKey (key_of self.first) }
        requires last { IsKey (key_of self.last) }
        ensures { IfOk result (λ fence. fence ≡ fence_of self.entry) }
    {
        Ok(Fence {
            at: self.at,
            len: self.len,
            count: self.count,
            first: self.first.to_key(alloc)?,
            last: self.last.to_key(alloc)?,
        })
    }
}

fn u16_front(bytes: &[u8]) -> Option<(u16, &[u8])>
    ensures { Gives (λ x. (x.0, x.1.now)) result (number_at w16 bytes.now) }
{
    let number = read_u16(bytes)?;
    Some((number, &bytes[2..]))
}

fn u32_front(bytes: &[u8]) -> Option<(u32, &[u8])>
    ensures { Gives (λ x. (x.0, x.1.now)) result (number_at w32 bytes.now) }
{
    let number = read_u32(bytes)?;
    Some((number, &bytes[4..]))
}

fn u64_front(bytes: &[u8]) -> Option<(u64, &[u8])>
    ensures { Gives (λ x. (x.0, x.1.now)) result (number_at w64 bytes.now) }
{
    let number = read_u64(bytes)?;
    Some((number, &bytes[8..]))
}

fn key_front(bytes: &[u8]) -> Option<(KeyRef<'_>, &[u8])>
    ensures { Gives (λ x. (key_of x.0, x.1.now)) result (key_at bytes.now) }
{
    let (key, len) = decode_key(bytes)?;
    let (_, rest) = bytes.split_at(len);
    Some((key, rest))
}

ghost use Rattle.dfs_fence.specs.Reading.{fence_at, fence_of};

/// The fence that stands at the front, and the bytes behind it. Its two keys may stand in any order.
#[tactic(auto, unfolding(crate::specs::Reading::fence_at))]
pub fn fence_front(bytes: &[u8]) -> Option<(FenceRef<'_>, &[u8])>
    ensures { Gives (λ x. (fence_of x.0, x.1.now)) result (fence_at bytes.now) }
{
    let (at, rest) = u64_front(bytes)?;
    let (len, rest) = u32_front(rest)?;
    let (count, rest) = u16_front(rest)?;
    let (first, rest) = key_front(rest)?;
    let (last, rest) = key_front(rest)?;
    Some((
        FenceRef {
            at,
            len,
            count,
            first,
            last,
        },
        rest,
    ))
}
