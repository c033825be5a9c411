//! Fences written behind bytes.

ghost use Rattle.std.specs.Prelude.{◌≡◌, ◌≤◌, ◌++◌, OnErr, OnOk, length};
ghost use Rattle.std.specs.List.{flat_map};
ghost use Rattle.dfs_record.specs.Writing.{IsGrown};
ghost use Rattle.dfs_fence.specs.Index.{AreFences, IsIndex, fence_bytes, index_bytes};

use crate::{Fence, Fences};
use dfs_record::{NoMemory, encode_key};

impl Fences {
    /// Appends the one spelling of the index of these fences, of which there is at least one. Without memory `out` has
    /// the bytes that it had.
    pub fn write(&self, out: &mut Vec<u8>) -> Result<(), NoMemory>
        requires { 1 ≤ length self.now }
        ensures spelled { OnOk result (out.new.items ≡ out.old.items ++ index_bytes self.now) }
        ensures unchanged { OnErr result (out.new.items ≡ out.old.items) }
        ensures index { IsIndex (index_bytes self.now) self.now }
    {
        let before = out.len();
        let written = self.append(out);
        if written.is_err() {
            out.truncate(before);
        }
        written
    }

    fn append(&self, out: &mut Vec<u8>) -> Result<(), NoMemory>
        ensures spelled { OnOk result (out.new.items ≡ out.old.items ++ index_bytes self.now) }
        ensures grown { IsGrown out.old.items out.new.items }
        ensures fences { AreFences self.now }
    {
        let count = self.fences.len() as u32;
        out.extend_from_slice(&count.to_be_bytes())?;
        append_fences(&self.fences, out)?;
        Ok(())
    }
}

fn append_fences(fences: &[Fence], out: &mut Vec<u8>) -> Result<(), NoMemory>
    ensures spelled { OnOk result (out.new.items ≡ out.old.items ++ flat_map fence_bytes fences.now) }
    ensures grown { IsGrown out.old.items out.new.items }
{
    for fence in fences {
        append_fence(fence, out)?;
    }
    Ok(())
}

fn append_fence(fence: &Fence, out: &mut Vec<u8>) -> Result<(), NoMemory>
    ensures spelled { OnOk result (out.new.items ≡ out.old.items ++ fence_bytes fence.now) }
    ensures grown { IsGrown out.old.items out.new.items }
{
    out.extend_from_slice(&fence.at.to_be_bytes())?;
    out.extend_from_slice(&fence.len.to_be_bytes())?;
    out.extend_from_slice(&fence.count.to_be_bytes())?;
    encode_key(fence.first.lend(), out)?;
    encode_key(fence.last.lend(), out)?;
    Ok(())
}
