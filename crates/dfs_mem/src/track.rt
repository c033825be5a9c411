ghost use Rattle.std.specs.Prelude.{◌≡◌, ◌≢◌, ◌≤◌, ◌+◌, ◌^◌, ℕ, IfOk, OnOk, IfNone, IfSome, slice_index};
ghost use Rattle.dfs_host.specs.Disk.{FileState, overwritten};
ghost use Rattle.dfs_mem.specs.Deeds.{deeds_until};
ghost use Rattle.dfs_mem.specs.Track.{IsMarked, file_step, marks, said_step, said_after};

use crate::choice::{Choice, Fill, Length};
use crate::deed::{Deed, Kept, Patch};
use crate::files::overwrite;
use std::alloc::{AllocError, Global};

// The state of one file, and a mark at each place that was written since its last sync.
#[derive(Drop)]
pub struct Track {
    bytes: Vec<u8>,
    settled: Vec<u8>,
    touched: Vec<bool>,
    least: u64,
    greatest: u64,
}

// Puts the new bytes over the old ones from a place on.
fn patch_bytes(bytes: &mut Vec<u8>, at: usize, new: &[u8]) -> Result<(), AllocError>
    ensures { OnOk result (bytes.new.items ≡ overwritten at new.now bytes.old.items) }
{
    if at <= bytes.len() {
        return overwrite(bytes, at, new);
    }
    bytes.extend_from_slice(new)?;
    Ok(())
}

// Marks so many places from one on.
fn mark(touched: &mut Vec<bool>, at: usize, count: usize) -> Result<(), AllocError>
    requires { at + count ≤ 2 ^ 63 }
    ensures { OnOk result (IsMarked at count touched.old.items touched.new.items) }
{
    let end = at + count;
    while touched.len() < end {
        touched.push(false)?;
    }
    for place in at..end {
        touched[place] = true;
    }
    Ok(())
}

fn is_marked(touched: &[bool], place: u64) -> bool
    ensures { result ≡ marks touched.now place }
{
    match touched.get(place as usize) {
        Some(is) => *is,
        None => false,
    }
}

// The byte at a place, or 0 behind the end.
fn byte_at(bytes: &[u8], place: u64) -> u8
    ensures { result ≡ slice_index bytes.now place }
{
    match bytes.get(place as usize) {
        Some(byte) => *byte,
        None => 0,
    }
}

// Adds what a deed said.
fn hear(said: &mut Vec<u8>, deed: &Deed) -> Result<(), AllocError>
    ensures { OnOk result (said.new.items ≡ said_step deed.now said.old.items) }
{
    if let Deed::Say { bytes, count } = deed {
        let end = (*count).min(bytes.len());
        said.extend_from_slice(&bytes[..end])?;
    }
    Ok(())
}

// What was said after the deeds of the first `moment` calls, where this was said before.
pub fn heard_until(
    alloc: Global,
    before: &[u8],
    deeds: &[Kept],
    moment: u64,
) -> Result<Vec<u8>, AllocError>
    ensures { IfOk result (λ said. said.items ≡ said_after (deeds_until moment deeds.now) before.now) }
{
    let mut said = before.to_vec(alloc)?;
    for kept in deeds {
        if kept.call > moment {
            return Ok(said);
        }
        hear(&mut said, &kept.deed)?;
    }
    Ok(said)
}

// The file that a deed is on.
pub fn file_number(deed: &Deed) -> Option<u32>
    ensures none { IfNone result ((n : ℕ) (file : FileState) → file_step n deed.now file ≡ file) }
    ensures some { IfSome result (λ number. (n : ℕ) (file : FileState) → n ≢ number → file_step n deed.now file ≡ file) }
{
    match deed {
        Deed::Write { file, .. } | Deed::Cut { file, .. } | Deed::Sync { file } => Some(*file),
        Deed::Say { .. } => None,
    }
}

impl Track {
    ghost use Rattle.std.specs.Prelude.{◌≡◌, IfOk, OnOk};
    ghost use Rattle.dfs_host.specs.Disk.{settled_file, written, cut_to, synced};
    ghost use Rattle.dfs_mem.specs.Deeds.{tried};
    ghost use Rattle.dfs_mem.specs.Images.{left_at, length_of, image_of};
    ghost use Rattle.dfs_mem.specs.Track.{file_of, file_step};

    // A file with nothing touched.
    pub fn new(alloc: Global, bytes: &[u8]) -> Result<Track, AllocError>
        ensures { IfOk result (λ track. file_of track ≡ settled_file bytes.now) }
    {
        Ok(Track {
            bytes: bytes.to_vec(alloc)?,
            settled: bytes.to_vec(alloc)?,
            touched: Vec::new(alloc),
            least: bytes.len() as u64,
            greatest: bytes.len() as u64,
        })
    }

    fn write(&mut self, patch: &Patch, done: bool) -> Result<(), AllocError>
        ensures { OnOk result (file_of self.new ≡ tried done (written patch.now.at patch.now.bytes.items (file_of self.old)) (file_of self.old)) }
    {
        let bytes: &[u8] = &patch.bytes;
        let count = bytes.len() as u64;
        mark(&mut self.touched, patch.at as usize, bytes.len())?;
        self.greatest = self.greatest.max(patch.at + count);
        if done {
            patch_bytes(&mut self.bytes, patch.at as usize, bytes)?;
        }
        Ok(())
    }

    fn cut(&mut self, len: u64, done: bool)
        ensures { file_of self.new ≡ tried done (cut_to len (file_of self.old)) (file_of self.old) }
    {
        self.least = self.least.min(len);
        if done {
            self.bytes.truncate(len as usize);
        }
    }

    fn sync(&mut self, alloc: Global) -> Result<(), AllocError>
        ensures { OnOk result (file_of self.new ≡ synced (file_of self.old)) }
    {
        self.settled = self.bytes.to_vec(alloc)?;
        self.touched = Vec::new(alloc);
        self.least = self.bytes.len() as u64;
        self.greatest = self.bytes.len() as u64;
        Ok(())
    }

    // Follows a deed, as the file of this number.
    pub fn follow(&mut self, alloc: Global, number: u32, deed: &Deed) -> Result<(), AllocError>
        ensures { OnOk result (file_of self.new ≡ file_step number deed.now (file_of self.old)) }
    {
        match deed {
            Deed::Write { file, patch, done } => {
                if number == *file {
                    return self.write(patch, *done);
                }
                Ok(())
            }
            Deed::Cut { file, len, done } => {
                if number == *file {
                    self.cut(*len, *done);
                    return Ok(());
                }
                Ok(())
            }
            Deed::Sync { file } => {
                if number == *file {
                    return self.sync(alloc);
                }
                Ok(())
            }
            Deed::Say { .. } => Ok(()),
        }
    }

    fn length(&self, length: Length) -> u64
        ensures { result ≡ length_of length (file_of self.now) }
    {
        match length {
            Length::Least => self.least,
            Length::Greatest => self.greatest,
        }
    }

    fn left(&self, fill: Fill, place: u64) -> u8
        ensures { result ≡ left_at fill (file_of self.now) place }
    {
        if !is_marked(&self.touched, place) {
            return byte_at(&self.settled, place);
        }
        match fill {
            Fill::Settled => byte_at(&self.settled, place),
            Fill::Latest => byte_at(&self.bytes, place),
            Fill::Byte(byte) => byte,
        }
    }

    // The image of the file.
    pub fn image(&self, alloc: Global, choice: Choice) -> Result<Vec<u8>, AllocError>
        ensures { IfOk result (λ bytes. bytes.items ≡ image_of choice (file_of self.now)) }
    {
        let length = self.length(choice.length);
        let mut bytes = Vec::new(alloc);
        for place in 0..length {
            let left = self.left(choice.fill, place);
            bytes.push(left)?;
        }
        Ok(bytes)
    }
}
