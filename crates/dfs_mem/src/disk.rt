ghost use Rattle.std.specs.Prelude.{◌≡◌, ◌≤◌, ◌<◌, ◌++◌, ◌∷◌, [], ℕ, All, IsTrue, vec_len, vec_capacity};
ghost use Rattle.dfs_host.specs.Disk.{IsSound};
ghost use Rattle.dfs_mem.specs.Files.{bytes_at, numbers_differ};
ghost use Rattle.dfs_mem.specs.Deeds.{start_disk, disk_after, deeds_until};

use crate::choice::Choice;
use crate::deed::{Deed, Kept, Patch};
use crate::files::{Files, content, copied, cut_if, write_if};
use crate::replay::{images_of, tracks_until};
use crate::track::heard_until;
use std::alloc::{AllocError, Global};

// Keeps a deed for which there is room.
#[tactic(auto, using(crate::proofs::Moments::until_push))]
fn keep(deeds: &mut Vec<Kept>, kept: Kept)
    requires { vec_len deeds.old < vec_capacity deeds.old }
    ensures kept { deeds.new.items ≡ deeds.old.items ++ kept ∷ [] }
    ensures moments { (moment : ℕ) → moment < kept.call → deeds_until moment deeds.new.items ≡ deeds_until moment deeds.old.items }
{
    match deeds.push(kept) {
        Ok(()) => {}
        Err(_) => unreachable!(),
    }
}

// Files and an output, beside what they were at the start and what was done since. `last` is the number of the last call that was kept.
#[derive(Drop)]
pub struct MemDisk {
    alloc: Global,
    start: Vec<(u32, Vec<u8>)>,
    start_said: Vec<u8>,
    deeds: Vec<Kept>,
    last: u64,
    files: Files,
    said: Vec<u8>,
    ghost differ: { IsTrue (numbers_differ start.items) },
    ghost numbered: { All (λ kept. kept.call ≤ last) deeds.items },
    ghost reads: { (n : ℕ) → bytes_at files n ≡ ((disk_after deeds.items (start_disk start.items start_said.items)).files n).bytes },
    ghost speaks: { said.items ≡ (disk_after deeds.items (start_disk start.items start_said.items)).said },
    ghost sound: { (n : ℕ) → IsSound ((disk_after deeds.items (start_disk start.items start_said.items)).files n) },
}

impl MemDisk {
    ghost use Rattle.std.specs.Prelude.{◌≡◌, ◌≤◌, ◌+◌, ◌^◌, ◌++◌, [], ◌∷◌, length, take, true, false, OnOk, OnErr};
    ghost use Rattle.std.specs.Prelude.{ℕ, IfOk, IsTrue};
    ghost use Rattle.dfs_host.specs.Disk.{settled_file};
    ghost use Rattle.dfs_mem.specs.Files.{bytes_in, numbers_differ};
    ghost use Rattle.dfs_mem.specs.Images.{disk_until, KeepsBefore, image_in};
    ghost use Rattle.dfs_mem.specs.Deeds.{write_step, cut_step, sync_step, say_step, spoken};
    ghost use Rattle.dfs_mem.specs.MemDisk.{disk_of, past_of, IsSame};

    // A disk with these files, each settled, and with this said.
    pub fn new(alloc: Global, start: Vec<(u32, Vec<u8>)>, said: Vec<u8>) -> Result<Self, AllocError>
        requires { IsTrue (numbers_differ start.items) }
        ensures files { IfOk result (λ disk. (n : ℕ) → (disk_of disk).files n ≡ settled_file (bytes_in start.items n)) }
        ensures said { IfOk result (λ disk. (disk_of disk).said ≡ said.items) }
        ensures past { IfOk result (λ disk. past_of disk ≡ []) }
        ensures last { IfOk result (λ disk. disk.last ≡ 0) }
    {
        let files = copied(alloc, &start)?;
        let now = said.to_vec(alloc)?;
        Ok(MemDisk {
            alloc,
            start,
            start_said: said,
            deeds: Vec::new(alloc),
            last: 0,
            files,
            said: now,
        })
    }

    pub fn content(&self, file: u32) -> &[u8]
        ensures { result.now ≡ ((disk_of self.now).files file).bytes }
    {
        content(&self.files, file)
    }

    pub fn said(&self) -> &[u8]
        ensures { result.now ≡ (disk_of self.now).said }
    {
        &self.said
    }

    #[tactic(auto, using(crate::proofs::Deeds::one_deed))]
    pub fn write(
        &mut self,
        call: u64,
        file: u32,
        at: u64,
        bytes: &[u8],
        done: bool,
    ) -> Result<(), AllocError>
        requires later { self.old.last ≤ call }
        requires inside { at ≤ length ((disk_of self.old).files file).bytes }
        requires end { at + length bytes.now ≤ 2 ^ 63 }
        ensures disk { OnOk result (disk_of self.new ≡ write_step file at bytes.now done (disk_of self.old)) }
        ensures past { OnOk result (past_of self.new ≡ past_of self.old ++ disk_of self.old ∷ []) }
        ensures err { OnErr result (IsSame self.old self.new) }
        ensures moments { KeepsBefore call self.old self.new }
        ensures last { self.new.last ≤ call }
    {
        let copy = bytes.to_vec(self.alloc)?;
        self.deeds.reserve(1)?;
        write_if(&mut self.files, self.alloc, file, at as usize, bytes, done)?;
        let patch = Patch { at, bytes: copy };
        let deed = Deed::Write { file, patch, done };
        keep(&mut self.deeds, Kept { call, deed });
        self.last = call;
        Ok(())
    }

    #[tactic(auto, using(crate::proofs::Deeds::one_deed))]
    pub fn cut(&mut self, call: u64, file: u32, len: u64, done: bool) -> Result<(), AllocError>
        requires later { self.old.last ≤ call }
        requires inside { len ≤ length ((disk_of self.old).files file).bytes }
        ensures disk { OnOk result (disk_of self.new ≡ cut_step file len done (disk_of self.old)) }
        ensures past { OnOk result (past_of self.new ≡ past_of self.old ++ disk_of self.old ∷ []) }
        ensures err { OnErr result (IsSame self.old self.new) }
        ensures moments { KeepsBefore call self.old self.new }
        ensures last { self.new.last ≤ call }
    {
        self.deeds.reserve(1)?;
        cut_if(&mut self.files, file, len as usize, done);
        let deed = Deed::Cut { file, len, done };
        keep(&mut self.deeds, Kept { call, deed });
        self.last = call;
        Ok(())
    }

    #[tactic(auto, using(crate::proofs::Deeds::one_deed))]
    pub fn sync(&mut self, call: u64, file: u32) -> Result<(), AllocError>
        requires { self.old.last ≤ call }
        ensures disk { OnOk result (disk_of self.new ≡ sync_step file (disk_of self.old)) }
        ensures past { OnOk result (past_of self.new ≡ past_of self.old ++ disk_of self.old ∷ []) }
        ensures err { OnErr result (IsSame self.old self.new) }
        ensures moments { KeepsBefore call self.old self.new }
        ensures last { self.new.last ≤ call }
    {
        self.deeds.reserve(1)?;
        let deed = Deed::Sync { file };
        keep(&mut self.deeds, Kept { call, deed });
        self.last = call;
        Ok(())
    }

    #[tactic(auto, using(crate::proofs::Deeds::one_deed))]
    // Says the first `count` of the bytes.
    pub fn say(&mut self, call: u64, bytes: &[u8], count: usize) -> Result<(), AllocError>
        requires later { self.old.last ≤ call }
        requires inside { count ≤ length bytes.now }
        ensures disk { OnOk result (disk_of self.new ≡ say_step (take count bytes.now) (disk_of self.old)) }
        ensures past { OnOk result (past_of self.new ≡ past_of self.old ++ spoken bytes.now (disk_of self.old)) }
        ensures err { OnErr result (IsSame self.old self.new) }
        ensures moments { KeepsBefore call self.old self.new }
        ensures last { self.new.last ≤ call }
    {
        let copy = bytes.to_vec(self.alloc)?;
        self.deeds.reserve(1)?;
        self.said.extend_from_slice(&bytes[..count])?;
        let deed = Deed::Say { bytes: copy, count };
        keep(&mut self.deeds, Kept { call, deed });
        self.last = call;
        Ok(())
    }

    // What was said after the first `moment` calls.
    #[tactic(auto, using(crate::proofs::Tracks::disk_said))]
    fn said_until(&self, moment: u64) -> Result<Vec<u8>, AllocError>
        ensures { IfOk result (λ said. said.items ≡ (disk_until self.now moment).said) }
    {
        let said = heard_until(self.alloc, &self.start_said, &self.deeds, moment)?;
        Ok(said)
    }

    // The images of all files.
    #[tactic(auto, using(crate::proofs::Tracks::disk_file))]
    fn images(&self, choice: Choice) -> Result<Vec<(u32, Vec<u8>)>, AllocError>
        ensures differ { IfOk result (λ images. IsTrue (numbers_differ images.items)) }
        ensures bytes { IfOk result (λ images. (n : ℕ) → bytes_in images.items n ≡ image_in self.now choice n) }
    {
        let tracks = tracks_until(self.alloc, &self.start, &self.deeds, choice.moment)?;
        let images = images_of(self.alloc, &tracks, choice)?;
        Ok(images)
    }

    // An image of the disk after its first calls, each file settled.
    pub fn image(&self, choice: Choice) -> Result<MemDisk, AllocError>
        ensures files { IfOk result (λ disk. (n : ℕ) → (disk_of disk).files n ≡ settled_file (image_in self.now choice n)) }
        ensures said { IfOk result (λ disk. (disk_of disk).said ≡ (disk_until self.now choice.moment).said) }
        ensures past { IfOk result (λ disk. past_of disk ≡ []) }
        ensures last { IfOk result (λ disk. disk.last ≡ 0) }
    {
        let images = self.images(choice)?;
        let said = self.said_until(choice.moment)?;
        let image = MemDisk::new(self.alloc, images, said)?;
        Ok(image)
    }

    pub fn alloc(&self) -> Global {
        self.alloc
    }
}
