//! A folder with numbered files, over the system's calls.
ghost use Rattle.std.specs.Prelude.{◌≤◌, ◌<◌, ◌+◌, ◌^◌, length, IfOk};

use crate::answer::answered;
use crate::names::Paths;
use crate::opened::OpenFiles;
use dfs_host::{Failed, NoMemory};
use std::alloc::Global;
use std::fs::{File, OpenOptions};
use std::io;
use std::os::fd::AsRawFd;
use std::os::unix::fs::FileExt;

// The last place that the system can name.
const LAST_PLACE: u64 = (1 << 63) - 1;

// Where a standard stream was closed before the start, a file may get its number. It gets another one, so that nothing that is said
// lands in it.
fn apart_from_streams(file: File) -> io::Result<File> {
    if file.as_raw_fd() <= 2 {
        return file.try_clone();
    }
    Ok(file)
}

fn open_folder(runtime: &HostRuntime, path: &str) -> io::Result<File> {
    let folder = File::open(runtime, path)?;
    apart_from_streams(folder)
}

// None where there is no such file.
fn open_file(runtime: &HostRuntime, path: &str) -> io::Result<Option<File>> {
    match OpenOptions::new()
        .read(true)
        .write(true)
        .open(runtime, path)
    {
        Ok(file) => Ok(Some(apart_from_streams(file)?)),
        Err(error) if error.kind() == io::ErrorKind::NotFound => Ok(None),
        Err(error) => Err(error),
    }
}

fn make_file(runtime: &HostRuntime, path: &str) -> io::Result<File> {
    let file = OpenOptions::new()
        .read(true)
        .write(true)
        .create_new(true)
        .open(runtime, path)?;
    apart_from_streams(file)
}

// Reads on until `out` is full or the file ends.
fn read_full(file: &File, at: u64, out: &mut [u8]) -> io::Result<usize>
    requires { at < 2 ^ 63 }
    ensures bound { IfOk result (λ count. count ≤ length out.old) }
{
    let mut count = 0;
    while count < out.len() {
        let more = file.read_at(&mut out[count..], at + count as u64)?;
        if more == 0 {
            return Ok(count);
        }
        count += more;
    }
    Ok(count)
}

// The folder and its files. Some of them are open, and the folder itself is from the first call on that looks into it.
//
// Each error of the system is counted where it comes, and no call is Ok that counted one.
#[derive(Drop)]
pub struct Folder {
    runtime: HostRuntime,
    paths: Paths,
    folder: Option<File>,
    files: OpenFiles,
}

impl Folder {
    ghost use Rattle.std.specs.Prelude.{◌≤◌, length, IfOk, IsTrue};
    ghost use Rattle.dfs_host.specs.Counts.{HasCause};
    ghost use Rattle.dfs_folder.specs.Opened.{IsLatest};

    pub fn new(alloc: Global, runtime: HostRuntime, folder: &str) -> Result<Folder, NoMemory> {
        let paths = Paths::new(alloc, folder)?;
        let files = OpenFiles::new(alloc)?;
        Ok(Folder {
            runtime,
            paths,
            folder: None,
            files,
        })
    }

    // The folder itself, open. It is synced when it is opened, since a run that was killed may have left a file's entry unsettled.
    fn folder(&mut self, faults: &mut u64) -> Result<&File, Failed>
        ensures cause { HasCause faults.old faults.new result }
    {
        if self.folder.is_none() {
            let folder = answered(open_folder(&self.runtime, self.paths.folder()), faults)?;
            answered(folder.sync_all(), faults)?;
            self.folder = Some(folder);
        }
        let Some(folder) = &self.folder else {
            unreachable!();
        };
        Ok(folder)
    }

    // Whether the file was ever made; it is the one used last then. A folder that is missing is a fault.
    fn find(&mut self, number: u32, faults: &mut u64) -> Result<bool, Failed>
        ensures found { IfOk result (λ found. IsTrue found → IsLatest number self.new.files) }
        ensures cause { HasCause faults.old faults.new result }
    {
        if self.files.find(number) {
            return Ok(true);
        }
        self.folder(faults)?;
        self.paths.turn_to(number);
        match answered(open_file(&self.runtime, self.paths.path()), faults)? {
            Some(file) => {
                self.files.keep(number, file);
                Ok(true)
            }
            None => Ok(false),
        }
    }

    // Makes the file where it never was, and syncs the folder then. The file is the one used last.
    fn find_or_make(&mut self, number: u32, faults: &mut u64) -> Result<(), Failed>
        ensures found { IfOk result (λ _. IsLatest number self.new.files) }
        ensures cause { HasCause faults.old faults.new result }
    {
        if self.find(number, faults)? {
            return Ok(());
        }
        self.paths.turn_to(number);
        let file = answered(make_file(&self.runtime, self.paths.path()), faults)?;
        answered(self.folder(faults)?.sync_all(), faults)?;
        self.files.keep(number, file);
        Ok(())
    }

    pub fn len(&mut self, number: u32, faults: &mut u64) -> Result<u64, Failed>
        ensures cause { HasCause faults.old faults.new result }
    {
        if !self.find(number, faults)? {
            return Ok(0);
        }
        let metadata = answered(self.files.latest().metadata(), faults)?;
        Ok(metadata.len())
    }

    pub fn read(
        &mut self,
        number: u32,
        at: u64,
        out: &mut [u8],
        faults: &mut u64,
    ) -> Result<usize, Failed>
        ensures bound { IfOk result (λ count. count ≤ length out.old) }
        ensures cause { HasCause faults.old faults.new result }
    {
        if at > LAST_PLACE || !self.find(number, faults)? {
            return Ok(0);
        }
        answered(read_full(self.files.latest(), at, out), faults)
    }

    pub fn write(
        &mut self,
        number: u32,
        at: u64,
        bytes: &[u8],
        faults: &mut u64,
    ) -> Result<(), Failed>
        ensures cause { HasCause faults.old faults.new result }
    {
        self.find_or_make(number, faults)?;
        answered(self.files.latest().write_all_at(bytes, at), faults)
    }

    pub fn cut(&mut self, number: u32, len: u64, faults: &mut u64) -> Result<(), Failed>
        ensures cause { HasCause faults.old faults.new result }
    {
        self.find_or_make(number, faults)?;
        answered(self.files.latest().set_len(len), faults)
    }

    // A file that was never made has nothing to settle.
    pub fn sync(&mut self, number: u32, faults: &mut u64) -> Result<(), Failed>
        ensures cause { HasCause faults.old faults.new result }
    {
        if !self.find(number, faults)? {
            return Ok(());
        }
        answered(self.files.latest().sync_all(), faults)
    }
}
