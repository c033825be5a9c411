ghost use Rattle.dfs_host.specs.Counts.{RoseBy};

use crate::answer::answered;
use crate::folder::Folder;
use dfs_host::{Failed, Host, NoMemory};
use std::alloc::Global;
use std::io::{self, Write};

/// A folder of the system as a host, whose output is a writer, as the standard output. What the folder holds is not told.
///
/// File 0 is `REGISTRY`, and file n is `LOG.` with n in eight hexadecimal digits. A missing file has length 0; it is made where it is
/// first written or cut, and the folder is synced then. An error of the system is a fault of the device, whatever its kind, and so
/// is a folder that is missing. Nobody else may write the folder meanwhile. Only `new` takes memory.
#[derive(Drop)]
pub struct FolderHost<W: Write + Drop> {
    folder: Folder,
    output: W,
    disk_faults: u64,
    say_faults: u64,
    reads: u64,
}

fn count_up(counter: &mut u64)
    ensures { RoseBy 1 counter.old counter.new }
{
    *counter = counter.saturating_add(1);
}

// The bytes are out when this is Ok, and wait in no buffer.
fn write_out<W: Write>(output: &mut W, bytes: &[u8]) -> io::Result<()> {
    output.write_all(bytes)?;
    output.flush()
}

impl<W: Write + Drop> FolderHost<W> {
    ghost use Rattle.std.specs.Prelude.{◌≡◌, IfOk};
    ghost use Rattle.dfs_host.specs.Host.{silent_state};
    ghost use Rattle.dfs_folder.specs.FolderHost.{state_of};

    /// A host over this folder, which nothing was asked yet: whether the folder is there shows at the first call on a file.
    ///
    /// # Errors
    ///
    /// `NoMemory` where there is no room for the paths and the table of open files.
    pub fn new(
        alloc: Global,
        runtime: HostRuntime,
        output: W,
        folder: &str,
    ) -> Result<FolderHost<W>, NoMemory>
        ensures start { IfOk result (λ host. state_of host ≡ silent_state 0 0 0) }
    {
        let folder = Folder::new(alloc, runtime, folder)?;
        Ok(FolderHost {
            folder,
            output,
            disk_faults: 0,
            say_faults: 0,
            reads: 0,
        })
    }
}

impl<W: Write + Drop> Host for FolderHost<W> {
    ghost use Rattle.std.specs.Prelude.{[]};
    ghost use Rattle.dfs_host.proofs.Files.{sound_when_settled};
    ghost use Rattle.dfs_folder.specs.FolderHost.{state_of};

    ghost state = { state_of };

    fn len(&mut self, file: u32) -> Result<u64, Failed> {
        self.folder.len(file, &mut self.disk_faults)
    }

    fn read_at(&mut self, file: u32, at: u64, out: &mut [u8]) -> Result<usize, Failed> {
        count_up(&mut self.reads);
        self.folder.read(file, at, out, &mut self.disk_faults)
    }

    fn write_at(&mut self, file: u32, at: u64, bytes: &[u8]) -> Result<(), Failed> {
        self.folder.write(file, at, bytes, &mut self.disk_faults)
    }

    fn cut(&mut self, file: u32, len: u64) -> Result<(), Failed> {
        self.folder.cut(file, len, &mut self.disk_faults)
    }

    fn sync(&mut self, file: u32) -> Result<(), Failed> {
        self.folder.sync(file, &mut self.disk_faults)
    }

    fn say(&mut self, bytes: &[u8]) -> Result<(), Failed> {
        answered(write_out(&mut self.output, bytes), &mut self.say_faults)
    }

    ghost sound = { λ host n tells. sound_when_settled [] };
}
