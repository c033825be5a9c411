use crate::answer::answered;
use dfs_host::{Failed, Source};
use std::io::Read;

/// The bytes of a reader, as of the standard input. Which they are is not told.
#[derive(Drop)]
pub struct StdinSource<R: Read + Drop> {
    reader: R,
    faults: u64,
}

impl<R: Read + Drop> StdinSource<R> {
    ghost use Rattle.std.specs.Prelude.{◌≡◌};
    ghost use Rattle.dfs_folder.specs.FolderHost.{silent_source, source_of};

    /// A source of what this reader has left.
    pub fn new(reader: R) -> StdinSource<R>
        ensures { source_of result ≡ silent_source 0 }
    {
        StdinSource { reader, faults: 0 }
    }
}

impl<R: Read + Drop> Source for StdinSource<R> {
    ghost use Rattle.dfs_folder.specs.FolderHost.{source_of};

    ghost state = { source_of };

    fn take(&mut self, out: &mut [u8]) -> Result<usize, Failed> {
        answered(self.reader.read(out), &mut self.faults)
    }
}
