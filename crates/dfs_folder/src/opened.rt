//! The files that are open, a bounded number of them.
ghost use Rattle.std.specs.Prelude.{◌≡◌, ◌≢◌, ◌<◌, ◌≤◌, ◌-◌, [], ◌∷◌, ◌++◌, drop, vec_capacity, vec_len};

use dfs_host::NoMemory;
use std::alloc::Global;
use std::fs::File;

// How many files are open at once.
const MOST: usize = 64;

#[derive(Drop)]
struct OpenFile {
    number: u32,
    file: File,
}

// Open files by their numbers, the one used last at the end.
#[derive(Drop)]
pub struct OpenFiles {
    files: Vec<OpenFile>,
    ghost few: { vec_len files ≤ 64 },
    ghost room: { 64 ≤ vec_capacity files },
}

impl OpenFiles {
    ghost use Rattle.std.specs.Prelude.{All, IsTrue, IsFalse};
    ghost use Rattle.dfs_folder.specs.Opened.{EndsWith, HasLatest, IsLatest, MovesLast};

    pub fn new(alloc: Global) -> Result<OpenFiles, NoMemory> {
        let files = Vec::with_capacity(alloc, MOST)?;
        Ok(OpenFiles { files })
    }

    // Whether the file is open; it is the one used last then.
    pub fn find(&mut self, number: u32) -> bool
        ensures latest { IsTrue result → IsLatest number self.new }
        ensures moved { IsTrue result → MovesLast number self.old.files.items self.new.files.items }
        ensures none { IsFalse result → All (λ open_file. open_file.number ≢ number) self.old.files.items }
        ensures unchanged { IsFalse result → self.new ≡ self.old }
    {
        let Some(place) = self.files.iter().position(|open| open.number == number) else {
            return false;
        };
        let used = self.files.remove(place);
        self.put_last(used);
        true
    }

    // Takes an open file in. Where there is no room for it the one used longest ago is closed.
    pub fn keep(&mut self, number: u32, file: File)
        ensures latest { IsLatest number self.new }
        // Behind those that were open, of which the latest 63 stay.
        ensures taken { self.new.files.items ≡ drop (vec_len self.old.files - 63) self.old.files.items ++ record { number = number; file = file } ∷ [] }
    {
        if self.files.len() == MOST {
            self.files.remove(0);
        }
        self.put_last(OpenFile { number, file });
    }

    fn put_last(&mut self, used: OpenFile)
        requires { vec_len self.old.files < 64 }
        ensures { self.new.files.items ≡ self.old.files.items ++ used ∷ [] }
    {
        let Ok(()) = self.files.push(used) else {
            unreachable!();
        };
    }

    // The file used last.
    pub fn latest(&self) -> &File
        requires { HasLatest self.now }
        ensures { EndsWith result.now self.now }
    {
        &self.files[self.files.len() - 1].file
    }
}
