//! The names of the files of a folder, and their paths.
ghost use Rattle.std.specs.Prelude.{◌≡◌, ◌≤◌, ◌+◌, ◌++◌, length, string_bytes, string_len, string_capacity};
ghost use Rattle.dfs_folder.specs.Names.{hex_digits, file_name};

use dfs_host::NoMemory;
use std::alloc::Global;

// The longest name, with the slash before it.
const LONGEST: usize = 13;

// Appends the last digits of a number to base 16, so many of them.
fn push_digits(path: &mut String, number: u32, count: u32)
    requires room { string_len path.old + count ≤ string_capacity path.old }
    ensures bytes { string_bytes path.new ≡ string_bytes path.old ++ hex_digits count number }
    ensures len { string_len path.new ≡ string_len path.old + count }
    ensures capacity { string_capacity path.old ≤ string_capacity path.new }
{
    if count == 0 {
        return;
    }
    push_digits(path, number / 16, count - 1);
    let Some(digit) = char::from_digit(number % 16, 16) else {
        unreachable!();
    };
    let Ok(()) = path.push(digit) else {
        unreachable!();
    };
}

fn push(path: &mut String, text: &str)
    requires room { string_len path.old + length text.now ≤ string_capacity path.old }
    ensures bytes { string_bytes path.new ≡ string_bytes path.old ++ text.now }
    ensures len { string_len path.new ≡ string_len path.old + length text.now }
    ensures capacity { string_capacity path.old ≤ string_capacity path.new }
{
    let Ok(()) = path.push_str(text) else {
        unreachable!();
    };
}

fn push_name(path: &mut String, number: u32)
    requires room { string_len path.old + 12 ≤ string_capacity path.old }
    ensures bytes { string_bytes path.new ≡ string_bytes path.old ++ file_name number }
    ensures capacity { string_capacity path.old ≤ string_capacity path.new }
{
    if number == 0 {
        push(path, "REGISTRY");
        return;
    }
    push(path, "LOG.");
    push_digits(path, number, 8);
}

// The paths of a folder's files, each made in the same room.
#[derive(Drop)]
pub struct Paths {
    folder: String,
    path: String,
    ghost room: { string_len folder + 13 ≤ string_capacity path },
}

impl Paths {
    ghost use Rattle.std.specs.Prelude.{◌≡◌, IfOk, string_bytes};
    ghost use Rattle.dfs_folder.specs.Names.{path_of};

    pub fn new(alloc: Global, folder: &str) -> Result<Paths, NoMemory>
        ensures folder { IfOk result (λ paths. string_bytes paths.folder ≡ folder.now) }
    {
        let Some(room) = folder.len().checked_add(LONGEST) else {
            return Err(NoMemory);
        };
        let path = String::with_capacity(alloc, room)?;
        let folder = String::from_str(alloc, folder)?;
        Ok(Paths { folder, path })
    }

    // The folder's own path.
    pub fn folder(&self) -> &str
        ensures { result.now ≡ string_bytes self.now.folder }
    {
        self.folder.as_str()
    }

    // Makes the path of a file.
    pub fn turn_to(&mut self, number: u32)
        ensures path { string_bytes self.new.path ≡ path_of (string_bytes self.old.folder) number }
        ensures folder { string_bytes self.new.folder ≡ string_bytes self.old.folder }
    {
        self.path.clear();
        push(&mut self.path, self.folder.as_str());
        push(&mut self.path, "/");
        push_name(&mut self.path, number);
    }

    // The path that was made last.
    pub fn path(&self) -> &str
        ensures { result.now ≡ string_bytes self.now.path }
    {
        self.path.as_str()
    }
}
