ghost use Rattle.std.specs.Prelude.{◌≡◌, ◌≤◌, ◌+◌, ℕ, length, take, drop, ◌++◌, ◌==◌, if◌then◌else◌, OnOk, OnErr, IfOk, IsTrue};
ghost use Rattle.dfs_host.specs.Disk.{overwritten};
ghost use Rattle.dfs_mem.specs.Files.{bytes_at, bytes_in, numbers_differ};

use std::alloc::{AllocError, Global};
use std::collections::HashMap;

// The bytes of each file that was made.
pub type Files = HashMap<u32, Vec<u8>>;

// What the file reads as.
pub fn content(files: &Files, number: u32) -> &[u8]
    ensures { result.now ≡ bytes_at files.now number }
{
    match files.get(&number) {
        Some(file) => file,
        None => &[],
    }
}

// Writes over what is there and past the end.
pub fn overwrite(bytes: &mut Vec<u8>, at: usize, new: &[u8]) -> Result<(), AllocError>
    requires { at ≤ length bytes.old.items }
    ensures ok { OnOk result (bytes.new.items ≡ overwritten at new.now bytes.old.items) }
    ensures err { OnErr result (bytes.new.items ≡ bytes.old.items) }
{
    let room = bytes.len() - at;
    let inside = if new.len() < room { new.len() } else { room };
    bytes.extend_from_slice(&new[inside..])?;
    bytes[at..at + inside].copy_from_slice(&new[..inside]);
    Ok(())
}

// Writes over what is there and past the end of the file of this number, which is made if it is missing.
pub fn write_file(
    files: &mut Files,
    alloc: Global,
    number: u32,
    at: usize,
    bytes: &[u8],
) -> Result<(), AllocError>
    requires { at ≤ length (bytes_at files.old number) }
    ensures ok { OnOk result ((m : ℕ) → bytes_at files.new m ≡ (if m == number then overwritten at bytes.now (bytes_at files.old number) else bytes_at files.old m)) }
    ensures err { OnErr result ((m : ℕ) → bytes_at files.new m ≡ bytes_at files.old m) }
{
    if let Some(file) = files.get_mut(&number) {
        return overwrite(file, at, bytes);
    }
    let made = bytes.to_vec(alloc)?;
    files.insert(number, made)?;
    Ok(())
}

// Cuts the file of this number.
pub fn cut_file(files: &mut Files, number: u32, len: usize)
    ensures { (m : ℕ) → bytes_at files.new m ≡ (if m == number then take len (bytes_at files.old number) else bytes_at files.old m) }
{
    if let Some(file) = files.get_mut(&number) {
        file.truncate(len);
    }
}

// The same as `write_file` where `done`, and else nothing.
pub fn write_if(
    files: &mut Files,
    alloc: Global,
    number: u32,
    at: usize,
    bytes: &[u8],
    done: bool,
) -> Result<(), AllocError>
    requires { at ≤ length (bytes_at files.old number) }
    ensures ok { OnOk result ((m : ℕ) → bytes_at files.new m ≡ (if m == number then (if done then overwritten at bytes.now (bytes_at files.old number) else bytes_at files.old number) else bytes_at files.old m)) }
    ensures err { OnErr result ((m : ℕ) → bytes_at files.new m ≡ bytes_at files.old m) }
{
    if done {
        write_file(files, alloc, number, at, bytes)
    } else {
        Ok(())
    }
}

// The same as `cut_file` where `done`, and else nothing.
pub fn cut_if(files: &mut Files, number: u32, len: usize, done: bool)
    ensures { (m : ℕ) → bytes_at files.new m ≡ (if m == number then (if done then take len (bytes_at files.old number) else bytes_at files.old number) else bytes_at files.old m) }
{
    if done {
        cut_file(files, number, len);
    }
}

// A copy of the files that are given.
pub fn copied(alloc: Global, given: &[(u32, Vec<u8>)]) -> Result<Files, AllocError>
    requires { IsTrue (numbers_differ given.now) }
    ensures { IfOk result (λ files. (n : ℕ) → bytes_at files n ≡ bytes_in given.now n) }
{
    let mut files = HashMap::new(alloc);
    for (number, bytes) in given {
        let copy = bytes.to_vec(alloc)?;
        files.insert(*number, copy)?;
    }
    Ok(files)
}
