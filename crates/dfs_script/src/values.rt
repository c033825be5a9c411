//! What single words mean: numbers, modes, paths, references, names and job words.

ghost use Rattle.std.specs.Prelude.{◌≡◌, ◌==◌, ◌≤◌, ◌+◌, ◌-◌, ◌*◌, ◌^◌, ◌<◌, ◌&&◌, ◌||◌, IfSome, IfOk, MatchOption, None, length, nat_lt};
ghost use Rattle.std.specs.List.{list_all};
ghost use Rattle.dfs_record.specs.Name.{is_between, is_digit, is_letter, IsSnapName};
ghost use Rattle.dfs_record.specs.Pieces.{passing};
ghost use Rattle.dfs_path.specs.Path.{path_of};
ghost use Rattle.dfs_script.specs.Read.{IsRead};
ghost use Rattle.dfs_script.specs.Word.{worth, number_of, mode_of, is_octal_digit, reference_of, snap_name_of, is_job_byte, is_reserved, is_job_word};

use crate::LineFault;
use dfs_path::{Path, PathFault, unescape};
use dfs_record::{NameFault, Reference, SnapName};
use std::alloc::Global;

fn has_length(word: &[u8], least: usize, most: usize) -> bool
    ensures { result ≡ is_between least most (length word.now) }
{
    least <= word.len() && word.len() <= most
}

// One digit more, where that fits.
fn next_value(base: u64, value: u64, digit: u8) -> Option<u64>
    ensures next { MatchOption result (2 ^ 64 ≤ base * value + (digit - 48)) (λ next. next ≡ base * value + (digit - 48)) }
    ensures fits { IfSome result (λ next. next < 2 ^ 64) }
{
    match base.checked_mul(value) {
        Some(higher) => higher.checked_add(u64::from(digit.saturating_sub(48))),
        None => None,
    }
}

// What digits in a base are worth, where that fits.
fn value_of(base: u64, digits: &[u8]) -> Option<u64>
    requires { 1 ≤ base }
    ensures { result ≡ passing (nat_lt (worth base digits.now) (2 ^ 64)) (worth base digits.now) }
{
    let mut value: u64 = 0;
    for digit in digits {
        match next_value(base, value, *digit) {
            Some(next) => value = next,
            None => return None,
        }
    }
    Some(value)
}

fn has_digits(word: &[u8]) -> bool
    ensures { result ≡ list_all is_digit word.now }
{
    word.iter().all(|b| *b >= b'0' && *b <= b'9')
}

fn has_octal_digits(word: &[u8]) -> bool
    ensures { result ≡ list_all is_octal_digit word.now }
{
    word.iter().all(|b| *b >= b'0' && *b <= b'7')
}

fn number(word: &[u8]) -> Option<u64>
    ensures { result ≡ number_of word.now }
{
    if has_length(word, 1, 20) && has_digits(word) {
        value_of(10, word)
    } else {
        None
    }
}

fn mode(word: &[u8]) -> Option<u16>
    ensures { result ≡ mode_of word.now }
{
    if has_length(word, 1, 4) && has_octal_digits(word) {
        match value_of(8, word) {
            Some(value) => {
                if value < 65536 {
                    Some(value as u16)
                } else {
                    None
                }
            }
            None => None,
        }
    } else {
        None
    }
}

/// A number: 1 to 20 decimal digits, worth less than 2^64.
pub fn read_number(word: &[u8]) -> Result<u64, LineFault>
    ensures { IsRead result (number_of word.now) }
{
    match number(word) {
        Some(number) => Ok(number),
        None => Err(LineFault::Syntax),
    }
}

/// A mode: 1 to 4 octal digits.
pub fn read_mode(word: &[u8]) -> Result<u16, LineFault>
    ensures { IsRead result (mode_of word.now) }
{
    match mode(word) {
        Some(mode) => Ok(mode),
        None => Err(LineFault::Syntax),
    }
}

pub fn read_path(alloc: Global, word: &[u8]) -> Result<Path, LineFault>
    ensures { IsRead result (path_of word.now) }
{
    match Path::read(alloc, word) {
        Ok(path) => Ok(path),
        Err(PathFault::Bad) => Err(LineFault::Syntax),
        Err(PathFault::NoMemory) => Err(LineFault::NoMemory),
    }
}

fn own_reference(alloc: Global, bytes: &[u8]) -> Result<Reference, LineFault>
    ensures { IsRead result (passing (is_between 1 255 (length bytes.now)) bytes.now) }
{
    match Reference::new(alloc, bytes) {
        Ok(reference) => Ok(reference),
        Err(NameFault::Bad) => Err(LineFault::Syntax),
        Err(NameFault::NoMemory) => Err(LineFault::NoMemory),
    }
}

pub fn read_reference(alloc: Global, word: &[u8]) -> Result<Reference, LineFault>
    ensures { IsRead result (reference_of word.now) }
{
    match unescape(alloc, word) {
        Ok(bytes) => own_reference(alloc, bytes.as_slice()),
        Err(PathFault::Bad) => Err(LineFault::Syntax),
        Err(PathFault::NoMemory) => Err(LineFault::NoMemory),
    }
}

pub fn read_snap_name(alloc: Global, word: &[u8]) -> Result<SnapName, LineFault>
    ensures read { IsRead result (snap_name_of word.now) }
    ensures valid { IfOk result IsSnapName }
{
    match SnapName::new(alloc, word) {
        Ok(name) => Ok(name),
        Err(NameFault::Bad) => Err(LineFault::Syntax),
        Err(NameFault::NoMemory) => Err(LineFault::NoMemory),
    }
}

fn is_job_char(b: u8) -> bool
    ensures { result ≡ is_job_byte b }
{
    ((65 <= b && b <= 90) || (97 <= b && b <= 122))
        || (48 <= b && b <= 57)
        || b == b'_'
        || b == b'-'
}

fn has_job_bytes(word: &[u8]) -> bool
    ensures { result ≡ list_all is_job_byte word.now }
{
    word.iter().all(|b| is_job_char(*b))
}

fn is_reserved_word(word: &[u8]) -> bool
    ensures { result ≡ is_reserved word.now }
{
    word == b"set".as_slice()
        || word == b"snapshots".as_slice()
        || word == b"begin".as_slice()
        || word == b"retire".as_slice()
        || word == b"reclaim".as_slice()
        || word == b"clashes".as_slice()
}

/// Whether a word can name a job.
pub fn is_job(word: &[u8]) -> bool
    ensures { result ≡ is_job_word word.now }
{
    has_length(word, 1, 32) && has_job_bytes(word) && !is_reserved_word(word)
}
