//! Escaped words: a percent sign and two hexadecimal digits stand for a byte.

ghost use Rattle.std.specs.Prelude.{◌≡◌, ◌<◌, ◌↔◌, ◌++◌, List, ℕ, None, Some, OnOk, OnErr, IfOk, MatchOption, is_some, length};
ghost use Rattle.std.specs.Cow.{cow_slice_items};
ghost use Rattle.dfs_path.specs.Escape.{unescaped, escaped, hex_value, plain_byte, ReadsOn};

use crate::PathFault;
use dfs_record::NoMemory;
use percent_encoding::{AsciiSet, CONTROLS, ascii_set, percent_decode, percent_encode};
use std::alloc::Global;
use std::borrow::CowSlice;

// The bytes up to 0x7F that are printed as escapes. Those above are escaped too.
const ESCAPED: AsciiSet = ascii_set!(CONTROLS.add(b' ').add(b'%'));

fn is_hex_digit(b: u8) -> bool
    ensures { result ≡ is_some (hex_value b) }
{
    (48 <= b && b <= 57) || (65 <= b && b <= 70) || (97 <= b && b <= 102)
}

fn is_plain(b: u8) -> bool
    ensures { result ≡ is_some (plain_byte b) }
{
    33 <= b && b <= 126 && b != b'%'
}

// What stands behind the first byte or escape.
fn behind_first(word: &[u8]) -> Option<&[u8]>
    requires { 0 < length word.now }
    ensures { ReadsOn word.now result }
{
    match word {
        [b'%', high, low, rest @ ..] => {
            if is_hex_digit(*high) && is_hex_digit(*low) {
                Some(rest)
            } else {
                None
            }
        }
        [first, rest @ ..] => { if is_plain(*first) { Some(rest) } else { None } }
        [] => None,
    }
}

fn is_escaped(word: &[u8]) -> bool
    ensures { result ≡ is_some (unescaped word.now) }
{
    let mut rest = word;
    while !rest.is_empty() {
        match behind_first(rest) {
            Some(behind) => rest = behind,
            None => return false,
        }
    }
    true
}

/// The bytes that an escaped word means, which are lent where it has no escape.
pub fn unescape(alloc: Global, word: &[u8]) -> Result<CowSlice<'_, u8, Global>, PathFault>
    ensures means { IfOk result (λ bytes. unescaped word.now ≡ Some (cow_slice_items bytes)) }
    ensures bad { (result ≡ Err PathFault.Bad) ↔ (unescaped word.now ≡ None) }
{
    if !is_escaped(word) {
        return Err(PathFault::Bad);
    }
    match percent_decode(word).into_cow(alloc) {
        Ok(bytes) => Ok(bytes),
        Err(_) => Err(PathFault::NoMemory),
    }
}

/// Appends the bytes that an escaped word means.
pub fn read_escaped(word: &[u8], out: &mut Vec<u8>) -> Result<(), PathFault>
    ensures means { OnOk result ((bytes : List ℕ) × (unescaped word.now ≡ Some bytes) × (out.new.items ≡ out.old.items ++ bytes)) }
    ensures bad { (result ≡ Err PathFault.Bad) ↔ (unescaped word.now ≡ None) }
    ensures err { OnErr result (out.new.items ≡ out.old.items) }
{
    if !is_escaped(word) {
        return Err(PathFault::Bad);
    }
    match percent_decode(word).append_to(out) {
        Ok(()) => Ok(()),
        Err(_) => Err(PathFault::NoMemory),
    }
}

/// Appends the printed form of bytes: bytes up to 0x20, the percent sign and bytes from 0x7F up
/// as a percent sign and two upper-case hexadecimal digits, and the others as they are.
pub fn write_escaped(bytes: &[u8], out: &mut Vec<u8>) -> Result<(), NoMemory>
    ensures ok { OnOk result (out.new.items ≡ out.old.items ++ escaped bytes.now) }
    ensures err { OnErr result (out.new.items ≡ out.old.items) }
{
    let before = out.len();
    for piece in percent_encode(bytes, ESCAPED) {
        if out.extend_from_slice(piece.as_bytes()).is_err() {
            out.truncate(before);
            return Err(NoMemory);
        }
    }
    Ok(())
}
