//! Which bytes are names, references and names of snapshots.

ghost use Rattle.std.specs.Prelude.{◌≡◌, IfOk, ◌↔◌, IsFalse, length};
ghost use Rattle.std.specs.List.{list_all};
ghost use Rattle.dfs_record.specs.Name.{is_name, is_reference, is_snap_name, IsName, IsReference, IsSnapName, is_between, is_name_byte, is_snap_byte, is_letter as is_letter_byte, is_digit as is_digit_byte, is_dots as is_dots_text};

use crate::{Name, NameFault, Reference, SnapName};
use std::alloc::Global;

impl Name {
    /// The name of these bytes.
    pub fn new(alloc: Global, bytes: &[u8]) -> Result<Name, NameFault>
        ensures ok { IfOk result (λ name. (name ≡ bytes.now) × IsName name) }
        ensures bad { (result ≡ Err NameFault.Bad) ↔ IsFalse (is_name bytes.now) }
    {
        if !is_name_text(bytes) {
            return Err(NameFault::Bad);
        }
        match bytes.to_vec(alloc) {
            Ok(bytes) => Ok(Name { bytes }),
            Err(_) => Err(NameFault::NoMemory),
        }
    }

    /// Its bytes.
    pub fn bytes(&self) -> &[u8]
        ensures value { result.now ≡ self.now }
        ensures valid { IsName self.now }
    {
        &self.bytes
    }
}

impl Reference {
    /// The reference of these bytes.
    pub fn new(alloc: Global, bytes: &[u8]) -> Result<Reference, NameFault>
        ensures ok { IfOk result (λ reference. (reference ≡ bytes.now) × IsReference reference) }
        ensures bad { (result ≡ Err NameFault.Bad) ↔ IsFalse (is_reference bytes.now) }
    {
        if !is_reference_text(bytes) {
            return Err(NameFault::Bad);
        }
        match bytes.to_vec(alloc) {
            Ok(bytes) => Ok(Reference { bytes }),
            Err(_) => Err(NameFault::NoMemory),
        }
    }

    /// Its bytes.
    pub fn bytes(&self) -> &[u8]
        ensures value { result.now ≡ self.now }
        ensures valid { IsReference self.now }
    {
        &self.bytes
    }
}

impl SnapName {
    /// The name of these bytes.
    pub fn new(alloc: Global, bytes: &[u8]) -> Result<SnapName, NameFault>
        ensures ok { IfOk result (λ name. (name ≡ bytes.now) × IsSnapName name) }
        ensures bad { (result ≡ Err NameFault.Bad) ↔ IsFalse (is_snap_name bytes.now) }
    {
        if !is_snap_name_text(bytes) {
            return Err(NameFault::Bad);
        }
        match bytes.to_vec(alloc) {
            Ok(bytes) => Ok(SnapName { bytes }),
            Err(_) => Err(NameFault::NoMemory),
        }
    }

    /// Its bytes.
    pub fn bytes(&self) -> &[u8]
        ensures value { result.now ≡ self.now }
        ensures valid { IsSnapName self.now }
    {
        &self.bytes
    }
}

/// Whether these bytes are the name of a snapshot.
pub fn is_snap_name_text(bytes: &[u8]) -> bool
    ensures { result ≡ is_snap_name bytes.now }
{
    has_snap_length(bytes) && has_snap_bytes(bytes)
}

fn has_snap_length(bytes: &[u8]) -> bool
    ensures { result ≡ is_between 1 64 (length bytes.now) }
{
    1 <= bytes.len() && bytes.len() <= 64
}

fn has_snap_bytes(bytes: &[u8]) -> bool
    ensures { result ≡ list_all is_snap_byte bytes.now }
{
    bytes.iter().all(|&b| is_snap_char(b))
}

fn is_snap_char(b: u8) -> bool
    ensures { result ≡ is_snap_byte b }
{
    is_letter(b) || is_digit(b) || b == b'_' || b == b'-' || b == b'.'
}

fn is_letter(b: u8) -> bool
    ensures { result ≡ is_letter_byte b }
{
    (65 <= b && b <= 90) || (97 <= b && b <= 122)
}

fn is_digit(b: u8) -> bool
    ensures { result ≡ is_digit_byte b }
{
    48 <= b && b <= 57
}

pub(crate) fn is_name_text(bytes: &[u8]) -> bool
    ensures { result ≡ is_name bytes.now }
{
    has_name_length(bytes) && has_name_bytes(bytes) && !is_dots(bytes)
}

pub(crate) fn is_reference_text(bytes: &[u8]) -> bool
    ensures { result ≡ is_reference bytes.now }
{
    1 <= bytes.len() && bytes.len() <= 255
}

fn has_name_length(bytes: &[u8]) -> bool
    ensures { result ≡ is_between 1 255 (length bytes.now) }
{
    1 <= bytes.len() && bytes.len() <= 255
}

fn has_name_bytes(bytes: &[u8]) -> bool
    ensures { result ≡ list_all is_name_byte bytes.now }
{
    bytes.iter().all(|&b| b != 0 && b != b'/')
}

fn is_dots(bytes: &[u8]) -> bool
    ensures { result ≡ is_dots_text bytes.now }
{
    bytes == b".".as_slice() || bytes == b"..".as_slice()
}
