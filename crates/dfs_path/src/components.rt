//! The components of a path: what stands between its slashes, and the names that they mean.

ghost use Rattle.std.specs.Prelude.{◌≡◌, ◌==◌, ◌≤◌, IfOk, None, Some, length, sum_by};
ghost use Rattle.std.specs.List.{position};
ghost use Rattle.dfs_record.specs.Name.{IsName};
ghost use Rattle.dfs_record.specs.Pieces.{pieces};
ghost use Rattle.dfs_path.specs.Cut.{IsCut};
ghost use Rattle.dfs_path.specs.Path.{name_of, below_root, component_len, IsPath};
ghost use Rattle.dfs_path.specs.Read.{IsRead};

use crate::PathFault;
use crate::escape::unescape;
use dfs_record::{Name, NameFault};
use std::alloc::Global;

// The most names that a path has.
const MOST_NAMES: usize = 64;

// The most bytes that a path has, its slashes among them.
const MOST_BYTES: usize = 4096;

fn separator_at(bytes: &[u8], separator: u8) -> Option<usize>
    ensures { result ≡ position (λ b. b == separator) bytes.now }
{
    bytes.iter().position(|b| *b == separator)
}

/// What stands before the first separator, and what stands behind it, where there is one.
pub fn cut(bytes: &[u8], separator: u8) -> (&[u8], Option<&[u8]>)
    ensures { IsCut separator bytes.now result.0.now result.1 }
{
    match separator_at(bytes, separator) {
        Some(at) => (&bytes[..at], Some(&bytes[at + 1..])),
        None => (bytes, None),
    }
}

fn read_name(alloc: Global, component: &[u8]) -> Result<Name, PathFault>
    ensures read { IsRead result (name_of component.now) }
    ensures valid { IfOk result IsName }
{
    match Name::new(alloc, unescape(alloc, component)?.as_slice()) {
        Ok(name) => Ok(name),
        Err(NameFault::Bad) => Err(PathFault::Bad),
        Err(NameFault::NoMemory) => Err(PathFault::NoMemory),
    }
}

fn byte_count(names: &[Name]) -> usize
    requires { length names.now ≤ 64 }
    ensures { result ≡ sum_by component_len names.now }
{
    names.iter().map(|name| 1 + name.bytes().len()).sum()
}

// The names that the components mean.
pub fn read_names(alloc: Global, components: &[u8]) -> Result<Vec<Name>, PathFault>
    ensures means { IfOk result (λ names. below_root (pieces 47 components.now) ≡ Some names.items) }
    ensures bad { result ≡ Err PathFault.Bad → below_root (pieces 47 components.now) ≡ None }
    ensures valid { IfOk result (λ names. IsPath names.items) }
{
    let mut names = Vec::new(alloc);
    let mut rest = Some(components);
    while let Some(text) = rest {
        if names.len() >= MOST_NAMES {
            return Err(PathFault::Bad);
        }
        let (component, behind) = cut(text, b'/');
        match names.push(read_name(alloc, component)?) {
            Ok(()) => rest = behind,
            Err(_) => return Err(PathFault::NoMemory),
        }
    }
    if byte_count(&names) > MOST_BYTES {
        return Err(PathFault::Bad);
    }
    Ok(names)
}
