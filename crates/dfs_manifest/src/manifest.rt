//! Manifests that are read.

ghost use Rattle.std.specs.Prelude.{◌≡◌, ◌<◌, ◌≤◌, ◌↔◌, IfSome, IsSomeAnd, List, None, Some, length, slice_get};
ghost use Rattle.dfs_manifest.specs.Manifest.{Extent, IsManifest, IsNoManifest};
ghost use Rattle.dfs_manifest.specs.Tables.{extent_in};

use dfs_record::{read_u32, read_u64};
use std::marker::Model;

/// The most tables of a manifest.
const MOST_TABLES: u32 = 131072;

/// A manifest that was read, seen as the list of its tables.
#[derive(Debug, Drop)]
pub struct Manifest<'a> {
    count: u32,
    tables: &'a [u8],
}

impl<'a> Model for Manifest<'a> {
    ghost use Rattle.std.specs.Prelude.{List};
    ghost use Rattle.dfs_manifest.specs.Manifest.{Extent};
    ghost use Rattle.dfs_manifest.specs.Tables.{tables_in, HoldsTables};

    ghost Value = { List Extent };

    ghost view = { λ manifest. tables_in manifest.count manifest.tables.now };

    ghost invariant = { λ manifest. HoldsTables manifest.count manifest.tables.now };
}

impl<'a> Manifest<'a> {
    /// The manifest that the bytes are. `None` exactly where they are none.
    pub fn read(bytes: &'a [u8]) -> Option<Manifest<'a>>
        ensures found { IfSome result (λ manifest. IsManifest bytes.entry.now manifest) }
        // They are the manifest of no other list.
        ensures only { (ts : List Extent) → IsManifest bytes.entry.now ts → IsSomeAnd result (λ manifest. manifest ≡ ts) }
        ensures none { (result ≡ None) ↔ IsNoManifest bytes.entry.now }
    {
        let count = read_u32(bytes)?;
        let (_, tables) = bytes.split_at(4);
        if count > MOST_TABLES {
            return None;
        }
        if tables.len() != 12 * count as usize {
            return None;
        }
        Some(Manifest { count, tables })
    }

    /// How many tables there are.
    pub fn count(&self) -> u32
        ensures { result ≡ length self.now }
    {
        self.count
    }

    /// Where the index of the table with this number lies: its place, and how many bytes it has.
    pub fn table(&self, index: u32) -> (u64, u32)
        requires { index < length self.now }
        ensures { slice_get self.now index ≡ Some result }
    {
        let (_, rest) = self.tables.split_at(12 * index as usize);
        extent(rest)
    }
}

// The place and the length that the first twelve bytes spell.
fn extent(bytes: &[u8]) -> (u64, u32)
    requires { 12 ≤ length bytes.now }
    ensures { result ≡ extent_in bytes.now }
{
    let Some(at) = read_u64(bytes) else {
        unreachable!();
    };
    let (_, behind) = bytes.split_at(8);
    let Some(len) = read_u32(behind) else {
        unreachable!();
    };
    (at, len)
}
