//! What the layers have in a directory.

ghost use Rattle.std.specs.Prelude.{◌≡◌, ◌<◌, ◌++◌, ◌↔◌, IsTrue, All, IfOk, IfSome, OnOk, length};
ghost use Rattle.dfs_host.specs.Host.{HostState};
ghost use Rattle.dfs_record.specs.Lend.{record_of};
ghost use Rattle.dfs_record.specs.Record.{IsRecord};
ghost use Rattle.dfs_space.specs.Children.{IsChild, children as children_in, has_child as has_child_in};
ghost use Rattle.dfs_view.specs.Children.{end_key as end_of_keys, listed, shown_of, shows};
ghost use Rattle.dfs_view.specs.Layers.{Stand, layers_map};

use crate::Layers;
use crate::sources::merged;
use dfs_record::{DirId, Entry, Head, Key, Name, NoMemory, RecordRef, Records, Value, ValueRef};
use dfs_space::{Listing, first_key, next_dir};
use std::alloc::Global;

/// The names in a directory with their entries, in the order of the names' bytes.
pub(crate) fn children(alloc: Global, layers: &Layers, dir: DirId) -> Result<Listing, NoMemory>
    ensures listing { (host : HostState) → Stand host layers.now → IfOk result (λ listing. listing ≡ children_in (layers_map host layers.now) dir) }
    ensures valid { IfOk result (All IsChild) }
{
    let low = first_key(alloc, dir)?;
    let high = end_key(alloc, dir)?;
    let records = merged(alloc, layers, &low, high.as_ref())?;
    list_all(alloc, records)
}

/// Whether a directory has a child.
pub(crate) fn has_child(alloc: Global, layers: &Layers, dir: DirId) -> Result<bool, NoMemory>
    ensures answer { (host : HostState) → Stand host layers.now → IfOk result (λ has. has ≡ has_child_in (layers_map host layers.now) dir) }
{
    let low = first_key(alloc, dir)?;
    let high = end_key(alloc, dir)?;
    let records = merged(alloc, layers, &low, high.as_ref())?;
    Ok(has_put(records))
}

// The first key behind those of a directory, where there is one.
fn end_key(alloc: Global, dir: DirId) -> Result<Option<Key>, NoMemory>
    ensures { IfOk result (λ key. key ≡ end_of_keys dir) }
{
    match next_dir(dir) {
        Some(next) => Ok(Some(first_key(alloc, next)?)),
        None => Ok(None),
    }
}

// What records show to their end.
fn list_all<R: Records + Drop>(alloc: Global, mut records: R) -> Result<Listing, NoMemory>
    requires { R.unread records ≡ 0 }
    ensures listing { IfOk result (λ listing. listing ≡ listed (R.rest records)) }
    ensures valid { IfOk result (All IsChild) }
{
    let mut listing = Listing::new(alloc);
    while let Head::Item(rec) = records.head() {
        add(alloc, &mut listing, rec)?;
        records.advance();
    }
    // Read here, since each of its names and entries is valid.
    let _ = listing.len();
    Ok(listing)
}

// Puts what a record shows behind the others.
fn add(alloc: Global, listing: &mut Listing, rec: RecordRef<'_>) -> Result<(), NoMemory>
    requires { IsRecord (record_of rec) }
    ensures { OnOk result (listing.new ≡ listing.old ++ shown_of (record_of rec.entry)) }
{
    match shown(alloc, rec)? {
        Some(child) => listing.push(child),
        None => Ok(()),
    }
}

// The name and the entry of a put.
fn shown(alloc: Global, rec: RecordRef<'_>) -> Result<Option<(Name, Entry)>, NoMemory>
    requires { IsRecord (record_of rec) }
    ensures shown { IfOk result (shows (record_of rec.entry)) }
    ensures valid { IfOk result (λ child. IfSome child IsChild) }
{
    let Value::Put(entry) = rec.value.to_value(alloc)? else {
        return Ok(None);
    };
    let key = rec.key.to_key(alloc)?;
    Ok(Some((key.name, entry)))
}

// Whether one of the records is a put.
fn has_put<R: Records + Drop>(mut records: R) -> bool
    requires { R.unread records ≡ 0 }
    ensures { IsTrue result ↔ (0 < length (listed (R.rest records))) }
{
    while let Head::Item(rec) = records.head() {
        match rec.value {
            ValueRef::Del => records.advance(),
            ValueRef::Dir { .. } | ValueRef::File { .. } => return true,
        }
    }
    false
}
