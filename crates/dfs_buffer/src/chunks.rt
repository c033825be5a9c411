//! Records in rising order of their keys, in chunks of 64 records at most.

ghost use Rattle.std.specs.Prelude.{◌≡◌, ◌<◌, ◌≤◌, List, [], ◌∷◌, ◌++◌, length, IsTrue, IsFalse, MatchBool, take, drop, flat_map, All, MatchResult, HoldsAt, true, false, OnOk, OnErr, option_copied, IfOk, IfSome, Some, None};
ghost use Rattle.std.specs.List.Sorted.{IsPartitionPoint};
ghost use Rattle.dfs_record.specs.declared.Key.{Key};
ghost use Rattle.dfs_record.specs.declared.Record.{Record as OwnRecord};
ghost use Rattle.dfs_record.specs.Delta.{delta, with_record};
ghost use Rattle.dfs_record.specs.Key.{key_cmp};
ghost use Rattle.dfs_record.specs.KeyMap.{get};
ghost use Rattle.dfs_record.specs.Lend.{key_of};
ghost use Rattle.dfs_record.specs.Record.{IsRecord, IsValue};
ghost use Rattle.dfs_record.specs.Records.{KeysRise};
ghost use Rattle.dfs_cursor.specs.Ranges.{part};
ghost use Rattle.dfs_buffer.specs.Chunks.{AreBelow, AreAbove, AreChunks, HasRoom, IsCut, IsPlace, IsReplaced, begins_up_to, chunk_at, chunk_limit, before, from};

use dfs_record::{KeyRef, NoMemory, Record, Value};
use std::cmp::Ordering;

/// The most records of a chunk.
const LIMIT: usize = 64;

/// Where a key stands in the chunks, or where it would stand.
#[derive(Clone, Copy)]
struct Place {
    chunk: usize,
    index: usize,
    found: bool,
}

/// The index of the key's record, or where it would stand.
fn search(records: &[Record], key: KeyRef<'_>) -> Result<usize, usize>
    requires { KeysRise records.now }
    ensures within { MatchResult result (λ i. i < length records.now) (λ i. i ≤ length records.now) }
    ensures place { MatchResult result (HoldsAt (λ r. r.key ≡ key_of key.entry) records.now) (λ i. AreBelow (take i records.now) (key_of key.entry) × AreAbove (drop i records.now) (key_of key.entry)) }
{
    records.binary_search_by(
        |r: &Record| -> Ordering
            ensures { result ≡ key_cmp r.now.key (key_of key.entry) }
        { r.key.lend().order(key) },
    )
}

/// How many chunks begin at the key or below it.
fn chunks_up_to(chunks: &[Vec<Record>], key: KeyRef<'_>) -> usize
    requires { AreChunks (λ c. c.items) chunks.now }
    ensures within { result ≤ length chunks.now }
    ensures place { IsPartitionPoint (λ c. begins_up_to (key_of key.entry) c.items ≡ true) (λ c. begins_up_to (key_of key.entry) c.items ≡ false) chunks.now result }
{
    chunks.partition_point(
        |c: &Vec<Record>| -> bool
            ensures { result ≡ begins_up_to (key_of key.entry) c.now.items }
        { begins_at_most(c, key) },
    )
}

fn begins_at_most(records: &[Record], key: KeyRef<'_>) -> bool
    ensures { result ≡ begins_up_to (key_of key.entry) records.now }
{
    match records.first() {
        None => false,
        Some(first) => first.key.lend().order(key) != Ordering::Greater,
    }
}

/// Where the key stands.
fn place_of(chunks: &[Vec<Record>], key: KeyRef<'_>) -> Place
    requires { AreChunks (λ c. c.items) chunks.now }
    ensures { IsPlace (λ c. c.items) chunks.now (key_of key.entry) result.chunk result.index result.found }
{
    let chunk = chunks_up_to(chunks, key).saturating_sub(1);
    match chunks.get(chunk) {
        None => Place {
            chunk,
            index: 0,
            found: false,
        },
        Some(records) => match search(records, key) {
            Ok(index) => Place {
                chunk,
                index,
                found: true,
            },
            Err(index) => Place {
                chunk,
                index,
                found: false,
            },
        },
    }
}

/// Whether the place lies behind all records.
fn is_end(chunks: &[Vec<Record>], place: &Place) -> bool
    ensures end { IsTrue result → from (λ c. c.items) chunks.now place.now.chunk place.now.index ≡ [] }
    ensures inside { IsFalse result → place.now.chunk < length chunks.now }
{
    match chunks.get(place.chunk) {
        None => true,
        Some(records) => place.index >= records.len() && place.chunk >= chunks.len() - 1,
    }
}

/// Whether the chunk has as many records as it may have.
fn is_full(chunks: &[Vec<Record>], chunk: usize) -> bool
    ensures full { IsTrue result → chunk_limit ≤ length (chunk_at (λ c. c.items) chunks.now chunk) }
    ensures room { IsFalse result → length (chunk_at (λ c. c.items) chunks.now chunk) < chunk_limit }
{
    match chunks.get(chunk) {
        None => false,
        Some(records) => records.len() >= LIMIT,
    }
}

/// Cuts a full chunk into two, and answers how many records the first has. The records stay as they are, whatever the
/// answer.
fn split(chunks: &mut Vec<Vec<Record>>, chunk: usize) -> Result<usize, NoMemory>
    requires all { AreChunks (λ c. c.items) chunks.old.items }
    requires within { chunk < length chunks.old.items }
    requires full { chunk_limit ≤ length (chunk_at (λ c. c.items) chunks.old.items chunk) }
    ensures all { AreChunks (λ c. c.items) chunks.new.items }
    ensures same { flat_map (λ c. c.items) chunks.new.items ≡ flat_map (λ c. c.items) chunks.old.items }
    ensures cut { IfOk result (λ half. IsCut (λ c. c.items) chunks.old.items chunks.new.items chunk half) }
{
    chunks.reserve(1)?;
    let records = &mut chunks[chunk];
    let half = records.len() / 2;
    let behind = records.split_off(half)?;
    if chunks.insert(chunk + 1, behind).is_err() {
        return Err(NoMemory);
    }
    Ok(half)
}

/// Cuts the full chunk of a place, and answers where the place is then: in a chunk with room.
fn make_room(chunks: &mut Vec<Vec<Record>>, place: Place) -> Result<Place, NoMemory>
    requires all { AreChunks (λ c. c.items) chunks.old.items }
    requires within { place.chunk < length chunks.old.items }
    requires full { chunk_limit ≤ length (chunk_at (λ c. c.items) chunks.old.items place.chunk) }
    ensures all { AreChunks (λ c. c.items) chunks.new.items }
    ensures same { flat_map (λ c. c.items) chunks.new.items ≡ flat_map (λ c. c.items) chunks.old.items }
    ensures place { IfOk result (λ p. (key : Key) → IsPlace (λ c. c.items) chunks.old.items key place.chunk place.index false → IsPlace (λ c. c.items) chunks.new.items key p.chunk p.index false) }
    ensures room { IfOk result (λ p. HasRoom (λ c. c.items) chunks.new.items p.chunk) }
{
    let half = split(chunks, place.chunk)?;
    if place.index <= half {
        return Ok(place);
    }
    Ok(Place {
        chunk: place.chunk + 1,
        index: place.index - half,
        found: place.found,
    })
}

/// Begins a chunk behind all others.
fn append(chunks: &mut Vec<Vec<Record>>, rec: Record) -> Result<(), NoMemory>
    ensures ok { OnOk result (flat_map (λ c. c.items) chunks.new.items ≡ flat_map (λ c. c.items) chunks.old.items ++ rec ∷ []) }
    ensures err { OnErr result (flat_map (λ c. c.items) chunks.new.items ≡ flat_map (λ c. c.items) chunks.old.items) }
    ensures filled { All (λ c. 0 < length c.items) chunks.old.items → All (λ c. 0 < length c.items) chunks.new.items }
    ensures short { All (λ c. length c.items ≤ chunk_limit) chunks.old.items → All (λ c. length c.items ≤ chunk_limit) chunks.new.items }
{
    let mut records = Vec::new(*chunks.allocator());
    if records.push(rec).is_err() || chunks.push(records).is_err() {
        return Err(NoMemory);
    }
    Ok(())
}

/// Puts a record at an index of a chunk with room, before those that stand there.
fn insert(
    chunks: &mut Vec<Vec<Record>>,
    chunk: usize,
    index: usize,
    rec: Record,
) -> Result<(), NoMemory>
    requires room { HasRoom (λ c. c.items) chunks.old.items chunk }
    requires index { index ≤ length (chunk_at (λ c. c.items) chunks.old.items chunk) }
    ensures ok { OnOk result (flat_map (λ c. c.items) chunks.new.items ≡ before (λ c. c.items) chunks.old.items chunk index ++ rec ∷ from (λ c. c.items) chunks.old.items chunk index) }
    ensures err { OnErr result (flat_map (λ c. c.items) chunks.new.items ≡ flat_map (λ c. c.items) chunks.old.items) }
    ensures filled { All (λ c. 0 < length c.items) chunks.old.items → All (λ c. 0 < length c.items) chunks.new.items }
    ensures short { All (λ c. length c.items ≤ chunk_limit) chunks.old.items → All (λ c. length c.items ≤ chunk_limit) chunks.new.items }
{
    let records = &mut chunks[chunk];
    if records.insert(index, rec).is_err() {
        return Err(NoMemory);
    }
    Ok(())
}

/// Puts a value in the place of the one that stands there.
fn replace(chunks: &mut Vec<Vec<Record>>, chunk: usize, index: usize, value: Value)
    requires within { chunk < length chunks.old.items }
    requires index { index < length (chunk_at (λ c. c.items) chunks.old.items chunk) }
    ensures value { IsReplaced (before (λ c. c.items) chunks.old.items chunk index) (from (λ c. c.items) chunks.old.items chunk index) (flat_map (λ c. c.items) chunks.new.items) value }
    ensures filled { All (λ c. 0 < length c.items) chunks.old.items → All (λ c. 0 < length c.items) chunks.new.items }
    ensures short { All (λ c. length c.items ≤ chunk_limit) chunks.old.items → All (λ c. length c.items ≤ chunk_limit) chunks.new.items }
{
    let records = &mut chunks[chunk];
    let rec = &mut records[index];
    rec.value = value;
}

/// Whether a new chunk is to begin at the place.
fn begins_chunk(chunks: &[Vec<Record>], place: &Place) -> bool
    requires { 0 < length chunks.now → place.now.chunk < length chunks.now }
    ensures end { IsTrue result → from (λ c. c.items) chunks.now place.now.chunk place.now.index ≡ [] }
    ensures inside { IsFalse result → place.now.chunk < length chunks.now }
{
    is_end(chunks, place) && (chunks.is_empty() || is_full(chunks, place.chunk))
}

/// Puts a record at its place, in a chunk with room.
fn put_at(chunks: &mut Vec<Vec<Record>>, place: Place, rec: Record) -> Result<(), NoMemory>
    requires all { AreChunks (λ c. c.items) chunks.old.items }
    requires valid { IsRecord rec }
    requires place { IsPlace (λ c. c.items) chunks.old.items rec.key place.chunk place.index false }
    requires room { HasRoom (λ c. c.items) chunks.old.items place.chunk }
    ensures all { AreChunks (λ c. c.items) chunks.new.items }
    ensures ok { OnOk result (delta (flat_map (λ c. c.items) chunks.new.items) ≡ with_record (delta (flat_map (λ c. c.items) chunks.old.items)) rec) }
    ensures err { OnErr result (flat_map (λ c. c.items) chunks.new.items ≡ flat_map (λ c. c.items) chunks.old.items) }
{
    insert(chunks, place.chunk, place.index, rec)
}

/// Puts a record whose key no other has.
fn put_new(chunks: &mut Vec<Vec<Record>>, place: Place, rec: Record) -> Result<(), NoMemory>
    requires all { AreChunks (λ c. c.items) chunks.old.items }
    requires valid { IsRecord rec }
    requires place { IsPlace (λ c. c.items) chunks.old.items rec.key place.chunk place.index false }
    ensures all { AreChunks (λ c. c.items) chunks.new.items }
    ensures ok { OnOk result (delta (flat_map (λ c. c.items) chunks.new.items) ≡ with_record (delta (flat_map (λ c. c.items) chunks.old.items)) rec) }
    ensures err { OnErr result (flat_map (λ c. c.items) chunks.new.items ≡ flat_map (λ c. c.items) chunks.old.items) }
{
    if begins_chunk(chunks, &place) {
        return append(chunks, rec);
    }
    if !is_full(chunks, place.chunk) {
        return put_at(chunks, place, rec);
    }
    let place = make_room(chunks, place)?;
    put_at(chunks, place, rec)
}

/// Puts a record in the place of the one with its key, or where it belongs.
pub(crate) fn put(chunks: &mut Vec<Vec<Record>>, rec: Record) -> Result<(), NoMemory>
    requires all { AreChunks (λ c. c.items) chunks.old.items }
    requires valid { IsRecord rec }
    ensures all { AreChunks (λ c. c.items) chunks.new.items }
    ensures ok { OnOk result (delta (flat_map (λ c. c.items) chunks.new.items) ≡ with_record (delta (flat_map (λ c. c.items) chunks.old.items)) rec) }
    ensures err { OnErr result (flat_map (λ c. c.items) chunks.new.items ≡ flat_map (λ c. c.items) chunks.old.items) }
{
    let place = place_of(chunks, rec.key.lend());
    if place.found {
        replace(chunks, place.chunk, place.index, rec.value);
        return Ok(());
    }
    put_new(chunks, place, rec)
}

/// The value of the key's record.
pub(crate) fn find<'a>(chunks: &'a [Vec<Record>], key: KeyRef<'_>) -> Option<&'a Value>
    requires { AreChunks (λ c. c.items) chunks.now }
    ensures value { option_copied result ≡ get (delta (flat_map (λ c. c.items) chunks.now)) (key_of key.entry) }
    ensures valid { IfSome result (λ v. IsValue v.now) }
{
    let place = place_of(chunks, key);
    if !place.found {
        return None;
    }
    let records = chunks.get(place.chunk)?;
    let rec = records.get(place.index)?;
    Some(&rec.value)
}

/// The records from the key on: those of the chunk where it stands, and the chunks behind that one.
pub(crate) fn from_key<'a>(
    chunks: &'a [Vec<Record>],
    key: KeyRef<'_>,
) -> (&'a [Record], &'a [Vec<Record>])
    requires { AreChunks (λ c. c.items) chunks.now }
    ensures records { result.0.now ++ flat_map (λ c. c.items) result.1.now ≡ part (Some (key_of key.entry)) None (flat_map (λ c. c.items) chunks.now) }
    ensures filled { All (λ c. 0 < length c.items) result.1.now }
{
    let place = place_of(chunks, key);
    match chunks.get(place.chunk) {
        None => (&[], &[]),
        Some(records) => (&records[place.index..], &chunks[place.chunk + 1..]),
    }
}
