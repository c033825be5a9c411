ghost use Rattle.std.specs.Prelude.{◌≡◌, ◌+◌, IfOk, [], ◌∷◌, Some, All};
ghost use Rattle.std.proofs.Common.{arith};
ghost use Rattle.std.proofs.Props.{props};
ghost use Rattle.dfs_record.specs.Key.{root};
ghost use Rattle.dfs_record.specs.Record.{IsRecord};
ghost use Rattle.dfs_record.specs.Records.{IsBelow, KeysRise};

use dfs_cursor::{RangeRecords, SliceRecords};
use dfs_merge::*;
use dfs_record::{DirId, Entry, Head, Key, Name, Record, Records, Value, ValueRef};
use std::alloc::Global;
use std::test::*;

/// A directory of this time, or a deletion, at a name of one byte in the root.
fn record(alloc: Global, name: u8, time: Option<u64>) -> Result<Record, Fail>
    ensures key { IfOk result (λ r. r.key ≡ record { parent = root; name = name ∷ [] }) }
    ensures valid { IfOk result IsRecord }
{
    let value = match time {
        None => Value::Del,
        Some(time) => Value::Put(Entry::Dir {
            id: DirId { job: 1, counter: 1 },
            mode: 0o755,
            time,
        }),
    };
    Ok(Record {
        key: Key {
            parent: DirId::ROOT,
            name: Name::new(alloc, &[name])?,
        },
        value,
    })
}

/// The names of what a source has to its end, each with the time, which is 0 for a deletion.
fn shown<C: Records + Drop>(alloc: Global, mut source: C) -> Result<Vec<(u8, u64)>, Fail> {
    let mut shown = Vec::new(alloc);
    for _ in 0..100 {
        match source.head() {
            Head::Item(rec) => {
                let time = match rec.value {
                    ValueRef::Dir { time, .. } => time,
                    ValueRef::Del | ValueRef::File { .. } => 0,
                };
                shown.push((rec.key.name.first().copied().unwrap_or(0), time))?;
            }
            Head::Hungry | Head::End => break,
        }
        source.advance();
    }
    Ok(shown)
}

#[test]
fn the_last_source_wins(rt: HostRuntime) -> Result<(), Fail> {
    let alloc = rt.alloc();
    let first = [record(alloc, b'a', Some(1))?, record(alloc, b'e', Some(1))?];
    let second = [record(alloc, b'a', Some(2))?, record(alloc, b'c', Some(2))?];
    let third = [record(alloc, b'e', Some(3))?];
    let last = [record(alloc, b'a', None)?, record(alloc, b'd', Some(5))?];
    let mut sources = Vec::new(alloc);
    sources.push(SliceRecords::new(&first))?;
    sources.push(SliceRecords::new(&second))?;
    sources.push(SliceRecords::new(&third))?;
    sources.push(SliceRecords::new(&[]))?;
    sources.push(SliceRecords::new(&last))?;
    let merge = Merge::new(alloc, sources)?;
    let expected = [(b'a', 0), (b'c', 2), (b'd', 5), (b'e', 3)];
    assert_eq!(rt; shown(alloc, merge)?.as_slice(), expected.as_slice());
    Ok(())
}

/// Records that are loaded, with a block behind them that is not. It says of no files what comes.
#[derive(Drop)]
struct Begun<'a, C: Records> {
    loaded: C,
    above: &'a Key,
    ghost below: { All (λ r. IsBelow r.key above.now) (C.rest loaded) } by { Prim.hlevel props },
}

impl<C: Records> Records for Begun<'_, C> {
    ghost rest = { λ s. C.rest s.loaded };

    ghost unread = { λ s. C.unread s.loaded + 1 };

    ghost bound = { λ s. Some s.above.now };

    ghost Comes = { λ s files l. ⊥ };

    fn head(&self) -> Head<'_> {
        match self.loaded.head() {
            Head::Item(rec) => Head::Item(rec),
            Head::Hungry | Head::End => Head::Hungry,
        }
    }

    fn advance(&mut self) {
        self.loaded.advance();
    }

    ghost rest_rises = { λ s. C.rest_rises s.loaded };

    ghost bound_none = { λ s. (λ e. Prim.cc, λ e. absurd (Prim.omega arith)) };

    ghost bound_above = { λ s. s.below };

    ghost comes_rises = { λ s files l h. absurd h };

    ghost comes_begins = { λ s files l h. absurd h };

    ghost comes_loaded = { λ s files l h. absurd h };

    ghost comes_one = { λ s files l m h. absurd h };
}

/// The parts between two keys of two sources of which a block is not loaded, merged.
fn begun_between<'a>(
    alloc: Global,
    older: &'a [Record],
    newer: &'a [Record],
    above: &'a Key,
    low: Option<&'a Key>,
    high: Option<&'a Key>,
) -> Result<Merge<RangeRecords<'a, Begun<'a, SliceRecords<'a>>>>, Fail>
    requires older { KeysRise older.now }
    requires older_valid { All IsRecord older.now }
    requires older_below { All (λ r. IsBelow r.key above.now) older.now }
    requires newer { KeysRise newer.now }
    requires newer_valid { All IsRecord newer.now }
    requires newer_below { All (λ r. IsBelow r.key above.now) newer.now }
{
    let mut sources = Vec::new(alloc);
    let loaded = SliceRecords::new(older);
    sources.push(RangeRecords::new(Begun { loaded, above }, low, high))?;
    let loaded = SliceRecords::new(newer);
    sources.push(RangeRecords::new(Begun { loaded, above }, low, high))?;
    Ok(Merge::new(alloc, sources)?)
}

/// The names of what a source gives, and whether it has to load then.
fn given<C: Records + Drop>(alloc: Global, mut source: C) -> Result<(Vec<u8>, bool), Fail> {
    let mut names = Vec::new(alloc);
    for _ in 0..100 {
        match source.head() {
            Head::Item(rec) => names.extend_from_slice(rec.key.name)?,
            Head::Hungry => return Ok((names, true)),
            Head::End => break,
        }
        source.advance();
    }
    Ok((names, false))
}

#[test]
fn up_to_what_has_to_be_loaded(rt: HostRuntime) -> Result<(), Fail> {
    let alloc = rt.alloc();
    let first = [record(alloc, b'a', None)?, record(alloc, b'c', None)?];
    let second = [record(alloc, b'b', None)?];
    let keys = [
        record(alloc, b'b', None)?.key,
        record(alloc, b'c', None)?.key,
        record(alloc, b'd', None)?.key,
    ];
    let [b, c, d] = &keys;
    let rows = [
        (None, None, b"ab".as_slice(), true),
        (None, Some(b), b"a", false),
        (Some(b), Some(c), b"b", true),
        (Some(c), None, b"", true),
        (Some(c), Some(b), b"", false),
    ];
    for (low, high, names, hungry) in rows {
        let merge = begun_between(alloc, &first, &second, d, low, high)?;
        let (shown, waits) = given(alloc, merge)?;
        assert_eq!(rt; shown.as_slice(), names);
        assert_eq!(rt; waits, hungry);
    }
    Ok(())
}
