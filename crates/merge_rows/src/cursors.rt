ghost use Rattle.std.specs.Prelude.{◌≡◌, IfOk, List, [], ◌∷◌};
ghost use Rattle.dfs_record.specs.Key.{root};
ghost use Rattle.dfs_record.specs.Record.{IsRecord};

use dfs_cursor::*;
use dfs_record::{DirId, Head, Key, Name, Record, Records, Value};
use std::alloc::Global;
use std::test::*;

/// The deletion of a name of one byte in the root.
fn deletion(alloc: Global, name: u8) -> Result<Record, Fail>
    ensures key { IfOk result (λ r. r.key ≡ record { parent = root; name = name ∷ [] }) }
    ensures valid { IfOk result IsRecord }
{
    Ok(Record {
        key: Key {
            parent: DirId::ROOT,
            name: Name::new(alloc, &[name])?,
        },
        value: Value::Del,
    })
}

/// The names of what a source has, to its end.
fn names<C: Records + Drop>(alloc: Global, mut source: C) -> Result<Vec<u8>, Fail> {
    let mut names = Vec::new(alloc);
    for _ in 0..100 {
        match source.head() {
            Head::Item(rec) => names.extend_from_slice(rec.key.name)?,
            Head::Hungry | Head::End => break,
        }
        source.advance();
    }
    Ok(names)
}

#[test]
fn from_the_lower_end_up_to_the_upper(rt: HostRuntime) -> Result<(), Fail> {
    let alloc = rt.alloc();
    let records = [
        deletion(alloc, b'b')?,
        deletion(alloc, b'd')?,
        deletion(alloc, b'f')?,
    ];
    let keys = [
        deletion(alloc, b'a')?.key,
        deletion(alloc, b'd')?.key,
        deletion(alloc, b'e')?.key,
        deletion(alloc, b'f')?.key,
    ];
    let [a, d, e, f] = &keys;
    let rows = [
        (None, None, b"bdf".as_slice()),
        (Some(d), None, b"df"),
        (None, Some(d), b"b"),
        (Some(a), Some(f), b"bd"),
        (Some(d), Some(e), b"d"),
        (Some(e), Some(f), b""),
        (Some(f), Some(a), b""),
    ];
    for (low, high, expected) in rows {
        let part = RangeRecords::new(SliceRecords::new(&records), low, high);
        assert_eq!(rt; names(alloc, part)?.as_slice(), expected);
    }
    Ok(())
}

#[test]
fn two_kinds_in_one_list(rt: HostRuntime) -> Result<(), Fail> {
    let alloc = rt.alloc();
    let records = [deletion(alloc, b'b')?, deletion(alloc, b'd')?];
    let low = deletion(alloc, b'c')?.key;
    let slice = SliceRecords::new(&records);
    let part = RangeRecords::new(SliceRecords::new(&records), Some(&low), None);
    let sources = [EitherRecords::First(part), EitherRecords::Second(slice)];
    for (source, expected) in sources.into_iter().zip([b"d".as_slice(), b"bd"]) {
        assert_eq!(rt; names(alloc, source)?.as_slice(), expected);
    }
    Ok(())
}
