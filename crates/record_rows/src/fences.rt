ghost use Rattle.std.specs.Prelude.{◌≤◌, IfOk};
ghost use Rattle.dfs_record.specs.Record.{IsKey};
ghost use Rattle.dfs_fence.specs.Index.{IsFence};

use dfs_fence::*;
use dfs_record::{DirId, Key, KeyRef, Name};
use std::alloc::Global;
use std::test::*;

/// The index of a log with one block of 31 bytes at 12, whose one record stands at `x` in the root.
const ONE: [u8; 38] = [
    0, 0, 0, 1, 0, 0, 0, 0, 0, 0, 0, 12, 0, 0, 0, 31, 0, 1, 0, 0, 0, 0, 0, 0, 0, 0, 1, b'x', 0, 0,
    0, 0, 0, 0, 0, 0, 1, b'x',
];

/// Two blocks, with the keys from `b` to `d` and from `f` to `h` in the root.
const TWO: [u8; 72] = [
    0, 0, 0, 2, 0, 0, 0, 0, 0, 0, 0, 12, 0, 0, 0, 24, 0, 2, 0, 0, 0, 0, 0, 0, 0, 0, 1, b'b', 0, 0,
    0, 0, 0, 0, 0, 0, 1, b'd', 0, 0, 0, 0, 0, 0, 0, 36, 0, 0, 0, 35, 0, 3, 0, 0, 0, 0, 0, 0, 0, 0,
    1, b'f', 0, 0, 0, 0, 0, 0, 0, 0, 1, b'h',
];

fn key(alloc: Global, bytes: &[u8]) -> Result<Key, Fail>
    ensures { IfOk result IsKey }
{
    Ok(Key {
        parent: DirId::ROOT,
        name: Name::new(alloc, bytes)?,
    })
}

fn fence(at: u64, len: u32, count: u16, first: Key, last: Key) -> Result<Fence, Fail>
    requires first { IsKey first }
    requires last { IsKey last }
    ensures { IfOk result IsFence }
{
    if first.lend().order(last.lend()).is_gt() {
        return Err(Fail::from("the keys fall"));
    }
    Ok(Fence {
        at,
        len,
        count,
        first,
        last,
    })
}

fn is_index(alloc: Global, bytes: &[u8]) -> Result<bool, Fail> {
    let fences = Fences::read(alloc, bytes)?;
    Ok(fences.is_some())
}

fn two(alloc: Global) -> Result<Fences, Fail> {
    let fences = Fences::read(alloc, &TWO)?;
    Ok(fences.ok_or("an index")?)
}

// Takes a byte of an index for another one.
fn is_damaged(alloc: Global, index: &[u8], place: usize, byte: u8) -> Result<bool, Fail> {
    let mut bytes = index.to_vec(alloc)?;
    if let Some(at) = bytes.get_mut(place) {
        *at = byte;
    }
    Ok(!is_index(alloc, &bytes)?)
}

// The end of a range with this letter as its name, and an open one for a dot.
fn end(alloc: Global, letter: u8) -> Result<Option<Key>, Fail> {
    if letter == b'.' {
        return Ok(None);
    }
    Ok(Some(key(alloc, &[letter])?))
}

// So many fences, each of one key of two letters.
fn many(alloc: Global, count: u32) -> Result<Vec<u8>, Fail>
    requires { count ≤ 4097 }
{
    let mut bytes = count.to_be_bytes().to_vec(alloc)?;
    for number in 0..count {
        let (high, low) = (b'@' + (number / 64) as u8, b'@' + (number % 64) as u8);
        let key = [0, 0, 0, 0, 0, 0, 0, 0, 2, high, low];
        bytes.extend_from_slice(&[0; 14])?;
        bytes.extend_from_slice(&key)?;
        bytes.extend_from_slice(&key)?;
    }
    Ok(bytes)
}

#[test]
fn written(rt: HostRuntime) -> Result<(), Fail> {
    let alloc = rt.alloc();
    let mut fences = Fences::new(alloc);
    let first = key(alloc, b"x")?;
    let last = key(alloc, b"x")?;
    fences.push(fence(12, 31, 1, first, last)?)?;
    let mut out = [7].to_vec(alloc)?;
    fences.write(&mut out)?;
    assert_eq!(rt; out.first(), Some(&7));
    assert_eq!(rt; out.as_slice().split_at(1).1, ONE.as_slice());
    Ok(())
}

#[test]
fn read(rt: HostRuntime) -> Result<(), Fail> {
    let alloc = rt.alloc();
    let fences = two(alloc)?;
    assert_eq!(rt; fences.len(), 2);
    let second = fences.get(1);
    assert_eq!(rt; second.at, 36);
    assert_eq!(rt; second.len, 35);
    assert_eq!(rt; second.count, 3);
    let mut out = Vec::new(alloc);
    fences.write(&mut out)?;
    assert_eq!(rt; out.as_slice(), TWO.as_slice());
    Ok(())
}

#[test]
fn found(rt: HostRuntime) -> Result<(), Fail> {
    let fences = two(rt.alloc())?;
    let rows = [
        (b'a', None),
        (b'b', Some(0)),
        (b'd', Some(0)),
        (b'e', None),
        (b'f', Some(1)),
        (b'h', Some(1)),
        (b'i', None),
    ];
    for (letter, index) in rows {
        let key = KeyRef {
            parent: DirId::ROOT,
            name: &[letter],
        };
        assert_eq!(rt; fences.find(key), index, "{letter}");
    }
    Ok(())
}

#[test]
fn ranges(rt: HostRuntime) -> Result<(), Fail> {
    let alloc = rt.alloc();
    let fences = two(alloc)?;
    // The letters of the two ends, and how many fences lie before the range and up to its end.
    let rows = [
        (b'.', b'.', 0, 2),
        (b'.', b'b', 0, 0),
        (b'.', b'c', 0, 1),
        (b'd', b'f', 0, 1),
        (b'd', b'g', 0, 2),
        (b'e', b'f', 1, 1),
        (b'h', b'.', 1, 2),
        (b'i', b'.', 2, 2),
        (b'g', b'g', 0, 0),
    ];
    for (low, high, from, to) in rows {
        let (low, high) = (end(alloc, low)?, end(alloc, high)?);
        assert_eq!(rt; fences.range(low.as_ref(), high.as_ref()), (from, to));
    }
    Ok(())
}

#[test]
fn damaged(rt: HostRuntime) -> Result<(), Fail> {
    let alloc = rt.alloc();
    // A place, a byte that stands there then, and what it is a part of.
    let places = [
        (0, 1, "the count's high byte"),
        (3, 0, "no fence"),
        (3, 1, "a fence less"),
        (3, 3, "a fence more"),
        (26, 0, "no name"),
        (26, 2, "a longer name"),
        (27, b'e', "falling keys"),
        (37, b'/', "a slash"),
        (37, b'f', "fences that touch"),
        (61, b'c', "fences that overlap"),
    ];
    for (place, byte, what) in places {
        assert!(rt; is_damaged(alloc, &TWO, place, byte)?, "{what}");
    }
    assert!(rt; !is_index(alloc, &TWO[..71])?, "one byte short");
    assert!(rt; !is_index(alloc, &TWO[..3])?, "no count");
    Ok(())
}

#[test]
fn full(rt: HostRuntime) -> Result<(), Fail> {
    let alloc = rt.alloc();
    let (most, more) = (many(alloc, 4096)?, many(alloc, 4097)?);
    assert!(rt; is_index(alloc, &most)?);
    assert!(rt; !is_index(alloc, &more)?);
    Ok(())
}
