use dfs_record::*;
use std::alloc::Global;
use std::cmp::Ordering;
use std::test::*;

/// A directory 1.1 of mode 0755 and time 1 at `x` in the root.
const DIR: [u8; 29] = [
    0, 0, 0, 0, 0, 0, 0, 0, 1, b'x', 1, 0, 0, 0, 1, 0, 0, 0, 1, 0x01, 0xed, 0, 0, 0, 0, 0, 0, 0, 1,
];

/// A file of mode 07777, time 2 and size 258 at `f` in 3.4, whose reference is one byte 0.
const FILE: [u8; 31] = [
    0, 0, 0, 3, 0, 0, 0, 4, 1, b'f', 2, 0x0f, 0xff, 0, 0, 0, 0, 0, 0, 0, 2, 0, 0, 0, 0, 0, 0, 1, 2,
    1, 0,
];

/// The deletion of `ab` in the root.
const DEL: [u8; 12] = [0, 0, 0, 0, 0, 0, 0, 0, 2, b'a', b'b', 0];

fn file(alloc: Global) -> Result<Record, Fail> {
    Ok(Record {
        key: Key {
            parent: DirId { job: 3, counter: 4 },
            name: Name::new(alloc, b"f")?,
        },
        value: Value::Put(Entry::File {
            mode: 4095,
            time: 2,
            size: 258,
            reference: Reference::new(alloc, &[0])?,
        }),
    })
}

fn directory(alloc: Global) -> Result<Record, Fail> {
    Ok(Record {
        key: Key {
            parent: DirId::ROOT,
            name: Name::new(alloc, b"x")?,
        },
        value: Value::Put(Entry::Dir {
            id: DirId { job: 1, counter: 1 },
            mode: 0o755,
            time: 1,
        }),
    })
}

fn deletion(alloc: Global) -> Result<Record, Fail> {
    Ok(Record {
        key: Key {
            parent: DirId::ROOT,
            name: Name::new(alloc, b"ab")?,
        },
        value: Value::Del,
    })
}

#[test]
fn spelled_and_read(rt: HostRuntime) -> Result<(), Fail> {
    let alloc = rt.alloc();
    let rows = [
        (deletion(alloc)?, DEL.as_slice()),
        (directory(alloc)?, DIR.as_slice()),
        (file(alloc)?, FILE.as_slice()),
    ];
    for (expected, bytes) in rows {
        let (rec, len) = decode(bytes).ok_or("the bytes spell a record")?;
        assert_eq!(rt; len, bytes.len());
        assert!(rt; rec.to_record(alloc)? == expected);
        assert!(rt; rec.key.to_key(alloc)? == expected.key);
        assert!(rt; rec.value.to_value(alloc)? == expected.value);
        let mut out = Vec::new(alloc);
        encode(rec, &mut out)?;
        assert_eq!(rt; out.as_slice(), bytes);
        out.clear();
        encode_key(rec.key, &mut out)?;
        assert!(rt; bytes.starts_with(&out));
        if let Some((_, front)) = bytes.split_last() {
            assert!(rt; decode(front).is_none());
        }
    }
    Ok(())
}

#[test]
fn damaged(rt: HostRuntime) {
    // No name, one that is too long, `.`, a slash and a 0; no kind; the identity's job and counter; the mode.
    let places: [(usize, u8); 9] = [
        (8, 0),
        (8, 255),
        (9, b'.'),
        (9, b'/'),
        (9, 0),
        (10, 3),
        (14, 0),
        (18, 0),
        (19, 0x10),
    ];
    for (place, byte) in places {
        let mut bytes = DIR;
        if let Some(at) = bytes.get_mut(place) {
            *at = byte;
        }
        assert!(rt; decode(&bytes).is_none(), "{place}");
    }
    let mut mode = DIR;
    mode[19] = 0x10;
    mode[20] = 0;
    assert!(rt; decode(&mode).is_none(), "a mode of 4,096");
    let mut reference = FILE;
    reference[29] = 0;
    assert!(rt; decode(&reference).is_none(), "no reference");
    assert!(rt;
        decode(&[0, 0, 0, 0, 0, 0, 0, 0, 2, b'.', b'.', 0]).is_none(),
        "two dots"
    );
}

#[test]
fn keys(rt: HostRuntime) -> Result<(), Fail> {
    let alloc = rt.alloc();
    let (key, len) = decode_key(&DIR).ok_or("a key")?;
    assert_eq!(rt; len, 10);
    assert!(rt; decode_key(&DIR[..9]).is_none());
    // The counter goes before the name.
    let (later, _) = decode_key(&[0, 0, 0, 0, 0, 0, 0, 1, 1, b'a', 7]).ok_or("a key")?;
    assert_eq!(rt; key.order(later), Ordering::Less);
    let owned = later.to_key(alloc)?;
    assert!(rt; owned.copy(alloc)? == owned);
    assert_eq!(rt; owned.lend().order(key), Ordering::Greater);
    Ok(())
}

#[test]
fn copies(rt: HostRuntime) -> Result<(), Fail> {
    let alloc = rt.alloc();
    let rec = file(alloc)?;
    assert!(rt; rec.key.name.copy(alloc)? == rec.key.name);
    if let Value::Put(entry) = &rec.value {
        assert!(rt; entry.copy(alloc)? == *entry);
    }
    let reference = Reference::new(alloc, &[255; 255])?;
    assert!(rt; reference.copy(alloc)? == reference);
    let snap = SnapName::new(alloc, b"s-1_.")?;
    assert!(rt; snap.copy(alloc)? == snap);
    assert!(rt; SnapName::new(alloc, &[b's'; 65]) == Err(NameFault::Bad));
    assert!(rt; Reference::new(alloc, &[0; 256]) == Err(NameFault::Bad));
    assert!(rt; Name::new(alloc, &[b'n'; 256]) == Err(NameFault::Bad));
    Ok(())
}

#[test]
fn numbers(rt: HostRuntime) {
    let bytes = [1, 2, 3, 4, 5, 6, 7, 8];
    assert_eq!(rt; read_u16(&bytes), Some(0x0102));
    assert_eq!(rt; read_u32(&bytes), Some(0x0102_0304));
    assert_eq!(rt; read_u64(&bytes), Some(0x0102_0304_0506_0708));
    assert_eq!(rt; read_u64(&bytes[1..]), None);
}
