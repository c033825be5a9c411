use dfs_manifest::*;
use std::alloc::Global;
use std::test::*;

/// The manifest of a log with one table, whose index has 38 bytes at 43.
const ONE: [u8; 16] = [0, 0, 0, 1, 0, 0, 0, 0, 0, 0, 0, 43, 0, 0, 0, 38];

#[test]
fn written(rt: HostRuntime) -> Result<(), Fail> {
    let alloc = rt.alloc();
    let mut out = [7].to_vec(alloc)?;
    write(&[(43, 38)], &mut out)?;
    assert_eq!(rt; out.as_slice().split_at(1).1, ONE.as_slice());
    Ok(())
}

#[test]
fn read(rt: HostRuntime) -> Result<(), Fail> {
    let alloc = rt.alloc();
    let mut bytes = Vec::new(alloc);
    write(&[(43, 38), (u64::MAX, u32::MAX)], &mut bytes)?;
    let manifest = Manifest::read(&bytes).ok_or("a manifest")?;
    assert_eq!(rt; manifest.count(), 2);
    assert_eq!(rt; manifest.table(0), (43, 38));
    assert_eq!(rt; manifest.table(1), (u64::MAX, u32::MAX));
    Ok(())
}

#[test]
fn damaged(rt: HostRuntime) {
    // A place, and a byte of the count that stands there then.
    for (place, byte) in [(0, 1), (1, 1), (2, 1), (3, 0), (3, 2)] {
        let mut bytes = ONE;
        if let Some(at) = bytes.get_mut(place) {
            *at = byte;
        }
        assert!(rt; Manifest::read(&bytes).is_none(), "{place}");
    }
    assert!(rt; Manifest::read(&ONE[..15]).is_none(), "one byte short");
    assert!(rt; Manifest::read(&ONE[..3]).is_none(), "no count");
    assert!(rt; Manifest::read(&[0; 4]).is_some(), "no table");
}

#[test]
fn full(rt: HostRuntime) -> Result<(), Fail> {
    let alloc = rt.alloc();
    let (most, more) = (many(alloc, 131_072)?, many(alloc, 131_073)?);
    assert!(rt; Manifest::read(&most).is_some());
    assert!(rt; Manifest::read(&more).is_none());
    Ok(())
}

// So many tables.
fn many(alloc: Global, count: u32) -> Result<Vec<u8>, Fail> {
    let mut bytes = count.to_be_bytes().to_vec(alloc)?;
    for _table in 0..count {
        bytes.extend_from_slice(&[0; 12])?;
    }
    Ok(bytes)
}
