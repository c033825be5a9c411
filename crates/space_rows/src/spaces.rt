use dfs_record::{DirId, Entry, Key, Name, Record, Value};
use dfs_space::*;
use std::alloc::Global;
use std::process::Abort;
use std::test::*;

const ROOT: DirId = DirId { job: 0, counter: 0 };

const FIRST: DirId = DirId { job: 0, counter: 1 };

const ROLLED: DirId = DirId {
    job: 0,
    counter: u32::MAX,
};

const NEXT: DirId = DirId { job: 1, counter: 0 };

const LAST: DirId = DirId {
    job: u32::MAX,
    counter: u32::MAX,
};

const NEXT_DIR: DirId = DirId { job: 1, counter: 1 };

const STORED: [(DirId, &[u8]); 7] = [
    (ROOT, b"b"),
    (ROOT, &[1]),
    (ROOT, &[255, 255]),
    (ROLLED, b"x"),
    (NEXT, &[1]),
    (LAST, b"z"),
    (LAST, b"B"),
];

fn key(alloc: Global, parent: DirId, name: &[u8]) -> Result<Key, Fail> {
    let name = Name::new(alloc, name).ok().ok_or("a name")?;
    Ok(Key { parent, name })
}

fn stored(alloc: Global) -> Result<PlainSpace, Fail> {
    let mut space = PlainSpace::new(alloc);
    for (time, (parent, name)) in STORED.into_iter().enumerate() {
        let rec = Record {
            key: key(alloc, parent, name)?,
            value: Value::Put(Entry::Dir {
                id: NEXT_DIR,
                mode: 0o755,
                time: time as u64,
            }),
        };
        space.store(rec).ok().ok_or("memory")?;
    }
    Ok(space)
}

fn names(rt: &impl Abort, space: &mut PlainSpace, dir: DirId, names: &[&[u8]]) -> Result<(), Fail> {
    let listing = space.list(dir).ok().ok_or("a fault")?;
    assert_eq!(rt; listing.len(), names.len());
    for (index, name) in names.iter().enumerate() {
        assert!(rt; index < listing.len());
        assert_eq!(rt; listing.get(index).0.bytes(), *name);
    }
    let any = space.any_child(dir).ok().ok_or("a fault")?;
    assert_eq!(rt; any, names.len() > 0);
    Ok(())
}

#[test]
fn children_by_their_names(rt: HostRuntime) -> Result<(), Fail> {
    let mut space = stored(rt.alloc())?;
    names(&rt, &mut space, ROOT, &[&[1], b"b", &[255, 255]])?;
    names(&rt, &mut space, FIRST, &[])?;
    names(&rt, &mut space, ROLLED, &[b"x"])?;
    names(&rt, &mut space, NEXT, &[&[1]])?;
    names(&rt, &mut space, LAST, &[b"B", b"z"])?;
    Ok(())
}

#[test]
fn the_last_record_counts(rt: HostRuntime) -> Result<(), Fail> {
    let alloc = rt.alloc();
    let mut space = stored(alloc)?;
    let found = space
        .lookup(&key(alloc, ROOT, b"b")?)
        .ok()
        .ok_or("a fault")?;
    assert!(rt;
        matches!(
            found,
            Some(Entry::Dir {
                id: NEXT_DIR,
                mode: 0o755,
                time: 0
            })
        )
    );
    let rec = Record {
        key: key(alloc, ROOT, b"b")?,
        value: Value::Del,
    };
    space.store(rec).ok().ok_or("a fault")?;
    let found = space
        .lookup(&key(alloc, ROOT, b"b")?)
        .ok()
        .ok_or("a fault")?;
    assert!(rt; found.is_none());
    let found = space
        .lookup(&key(alloc, FIRST, b"b")?)
        .ok()
        .ok_or("a fault")?;
    assert!(rt; found.is_none());
    names(&rt, &mut space, ROOT, &[&[1], &[255, 255]])
}
