ghost use Rattle.dfs_record.specs.Record.{IsEntry};

use dfs_path::Path;
use dfs_record::{DirId, Entry, Key, Name, Record, Reference, Value};
use dfs_space::{PlainSpace, Space};
use dfs_walk::*;
use std::alloc::Global;
use std::test::*;

const ROOT: DirId = DirId { job: 0, counter: 0 };

const TIED: DirId = DirId { job: 1, counter: 7 };

fn store(
    alloc: Global,
    space: &mut PlainSpace,
    parent: DirId,
    name: &[u8],
    entry: Entry,
) -> Result<(), Fail>
    requires { IsEntry entry }
{
    let name = Name::new(alloc, name).ok().ok_or("a name")?;
    let rec = Record {
        key: Key { parent, name },
        value: Value::Put(entry),
    };
    Ok(space.store(rec).ok().ok_or("memory")?)
}

// A directory in the root and in itself, with a file in it.
fn shown(alloc: Global) -> Result<PlainSpace, Fail> {
    let mut space = PlainSpace::new(alloc);
    let dir = Entry::Dir {
        id: TIED,
        mode: 0o700,
        time: 5,
    };
    let again = dir.copy(alloc).ok().ok_or("memory")?;
    let file = Entry::File {
        mode: 0o600,
        time: 6,
        size: 7,
        reference: Reference::new(alloc, b"r").ok().ok_or("a reference")?,
    };
    store(alloc, &mut space, ROOT, b"d", dir)?;
    store(alloc, &mut space, TIED, b"d", again)?;
    store(alloc, &mut space, TIED, b"f", file)?;
    Ok(space)
}

#[test]
fn to_the_root(rt: HostRuntime) -> Result<(), Fail> {
    let mut space = PlainSpace::new(rt.alloc());
    let path = Path::read(rt.alloc(), b"/").ok().ok_or("a path")?;
    let walked = walk(rt.alloc(), &mut space, &path).ok().ok_or("the root")?;
    assert!(rt; walked.place.is_none());
    assert_eq!(rt; walked.passed.len(), 0);
    assert!(rt;
        matches!(
            walked.found,
            Some(Entry::Dir {
                id: ROOT,
                mode: 0o755,
                time: 0
            })
        )
    );
    Ok(())
}

#[test]
fn round_a_cycle(rt: HostRuntime) -> Result<(), Fail> {
    let mut space = shown(rt.alloc())?;
    let path = Path::read(rt.alloc(), b"/d/d/d/f").ok().ok_or("a path")?;
    let walked = walk(rt.alloc(), &mut space, &path).ok().ok_or("a place")?;
    let key = walked.place.ok_or("a place")?;
    assert_eq!(rt; key.parent, TIED);
    assert_eq!(rt; key.name.bytes(), b"f".as_slice());
    assert!(rt; matches!(walked.found, Some(Entry::File { size: 7, .. })));
    assert_eq!(rt; walked.passed.len(), 4);
    for (index, dir) in [ROOT, TIED, TIED, TIED].into_iter().enumerate() {
        assert!(rt; index < walked.passed.len());
        assert_eq!(rt; *walked.passed.get(index), dir);
    }
    assert!(rt; walked.passed.contains(TIED));
    Ok(())
}

#[test]
fn no_way(rt: HostRuntime) -> Result<(), Fail> {
    let mut space = shown(rt.alloc())?;
    let path = Path::read(rt.alloc(), b"/d/no/f").ok().ok_or("a path")?;
    assert!(rt; matches!(walk(rt.alloc(), &mut space, &path), Err(WalkFault::NoEnt)));
    let path = Path::read(rt.alloc(), b"/d/f/f").ok().ok_or("a path")?;
    assert!(rt; matches!(walk(rt.alloc(), &mut space, &path), Err(WalkFault::NotDir)));
    let path = Path::read(rt.alloc(), b"/d/no").ok().ok_or("a path")?;
    let walked = walk(rt.alloc(), &mut space, &path).ok().ok_or("a place")?;
    assert!(rt; walked.found.is_none());
    Ok(())
}
