ghost use Rattle.std.specs.Prelude.{◌≤◌, IfOk, OnOk};
ghost use Rattle.dfs_record.specs.Record.{IsKey, IsRecord};
ghost use Rattle.dfs_space.specs.Space.{IsReady};

use dfs_buffer::Buffer;
use dfs_log::LogWriter;
use dfs_mem::MemHost;
use dfs_record::{DirId, Entry, Key, Name, Record, Value};
use dfs_space::{PlainSpace, Space};
use dfs_view::*;
use std::alloc::Global;
use std::process::Abort;
use std::test::*;

const FIRST: DirId = DirId { job: 1, counter: 1 };

// Names of one byte in the root, in the order in which they are stored, each with a time, which is 0 for a deletion.
const STORED: [(u8, u64); 9] = [
    (b'b', 1),
    (b'a', 2),
    (b'c', 3),
    (b'a', 0),
    (b'd', 4),
    (b'b', 5),
    (b'c', 0),
    (b'a', 6),
    (b'e', 0),
];

fn key(alloc: Global, name: u8) -> Result<Key, Fail>
    ensures { IfOk result IsKey }
{
    Ok(Key {
        parent: DirId::ROOT,
        name: Name::new(alloc, &[name])?,
    })
}

fn record(alloc: Global, name: u8, time: u64) -> Result<Record, Fail>
    ensures { IfOk result IsRecord }
{
    let value = match time {
        0 => Value::Del,
        _ => Value::Put(Entry::Dir {
            id: FIRST,
            mode: 0o755,
            time,
        }),
    };
    Ok(Record {
        key: key(alloc, name)?,
        value,
    })
}

fn store_all<S: Space>(alloc: Global, space: &mut S) -> Result<(), Fail>
    requires { IsReady (S.state space.old) }
    ensures { OnOk result (IsReady (S.state space.new)) }
{
    for (name, time) in STORED {
        let rec = record(alloc, name, time)?;
        let Ok(()) = space.store(rec) else {
            return Err("a fault".into());
        };
    }
    Ok(())
}

fn time_of(entry: &Entry) -> u64 {
    match entry {
        Entry::Dir { time, .. } | Entry::File { time, .. } => *time,
    }
}

// The names in a directory and their times.
fn listed<S: Space>(alloc: Global, space: &mut S, dir: DirId) -> Result<Vec<(u8, u64)>, Fail>
    requires { IsReady (S.state space.old) }
    ensures { OnOk result (IsReady (S.state space.new)) }
{
    let Ok(listing) = space.list(dir) else {
        return Err("a fault".into());
    };
    let mut shown = Vec::new(alloc);
    for index in 0..listing.len() {
        let (name, entry) = listing.get(index);
        shown.push((name.bytes().first().copied().unwrap_or(0), time_of(entry)))?;
    }
    Ok(shown)
}

// The time at a name, where it has an entry.
fn looked_up<S: Space>(alloc: Global, space: &mut S, name: u8) -> Result<Option<u64>, Fail>
    requires { IsReady (S.state space.old) }
    ensures { OnOk result (IsReady (S.state space.new)) }
{
    let key = key(alloc, name)?;
    let Ok(found) = space.lookup(&key) else {
        return Err("a fault".into());
    };
    match found {
        Some(entry) => Ok(Some(time_of(&entry))),
        None => Ok(None),
    }
}

fn has_child<S: Space>(space: &mut S, dir: DirId) -> Result<bool, Fail>
    requires { IsReady (S.state space.old) }
    ensures { OnOk result (IsReady (S.state space.new)) }
{
    match space.any_child(dir) {
        Ok(has) => Ok(has),
        Err(_) => Err("a fault".into()),
    }
}

// What the space answers once all are stored.
fn answers<S: Space>(rt: &impl Abort, alloc: Global, space: &mut S) -> Result<(), Fail>
    requires { IsReady (S.state space.old) }
{
    store_all(alloc, space)?;
    let root = listed(alloc, space, DirId::ROOT)?;
    assert_eq!(rt;
        root.as_slice(),
        [(b'a', 6), (b'b', 5), (b'd', 4)].as_slice()
    );
    assert!(rt; listed(alloc, space, FIRST)?.is_empty());
    assert_eq!(rt; looked_up(alloc, space, b'b')?, Some(5));
    assert_eq!(rt; looked_up(alloc, space, b'c')?, None);
    assert_eq!(rt; looked_up(alloc, space, b'f')?, None);
    assert!(rt; has_child(space, DirId::ROOT)?);
    assert!(rt; !has_child(space, FIRST)?);
    Ok(())
}

// How many layers are closed once all are stored, where the open one closes with so many records.
fn closed_with(rt: &impl Abort, alloc: Global, limit: u32) -> Result<usize, Fail>
    requires least { 1 ≤ limit }
    requires most { limit ≤ 65536 }
{
    let mut host = MemHost::new(alloc, Vec::new(alloc), Vec::new(alloc))?;
    let mut layers = Layers {
        log: LogWriter::start(&mut host, 1, 65_536)?,
        buffer: Buffer::new(alloc),
        limit,
        runs: Vec::new(alloc),
        basis: Vec::new(alloc),
    };
    answers(rt, alloc, &mut View::new(alloc, &mut host, &mut layers))?;
    Ok(layers.runs.len())
}

#[test]
fn layers_of_any_size(rt: HostRuntime) -> Result<(), Fail> {
    let alloc = rt.alloc();
    answers(&rt, alloc, &mut PlainSpace::new(alloc))?;
    assert_eq!(rt; closed_with(&rt, alloc, 1)?, 9);
    assert_eq!(rt; closed_with(&rt, alloc, 2)?, 4);
    assert_eq!(rt; closed_with(&rt, alloc, 7)?, 1);
    assert_eq!(rt; closed_with(&rt, alloc, 65_536)?, 0);
    Ok(())
}
