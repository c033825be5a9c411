ghost use Rattle.std.specs.Prelude.{IfOk};
ghost use Rattle.dfs_record.specs.Record.{IsRecord};

use dfs_buffer::*;
use dfs_record::{DirId, Entry, Head, Key, KeyRef, Name, Record, Records, Value};
use std::alloc::Global;
use std::test::*;

const COUNT: u32 = 200;

fn key(parent: u32) -> KeyRef<'static> {
    KeyRef {
        parent: DirId {
            job: parent,
            counter: 1,
        },
        name: b"n",
    }
}

/// The record of a name in the directory of this number: its deletion, or a directory of that time.
fn record(alloc: Global, parent: u32, time: Option<u64>) -> Result<Record, Fail>
    ensures { IfOk result IsRecord }
{
    let value = match time {
        None => Value::Del,
        Some(time) => Value::Put(Entry::Dir {
            id: DirId { job: 1, counter: 1 },
            mode: 0o755,
            time,
        }),
    };
    Ok(Record {
        key: Key {
            parent: DirId {
                job: parent,
                counter: 1,
            },
            name: Name::new(alloc, b"n")?,
        },
        value,
    })
}

fn time_of(value: &Value) -> Option<u64> {
    match value {
        Value::Put(Entry::Dir { time, .. } | Entry::File { time, .. }) => Some(*time),
        Value::Del => None,
    }
}

/// The numbers of the directories of what a source has, to its end.
fn parents<C: Records + Drop>(alloc: Global, mut source: C) -> Result<Vec<u32>, Fail> {
    let mut parents = Vec::new(alloc);
    for _ in 0..1000 {
        match source.head() {
            Head::Item(rec) => parents.push(rec.key.parent.job)?,
            Head::Hungry | Head::End => break,
        }
        source.advance();
    }
    Ok(parents)
}

#[test]
fn each_key_once_with_its_last_value(rt: HostRuntime) -> Result<(), Fail> {
    let alloc = rt.alloc();
    let mut buffer = Buffer::new(alloc);
    for step in 0..COUNT {
        buffer.put(record(alloc, step * 71 % COUNT, None)?)?;
    }
    buffer.put(record(alloc, 3, Some(7))?)?;
    buffer.put(record(alloc, 5, Some(8))?)?;
    buffer.put(record(alloc, 5, None)?)?;
    assert_eq!(rt; buffer.made(), COUNT + 3);
    let expected = (0..COUNT).collect::<Vec<u32>>(alloc)?;
    assert_eq!(rt;
        parents(alloc, buffer.records())?.as_slice(),
        expected.as_slice()
    );
    assert_eq!(rt; buffer.find(key(3)).map(time_of), Some(Some(7)));
    assert_eq!(rt; buffer.find(key(5)).map(time_of), Some(None));
    assert!(rt; buffer.find(key(COUNT)).is_none());
    buffer.clear();
    assert_eq!(rt; buffer.made(), 0);
    assert!(rt; buffer.find(key(3)).is_none());
    assert!(rt; parents(alloc, buffer.records())?.is_empty());
    Ok(())
}

/// Directories with the even numbers from 2 on.
#[test]
fn from_the_key_on(rt: HostRuntime) -> Result<(), Fail> {
    let alloc = rt.alloc();
    let rows: [(u16, u32, u16); 10] = [
        (200, 0, 0),
        (200, 2, 0),
        (200, 3, 1),
        (200, 200, 99),
        (200, 201, 100),
        (200, 400, 199),
        (200, 401, 200),
        (1, 2, 0),
        (1, 3, 1),
        (0, 2, 0),
    ];
    for (count, low, first) in rows {
        let mut buffer = Buffer::new(alloc);
        for step in 0..count {
            let number = u32::from(step) * 71 % u32::from(count);
            buffer.put(record(alloc, number * 2 + 2, None)?)?;
        }
        let mut expected = Vec::new(alloc);
        for number in first..count {
            expected.push(u32::from(number) * 2 + 2)?;
        }
        let key = record(alloc, low, None)?.key;
        let found = parents(alloc, buffer.records_from(&key))?;
        assert_eq!(rt;
            found.as_slice(),
            expected.as_slice(),
            "{count} records, from {low}"
        );
    }
    Ok(())
}
