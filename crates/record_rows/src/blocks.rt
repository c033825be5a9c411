ghost use Rattle.std.specs.Prelude.{◌≡◌, IsTrue, IsFalse, Some, option_copied};
ghost use Rattle.dfs_record.specs.Lend.{record_of};
ghost use Rattle.dfs_record.specs.Record.{IsRecord};
ghost use Rattle.dfs_block.specs.Block.{IsAboveLast, last_key};

use dfs_block::*;
use dfs_record::{DirId, Head, Key, KeyRef, Name, RecordRef, Records, ValueRef, encode};
use std::alloc::Global;
use std::process::Abort;
use std::test::*;

/// The block of a log with one directory: 1.1, of mode 0755 and time 1, at `x` in the root.
const ONE: [u8; 31] = [
    0, 1, 0, 0, 0, 0, 0, 0, 0, 0, 1, b'x', 1, 0, 0, 0, 1, 0, 0, 0, 1, 0x01, 0xed, 0, 0, 0, 0, 0, 0,
    0, 1,
];

/// The deletions of `a` and `b` in the root.
const TWO: [u8; 24] = [
    0, 2, 0, 0, 0, 0, 0, 0, 0, 0, 1, b'a', 0, 0, 0, 0, 0, 0, 0, 0, 0, 1, b'b', 0,
];

fn name(name: &[u8]) -> KeyRef<'_> {
    KeyRef {
        parent: DirId::ROOT,
        name,
    }
}

fn key(alloc: Global, bytes: &[u8]) -> Result<Key, Fail> {
    Ok(Key {
        parent: DirId::ROOT,
        name: Name::new(alloc, bytes)?,
    })
}

fn deletion(key: &Key) -> RecordRef<'_>
    ensures valid { IsRecord (record_of result) }
    ensures key { (record_of result).key ≡ key.now }
{
    RecordRef {
        key: key.lend(),
        value: ValueRef::Del,
    }
}

fn is_above(last: Option<&Key>, key: &Key) -> bool
    ensures { IsTrue result → IsAboveLast (option_copied last.entry) key.now }
{
    match last {
        Some(last) => last.lend().order(key.lend()).is_lt(),
        None => true,
    }
}

// Pushes the deletion of a key above the last one.
fn push(rt: &impl Abort, builder: &mut BlockBuilder, last: Option<&Key>, key: &Key) -> bool
    requires { last_key builder.old ≡ option_copied last }
    ensures pushed { IsTrue result → last_key builder.new ≡ Some key.now }
    ensures not_pushed { IsFalse result → builder.new ≡ builder.old }
{
    let above = is_above(last, key);
    assert!(rt; above);
    builder.push(deletion(key))
}

#[test]
fn written(rt: HostRuntime) -> Result<(), Fail> {
    let alloc = rt.alloc();
    let key = key(alloc, b"x")?;
    let value = ValueRef::Dir {
        id: DirId { job: 1, counter: 1 },
        mode: 0o755,
        time: 1,
    };
    let mut builder = BlockBuilder::new(alloc)?;
    let pushed = builder.push(RecordRef {
        key: key.lend(),
        value,
    });
    assert!(rt; pushed);
    assert_eq!(rt; builder.bytes(), ONE.as_slice());
    assert_eq!(rt; builder.count(), 1);
    builder.clear();
    assert_eq!(rt; builder.bytes(), [0, 0].as_slice());
    Ok(())
}

#[test]
fn full(rt: HostRuntime) -> Result<(), Fail> {
    let alloc = rt.alloc();
    let mut builder = BlockBuilder::new(alloc)?;
    let mut last = None;
    // 19 records of 210 bytes leave 104.
    for letter in b'a'..b't' {
        let next = key(alloc, &[letter; 200])?;
        let pushed = push(&rt, &mut builder, last.as_ref(), &next);
        assert!(rt; pushed);
        last = Some(next);
    }
    let (fits, over) = (key(alloc, &[b't'; 94])?, key(alloc, &[b't'; 95])?);
    let pushed = push(&rt, &mut builder, last.as_ref(), &over);
    assert!(rt; !pushed);
    assert_eq!(rt; builder.count(), 19);
    let mut longer = builder.bytes().to_vec(alloc)?;
    encode(deletion(&over), &mut longer)?;
    if let Some(count) = longer.get_mut(1) {
        *count = 20;
    }
    assert_eq!(rt; longer.len(), 4097);
    assert!(rt; Block::read(&longer).is_none());

    let pushed = push(&rt, &mut builder, last.as_ref(), &fits);
    assert!(rt; pushed);
    assert_eq!(rt; builder.bytes().len(), 4096);
    let block = Block::read(builder.bytes()).ok_or("a block")?;
    assert_eq!(rt; block.count(), 20);
    assert!(rt; block.find(fits.lend()).is_some());
    assert!(rt; block.find(over.lend()).is_none());
    Ok(())
}

#[test]
fn directory(rt: HostRuntime) -> Result<(), Fail> {
    let (block, sought) = Block::find_in(&ONE, name(b"x")).ok_or("a block")?;
    let id = DirId { job: 1, counter: 1 };
    for found in [block.find(name(b"x")), sought] {
        let found = found.ok_or("the directory")?;
        let written =
            matches!(found, ValueRef::Dir { id: found, mode: 0o755, time: 1 } if found == id);
        assert!(rt; written);
    }
    Ok(())
}

#[test]
fn found(rt: HostRuntime) -> Result<(), Fail> {
    let block = Block::read(&TWO).ok_or("a block")?;
    // A name, and whether a record has it.
    let names = [
        (b"A".as_slice(), false),
        (b"a", true),
        (b"aa", false),
        (b"b", true),
        (b"c", false),
    ];
    for (other, has) in names {
        let (again, sought) = Block::find_in(&TWO, name(other)).ok_or("a block")?;
        assert_eq!(rt; again.count(), 2);
        assert_eq!(rt; sought.is_some(), has);
        assert_eq!(rt; block.find(name(other)).is_some(), has);
    }
    assert_eq!(rt; block.first_key().name, b"a".as_slice());
    assert_eq!(rt; block.last_key().name, b"b".as_slice());
    assert_eq!(rt; passed(block.records()), 2);
    Ok(())
}

// How many records there are.
fn passed(mut records: BlockRecords<'_>) -> u64 {
    let mut count = 0u64;
    while let Head::Item(_) = records.head() {
        records.advance();
        count = count.saturating_add(1);
    }
    count
}

#[test]
fn damaged(rt: HostRuntime) {
    // A place, a byte that stands there then, and what it is a part of.
    let places = [
        (0, 1, "the count's high byte"),
        (1, 0, "no record"),
        (1, 1, "a record less"),
        (1, 3, "a record more"),
        (10, 0, "no name"),
        (10, 2, "a longer name"),
        (11, b'b', "equal keys"),
        (11, b'c', "falling keys"),
        (23, 3, "no kind"),
    ];
    for (place, byte, what) in places {
        let mut bytes = TWO;
        if let Some(at) = bytes.get_mut(place) {
            *at = byte;
        }
        assert!(rt; Block::read(&bytes).is_none(), "{what}");
        assert!(rt;
            Block::find_in(&bytes, name(b"a")).is_none(),
            "{what}, though a key is sought"
        );
    }
    assert!(rt; Block::read(&TWO[..23]).is_none(), "one byte short");
    assert!(rt; Block::read(&[0]).is_none(), "no count");
}
