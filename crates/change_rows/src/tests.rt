ghost use Rattle.std.specs.Prelude.{IfOk, IsTrue, option_map};
ghost use Rattle.std.specs.List.{AllByRecursion};
ghost use Rattle.dfs_block.specs.Block.{IsAboveLast};
ghost use Rattle.dfs_record.specs.Lend.{key_of};
ghost use Rattle.dfs_change.specs.Identities.{FitsJob};

use super::*;
use dfs_mem::MemHost;
use dfs_record::{DirId, Entry, Key, Name, Record, Reference};
use std::process::Abort;
use std::rc::Rc;
use std::test::Fail;

// The log of job 1 that made the directory `x`, mode 0755 and time 1, in the root: the header, a block of one record at 12, the
// index of its one fence at 43, and the manifest of one table at 81.
const WORKED: [u8; 97] = *b"DFSLOG01\0\0\0\x01\
    \0\x01\0\0\0\0\0\0\0\0\x01x\x01\0\0\0\x01\0\0\0\x01\x01\xed\0\0\0\0\0\0\0\x01\
    \0\0\0\x01\0\0\0\0\0\0\0\x0c\0\0\0\x1f\0\x01\0\0\0\0\0\0\0\0\x01x\0\0\0\0\0\0\0\0\x01x\
    \0\0\0\x01\0\0\0\0\0\0\0\x2b\0\0\0\x26";

// The place and length of its manifest, and how many records it has.
const WORKED_ENTRY: (u64, u32, u64) = (81, 16, 1);

// The same with a second table, of the directory `y`: its block at 81, its index at 112, and the manifest at 150.
const TWO_TABLES: [u8; 178] = *b"DFSLOG01\0\0\0\x01\
    \0\x01\0\0\0\0\0\0\0\0\x01x\x01\0\0\0\x01\0\0\0\x01\x01\xed\0\0\0\0\0\0\0\x01\
    \0\0\0\x01\0\0\0\0\0\0\0\x0c\0\0\0\x1f\0\x01\0\0\0\0\0\0\0\0\x01x\0\0\0\0\0\0\0\0\x01x\
    \0\x01\0\0\0\0\0\0\0\0\x01y\x01\0\0\0\x01\0\0\0\x02\x01\xc0\0\0\0\0\0\0\0\x01\
    \0\0\0\x01\0\0\0\0\0\0\0\x51\0\0\0\x1f\0\x01\0\0\0\0\0\0\0\0\x01y\0\0\0\0\0\0\0\0\x01y\
    \0\0\0\x02\0\0\0\0\0\0\0\x2b\0\0\0\x26\0\0\0\0\0\0\0\x70\0\0\0\x26";

const TWO_TABLES_ENTRY: (u64, u32, u64) = (150, 28, 2);

fn host_with(alloc: Global, file: &[u8]) -> Result<MemHost, Fail> {
    let files = vec![in alloc; (1u32, file.to_vec(alloc)?)]?;
    Ok(MemHost::new(alloc, files, Vec::new(alloc))?)
}

// The directory `x` of the worked log.
fn directory(alloc: Global) -> Result<Record, Fail>
    ensures { IfOk result (FitsJob 1) }
{
    Ok(Record {
        key: Key {
            parent: DirId::ROOT,
            name: Name::new(alloc, b"x")?,
        },
        value: Value::Put(Entry::Dir {
            id: DirId { job: 1, counter: 1 },
            mode: 0o755,
            time: 1,
        }),
    })
}

fn letter(number: u32) -> u8 {
    b'a' + (number % 26) as u8
}

// A file whose name and reference have 255 bytes, so that its record has 539. Files of rising numbers have rising names.
fn long_file(alloc: Global, number: u32) -> Result<Record, Fail>
    ensures { IfOk result (FitsJob 1) }
{
    let mut text = [b'x'; 255];
    text[0] = letter(number / 17_576);
    text[1] = letter(number / 676);
    text[2] = letter(number / 26);
    text[3] = letter(number);
    let name = Name::new(alloc, &text)?;
    let reference = Reference::new(alloc, &text)?;
    Ok(Record {
        key: Key {
            parent: DirId::ROOT,
            name,
        },
        value: Value::Put(Entry::File {
            mode: 0o644,
            time: 1,
            size: 1,
            reference,
        }),
    })
}

fn long_files(alloc: Global, count: u32) -> Result<Vec<Record>, Fail>
    ensures { IfOk result (λ records. AllByRecursion (FitsJob 1) records.items) }
{
    let mut records = Vec::new(alloc);
    for number in 0..count {
        let rec = long_file(alloc, number)?;
        records.push(rec)?;
    }
    Ok(records)
}

fn is_above(last: Option<KeyRef<'_>>, key: KeyRef<'_>) -> bool
    ensures { IsTrue result → IsAboveLast (option_map key_of last.entry) (key_of key.entry) }
{
    match last {
        Some(last) => last.order(key).is_lt(),
        None => true,
    }
}

// Publishes these records, whose keys rise, in a new log of job 1. Answers the host, and what was sealed.
fn publish(rt: &impl Abort, alloc: Global, records: &[Record]) -> Result<(MemHost, Sealed), Fail>
    requires { AllByRecursion (FitsJob 1) records.now }
{
    let mut host = host_with(alloc, b"")?;
    let mut log = LogWriter::start(&mut host, 1, 1_099_511_627_776)?;
    let mut writer = TableWriter::new(alloc, 2)?;
    let mut last = None;
    for index in 0..records.len() {
        let rec = records[index].lend();
        let above = is_above(last, rec.key);
        assert!(rt; above);
        writer.push(&mut host, &mut log, rec)?;
        last = Some(rec.key);
    }
    let run = writer.finish(&mut host, &mut log)?;
    let sealed = ChangeWriter::finish(alloc, &mut host, &mut log, &run)?;
    Ok((host, sealed))
}

fn listed(alloc: Global, (at, len, count): (u64, u32, u64)) -> Result<Listed, Fail> {
    Ok(Listed {
        name: SnapName::new(alloc, b"s")?,
        job: 1,
        at,
        len,
        count,
    })
}

// How many records the log in these bytes has by an entry of job 1, where it is whole.
fn opened(alloc: Global, file: &[u8], entry: (u64, u32, u64)) -> Result<Option<u64>, Fail> {
    let mut host = host_with(alloc, file)?;
    match Change::open(alloc, &mut host, &listed(alloc, entry)?) {
        Ok(change) => Ok(Some(change.run.count())),
        Err(OpenFault::Malformed) => Ok(None),
        Err(OpenFault::Fault(fault)) => Err(fault.into()),
    }
}

#[test]
fn a_directory_in_97_bytes(rt: HostRuntime) -> Result<(), Fail> {
    let alloc = rt.alloc();
    let records = vec![in alloc; directory(alloc)?]?;
    let (host, sealed) = publish(&rt, alloc, &records)?;
    assert_eq!(rt; host.file(1), WORKED.as_slice());
    assert_eq!(rt; (sealed.at, sealed.len, sealed.count), WORKED_ENTRY);
    Ok(())
}

#[test]
fn no_change_in_16_bytes(rt: HostRuntime) -> Result<(), Fail> {
    let alloc = rt.alloc();
    let (host, sealed) = publish(&rt, alloc, &[])?;
    assert_eq!(rt; host.file(1), b"DFSLOG01\0\0\0\x01\0\0\0\0".as_slice());
    assert_eq!(rt; (sealed.at, sealed.len, sealed.count), (12, 4, 0));
    assert_eq!(rt; opened(alloc, host.file(1), (12, 4, 0))?, Some(0));
    Ok(())
}

// A place of the log of two tables, a byte that stands there then, the entry, and what is broken by it. Each point of a whole log
// comes in its turn.
type Break = (usize, u8, (u64, u32, u64), &'static str);

const BREAKS: [Break; 22] = [
    (0, b'd', TWO_TABLES_ENTRY, "the header"),
    (11, 2, TWO_TABLES_ENTRY, "the header's job"),
    (0, b'D', (11, 167, 2), "a manifest in the header"),
    (0, b'D', (150, 29, 2), "a manifest past the file"),
    (0, b'D', (u64::MAX, 28, 2), "a manifest past 2^64"),
    (153, 1, TWO_TABLES_ENTRY, "the manifest's count"),
    (46, 0, TWO_TABLES_ENTRY, "an index of no fence"),
    (161, 44, TWO_TABLES_ENTRY, "the place of an index"),
    (161, 160, TWO_TABLES_ENTRY, "an index past the manifest"),
    (54, 11, TWO_TABLES_ENTRY, "a block in the header"),
    (54, 13, TWO_TABLES_ENTRY, "the place of a block"),
    (58, 30, TWO_TABLES_ENTRY, "its length"),
    (60, 2, TWO_TABLES_ENTRY, "its count"),
    (70, b'w', TWO_TABLES_ENTRY, "its first key"),
    (149, b'z', TWO_TABLES_ENTRY, "its last key"),
    (13, 2, TWO_TABLES_ENTRY, "the count in a block"),
    (23, b'w', TWO_TABLES_ENTRY, "a key in it"),
    (24, 3, TWO_TABLES_ENTRY, "no kind of value"),
    (161, 112, TWO_TABLES_ENTRY, "tables with one key"),
    (28, 2, TWO_TABLES_ENTRY, "an identity of a later job"),
    (0, b'D', (150, 28, 1), "a record too many"),
    (0, b'D', (150, 28, 3), "a record too few"),
];

#[test]
fn each_point_broken(rt: HostRuntime) -> Result<(), Fail> {
    let alloc = rt.alloc();
    assert_eq!(rt; opened(alloc, &TWO_TABLES, TWO_TABLES_ENTRY)?, Some(2));
    for (place, byte, entry, what) in BREAKS {
        let mut file = TWO_TABLES;
        if let Some(at) = file.get_mut(place) {
            *at = byte;
        }
        assert_eq!(rt; opened(alloc, &file, entry)?, None, "{what}");
    }
    Ok(())
}

#[test]
fn the_worked_log_damaged(rt: HostRuntime) -> Result<(), Fail> {
    let alloc = rt.alloc();
    assert_eq!(rt; opened(alloc, &WORKED, WORKED_ENTRY)?, Some(1));
    let mut other = WORKED;
    other[80] = b'y';
    assert_eq!(rt; opened(alloc, &other, WORKED_ENTRY)?, None);
    for len in [0, 11, 96] {
        assert_eq!(rt; opened(alloc, &WORKED[..len], WORKED_ENTRY)?, None);
    }
    Ok(())
}

#[test]
fn bytes_that_do_not_matter(rt: HostRuntime) -> Result<(), Fail> {
    let alloc = rt.alloc();
    // Behind the manifest stand others: of no table, and of the second table alone.
    let mut longer = TWO_TABLES.to_vec(alloc)?;
    longer.extend_from_slice(&[0, 0, 0, 0, 0, 0, 0, 1])?;
    longer.extend_from_slice(&TWO_TABLES[166..])?;
    for (entry, count) in [(TWO_TABLES_ENTRY, 2), ((178, 4, 0), 0), ((182, 16, 1), 1)] {
        assert_eq!(rt; opened(alloc, &longer, entry)?, Some(count));
    }
    Ok(())
}

// The mode of the directory that the log of two tables has under this name in the root.
fn mode_of(alloc: Global, name: &[u8]) -> Result<Option<u16>, Fail> {
    let mut host = host_with(alloc, &TWO_TABLES)?;
    let key = KeyRef {
        parent: DirId::ROOT,
        name,
    };
    match open_and_find(alloc, &mut host, &listed(alloc, TWO_TABLES_ENTRY)?, key) {
        Ok(Some(Value::Put(Entry::Dir { mode, .. }))) => Ok(Some(mode)),
        Ok(_) => Ok(None),
        Err(_) => Err("not opened".into()),
    }
}

#[test]
fn looked_up(rt: HostRuntime) -> Result<(), Fail> {
    let alloc = rt.alloc();
    let names = [
        (b"w".as_slice(), None),
        (b"x", Some(0o755)),
        (b"xx", None),
        (b"y", Some(0o700)),
        (b"z", None),
    ];
    for (name, mode) in names {
        assert_eq!(rt; mode_of(alloc, name)?, mode);
    }
    Ok(())
}

#[test]
fn published_and_found(rt: HostRuntime) -> Result<(), Fail> {
    let alloc = rt.alloc();
    let mut host = host_with(alloc, b"")?;
    let mut log = LogWriter::start(&mut host, 1, 4096)?;
    let rec = directory(alloc)?;
    let name = SnapName::new(alloc, b"s")?;
    let found = publish_and_find(alloc, &mut host, &mut log, name, rec.lend(), rec.key.lend());
    assert_eq!(rt; found, Ok(Some(directory(alloc)?.value)));
    Ok(())
}

// Seven records of 539 bytes fill a block: with an eighth it would pass 4,096 bytes.
#[test]
fn five_thousand_blocks_in_two_tables(rt: HostRuntime) -> Result<(), Fail> {
    let alloc = rt.alloc();
    let records = long_files(alloc, 35_000)?;
    let (host, sealed) = publish(&rt, alloc, &records)?;
    // The header, blocks of 3,775 bytes, two indexes with fences of 542 bytes, and a manifest of two tables.
    let wanted = (12 + 5_000 * 3_775 + 2 * 4 + 5_000 * 542, 28, 35_000);
    assert_eq!(rt; (sealed.at, sealed.len, sealed.count), wanted);
    assert_eq!(rt; opened(alloc, host.file(1), wanted)?, Some(35_000));
    Ok(())
}
