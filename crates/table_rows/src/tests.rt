ghost use Rattle.std.specs.Prelude.{◌≡◌, ◌≤◌, ◌^◌, IfOk, IsFalse, IsTrue, option_copied};
ghost use Rattle.std.specs.List.{AllByRecursion};
ghost use Rattle.std.proofs.Props.{props};
ghost use Rattle.dfs_host.specs.Host.{bytes_of};
ghost use Rattle.dfs_mem.specs.MemHost.{state_of};
ghost use Rattle.dfs_log.specs.Logs.{LogStands};
ghost use Rattle.dfs_record.specs.Record.{IsRecord};
ghost use Rattle.dfs_record.specs.Valid.{IsValue-prop};
ghost use Rattle.dfs_block.specs.Block.{IsAboveLast, last_key};
ghost use Rattle.table_rows.specs.Apart.{AreApart-prop};
ghost use Rattle.dfs_table.specs.Stored.{IsTableOf};
ghost use Rattle.dfs_table.specs.Writer.{AreIn, WriterStands};

use super::*;
use dfs_mem::MemHost;
use dfs_record::{DirId, Entry, Head, Key, Name, Record, Records, Reference, ValueRef};
use dfs_table::{OpenFault, Run, RunRecords, Table};
use std::process::Abort;
use std::test::Fail;

// The log of job 1 with a run of one record: the directory `x`, mode 0755 and time 1, in the root.
const WORKED: [u8; 81] = *b"DFSLOG01\0\0\0\x01\
    \0\x01\0\0\0\0\0\0\0\0\x01x\x01\0\0\0\x01\0\0\0\x01\x01\xed\0\0\0\0\0\0\0\x01\
    \0\0\0\x01\0\0\0\0\0\0\0\x0c\0\0\0\x1f\0\x01\0\0\0\0\0\0\0\0\x01x\0\0\0\0\0\0\0\0\x01x";

fn host_with(alloc: Global, file: &[u8]) -> Result<MemHost, Fail> {
    let files = vec![in alloc; (1u32, file.to_vec(alloc)?)]?;
    Ok(MemHost::new(alloc, files, Vec::new(alloc))?)
}

fn root_key(alloc: Global, name: &[u8]) -> Result<Key, Fail> {
    Ok(Key {
        parent: DirId::ROOT,
        name: Name::new(alloc, name)?,
    })
}

// The directory `x` of the worked log.
fn directory(alloc: Global) -> Result<Record, Fail>
    ensures { IfOk result IsRecord }
{
    Ok(Record {
        key: root_key(alloc, b"x")?,
        value: Value::Put(Entry::Dir {
            id: DirId { job: 1, counter: 1 },
            mode: 0o755,
            time: 1,
        }),
    })
}

// A deletion in the root. It has 10 bytes beside its name.
fn deletion(alloc: Global, name: &[u8]) -> Result<Record, Fail>
    ensures { IfOk result IsRecord }
{
    Ok(Record {
        key: root_key(alloc, name)?,
        value: Value::Del,
    })
}

// The last five digits of a number, behind 250 zeros.
fn padded(number: u32) -> [u8; 255] {
    let digit = |part: u32| b'0' + (part % 10) as u8;
    let mut name = [b'0'; 255];
    name[250] = digit(number / 10_000);
    name[251] = digit(number / 1000);
    name[252] = digit(number / 100);
    name[253] = digit(number / 10);
    name[254] = digit(number);
    name
}

// A file whose record has 539 bytes, so that seven of them and no eighth fill a block, of 3,775 bytes.
fn file(alloc: Global, number: u32) -> Result<Record, Fail>
    ensures { IfOk result IsRecord }
{
    Ok(Record {
        key: root_key(alloc, &padded(number))?,
        value: Value::Put(Entry::File {
            mode: 0o644,
            time: 1,
            size: u64::from(number),
            reference: Reference::new(alloc, &[b'r'; 255])?,
        }),
    })
}

fn is_above(last: Option<&Key>, key: &Key) -> bool
    ensures { IsTrue result → IsAboveLast (option_copied last.entry) key.now }
{
    match last {
        Some(last) => last.lend().order(key.lend()).is_lt(),
        None => true,
    }
}

// A run under way in the log of job 1, and its last key.
#[derive(Drop)]
struct Writing {
    host: MemHost,
    log: LogWriter,
    writer: TableWriter,
    last: Option<Key>,
    ghost live: { IsFalse writer.spent × IsFalse log.spent },
    ghost log_file: { log.file ≡ 1 },
    ghost file: { AreIn 1 writer.closed } by { Prim.hlevel (props, AreApart-prop, IsValue-prop) },
    ghost log_stands: { LogStands (state_of host) log },
    ghost stands: { WriterStands (bytes_of (state_of host) 1) writer } by { Prim.hlevel (props, AreApart-prop, IsValue-prop) },
    ghost last_is: { last_key writer.records ≡ last },
}

// A run that is written, and the host that has it.
#[derive(Drop)]
struct Written {
    host: MemHost,
    run: Run,
    ghost each: { AllByRecursion (IsTableOf (bytes_of (state_of host) 1)) run.tables } by { Prim.hlevel (props, AreApart-prop, IsValue-prop) },
    ghost file: { AreIn 1 run.tables } by { Prim.hlevel (props, AreApart-prop, IsValue-prop) },
}

// What a call answered in place of a run, and the host then.
#[derive(Drop)]
struct Stopped {
    fault: Fault,
    host: MemHost,
}

impl Writing {
    fn start(alloc: Global, limit: u64, tables_left: u32) -> Result<Writing, Fail>
        requires least { 4096 ≤ limit }
        requires greatest { limit ≤ 2 ^ 63 }
    {
        let mut host = host_with(alloc, b"")?;
        let log = LogWriter::start(&mut host, 1, limit)?;
        let Ok(writer) = TableWriter::new(alloc, tables_left) else {
            return Err("no memory".into());
        };
        Ok(Writing {
            host,
            log,
            writer,
            last: None,
        })
    }

    fn push(self, rt: &impl Abort, rec: Record) -> Result<Writing, Stopped>
        requires { IsRecord rec }
    {
        let Writing {
            mut host,
            mut log,
            mut writer,
            last,
        } = self;
        let above = is_above(last.as_ref(), &rec.key);
        assert!(rt; above);
        match writer.push(&mut host, &mut log, rec.lend()) {
            Ok(()) => Ok(Writing {
                host,
                log,
                writer,
                last: Some(rec.key),
            }),
            Err(fault) => Err(Stopped { fault, host }),
        }
    }

    fn finish(self) -> Result<Written, Stopped> {
        let Writing {
            mut host,
            mut log,
            writer,
            ..
        } = self;
        match writer.finish(&mut host, &mut log) {
            Ok(run) => Ok(Written { host, run }),
            Err(fault) => Err(Stopped { fault, host }),
        }
    }
}

impl Written {
    // What the table with this number has for a name in the root.
    fn find(
        &mut self,
        rt: &impl Abort,
        alloc: Global,
        index: usize,
        name: &[u8],
    ) -> Result<Option<Value>, Fault> {
        let inside = index < self.run.tables.len();
        assert!(rt; inside);
        let key = KeyRef {
            parent: DirId::ROOT,
            name,
        };
        self.run.tables.get(index).find(alloc, &mut self.host, key)
    }

    fn table(&self, rt: &impl Abort, index: usize) -> &Table {
        let inside = index < self.run.tables.len();
        assert!(rt; inside);
        self.run.tables.get(index)
    }
}

// Where a table's index lies, and how many blocks it has.
fn place(table: &Table) -> (u32, u64, u32, usize) {
    (
        table.file,
        table.index_at,
        table.index_len,
        table.fences.len(),
    )
}

// The place, the length and the count of a fence.
fn fence(rt: &impl Abort, table: &Table, index: usize) -> (u64, u32, u16) {
    let inside = index < table.fences.len();
    assert!(rt; inside);
    let fence = table.fences.get(index);
    (fence.at, fence.len, fence.count)
}

fn open(
    alloc: Global,
    host: &mut MemHost,
    (at, len, end): (u64, u32, u64),
) -> Result<Table, OpenFault> {
    Table::open(alloc, host, 1, at, len, end)
}

#[test]
fn one_directory_byte_for_byte(rt: HostRuntime) -> Result<(), Fail> {
    let alloc = rt.alloc();
    let writing = Writing::start(alloc, 4096, 1)?;
    let writing = writing.push(&rt, directory(alloc)?).ok().ok_or("refused")?;
    let mut written = writing.finish().ok().ok_or("refused")?;
    assert_eq!(rt; written.host.file(1), WORKED.as_slice());
    assert_eq!(rt; written.run.tables.len(), 1);
    assert_eq!(rt; place(written.table(&rt, 0)), (1, 43, 38, 1));
    assert_eq!(rt; fence(&rt, written.table(&rt, 0), 0), (12, 31, 1));
    let wanted = directory(alloc)?.value;
    assert_eq!(rt; written.find(&rt, alloc, 0, b"x")?, Some(wanted));
    assert_eq!(rt; written.find(&rt, alloc, 0, b"y")?, None);
    Ok(())
}

#[test]
fn two_records(rt: HostRuntime) -> Result<(), Fail> {
    let alloc = rt.alloc();
    for (name, wanted) in [
        (b"w", Some(Value::Del)),
        (b"x", Some(directory(alloc)?.value)),
        (b"y", None),
    ] {
        let mut host = host_with(alloc, b"")?;
        let mut log = LogWriter::start(&mut host, 1, 4096)?;
        let (first, second) = (deletion(alloc, b"w")?, directory(alloc)?);
        let above = is_above(Some(&first.key), &second.key);
        assert!(rt; above);
        let key = root_key(alloc, name)?;
        let found = write_and_find(
            alloc,
            &mut host,
            &mut log,
            first.lend(),
            second.lend(),
            key.lend(),
        )?;
        assert_eq!(rt; found, wanted);
    }
    Ok(())
}

#[test]
fn damage_at_each_field(rt: HostRuntime) -> Result<(), Fail> {
    let alloc = rt.alloc();
    let rows = [
        (13, 2, "the count of the block"),
        (23, b'w', "a key of the block"),
        (24, 0, "the value's kind"),
        (24, 3, "no kind"),
        (28, 2, "an identity of a later job"),
        (46, 2, "the count of the index"),
        (54, 11, "a place in the header"),
        (54, 13, "the place of the block"),
        (58, 30, "its length"),
        (58, 32, "its length"),
        (60, 2, "its count"),
        (70, b'w', "its first key"),
        (80, b'y', "its last key"),
    ];
    for (place, byte, what) in rows {
        let mut file = WORKED.to_vec(alloc)?;
        if let Some(at) = file.get_mut(place) {
            *at = byte;
        }
        let mut host = host_with(alloc, &file)?;
        let fault = open(alloc, &mut host, (43, 38, 81)).err();
        assert_eq!(rt; fault, Some(OpenFault::Malformed), "{what}");
    }
    let mut host = host_with(alloc, &WORKED)?;
    for bounds in [
        (42, 38, 81),
        (43, 37, 81),
        (43, 38, 80),
        (43, 38, 42),
        (11, 38, 81),
        (44, 38, 81),
        (43, 39, 81),
        (43, 39, 82),
        (81, 0, 81),
        (82, 0, 82),
    ] {
        let fault = open(alloc, &mut host, bounds).err();
        assert_eq!(rt; fault, Some(OpenFault::Malformed), "{bounds:?}");
    }
    let table = open(alloc, &mut host, (43, 38, 81))?;
    assert_eq!(rt; place(&table), (1, 43, 38, 1));
    assert_eq!(rt; fence(&rt, &table, 0), (12, 31, 1));
    Ok(())
}

#[test]
fn bytes_behind_the_end_of_the_file(rt: HostRuntime) -> Result<(), Fail> {
    let alloc = rt.alloc();
    // The index at place 12, and behind it the block, whose last byte is 1.
    let mut file = WORKED[..12].to_vec(alloc)?;
    file.extend_from_slice(&WORKED[43..])?;
    file.extend_from_slice(&WORKED[12..43])?;
    if let Some(place) = file.get_mut(23) {
        *place = 50;
    }
    for len in [80, 50, 49, 12] {
        let mut host = host_with(alloc, file.get(..len).ok_or("too long")?)?;
        let fault = open(alloc, &mut host, (12, 38, 81)).err();
        assert_eq!(rt; fault, Some(OpenFault::Malformed), "{len}");
    }
    let mut host = host_with(alloc, &file)?;
    let table = open(alloc, &mut host, (12, 38, 90))?;
    assert_eq!(rt; place(&table), (1, 12, 38, 1));
    assert_eq!(rt; fence(&rt, &table, 0), (50, 31, 1));
    Ok(())
}

// 19 deletions of 210 bytes, which with the block's count leave 104 of 4,096, and one more with a name of this length.
fn twenty(rt: &impl Abort, alloc: Global, len: usize) -> Result<Written, Fail> {
    let mut writing = Writing::start(alloc, 8192, 1)?;
    for letter in b'a'..b't' {
        let rec = deletion(alloc, &[letter; 200])?;
        writing = writing.push(rt, rec).ok().ok_or("refused")?;
    }
    let name = [b't'; 100];
    let name = name.get(..len).ok_or("too long")?;
    let writing = writing
        .push(rt, deletion(alloc, name)?)
        .ok()
        .ok_or("refused")?;
    Ok(writing.finish().ok().ok_or("refused")?)
}

#[test]
fn a_block_of_4096_bytes(rt: HostRuntime) -> Result<(), Fail> {
    let alloc = rt.alloc();
    let written = twenty(&rt, alloc, 94)?;
    // One fence of 14 bytes, a first key of 209 and a last one of 103.
    assert_eq!(rt; place(written.table(&rt, 0)), (1, 4108, 330, 1));
    assert_eq!(rt; fence(&rt, written.table(&rt, 0), 0), (12, 4096, 20));
    let written = twenty(&rt, alloc, 95)?;
    // A second fence, both of whose keys have 104 bytes.
    assert_eq!(rt; place(written.table(&rt, 0)), (1, 4111, 658, 2));
    assert_eq!(rt; fence(&rt, written.table(&rt, 0), 0), (12, 3992, 19));
    assert_eq!(rt; fence(&rt, written.table(&rt, 0), 1), (4004, 107, 1));
    Ok(())
}

// A run under way of so many files.
fn files(
    rt: &impl Abort,
    alloc: Global,
    limit: u64,
    tables_left: u32,
    count: u32,
) -> Result<Writing, Fail>
    requires least { 4096 ≤ limit }
    requires greatest { limit ≤ 2 ^ 63 }
{
    let mut writing = Writing::start(alloc, limit, tables_left)?;
    for number in 0..count {
        let rec = file(alloc, number)?;
        writing = writing.push(rt, rec).ok().ok_or("refused")?;
    }
    Ok(writing)
}

#[test]
fn a_full_log(rt: HostRuntime) -> Result<(), Fail> {
    let alloc = rt.alloc();
    // A second block of 3,775 bytes would pass the limit.
    let writing = files(&rt, alloc, 4096, 1, 14)?;
    let before = writing.host.file(1).to_vec(alloc)?;
    assert_eq!(rt; before.len(), 3787);
    let stopped = writing
        .push(&rt, file(alloc, 14)?)
        .err()
        .ok_or("not refused")?;
    assert_eq!(rt; stopped.fault, Fault::LogFull);
    assert_eq!(rt; stopped.host.file(1), before.as_slice());
    // The index of one block, of 546 bytes, would pass it.
    let stopped = files(&rt, alloc, 4096, 1, 7)?
        .finish()
        .err()
        .ok_or("not refused")?;
    assert_eq!(rt; stopped.fault, Fault::LogFull);
    assert_eq!(rt; stopped.host.file(1), before.as_slice());
    let written = files(&rt, alloc, 4333, 1, 7)?
        .finish()
        .ok()
        .ok_or("refused")?;
    assert_eq!(rt; written.host.file(1).len(), 4333);
    Ok(())
}

#[test]
fn no_table_left(rt: HostRuntime) -> Result<(), Fail> {
    let alloc = rt.alloc();
    let writing = Writing::start(alloc, 4096, 0)?;
    let stopped = writing
        .push(&rt, directory(alloc)?)
        .err()
        .ok_or("not refused")?;
    assert_eq!(rt; stopped.fault, Fault::LogFull);
    assert_eq!(rt; stopped.host.file(1), b"DFSLOG01\0\0\0\x01".as_slice());
    let written = Writing::start(alloc, 4096, 0)?
        .finish()
        .ok()
        .ok_or("refused")?;
    assert_eq!(rt; written.run.tables.len(), 0);
    assert_eq!(rt; written.host.file(1).len(), 12);
    Ok(())
}

// The numbers of the files that a cursor has to its end.
fn numbers(alloc: Global, mut records: RunRecords<'_>) -> Result<Vec<u64>, Fail> {
    let mut numbers = Vec::new(alloc);
    for _ in 0..100 {
        match records.head() {
            Head::Item(rec) => {
                if let ValueRef::File { size, .. } = rec.value {
                    numbers.push(size)?;
                }
            }
            Head::Hungry | Head::End => break,
        }
        records.advance();
    }
    Ok(numbers)
}

fn end(alloc: Global, number: Option<u32>) -> Result<Option<Key>, Fail> {
    match number {
        Some(number) => Ok(Some(root_key(alloc, &padded(number))?)),
        None => Ok(None),
    }
}

#[test]
fn blocks_that_meet_a_range(rt: HostRuntime) -> Result<(), Fail> {
    let alloc = rt.alloc();
    // Three blocks, of the files 0 to 6, 7 to 13 and 14 to 19.
    let written = files(&rt, alloc, 65_536, 1, 20)?
        .finish()
        .ok()
        .ok_or("refused")?;
    // The two ends, the first number that comes, and how many come.
    let rows = [
        (None, None, 0, 20),
        (Some(7), None, 7, 13),
        (Some(6), Some(8), 0, 14),
        (Some(13), Some(14), 7, 7),
        (None, Some(7), 0, 7),
        (Some(8), Some(8), 0, 0),
        (Some(9), Some(8), 0, 0),
        (Some(20), None, 0, 0),
        (None, Some(0), 0, 0),
    ];
    for (low, high, first, count) in rows {
        let (low, high) = (end(alloc, low)?, end(alloc, high)?);
        let records = RunRecords::new(alloc, &written.run, low.as_ref(), high.as_ref())?;
        let numbers = numbers(alloc, records)?;
        assert_eq!(rt;
            (numbers.first().copied().unwrap_or(0), numbers.len()),
            (first, count)
        );
    }
    Ok(())
}
