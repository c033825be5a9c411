ghost use Rattle.std.specs.Prelude.{◌≡◌, ◌≤◌, [], map, IsFalse, IfOk, OnOk};
ghost use Rattle.dfs_host.specs.Host.{Told};
ghost use Rattle.dfs_log.specs.Logs.{LogStands};
ghost use Rattle.dfs_record.specs.Record.{IsRecord};
ghost use Rattle.dfs_table.specs.Counts.{count_of};
ghost use Rattle.dfs_table.specs.Tables.{all_fences};
ghost use Rattle.dfs_table.specs.Writer.{AreIn};
ghost use Rattle.dfs_compact.specs.Parts.{count_all, tables_of};

use dfs_buffer::Buffer;
use dfs_compact::*;
use dfs_host::Host;
use dfs_log::LogWriter;
use dfs_mem::MemHost;
use dfs_record::{DirId, Entry, Head, Key, Name, Record, Records, Reference, Value, ValueRef};
use dfs_table::{Run, RunRecords, write_run};
use std::alloc::Global;
use std::process::Abort;
use std::rc::Rc;
use std::test::*;

// A record of the name with this one letter. It is a deletion where the time is 0, and else so long that a block has
// 14 of them.
fn record(alloc: Global, letter: u8, time: u64) -> Result<Record, Fail>
    ensures { IfOk result IsRecord }
{
    let value = if time == 0 {
        Value::Del
    } else {
        Value::Put(Entry::File {
            mode: 0o644,
            time,
            size: 0,
            reference: Reference::new(alloc, &[b'r'; 255])?,
        })
    };
    Ok(Record {
        key: Key {
            parent: DirId::ROOT,
            name: Name::new(alloc, &[letter])?,
        },
        value,
    })
}

// Writes the records of these letters and times to the log.
fn run_of<H: Host>(
    rt: &impl Abort,
    alloc: Global,
    host: &mut H,
    log: &mut LogWriter,
    rows: &[(u8, u64)],
) -> Result<Rc<Run>, Fail>
    requires live { IsFalse log.old.spent }
    requires stands { Told (H.state host.old) (LogStands (H.state host.old) log.old) }
    ensures live { OnOk result (IsFalse log.new.spent) }
    ensures stands { Told (H.state host.old) (OnOk result (LogStands (H.state host.new) log.new)) }
    ensures tells { OnOk result ((H.state host.new).tells ≡ (H.state host.old).tells) }
    ensures few { IfOk result (λ run. count_of (all_fences run.value.tables) ≤ 65536) }
{
    let mut buffer = Buffer::new(alloc);
    for &(letter, time) in rows {
        buffer.put(record(alloc, letter, time)?)?;
    }
    assert!(rt; buffer.made() <= 65536);
    let Ok(run) = write_run(alloc, host, log, buffer.records()) else {
        return Err("a fault".into());
    };
    Ok(Rc::new(alloc, run)?)
}

// All letters at time 1, and above them every second one at time 2 or deleted.
fn two_sources<H: Host>(
    rt: &impl Abort,
    alloc: Global,
    host: &mut H,
    log: &mut LogWriter,
) -> Result<Vec<Rc<Run>>, Fail>
    requires live { IsFalse log.old.spent }
    requires stands { Told (H.state host.old) (LogStands (H.state host.old) log.old) }
    ensures live { OnOk result (IsFalse log.new.spent) }
    ensures stands { Told (H.state host.old) (OnOk result (LogStands (H.state host.new) log.new)) }
    ensures tells { OnOk result ((H.state host.new).tells ≡ (H.state host.old).tells) }
    ensures few { IfOk result (λ runs. count_all (map (λ r. r.value) runs.items) ≤ 131072) }
{
    let mut all = Vec::new(alloc);
    let mut second = Vec::new(alloc);
    for letter in b'a'..=b'z' {
        all.push((letter, 1))?;
        if letter % 2 == 0 {
            second.push((letter, if letter % 4 == 0 { 2 } else { 0 }))?;
        }
    }
    let older = run_of(rt, alloc, host, log, &all)?;
    let newer = run_of(rt, alloc, host, log, &second)?;
    Ok(vec![in alloc; older, newer]?)
}

// Merges parts up to the last one, each with this answer, and answers the run of all.
fn merged_in<H: Host>(
    alloc: Global,
    host: &mut H,
    log: &mut LogWriter,
    mut compaction: Compaction,
    rows: &[(u64, Parted)],
) -> Result<Run, Fail>
    requires compaction { IsFalse compaction.spent }
    requires file { AreIn log.old.file (tables_of compaction.merged) }
    requires live { IsFalse log.old.spent }
    requires stands { Told (H.state host.old) (LogStands (H.state host.old) log.old) }
{
    for &(part, answer) in rows {
        let Ok(parted) = compaction.part(alloc, host, log, part) else {
            return Err("a fault".into());
        };
        if parted != answer {
            return Err("another answer".into());
        }
        if let Parted::Last = parted {
            return Ok(compaction.take());
        }
    }
    Err("parts are left".into())
}

// The letters of the records of a run, and their times, 0 for a deletion.
fn letters(alloc: Global, run: &Run) -> Result<Vec<(u8, u64)>, Fail> {
    let mut shown = Vec::new(alloc);
    let mut records = RunRecords::new(alloc, run, None, None)?;
    while let Head::Item(rec) = records.head() {
        let time = match rec.value {
            ValueRef::Del => 0,
            ValueRef::Dir { time, .. } | ValueRef::File { time, .. } => time,
        };
        shown.push((rec.key.name.first().copied().unwrap_or(0), time))?;
        records.advance();
    }
    Ok(shown)
}

// What is left of the two sources.
fn expected_rows(alloc: Global) -> Result<Vec<(u8, u64)>, Fail> {
    let mut rows = Vec::new(alloc);
    for letter in b'a'..=b'z' {
        let time = match letter % 4 {
            0 => 2,
            2 => 0,
            _ => 1,
        };
        rows.push((letter, time))?;
    }
    Ok(rows)
}

// The letters of the two sources over a new host, merged so.
fn merge(
    rt: &impl Abort,
    alloc: Global,
    parts: u16,
    rows: &[(u64, Parted)],
) -> Result<Vec<(u8, u64)>, Fail>
    requires some { 1 ≤ parts }
    requires most { parts ≤ 256 }
{
    let mut host = MemHost::new(alloc, Vec::new(alloc), Vec::new(alloc))?;
    let Ok(mut log) = LogWriter::start(&mut host, 1, 1 << 20) else {
        return Err("a fault".into());
    };
    let sources = two_sources(rt, alloc, &mut host, &mut log)?;
    let compaction = Compaction::begin(alloc, sources, parts)?;
    letters(
        alloc,
        &merged_in(alloc, &mut host, &mut log, compaction, rows)?,
    )
}

#[test]
fn the_order_of_parts_does_not_matter(rt: HostRuntime) -> Result<(), Fail> {
    let alloc = rt.alloc();
    let orders: [[u64; 3]; 6] = [
        [0, 1, 2],
        [0, 2, 1],
        [1, 0, 2],
        [1, 2, 0],
        [2, 0, 1],
        [2, 1, 0],
    ];
    let expected = expected_rows(alloc)?;
    for [first, second, third] in orders {
        let rows = [
            (first, Parted::Merged),
            (first, Parted::Done),
            (second, Parted::Merged),
            (3, Parted::Range),
            (third, Parted::Last),
        ];
        let merged = merge(&rt, alloc, 3, &rows)?;
        assert_eq!(rt; merged.as_slice(), expected.as_slice());
    }
    Ok(())
}

#[test]
fn one_part_and_256_parts_give_the_same(rt: HostRuntime) -> Result<(), Fail> {
    let alloc = rt.alloc();
    let expected = expected_rows(alloc)?;
    let one = merge(&rt, alloc, 1, &[(0, Parted::Last)])?;
    assert_eq!(rt; one.as_slice(), expected.as_slice());
    let mut rows = Vec::new(alloc);
    for part in 0..255 {
        rows.push((255 - part, Parted::Merged))?;
    }
    rows.push((0, Parted::Last))?;
    let many = merge(&rt, alloc, 256, &rows)?;
    assert_eq!(rt; many.as_slice(), expected.as_slice());
    Ok(())
}

#[test]
fn without_sources_each_part_is_empty(rt: HostRuntime) -> Result<(), Fail> {
    let alloc = rt.alloc();
    let mut host = MemHost::new(alloc, Vec::new(alloc), Vec::new(alloc))?;
    let Ok(mut log) = LogWriter::start(&mut host, 1, 1 << 20) else {
        return Err("a fault".into());
    };
    let compaction = Compaction::begin(alloc, Vec::new(alloc), 2)?;
    let rows = [(1, Parted::Merged), (0, Parted::Last)];
    let run = merged_in(alloc, &mut host, &mut log, compaction, &rows)?;
    assert!(rt; run.tables.len() == 0);
    assert!(rt; log.len() == 12);
    Ok(())
}
