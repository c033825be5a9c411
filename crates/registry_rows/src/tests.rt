ghost use Rattle.std.specs.Prelude.{IfOk};
ghost use Rattle.dfs_host.specs.Disk.{IsSettled};
ghost use Rattle.dfs_mem.specs.MemHost.{state_of};

use super::*;
use dfs_mem::{Call, Choice, Fill, Length, MemHost};
use dfs_record::SnapName;
use dfs_registry::RegFault;
use std::alloc::Global;
use std::test::Fail;

// File 0 after its one publication `s` of job 1, whose manifest has 16 bytes at 81 and one record.
const WORKED: [u8; 39] =
    *b"DFSREG01\x01\0\x1b\x01\x01s\0\0\0\x01\0\0\0\0\0\0\0\x51\0\0\0\x10\0\0\0\0\0\0\0\x01\0";

// What opening these bytes answers, how many publications are listed, and whether the file was left as it was.
#[derive(Clone, Copy, Debug, PartialEq, Eq)]
struct Opened {
    fault: Option<RegFault>,
    count: usize,
    kept: bool,
}

const fn damaged(place: u64) -> Opened {
    Opened {
        fault: Some(RegFault::Damaged(place)),
        count: 0,
        kept: true,
    }
}

fn host_with(alloc: Global, file: &[u8]) -> Result<MemHost, Fail>
    ensures { IfOk result (λ host. IsSettled ((state_of host).disk.files 0)) }
{
    let files = vec![in alloc; (0u32, file.to_vec(alloc)?)]?;
    Ok(MemHost::new(alloc, files, Vec::new(alloc))?)
}

fn open_file(alloc: Global, file: &[u8]) -> Result<Opened, Fail> {
    let mut host = host_with(alloc, file)?;
    let (fault, count) = match Registry::open(alloc, &mut host) {
        Ok(registry) => (None, registry.count()),
        Err(fault) => (Some(fault), 0),
    };
    let kept = host.file(0) == file && host.made(Call::Write) == 0 && host.made(Call::Cut) == 0;
    Ok(Opened { fault, count, kept })
}

#[test]
fn one_publication_byte_for_byte(rt: HostRuntime) -> Result<(), Fail> {
    let alloc = rt.alloc();
    let mut host = host_with(alloc, b"DFSREG01\x01")?;
    let mut registry = Registry::open(alloc, &mut host)?;
    assert_eq!(rt; host.file(0), b"DFSREG01\0".as_slice());
    let job = registry.next_job().ok_or("no job")?;
    assert_eq!(rt; job, 1);
    let listed = Listed {
        name: SnapName::new(alloc, b"s")?,
        job,
        at: 81,
        len: 16,
        count: 1,
    };
    add(&mut host, &mut registry, listed)?;
    assert_eq!(rt; host.file(0), WORKED.as_slice());
    assert_eq!(rt; registry.next_job(), Some(2));
    Ok(())
}

#[test]
fn lists_what_the_file_has(rt: HostRuntime) -> Result<(), Fail> {
    let alloc = rt.alloc();
    let mut host = host_with(alloc, &WORKED)?;
    let registry = Registry::open(alloc, &mut host)?;
    assert_eq!(rt; host.file(0), WORKED.as_slice());
    assert_eq!(rt; registry.count(), 1);
    let s = SnapName::new(alloc, b"s")?;
    let listed = registry.find(&s).ok_or("no s")?;
    assert_eq!(rt; listed.name.bytes(), b"s".as_slice());
    assert_eq!(rt;
        (listed.job, listed.at, listed.len, listed.count),
        (1, 81, 16, 1)
    );
    let t = SnapName::new(alloc, b"t")?;
    assert!(rt; registry.find(&t).is_none());
    Ok(())
}

#[test]
fn short_files(rt: HostRuntime) -> Result<(), Fail> {
    let alloc = rt.alloc();
    for len in 0..10usize {
        let mut host = host_with(alloc, &b"XXXXXXXXXX"[..len])?;
        let registry = Registry::open(alloc, &mut host)?;
        assert_eq!(rt; registry.count(), 0, "at {len}");
        assert_eq!(rt; host.file(0), b"DFSREG01\0".as_slice(), "at {len}");
    }
    let other = Opened {
        fault: Some(RegFault::NotRegistry),
        count: 0,
        kept: true,
    };
    assert_eq!(rt; open_file(alloc, b"XXXXXXXXXX")?, other);
    assert_eq!(rt; open_file(alloc, b"DFSREG01\x01\0")?, damaged(9));
    assert_eq!(rt; open_file(alloc, b"DFSREG01\x07\0")?.fault, None);
    Ok(())
}

// What a crash may leave of file 0 after so many of the host's calls.
fn left(host: &MemHost, moment: u64, length: Length) -> Result<MemHost, Fail> {
    Ok(host.image(Choice {
        moment: moment.min(host.calls()),
        length,
        fill: Fill::Latest,
    })?)
}

// The calls are len, cut, sync, write and sync.
#[test]
fn a_short_file_is_cut_before_it_is_written(rt: HostRuntime) -> Result<(), Fail> {
    let alloc = rt.alloc();
    let mut host = host_with(alloc, b"XXX")?;
    let _registry = Registry::open(alloc, &mut host)?;
    assert_eq!(rt; host.calls(), 5);
    for (moment, least, greatest) in [
        (1, b"XXX".as_slice(), b"XXX".as_slice()),
        (2, b"".as_slice(), b"XXX".as_slice()),
        (3, b"".as_slice(), b"".as_slice()),
        (4, b"".as_slice(), b"DFSREG01\0".as_slice()),
        (5, b"DFSREG01\0".as_slice(), b"DFSREG01\0".as_slice()),
    ] {
        let shortest = left(&host, moment, Length::Least)?;
        assert_eq!(rt; shortest.file(0), least, "after {moment}");
        let longest = left(&host, moment, Length::Greatest)?;
        assert_eq!(rt; longest.file(0), greatest, "after {moment}");
    }
    Ok(())
}

#[test]
fn damage_at_each_field(rt: HostRuntime) -> Result<(), Fail> {
    let alloc = rt.alloc();
    let rows: [(usize, [u8; 4], Opened); 8] = [
        (9, [1, 0x1b, 1, 1], damaged(9)),
        (9, [0, 0x1a, 1, 1], damaged(9)),
        (9, [0, 0x1c, 1, 1], damaged(9)),
        (9, [0, 0x1b, 0, 1], damaged(9)),
        (9, [0, 0x1b, 2, 1], damaged(9)),
        (9, [0, 0x1a, 1, 0], damaged(9)),
        (14, [0, 0, 0, 0], damaged(9)),
        (14, [0xff, 0xff, 0xff, 0xff], damaged(9)),
    ];
    for (place, bytes, want) in rows {
        let mut file = WORKED;
        if place < 36 {
            file[place..place + 4].copy_from_slice(&bytes);
        }
        assert_eq!(rt; open_file(alloc, &file)?, want, "{bytes:?} at {place}");
    }
    let mut file = WORKED;
    file[13] = b'/';
    assert_eq!(rt; open_file(alloc, &file)?, damaged(9));
    for len in 10..38usize {
        assert_eq!(rt; open_file(alloc, &WORKED[..len])?, damaged(9), "at {len}");
    }
    assert_eq!(rt; open_file(alloc, &WORKED[..38])?.count, 1);
    Ok(())
}

// A file whose publications have these names and jobs.
fn file_of(alloc: Global, listed: &[([u8; 3], u32)]) -> Result<Vec<u8>, Fail> {
    let mut file = b"DFSREG01".to_vec(alloc)?;
    for (name, job) in listed {
        file.extend_from_slice(b"\x01\0\x1d\x01\x03")?;
        file.extend_from_slice(name)?;
        file.extend_from_slice(&job.to_be_bytes())?;
        file.extend_from_slice(&[0; 20])?;
    }
    file.extend_from_slice(&[0])?;
    Ok(file)
}

#[test]
fn repeated_names_and_jobs(rt: HostRuntime) -> Result<(), Fail> {
    let alloc = rt.alloc();
    let rows = [
        (
            [(*b"aaa", 1u32), (*b"aab", 2), (*b"aac", 4_294_967_294)],
            None,
        ),
        (
            [(*b"aaa", 1), (*b"aab", 2), (*b"aaa", 3)],
            Some(RegFault::Damaged(73)),
        ),
        (
            [(*b"aaa", 1), (*b"aab", 2), (*b"aac", 2)],
            Some(RegFault::Damaged(73)),
        ),
        (
            [(*b"aaa", 1), (*b"aaa", 1), (*b"aac", 2)],
            Some(RegFault::Damaged(41)),
        ),
    ];
    for (listed, want) in rows {
        let file = file_of(alloc, &listed)?;
        assert_eq!(rt; open_file(alloc, &file)?.fault, want, "{listed:?}");
    }
    Ok(())
}

fn nth(n: u32) -> ([u8; 3], u32) {
    let letter = |part: u32| b'a' + (part % 16) as u8;
    ([letter(n / 256), letter(n / 16), letter(n)], n % 65_536 + 1)
}

#[test]
fn the_greatest_registry(rt: HostRuntime) -> Result<(), Fail> {
    let alloc = rt.alloc();
    let mut listed = Vec::new(alloc);
    for n in 0..4096u32 {
        listed.push(nth(n))?;
    }
    let mut host = host_with(alloc, &file_of(alloc, &listed)?)?;
    let mut registry = Registry::open(alloc, &mut host)?;
    assert_eq!(rt; registry.count(), 4096);
    assert_eq!(rt; registry.next_job(), Some(4097));
    for (name, want) in [(b"acf", PrepFault::Taken), (b"new", PrepFault::Full)] {
        let job = registry.next_job().ok_or("no job")?;
        let listed = Listed {
            name: SnapName::new(alloc, name)?,
            job,
            at: 12,
            len: 4,
            count: 0,
        };
        assert_eq!(rt; registry.prepare(listed).err(), Some(want));
    }
    listed.push((*b"new", 4097))?;
    assert_eq!(rt;
        open_file(alloc, &file_of(alloc, &listed)?)?,
        damaged(8 + 32 * 4096 + 1)
    );
    Ok(())
}
