use dfs_folder::{FolderHost, StdinSource};
use dfs_host::{Failed, Host, Source};
use std::fs;
use std::io::{self, ErrorKind, Read, Write};
use std::process::Abort;
use std::test::Fail;

// An empty folder.
fn begin(rt: &HostRuntime, folder: &str) -> Result<(), Fail> {
    let _ = fs::remove_dir_all(rt, folder);
    fs::create_dir(rt, folder)?;
    Ok(())
}

// A read of four bytes gives these.
fn expect_read(
    rt: &impl Abort,
    host: &mut impl Host,
    (file, at): (u32, u64),
    wanted: &[u8],
) -> Result<(), Fail> {
    let mut out = [0u8; 4];
    let count = host.read_at(file, at, &mut out)?;
    assert_eq!(rt; &out[..count], wanted);
    Ok(())
}

// What is written where, and what a read then gives.
const WRITES: [(u32, u64, &[u8]); 4] = [
    (1, 0, b"abcd"),
    (1, 2, b"XYZ"),
    (3_735_928_559, 0, b"last"),
    (0, 0, b""),
];

const READS: [((u32, u64), &[u8]); 6] = [
    ((1, 0), b"abXY"),
    ((1, 3), b"YZ"),
    ((1, 5), b""),
    ((1, u64::MAX), b""),
    ((2, 0), b""),
    ((3_735_928_559, 0), b"last"),
];

#[test]
fn a_folder_has_the_files_of_a_host(rt: HostRuntime) -> Result<(), Fail> {
    begin(&rt, "folder_of_files")?;
    let mut host = FolderHost::new(rt.alloc(), rt, io::sink(), "folder_of_files")?;
    for (file, at, bytes) in WRITES {
        host.write_at(file, at, bytes)?;
    }
    for (place, wanted) in READS {
        expect_read(&rt, &mut host, place, wanted)?;
    }
    assert_eq!(rt;
        fs::read(&rt, "folder_of_files/LOG.00000001")?.as_slice(),
        b"abXYZ".as_slice()
    );
    assert_eq!(rt;
        fs::read(&rt, "folder_of_files/LOG.deadbeef")?.as_slice(),
        b"last".as_slice()
    );
    assert_eq!(rt;
        fs::read(&rt, "folder_of_files/REGISTRY")?.as_slice(),
        b"".as_slice()
    );
    // No question makes a file.
    assert!(rt; !fs::exists(&rt, "folder_of_files/LOG.00000002")?);
    fs::remove_dir_all(&rt, "folder_of_files")?;
    Ok(())
}

#[test]
fn a_cut_makes_a_file_or_shortens_it(rt: HostRuntime) -> Result<(), Fail> {
    begin(&rt, "folder_of_cuts")?;
    fs::write(&rt, "folder_of_cuts/LOG.0000000a", b"abcd".as_slice())?;
    let mut host = FolderHost::new(rt.alloc(), rt, io::sink(), "folder_of_cuts")?;
    for (file, len) in [(10, 3), (11, 0)] {
        host.cut(file, len)?;
        host.sync(file)?;
        assert_eq!(rt; host.len(file), Ok(len));
    }
    assert_eq!(rt; host.len(12), Ok(0));
    assert_eq!(rt; host.sync(12), Ok(()));
    assert_eq!(rt;
        fs::read(&rt, "folder_of_cuts/LOG.0000000a")?.as_slice(),
        b"abc".as_slice()
    );
    assert!(rt; fs::exists(&rt, "folder_of_cuts/LOG.0000000b")?);
    assert!(rt; !fs::exists(&rt, "folder_of_cuts/LOG.0000000c")?);
    fs::remove_dir_all(&rt, "folder_of_cuts")?;
    Ok(())
}

#[test]
fn what_is_said_is_written_to_the_output(rt: HostRuntime) -> Result<(), Fail> {
    let mut said: Vec<u8> = Vec::new(rt.alloc());
    let mut host = FolderHost::new(rt.alloc(), rt, &mut said, ".")?;
    for piece in [b"ok\n".as_slice(), b"ok job 1\n"] {
        host.say(piece)?;
    }
    drop(host);
    assert_eq!(rt; said.as_slice(), b"ok\nok job 1\n".as_slice());
    Ok(())
}

#[test]
fn more_files_than_are_open_at_once(rt: HostRuntime) -> Result<(), Fail> {
    begin(&rt, "folder_of_many")?;
    let mut host = FolderHost::new(rt.alloc(), rt, io::sink(), "folder_of_many")?;
    for number in 1..=200u8 {
        host.write_at(u32::from(number), 0, &[number, 1])?;
    }
    for number in 1..=200u8 {
        expect_read(&rt, &mut host, (u32::from(number), 0), &[number, 1])?;
    }
    fs::remove_dir_all(&rt, "folder_of_many")?;
    Ok(())
}

// Each call on file 1 of such a folder fails.
fn expect_faults(rt: &impl Abort, runtime: HostRuntime, folder: &str) -> Result<(), Fail> {
    let mut host = FolderHost::new(runtime.alloc(), runtime, io::sink(), folder)?;
    assert_eq!(rt; host.len(1), Err(Failed));
    assert_eq!(rt; host.read_at(1, 0, &mut [0]), Err(Failed));
    assert_eq!(rt; host.write_at(1, 0, b"x"), Err(Failed));
    assert_eq!(rt; host.cut(1, 0), Err(Failed));
    assert_eq!(rt; host.sync(1), Err(Failed));
    assert_eq!(rt; host.say(b"ok\n"), Ok(()));
    Ok(())
}

#[test]
fn a_folder_that_is_none_is_a_fault(rt: HostRuntime) -> Result<(), Fail> {
    begin(&rt, "folder_of_faults")?;
    expect_faults(&rt, rt, "")?;
    expect_faults(&rt, rt, "folder_of_faults/missing")?;
    // A file in the folder's place, and a folder in the file's.
    fs::write(&rt, "folder_of_faults/file", b"x".as_slice())?;
    expect_faults(&rt, rt, "folder_of_faults/file")?;
    fs::create_dir(&rt, "folder_of_faults/LOG.00000001")?;
    expect_faults(&rt, rt, "folder_of_faults")?;
    fs::remove_dir_all(&rt, "folder_of_faults")?;
    Ok(())
}

// Places that no file has.
#[test]
fn a_call_that_the_system_refuses_is_a_fault(rt: HostRuntime) -> Result<(), Fail> {
    begin(&rt, "folder_of_refusals")?;
    let mut host = FolderHost::new(rt.alloc(), rt, io::sink(), "folder_of_refusals")?;
    assert_eq!(rt; host.write_at(1, 0, b"x"), Ok(()));
    assert_eq!(rt; host.write_at(1, (1 << 63) - 1, b"x"), Err(Failed));
    assert_eq!(rt; host.cut(1, u64::MAX), Err(Failed));
    assert_eq!(rt; host.len(1), Ok(1));
    fs::remove_dir_all(&rt, "folder_of_refusals")?;
    Ok(())
}

// A stream that gives `ab`, fails, gives `c` and ends; what is written to it gets lost at the flush.
#[derive(Drop)]
struct Worn {
    calls: u8,
}

impl Read for Worn {
    fn read(&mut self, buf: &mut [u8]) -> io::Result<usize> {
        self.calls = self.calls.saturating_add(1);
        match self.calls {
            1 => (&b"ab"[..]).read(buf),
            2 => Err(ErrorKind::Interrupted.into()),
            3 => (&b"c"[..]).read(buf),
            _ => Ok(0),
        }
    }
}

impl Write for Worn {
    fn write(&mut self, buf: &[u8]) -> io::Result<usize> {
        Ok(buf.len())
    }

    fn flush(&mut self) -> io::Result<()> {
        Err(ErrorKind::BrokenPipe.into())
    }
}

#[test]
fn an_output_that_is_not_flushed_is_a_fault(rt: HostRuntime) -> Result<(), Fail> {
    let mut host = FolderHost::new(rt.alloc(), rt, Worn { calls: 0 }, ".")?;
    assert_eq!(rt; host.say(b"ok\n"), Err(Failed));
    Ok(())
}

#[test]
fn a_source_gives_what_its_reader_has(rt: HostRuntime) -> Result<(), Fail> {
    let mut source = StdinSource::new(Worn { calls: 0 });
    for wanted in [Ok(b"ab".as_slice()), Err(Failed), Ok(b"c"), Ok(b"")] {
        let mut out = [0u8; 4];
        match source.take(&mut out) {
            Ok(count) => assert_eq!(rt; Ok(&out[..count]), wanted),
            Err(fault) => assert_eq!(rt; Err(fault), wanted),
        }
    }
    Ok(())
}
