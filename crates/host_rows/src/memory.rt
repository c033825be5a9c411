ghost use Rattle.dfs_host.proofs.Files.{sound_when_settled};
ghost use Rattle.dfs_host.specs.Counts.{RoseBy};
ghost use Rattle.dfs_host.specs.Host.{silent_state};
ghost use Rattle.dfs_host.specs.Disk.{settled_file, written};
ghost use Rattle.dfs_mem.specs.Images.{image_of};
ghost use Rattle.dfs_mem.specs.MemHost.{state_of, calls_of};
ghost use Rattle.std.specs.Prelude.{◌≡◌, ◌≤◌, ◌<◌, ◌+◌, ◌^◌, [], length, IfOk};

use dfs_host::{Failed, Host, Source};
use dfs_mem::{Call, Choice, Fill, Length, MemHost, MemSource};
use std::alloc::Global;
use std::test::Fail;

// A host that tells nothing. It reads zeros, and each second call fails.
#[derive(Drop)]
struct Silent {
    fails: bool,
    disk_faults: u64,
    say_faults: u64,
    reads: u64,
}

fn count_up(counter: &mut u64)
    ensures { RoseBy 1 counter.old counter.new }
{
    *counter = counter.saturating_add(1);
}

impl Silent {
    ghost use Rattle.std.specs.Prelude.{◌≡◌};
    ghost use Rattle.dfs_host.specs.Counts.{HasCause};

    fn answer(&mut self) -> Result<(), Failed>
        ensures disk { HasCause self.old.disk_faults self.new.disk_faults result }
        ensures say { self.new.say_faults ≡ self.old.say_faults }
        ensures reads { self.new.reads ≡ self.old.reads }
    {
        self.fails = !self.fails;
        if self.fails {
            return Ok(());
        }
        count_up(&mut self.disk_faults);
        Err(Failed)
    }
}

impl Host for Silent {
    ghost state = { λ host. silent_state host.disk_faults host.say_faults host.reads };

    fn len(&mut self, _file: u32) -> Result<u64, Failed> {
        self.answer()?;
        Ok(0)
    }

    fn read_at(&mut self, _file: u32, _at: u64, out: &mut [u8]) -> Result<usize, Failed> {
        count_up(&mut self.reads);
        self.answer()?;
        out.fill(0);
        Ok(out.len())
    }

    fn write_at(&mut self, _file: u32, _at: u64, _bytes: &[u8]) -> Result<(), Failed> {
        self.answer()
    }

    fn cut(&mut self, _file: u32, _len: u64) -> Result<(), Failed> {
        self.answer()
    }

    fn sync(&mut self, _file: u32) -> Result<(), Failed> {
        self.answer()
    }

    fn say(&mut self, bytes: &[u8]) -> Result<(), Failed> {
        if bytes.is_empty() {
            count_up(&mut self.say_faults);
            return Err(Failed);
        }
        Ok(())
    }

    ghost sound = { λ host n tells. sound_when_settled [] };
}

// Says what a file begins with, whatever the host tells.
fn say_front<H: Host>(host: &mut H, file: u32) -> Result<usize, Failed> {
    let mut front = [1u8; 4];
    let count = host.read_at(file, 0, &mut front)?;
    host.say(&front[..count])?;
    Ok(count)
}

#[test]
fn a_host_may_tell_nothing(rt: HostRuntime) -> Result<(), Fail> {
    let mut host = Silent {
        fails: false,
        disk_faults: 0,
        say_faults: 0,
        reads: 0,
    };
    assert_eq!(rt; say_front(&mut host, 3), Ok(4));
    assert_eq!(rt; say_front(&mut host, 3), Err(Failed));
    assert_eq!(rt; (host.reads, host.disk_faults), (2, 1));
    Ok(())
}

#[test]
fn a_host_in_memory_starts_with_nothing(rt: HostRuntime) -> Result<(), Fail> {
    let alloc = rt.alloc();
    let mut host = MemHost::new(alloc, Vec::new(alloc), Vec::new(alloc))?;
    assert_eq!(rt; say_front(&mut host, 3), Ok(0));
    assert_eq!(rt; (host.calls(), host.starved()), (2, 0));
    assert_eq!(rt; (host.file(3).len(), host.said().len()), (0, 0));
    Ok(())
}

#[test]
fn it_reads_what_was_given_written_and_cut(rt: HostRuntime) -> Result<(), Fail> {
    let alloc = rt.alloc();
    let mut files = Vec::new(alloc);
    files.push((1, b"log".to_vec(alloc)?))?;
    files.push((0, b"registry".to_vec(alloc)?))?;
    let mut host = MemHost::new(alloc, files, Vec::new(alloc))?;
    host.write_at(7, 0, b"new")?;
    host.write_at(1, 0, b"LOgs")?;
    host.cut(0, 3)?;
    host.sync(1)?;
    host.say(b"ok")?;
    assert_eq!(rt; host.file(0), b"reg".as_slice());
    assert_eq!(rt; host.file(1), b"LOgs".as_slice());
    assert_eq!(rt; host.file(7), b"new".as_slice());
    assert_eq!(rt; say_front(&mut host, 1), Ok(4));
    assert_eq!(rt; host.said(), b"okLOgs".as_slice());
    assert_eq!(rt; host.len(1), Ok(4));
    assert_eq!(rt; (host.calls(), host.starved()), (8, 0));
    Ok(())
}

#[test]
fn listed_calls_fail(rt: HostRuntime) -> Result<(), Fail> {
    let alloc = rt.alloc();
    let mut failing = Vec::new(alloc);
    failing.push((Call::Write, 2))?;
    failing.push((Call::Say, 1))?;
    let mut host = MemHost::new(alloc, Vec::new(alloc), failing)?;
    assert_eq!(rt; host.write_at(1, 0, b"ab"), Ok(()));
    assert_eq!(rt; host.write_at(1, 0, b"cd"), Err(Failed));
    assert_eq!(rt; host.say(b"words"), Err(Failed));
    assert_eq!(rt; host.say(b"!"), Ok(()));
    assert_eq!(rt; host.file(1), b"ab".as_slice());
    assert_eq!(rt; host.said(), b"wo!".as_slice());
    assert_eq!(rt;
        (host.made(Call::Write), host.made(Call::Say), host.calls()),
        (2, 2, 4)
    );
    Ok(())
}

#[test]
fn takes_go_by_their_cuts(rt: HostRuntime) -> Result<(), Fail> {
    let alloc = rt.alloc();
    let mut cuts = Vec::new(alloc);
    cuts.push(1)?;
    cuts.push(2)?;
    let mut failing = Vec::new(alloc);
    failing.push(1)?;
    let mut source = MemSource::new(b"abcdef".to_vec(alloc)?, cuts, failing);
    let mut out = [0u8; 3];
    for want in [Ok(1), Err(Failed), Ok(3), Ok(2), Ok(0)] {
        assert_eq!(rt; source.take(&mut out), want);
    }
    assert_eq!(rt; out.as_slice(), b"efd".as_slice());
    Ok(())
}

// A host whose file 1 held `abcd`, was written past its end from place 2 on, cut to one byte and then synced.
fn written_and_cut(alloc: Global) -> Result<MemHost, Fail> {
    let mut files = Vec::new(alloc);
    files.push((1, b"abcd".to_vec(alloc)?))?;
    let mut host = MemHost::new(alloc, files, Vec::new(alloc))?;
    host.write_at(1, 2, b"XYZ")?;
    host.say(b"hi")?;
    host.cut(1, 1)?;
    host.sync(1)?;
    Ok(host)
}

#[test]
fn an_image_is_what_a_crash_may_leave(rt: HostRuntime) -> Result<(), Fail> {
    let host = written_and_cut(rt.alloc())?;
    let last = host.calls();
    for (moment, length, fill, want) in [
        (0, Length::Greatest, Fill::Byte(63), b"abcd".as_slice()),
        (1, Length::Least, Fill::Settled, b"abcd".as_slice()),
        (1, Length::Least, Fill::Latest, b"abXY".as_slice()),
        (1, Length::Least, Fill::Byte(63), b"ab??".as_slice()),
        (1, Length::Greatest, Fill::Settled, b"abcd\0".as_slice()),
        (2, Length::Greatest, Fill::Latest, b"abXYZ".as_slice()),
        (2, Length::Greatest, Fill::Byte(63), b"ab???".as_slice()),
        (3, Length::Least, Fill::Latest, b"a".as_slice()),
        (3, Length::Greatest, Fill::Latest, b"ab\0\0\0".as_slice()),
        (4, Length::Greatest, Fill::Byte(63), b"a".as_slice()),
    ] {
        let moment = last.min(moment);
        let image = host.image(Choice {
            moment,
            length,
            fill,
        })?;
        assert_eq!(rt; image.file(1), want);
        assert_eq!(rt; image.said().len(), if moment < 2 { 0 } else { 2 });
    }
    Ok(())
}

// What a crash between a write and the sync behind it may have left, asked for after both.
fn image_between(
    host: &mut MemHost,
    file: u32,
    bytes: &[u8],
    choice: Choice,
) -> Result<MemHost, Fail>
    requires rises { calls_of host.old + 2 < 2 ^ 64 }
    requires end { length bytes.now ≤ 2 ^ 63 }
    ensures { IfOk result (λ image. (state_of image).disk.files file ≡ settled_file (image_of choice (written 0 bytes.now ((state_of host.old).disk.files file)))) }
{
    host.write_at(file, 0, bytes)?;
    let moment = host.calls();
    host.sync(file)?;
    let image = host.image(Choice {
        moment,
        length: choice.length,
        fill: choice.fill,
    })?;
    Ok(image)
}

#[test]
fn a_moment_before_a_sync_is_still_told(rt: HostRuntime) -> Result<(), Fail> {
    let alloc = rt.alloc();
    let mut host = MemHost::new(alloc, Vec::new(alloc), Vec::new(alloc))?;
    let image = image_between(
        &mut host,
        2,
        b"new",
        Choice {
            moment: 0,
            length: Length::Greatest,
            fill: Fill::Byte(63),
        },
    )?;
    assert_eq!(rt; image.file(2), b"???".as_slice());
    assert_eq!(rt; host.file(2), b"new".as_slice());
    Ok(())
}
