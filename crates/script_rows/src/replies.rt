ghost use Rattle.std.specs.Prelude.{IfOk};
ghost use Rattle.dfs_record.specs.Record.{IsEntry};

use dfs_record::{DirId, Entry, Name, Reference, SnapName};
use dfs_reply::*;
use dfs_space::Listing;
use std::alloc::Global;
use std::process::Abort;
use std::test::*;

fn directory() -> Reply {
    Reply::Stat(Entry::Dir {
        id: DirId { job: 1, counter: 1 },
        mode: 0o755,
        time: 10,
    })
}

fn file(alloc: Global, time: u64, size: u64, reference: &[u8]) -> Result<Entry, Fail>
    ensures { IfOk result IsEntry }
{
    Ok(Entry::File {
        mode: 0o644,
        time,
        size,
        reference: Reference::new(alloc, reference)?,
    })
}

fn listing(alloc: Global) -> Result<Reply, Fail> {
    let mut listing = Listing::new(alloc);
    listing.push((Name::new(alloc, b"A")?, file(alloc, 1, 1, b"%")?))?;
    listing.push((Name::new(alloc, &[255])?, file(alloc, 2, 2, b"r")?))?;
    Ok(Reply::Listing(listing))
}

fn snapshots(alloc: Global) -> Result<Reply, Fail> {
    let mut snapshots = SnapList::new(alloc);
    snapshots.push((SnapName::new(alloc, b"s1")?, 1))?;
    snapshots.push((SnapName::new(alloc, b"s2")?, 2))?;
    Ok(Reply::Snapshots(snapshots))
}

fn published(alloc: Global) -> Result<Reply, Fail> {
    Ok(Reply::Published {
        name: SnapName::new(alloc, b"raw")?,
        count: 2003,
    })
}

fn shows(rt: &impl Abort, alloc: Global, reply: Reply, text: &[u8]) -> Result<(), Fail> {
    let mut out = Vec::new(alloc);
    print(&reply, &mut out)?;
    assert_eq!(rt; out.as_slice(), text);
    Ok(())
}

#[test]
fn replies_have_their_texts(rt: HostRuntime) -> Result<(), Fail> {
    let alloc = rt.alloc();
    shows(&rt, alloc, Reply::Nothing, b"")?;
    shows(&rt, alloc, Reply::Job(65), b"ok job 65\n")?;
    shows(&rt, alloc, directory(), b"ok dir 0755 10 1.1\n")?;
    shows(
        &rt,
        alloc,
        Reply::Stat(file(alloc, 5, 7, b"r s")?),
        b"ok file 0644 5 7 r%20s\n",
    )?;
    shows(
        &rt,
        alloc,
        listing(alloc)?,
        b"ok 2\nA file 0644 1 1 %25\n%FF file 0644 2 2 r\n",
    )?;
    shows(&rt, alloc, snapshots(alloc)?, b"ok 2\ns1 1\ns2 2\n")?;
    shows(
        &rt,
        alloc,
        Reply::Stats {
            runs: 5,
            records: 12,
        },
        b"ok runs 5 records 12\n",
    )?;
    shows(
        &rt,
        alloc,
        Reply::Stats {
            runs: 0,
            records: u64::MAX,
        },
        b"ok runs 0 records 18446744073709551615\n",
    )?;
    shows(&rt, alloc, Reply::Merged, b"ok merged\n")?;
    shows(&rt, alloc, published(alloc)?, b"ok published raw 2003\n")?;
    shows(
        &rt,
        alloc,
        Reply::Damaged(SnapName::new(alloc, b"s")?),
        b"error damaged s\n",
    )?;
    shows(
        &rt,
        alloc,
        Reply::Error(Word::NotEmpty),
        b"error notempty\n",
    )
}
