use dfs_gen::*;
use dfs_host::Source;
use std::alloc::Global;
use std::test::*;

const NO_CREATES: &[u8] = b"begin z\nz list /\nz drop\n";

const THREE_CREATES: &[u8] =
    b"begin w\nw mkdir /d0 755 0\nw create /d0/f0 644 0 0 r0\nw create /d0/f1 644 1 1 r1\nw create /d0/f2 644 2 2 r2\nw plan all 4\nw part 3\nw part 1\nw part 0\nw part 2\nw publish g0\nbegin z g0\nz list /d0\nz drop\n";

// What the script of 1,001 creates ends with.
const SECOND_GROUP: &[u8] =
    b"w create /d0/f499 644 999 999 r999\nw plan all 4\nw part 3\nw part 1\nw part 0\nw part 2\nw publish g0\nbegin w g0\nw mkdir /d1 755 1\nw create /d1/f0 644 1000 1000 r1000\nw plan all 4\nw part 3\nw part 1\nw part 0\nw part 2\nw publish g1\nbegin z g1\nz list /d1\nz drop\n";

// What the script of 8,000 creates ends with: its last group has the first one's directory again.
const EIGHTH_GROUP: &[u8] =
    b"w create /d0/f499 644 7999 7999 r7999\nw plan all 4\nw part 3\nw part 1\nw part 0\nw part 2\nw publish g7\nbegin z g7\nz list /d0\nz drop\n";

// All bytes of the script, taken into so many at a time.
fn taken(alloc: Global, creates: u32, room: usize) -> Result<Vec<u8>, Fail> {
    let mut source = GenSource::new(creates);
    let mut out = vec![in alloc; 0u8; room]?;
    let mut bytes = Vec::new(alloc);
    for _ in 0..100_000 {
        let count = source.take(&mut out)?;
        if count == 0 {
            break;
        }
        bytes.extend_from_slice(&out[..count])?;
    }
    Ok(bytes)
}

#[test]
fn a_script_is_the_same_in_any_cut(rt: HostRuntime) -> Result<(), Fail> {
    let alloc = rt.alloc();
    for room in [1, 2, 3, 8, 27, 28, 4096] {
        assert_eq!(rt; taken(alloc, 0, room)?.as_slice(), NO_CREATES, "{room}");
        assert_eq!(rt; taken(alloc, 3, room)?.as_slice(), THREE_CREATES, "{room}");
        assert!(rt; taken(alloc, 1001, room)?.ends_with(SECOND_GROUP), "{room}");
    }
    assert!(rt; taken(alloc, 8000, 4096)?.ends_with(EIGHTH_GROUP));
    Ok(())
}

#[test]
fn a_take_fills_its_room_and_nothing_else(rt: HostRuntime) -> Result<(), Fail> {
    let mut source = GenSource::new(0);
    let mut out = [0u8; 15];
    assert_eq!(rt; source.take(&mut []), Ok(0));
    assert_eq!(rt; source.take(&mut out), Ok(15));
    assert_eq!(rt; out.as_slice(), b"begin z\nz list ".as_slice());
    assert_eq!(rt; source.take(&mut out), Ok(9));
    assert_eq!(rt; out.as_slice(), b"/\nz drop\n list ".as_slice());
    assert_eq!(rt; source.take(&mut out), Ok(0));
    Ok(())
}

// What is said of some replies, each of them given so often.
fn summary(alloc: Global, replies: &[(&[u8], u32)]) -> Result<Vec<u8>, Fail> {
    let mut summary = Summary::new();
    for (reply, times) in replies {
        for _ in 0..*times {
            summary.count(reply);
        }
    }
    let mut out = b"> ".to_vec(alloc)?;
    summary.print(&mut out)?;
    Ok(out)
}

#[test]
fn a_reply_counts_once_and_an_empty_one_does_not(rt: HostRuntime) -> Result<(), Fail> {
    let alloc = rt.alloc();
    let none = [(b"".as_slice(), 3)];
    let no_creates = [
        (b"ok job 1\n".as_slice(), 1),
        (b"ok 0\n".as_slice(), 1),
        (b"ok\n".as_slice(), 1),
    ];
    let three_creates = [
        (b"ok job 1\n".as_slice(), 1),
        (b"ok\n".as_slice(), 8),
        (b"".as_slice(), 1),
        (b"ok merged\n".as_slice(), 1),
        (b"ok published g0 4\n".as_slice(), 1),
        (b"ok job 2\n".as_slice(), 1),
        (
            b"ok 3\nf0 file 0644 0 0 r0\nf1 file 0644 1 1 r1\nf2 file 0644 2 2 r2\n".as_slice(),
            1,
        ),
        (b"ok\n".as_slice(), 1),
    ];
    let cases = [
        (
            none.as_slice(),
            b"> lines 0 ok 0 error 0 bytes 0\n".as_slice(),
        ),
        (&no_creates, b"> lines 3 ok 3 error 0 bytes 17\n"),
        (&three_creates, b"> lines 14 ok 14 error 0 bytes 138\n"),
    ];
    for (replies, said) in cases {
        assert_eq!(rt; summary(alloc, replies)?.as_slice(), said);
    }
    Ok(())
}

// The reply that lists the third group of 2,500 creates.
fn listing(alloc: Global) -> Result<Vec<u8>, Fail> {
    let mut reply = b"ok 500\n".to_vec(alloc)?;
    for name in 0u32..500 {
        let number = 2000 + name;
        let line = format!(in alloc; "f{name} file 0644 {number} {number} r{number}\n")?;
        reply.extend_from_slice(line.as_bytes())?;
    }
    Ok(reply)
}

#[test]
fn refused_lines_count_as_errors(rt: HostRuntime) -> Result<(), Fail> {
    let alloc = rt.alloc();
    let listing = listing(alloc)?;
    // Each group's first 500 names are new, and of the third there are no more.
    let replies = [
        (b"ok job 1\n".as_slice(), 4),
        (b"ok\n".as_slice(), 3 * (1 + 500 + 4) + 1),
        (b"error exists\n".as_slice(), 1000),
        (b"ok merged\n".as_slice(), 3),
        (b"ok published g0 501\n".as_slice(), 1),
        (b"ok published g1 1002\n".as_slice(), 2),
        (listing.as_slice(), 1),
    ];
    assert_eq!(rt;
        summary(alloc, &replies)?.as_slice(),
        b"> lines 2527 ok 1527 error 1000 bytes 33073\n".as_slice()
    );
    Ok(())
}
