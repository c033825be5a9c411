ghost use Rattle.std.specs.Prelude.{IfOk, OnOk};
ghost use Rattle.dfs_mem.specs.MemHost.{state_of};
ghost use Rattle.dfs_session.specs.Sound.{IsSound};

use dfs_job::Settings;
use dfs_mem::{Call, MemHost};
use dfs_session::Session;
use std::alloc::Global;
use std::process::Abort;
use std::test::Fail;

fn step(session: &mut Session, host: &mut MemHost, line: &[u8]) -> Result<Vec<u8>, Fail>
    requires { IsSound (state_of host.old) session.old }
    ensures { OnOk result (IsSound (state_of host.new) session.new) }
{
    match session.step(host, line) {
        Ok(reply) => Ok(reply),
        Err(_) => Err("a fault".into()),
    }
}

// Works a line, which has to be answered so.
fn expect_line(
    rt: &impl Abort,
    session: &mut Session,
    host: &mut MemHost,
    line: &[u8],
    said: &[u8],
) -> Result<(), Fail>
    requires { IsSound (state_of host.old) session.old }
    ensures { OnOk result (IsSound (state_of host.new) session.new) }
{
    let reply = step(session, host, line)?;
    assert_eq!(rt; reply.as_slice(), said);
    Ok(())
}

fn expect_lines(
    rt: &impl Abort,
    session: &mut Session,
    host: &mut MemHost,
    lines: &[(&'static [u8], &'static [u8])],
) -> Result<(), Fail>
    requires { IsSound (state_of host.old) session.old }
    ensures { OnOk result (IsSound (state_of host.new) session.new) }
{
    for index in 0..lines.len() {
        let (line, said) = lines[index];
        expect_line(rt, session, host, line, said)?;
    }
    Ok(())
}

// How many reads a line makes, which has to be answered so.
fn reads_of(
    rt: &impl Abort,
    session: &mut Session,
    host: &mut MemHost,
    line: &[u8],
    said: &[u8],
) -> Result<u64, Fail>
    requires { IsSound (state_of host.old) session.old }
    ensures { OnOk result (IsSound (state_of host.new) session.new) }
{
    let before = host.made(Call::Read);
    expect_line(rt, session, host, line, said)?;
    Ok(host.made(Call::Read).saturating_sub(before))
}

fn opened(alloc: Global, host: &mut MemHost) -> Result<Session, Fail>
    ensures { IfOk result (IsSound (state_of host.new)) }
{
    match Session::open(alloc, host, Settings::DEFAULT) {
        Ok(session) => Ok(session),
        Err(_) => Err("no registry".into()),
    }
}

const TWO_SNAPSHOTS: &[(&[u8], &[u8])] = &[
    (b"begin a", b"ok job 1\n"),
    (b"begin b", b"ok job 2\n"),
    (b"a mkdir /d 755 1", b"ok\n"),
    (b"b mkdir /d 700 2", b"ok\n"),
    (b"a create /d/f 644 3 0 r", b"ok\n"),
    (b"a publish s1", b"ok published s1 2\n"),
    (b"b create /d/g 644 4 0 q", b"ok\n"),
    (b"b publish s2", b"ok published s2 2\n"),
    (b"begin c s1 s2", b"ok job 3\n"),
    (b"c stat /d", b"ok dir 0700 2 2.1\n"),
    (b"c list /d", b"ok 1\ng file 0644 4 0 q\n"),
    (b"begin e s2 s1", b"ok job 4\n"),
    (b"e stat /d", b"ok dir 0755 1 1.1\n"),
    (b"e stat /d/g", b"error noent\n"),
    (b"snapshots", b"ok 2\ns1 1\ns2 2\n"),
];

#[test]
fn a_begin_of_names_in_use_reads_nothing(rt: HostRuntime) -> Result<(), Fail> {
    let alloc = rt.alloc();
    let mut host = MemHost::new(alloc, Vec::new(alloc), Vec::new(alloc))?;
    let mut session = opened(alloc, &mut host)?;
    expect_lines(&rt, &mut session, &mut host, TWO_SNAPSHOTS)?;
    let reads = reads_of(
        &rt,
        &mut session,
        &mut host,
        b"begin f s1 s2 s1",
        b"ok job 5\n",
    )?;
    assert_eq!(rt; reads, 0);
    expect_line(
        &rt,
        &mut session,
        &mut host,
        b"f stat /d",
        b"ok dir 0755 1 1.1\n",
    )
}

// What jobs that ended selected is read again, and what another one selected as well is not.
#[test]
fn a_begin_reads_what_no_job_uses(rt: HostRuntime) -> Result<(), Fail> {
    let alloc = rt.alloc();
    let mut host = MemHost::new(alloc, Vec::new(alloc), Vec::new(alloc))?;
    let mut session = opened(alloc, &mut host)?;
    expect_lines(&rt, &mut session, &mut host, TWO_SNAPSHOTS)?;
    expect_lines(
        &rt,
        &mut session,
        &mut host,
        &[
            (b"c drop", b"ok\n"),
            (b"e publish s3", b"ok published s3 0\n"),
        ],
    )?;
    let first = reads_of(&rt, &mut session, &mut host, b"begin f s1", b"ok job 5\n")?;
    assert!(rt; first > 0);
    let more = reads_of(
        &rt,
        &mut session,
        &mut host,
        b"begin g s2 s1",
        b"ok job 6\n",
    )?;
    assert_eq!(rt; more, first);
    expect_lines(&rt, &mut session, &mut host, &[(b"f drop", b"ok\n")])?;
    let none = reads_of(
        &rt,
        &mut session,
        &mut host,
        b"begin h s1 s2",
        b"ok job 7\n",
    )?;
    assert_eq!(rt; none, 0);
    Ok(())
}

// A begin of 64 names, which are these in turn.
fn begin_of(alloc: Global, word: &str, names: &[&'static str]) -> Result<Vec<u8>, Fail> {
    let mut line = format!(in alloc; "begin {word}")?.into_bytes();
    for index in 0..64 {
        if let Some(name) = names.get(index % names.len().max(1)) {
            line.push(b' ')?;
            line.extend_from_slice(name.as_bytes())?;
        }
    }
    Ok(line)
}

const THREE_SNAPSHOTS: &[(&[u8], &[u8])] = &[
    (b"begin a", b"ok job 1\n"),
    (b"a mkdir /x 755 1", b"ok\n"),
    (b"a publish k1", b"ok published k1 1\n"),
    (b"begin a", b"ok job 2\n"),
    (b"a mkdir /x 755 2", b"ok\n"),
    (b"a publish k2", b"ok published k2 1\n"),
    (b"begin a", b"ok job 3\n"),
    (b"a mkdir /x 755 3", b"ok\n"),
    (b"a publish k3", b"ok published k3 1\n"),
];

// A host with three snapshots, of which the log of the second one is damaged.
fn damaged_host(rt: &impl Abort, alloc: Global) -> Result<MemHost, Fail> {
    let mut host = MemHost::new(alloc, Vec::new(alloc), Vec::new(alloc))?;
    let mut session = opened(alloc, &mut host)?;
    expect_lines(rt, &mut session, &mut host, THREE_SNAPSHOTS)?;
    let registry = (0u32, host.file(0).to_vec(alloc)?);
    let one = (1u32, host.file(1).to_vec(alloc)?);
    let two = (2u32, b"no log".to_vec(alloc)?);
    let three = (3u32, host.file(3).to_vec(alloc)?);
    let files = vec![in alloc; registry, one, two, three]?;
    Ok(MemHost::new(alloc, files, Vec::new(alloc))?)
}

// Names, what a begin of them is answered, and what the job then sees.
const ORDERS: [(&str, &[&str], &[u8]); 5] = [
    ("c", &["k3", "k1"], b"ok dir 0755 1 1.1\n"),
    ("d", &["k1", "k3", "k3"], b"ok dir 0755 1 1.1\n"),
    ("e", &["k3", "k3", "k1", "k3"], b"ok dir 0755 3 3.1\n"),
    ("f", &["k1"], b"ok dir 0755 1 1.1\n"),
    ("g", &["k3"], b"ok dir 0755 3 3.1\n"),
];

#[test]
fn orders_and_repeats_of_names_in_use(rt: HostRuntime) -> Result<(), Fail> {
    let alloc = rt.alloc();
    let mut host = damaged_host(&rt, alloc)?;
    let mut session = opened(alloc, &mut host)?;
    let line = begin_of(alloc, "b", &["k1", "k3"])?;
    let first = reads_of(&rt, &mut session, &mut host, &line, b"ok job 4\n")?;
    assert!(rt; first > 0);
    let line = begin_of(alloc, "z", &["k1", "k3", "k1", "k2"])?;
    expect_line(&rt, &mut session, &mut host, &line, b"error damaged k2\n")?;
    for index in 0..5 {
        let (word, names, sees) = ORDERS[index];
        let line = begin_of(alloc, word, names)?;
        let said = format!(in alloc; "ok job {}\n", index + 5)?;
        let reads = reads_of(&rt, &mut session, &mut host, &line, said.as_bytes())?;
        assert_eq!(rt; reads, 0);
        let line = format!(in alloc; "{word} stat /x")?;
        expect_line(&rt, &mut session, &mut host, line.as_bytes(), sees)?;
    }
    Ok(())
}
