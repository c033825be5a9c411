ghost use Rattle.std.specs.Prelude.{IfOk, OnOk};
ghost use Rattle.dfs_path.specs.Op.{IsOp};
ghost use Rattle.dfs_ops.specs.Op.{AreIds};

use dfs_ops::*;
use dfs_path::{Op, Path};
use dfs_record::{DirId, Entry, Key, Name, Record, Reference, Value};
use dfs_space::{PlainSpace, Space};
use std::alloc::Global;
use std::process::Abort;
use std::test::*;

/// An operation by its words, and the answer's word.
struct Case(&'static str, &'static [u8], &'static [u8], &'static str);

fn word(reply: &OpReply) -> &'static str {
    match reply {
        OpReply::Done => "ok",
        OpReply::Entry(Entry::Dir { .. }) => "dir",
        OpReply::Entry(Entry::File { .. }) => "file",
        OpReply::Listing(_) => "list",
        OpReply::Root => "root",
        OpReply::NoEnt => "noent",
        OpReply::NotDir => "notdir",
        OpReply::IsDir => "isdir",
        OpReply::Exists => "exists",
        OpReply::NotEmpty => "notempty",
        OpReply::Inside => "inside",
        OpReply::Full => "full",
    }
}

fn create(alloc: Global, word: &[u8]) -> Result<Op, Fail>
    ensures { IfOk result IsOp }
{
    Ok(Op::Create {
        path: Path::read(alloc, word).ok().ok_or("a path")?,
        mode: 0o644,
        time: 1,
        size: 2,
        reference: Reference::new(alloc, b"r").ok().ok_or("a reference")?,
    })
}

fn operation(alloc: Global, case: &Case) -> Result<Op, Fail>
    ensures { IfOk result IsOp }
{
    let path = Path::read(alloc, case.1).ok().ok_or("a path")?;
    match case.0 {
        "create" => create(alloc, case.1),
        "mkdir" => Ok(Op::Mkdir {
            path,
            mode: 0o755,
            time: 3,
        }),
        "unlink" => Ok(Op::Unlink { path }),
        "rmdir" => Ok(Op::Rmdir { path }),
        "rename" => Ok(Op::Rename {
            from: path,
            to: Path::read(alloc, case.2).ok().ok_or("a path")?,
        }),
        "setattr" => Ok(Op::Setattr {
            path,
            mode: 0o600,
            time: 9,
        }),
        "list" => Ok(Op::List { path }),
        _ => Ok(Op::Stat { path }),
    }
}

fn answers(
    rt: &impl Abort,
    alloc: Global,
    space: &mut PlainSpace,
    ids: &mut Ids,
    cases: &[Case],
) -> Result<(), Fail>
    requires { AreIds ids.old }
    ensures { OnOk result (AreIds ids.new) }
{
    for case in cases {
        let op = operation(alloc, case)?;
        let reply = apply(alloc, space, &op, ids).ok().ok_or("a fault")?;
        assert_eq!(rt;
            word(&reply),
            case.3,
            "{} {:?} {:?}",
            case.0,
            case.1,
            case.2
        );
    }
    Ok(())
}

const TWO_FILES: [Case; 2] = [
    Case("create", b"/f", b"", "ok"),
    Case("create", b"/g", b"", "ok"),
];

const AT_THE_LIMIT: [Case; 5] = [
    Case("rename", b"/f", b"/h", "full"),
    Case("unlink", b"/f", b"", "ok"),
    Case("create", b"/k", b"", "full"),
    Case("unlink", b"/nosuch", b"", "noent"),
    Case("rename", b"/g", b"/g", "ok"),
];

#[test]
fn the_limit_of_records(rt: HostRuntime) -> Result<(), Fail> {
    let alloc = rt.alloc();
    let mut space = PlainSpace::new(alloc);
    let mut few = Ids {
        job: 1,
        counter: 0,
        made: 0,
    };
    answers(&rt, alloc, &mut space, &mut few, &TWO_FILES)?;
    let mut ids = Ids {
        job: 1,
        counter: 0,
        made: 1_048_575,
    };
    answers(&rt, alloc, &mut space, &mut ids, &AT_THE_LIMIT)?;
    assert_eq!(rt; ids.made, 1_048_576);
    Ok(())
}

const IN_ORDER: [Case; 45] = [
    Case("mkdir", b"/d", b"", "ok"),
    Case("create", b"/d/f", b"", "ok"),
    Case("create", b"/f", b"", "ok"),
    Case("mkdir", b"/e", b"", "ok"),
    Case("mkdir", b"/", b"", "root"),
    Case("mkdir", b"/no/x", b"", "noent"),
    Case("mkdir", b"/f/x", b"", "notdir"),
    Case("mkdir", b"/f", b"", "exists"),
    Case("create", b"/", b"", "root"),
    Case("create", b"/no/x", b"", "noent"),
    Case("create", b"/f/x", b"", "notdir"),
    Case("create", b"/d", b"", "exists"),
    Case("unlink", b"/", b"", "root"),
    Case("unlink", b"/f/x", b"", "notdir"),
    Case("unlink", b"/no", b"", "noent"),
    Case("unlink", b"/d", b"", "isdir"),
    Case("rmdir", b"/", b"", "root"),
    Case("rmdir", b"/f/x", b"", "notdir"),
    Case("rmdir", b"/no", b"", "noent"),
    Case("rmdir", b"/f", b"", "notdir"),
    Case("rmdir", b"/d", b"", "notempty"),
    Case("setattr", b"/", b"", "root"),
    Case("setattr", b"/f/x", b"", "notdir"),
    Case("setattr", b"/no", b"", "noent"),
    Case("stat", b"/f/x", b"", "notdir"),
    Case("stat", b"/no/x", b"", "noent"),
    Case("stat", b"/no", b"", "noent"),
    Case("stat", b"/", b"", "dir"),
    Case("list", b"/f/x", b"", "notdir"),
    Case("list", b"/no", b"", "noent"),
    Case("list", b"/f", b"", "notdir"),
    Case("rename", b"/no/x", b"/", "root"),
    Case("rename", b"/", b"/f/x", "root"),
    Case("rename", b"/f/x", b"/no/y", "notdir"),
    Case("rename", b"/no", b"/f/y", "noent"),
    Case("rename", b"/f", b"/no/y", "noent"),
    Case("rename", b"/d", b"/d/f/y", "notdir"),
    Case("rename", b"/d", b"/d", "ok"),
    Case("rename", b"/d", b"/d/f", "inside"),
    Case("rename", b"/f", b"/d", "isdir"),
    Case("rename", b"/e", b"/f", "notdir"),
    Case("rename", b"/e", b"/d", "notempty"),
    Case("rename", b"/d", b"/e", "ok"),
    Case("rename", b"/e/f", b"/f", "ok"),
    Case("rmdir", b"/e", b"", "ok"),
];

#[test]
fn refusals_in_their_order(rt: HostRuntime) -> Result<(), Fail> {
    let alloc = rt.alloc();
    let mut space = PlainSpace::new(alloc);
    let mut ids = Ids {
        job: 3,
        counter: 0,
        made: 0,
    };
    answers(&rt, alloc, &mut space, &mut ids, &IN_ORDER)?;
    assert_eq!(rt;
        ids,
        Ids {
            job: 3,
            counter: 2,
            made: 9
        }
    );
    Ok(())
}

const TIED: [Case; 9] = [
    Case("stat", b"/a/a/a/a/a", b"", "dir"),
    Case("create", b"/a/a/x", b"", "ok"),
    Case("stat", b"/b/x", b"", "file"),
    Case("rename", b"/a", b"/b/y", "inside"),
    Case("rename", b"/a/a", b"/b/a/a", "ok"),
    Case("rmdir", b"/b", b"", "notempty"),
    Case("rename", b"/a/a", b"/c", "ok"),
    Case("stat", b"/a/a", b"", "noent"),
    Case("stat", b"/c/x", b"", "file"),
];

// A directory that stands at two places in the root, and in itself.
fn tie(alloc: Global, space: &mut PlainSpace, parent: DirId, name: &[u8]) -> Result<(), Fail> {
    let id = DirId { job: 1, counter: 1 };
    let name = Name::new(alloc, name).ok().ok_or("a name")?;
    let rec = Record {
        key: Key { parent, name },
        value: Value::Put(Entry::Dir {
            id,
            mode: 0o755,
            time: 1,
        }),
    };
    Ok(space.store(rec).ok().ok_or("memory")?)
}

#[test]
fn aliases_and_cycles(rt: HostRuntime) -> Result<(), Fail> {
    let alloc = rt.alloc();
    let mut space = PlainSpace::new(alloc);
    let root = DirId { job: 0, counter: 0 };
    tie(alloc, &mut space, root, b"a")?;
    tie(alloc, &mut space, root, b"b")?;
    tie(alloc, &mut space, DirId { job: 1, counter: 1 }, b"a")?;
    let mut ids = Ids {
        job: 2,
        counter: 0,
        made: 0,
    };
    answers(&rt, alloc, &mut space, &mut ids, &TIED)
}

const TO_LIST: [Case; 5] = [
    Case("create", b"/f", b"", "ok"),
    Case("create", b"/%ff", b"", "ok"),
    Case("create", b"/A", b"", "ok"),
    Case("setattr", b"/A", b"", "ok"),
    Case("mkdir", b"/d", b"", "ok"),
];

#[test]
fn what_is_shown(rt: HostRuntime) -> Result<(), Fail> {
    let alloc = rt.alloc();
    let mut space = PlainSpace::new(alloc);
    let mut ids = Ids {
        job: 1,
        counter: 0,
        made: 0,
    };
    answers(&rt, alloc, &mut space, &mut ids, &TO_LIST)?;
    let op = operation(alloc, &Case("list", b"/", b"", ""))?;
    let OpReply::Listing(listing) = apply(alloc, &mut space, &op, &mut ids)
        .ok()
        .ok_or("a fault")?
    else {
        return Err(Fail::from("a listing"));
    };
    assert_eq!(rt; listing.len(), 4);
    for (index, name) in [b"A".as_slice(), b"d", b"f", &[0xff]]
        .into_iter()
        .enumerate()
    {
        assert!(rt; index < listing.len());
        assert_eq!(rt; listing.get(index).0.bytes(), name);
    }
    assert!(rt;
        matches!(
        &listing.get(0).1,
        Entry::File { mode: 0o600, time: 9, size: 2, reference } if reference.bytes() == b"r".as_slice()
    )
    );
    assert!(rt;
        matches!(
            &listing.get(1).1,
            Entry::Dir {
                id: DirId { job: 1, counter: 1 },
                mode: 0o755,
                time: 3
            }
        )
    );
    Ok(())
}
