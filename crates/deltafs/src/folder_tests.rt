use crate::running::run;
use crate::status::Status;
use dfs_folder::{FolderHost, StdinSource};
use std::fs;
use std::process::Abort;
use std::test::Fail;

const FOLDER: &str = "deltafs_folder";

// A run of a script over the folder, which says these replies.
fn expect_said(
    rt: &impl Abort,
    runtime: HostRuntime,
    script: &[u8],
    replies: &[u8],
) -> Result<(), Fail> {
    let alloc = runtime.alloc();
    let mut said: Vec<u8> = Vec::new(alloc);
    let mut host = FolderHost::new(alloc, runtime, &mut said, FOLDER)?;
    let mut words = Vec::new(alloc);
    words.push(String::from_str(alloc, "run")?)?;
    let mut source = StdinSource::new(script);
    let status = run(alloc, &words, &mut host, &mut source);
    assert_eq!(rt; status, Status::Done);
    drop(host);
    assert_eq!(rt; said.as_slice(), replies);
    Ok(())
}

#[test]
fn a_folder_keeps_what_was_published(rt: HostRuntime) -> Result<(), Fail> {
    let _ = fs::remove_dir_all(&rt, FOLDER);
    fs::create_dir(&rt, FOLDER)?;
    expect_said(
        &rt,
        rt,
        b"begin a\na mkdir /x 755 1\na publish s\n",
        b"ok job 1\nok\nok published s 1\n",
    )?;
    assert_eq!(rt; fs::metadata(&rt, "deltafs_folder/REGISTRY")?.len(), 39);
    assert_eq!(rt; fs::metadata(&rt, "deltafs_folder/LOG.00000001")?.len(), 97);
    expect_said(&rt, rt, b"snapshots\n", b"ok 1\ns 1\n")?;
    fs::remove_dir_all(&rt, FOLDER)?;
    Ok(())
}
