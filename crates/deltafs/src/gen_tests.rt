use crate::running::run;
use crate::status::Status;
use dfs_host::Source;
use dfs_mem::{Call, MemHost, MemSource};
use std::alloc::Global;
use std::process::Abort;
use std::test::Fail;

// What the source has left. No run of these tests takes of it.
const LEFT: &[u8] = b"begin a\n";

const NO_CREATES: &[u8] = b"lines 3 ok 3 error 0 bytes 17\n";

// A run over no files.
#[derive(Clone, Copy)]
struct Case {
    words: &'static [&'static str],
    // Which say fails.
    failing: u64,
    status: Status,
    said: &'static [u8],
}

const GENERATED: [Case; 5] = [
    Case {
        words: &["gen", "0"],
        failing: 0,
        status: Status::Done,
        said: NO_CREATES,
    },
    Case {
        words: &["gen", "00000000000000000000"],
        failing: 0,
        status: Status::Done,
        said: NO_CREATES,
    },
    Case {
        words: &["gen", "3"],
        failing: 0,
        status: Status::Done,
        said: b"lines 14 ok 14 error 0 bytes 138\n",
    },
    Case {
        words: &["gen", "2500"],
        failing: 0,
        status: Status::Done,
        said: b"lines 2527 ok 1527 error 1000 bytes 33073\n",
    },
    // Half of the summary is said.
    Case {
        words: &["gen", "0"],
        failing: 1,
        status: Status::OutputFault,
        said: b"lines 3 ok 3 er",
    },
];

const REFUSED: [&[&str]; 11] = [
    &[],
    &["gen"],
    &["gen", ""],
    &["gen", "x"],
    &["gen", "+1"],
    &["gen", "1000001"],
    &["gen", "18446744073709551616"],
    &["gen", "000000000000000000000"],
    &["gen", "0", "0"],
    &["run", "x"],
    &["Gen", "0"],
];

fn words_of(alloc: Global, words: &[&str]) -> Result<Vec<String>, Fail> {
    let mut given = Vec::new(alloc);
    for word in words {
        given.push(String::from_str(alloc, word)?)?;
    }
    Ok(given)
}

fn expect_bytes(rt: &impl Abort, given: &[u8], expected: &[u8]) -> Result<(), Fail> {
    assert_eq!(rt; given, expected);
    Ok(())
}

fn expect(rt: &impl Abort, alloc: Global, case: &Case) -> Result<(), Fail> {
    let words = words_of(alloc, case.words)?;
    let failing = vec![in alloc; (Call::Say, case.failing)]?;
    let mut host = MemHost::new(alloc, Vec::new(alloc), failing)?;
    let mut source = MemSource::new(LEFT.to_vec(alloc)?, Vec::new(alloc), Vec::new(alloc));
    let status = run(alloc, &words, &mut host, &mut source);
    assert_eq!(rt; status, case.status);
    expect_bytes(rt, host.said(), case.said)?;
    let mut left = [0u8; 16];
    let count = source.take(&mut left)?;
    expect_bytes(rt, &left[..count], LEFT)
}

#[test]
fn a_generated_script_is_summed_up(rt: HostRuntime) -> Result<(), Fail> {
    for case in &GENERATED {
        expect(&rt, rt.alloc(), case)?;
    }
    Ok(())
}

#[test]
fn other_words_are_refused(rt: HostRuntime) -> Result<(), Fail> {
    for words in REFUSED {
        let case = Case {
            words,
            failing: 0,
            status: Status::Usage,
            said: b"",
        };
        expect(&rt, rt.alloc(), &case)?;
    }
    Ok(())
}
