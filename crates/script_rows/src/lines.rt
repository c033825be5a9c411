use dfs_path::{Op, Scope};
use dfs_script::*;
use std::process::Abort;
use std::test::*;

const SAID: [&[u8]; 19] = [
    b"snapshots",
    b"  snapshots  ",
    b"snapshots\r",
    b"begin w",
    b"begin w-_9 s.1 s.1",
    b"begin aaaaaaaaaaaaaaaaaaaaaaaaaaaaaaaa 0123456789abcdef0123456789abcdef0123456789abcdef0123456789abcdef",
    b"a mkdir / 0 00000000000000000007",
    b"a create /%2e%2E./%c3%A9 7777 18446744073709551615 0 %00",
    b"a unlink /x",
    b"a rmdir /x",
    b"a rename /x /x/y",
    b"a setattr /x 755 1",
    b"a stat /~",
    b"mkdir list /",
    b"begins drop",
    b"a flush",
    b"a stats",
    b"own plan own",
    b"part part 18446744073709551615",
];

// Lines that set a value, with the setting and the value.
const SETTINGS: [(&[u8], Setting, u64); 9] = [
    (b"set buffer 1", Setting::Buffer, 1),
    (b"set buffer 65536", Setting::Buffer, 65536),
    (b" set  cache 1\r", Setting::Cache, 1),
    (b"set cache 00000000000000065536", Setting::Cache, 65536),
    (b"set parts 1", Setting::Parts, 1),
    (b"set parts 0256", Setting::Parts, 256),
    (b"set logbytes 4096", Setting::LogBytes, 4096),
    (
        b"set logbytes 1099511627775",
        Setting::LogBytes,
        1099511627775,
    ),
    (
        b"set logbytes 1099511627776",
        Setting::LogBytes,
        1099511627776,
    ),
];

const SILENT: [&[u8]; 6] = [b"", b"\r", b"   ", b"#", b"# set\tbuffer \xff", b"#\r\r"];

const FAULTS: [&[u8]; 73] = [
    b"\r\r",
    b"snapshots\r\r",
    b"snapshots now",
    b"snap\tshots",
    b" # x",
    b"set",
    b"set buffer",
    b"set 1",
    b"set buffer 1 1",
    b"set foo 1",
    b"set Buffer 1",
    b"set buffer -1",
    b"set buffer x",
    b"set buffer 000000000000000000001",
    b"set buffer 0",
    b"set buffer 65537",
    b"set cache 0",
    b"set cache 65537",
    b"set parts 0",
    b"set parts 257",
    b"set parts 65536",
    b"set logbytes 0",
    b"set logbytes 4095",
    b"set logbytes 1099511627777",
    b"set logbytes 18446744073709551616",
    b"begin",
    b"begin set",
    b"begin snapshots",
    b"begin begin",
    b"begin retire",
    b"begin reclaim",
    b"begin clashes",
    b"begin a.b",
    b"begin a s/t",
    b"begin aaaaaaaaaaaaaaaaaaaaaaaaaaaaaaaaa",
    b"begin a 0123456789abcdef0123456789abcdef0123456789abcdef0123456789abcdef0",
    b"a",
    b"a drop now",
    b"a flush now",
    b"a stats 1",
    b"set flush",
    b"set stats",
    b"flush",
    b"stats",
    b"plan",
    b"a plan",
    b"a plan 4",
    b"a plan Own",
    b"a plan own all",
    b"a plan own 0",
    b"a plan own 257",
    b"a plan all 65537",
    b"a plan all 4 4",
    b"part",
    b"a part",
    b"a part 0 1",
    b"a part 18446744073709551616",
    b"a publish",
    b"a mkdir / 0",
    b"a mkdir / 0 0 0",
    b"a mkdir / 00000 0",
    b"a mkdir / 8 0",
    b"a mkdir / 0 000000000000000000000",
    b"a mkdir / 0 18446744073709551616",
    b"a mkdir / 0 -1",
    b"a create / 0 0 0 ab%2",
    b"a stat x",
    b"a stat //",
    b"a stat /x/",
    b"a stat /.",
    b"a stat /%2e.",
    b"a stat /%2F",
    b"a stat /\x7f",
];

#[test]
fn each_command(rt: HostRuntime) {
    for line in SAID {
        assert!(rt;
            matches!(
                read_line(rt.alloc(), line),
                Ok(
                    Line::Snapshots
                        | Line::Begin { .. }
                        | Line::Space { .. }
                        | Line::Flush { .. }
                        | Line::Plan { .. }
                        | Line::Part { .. }
                        | Line::Stats { .. }
                        | Line::End { .. }
                )
            ),
            "{line:?}"
        );
    }
}

#[test]
fn the_ranges_of_settings(rt: HostRuntime) -> Result<(), Fail> {
    for (line, setting, number) in SETTINGS {
        let Ok(Line::Set { what, value }) = read_line(rt.alloc(), line) else {
            return Err("a setting")?;
        };
        assert_eq!(rt; what, setting, "{line:?}");
        assert_eq!(rt; value, number, "{line:?}");
    }
    Ok(())
}

#[test]
fn comments_and_no_words(rt: HostRuntime) {
    for line in SILENT {
        assert!(rt;
            matches!(read_line(rt.alloc(), line), Ok(Line::Nothing)),
            "{line:?}"
        );
    }
}

#[test]
fn faults_of_syntax(rt: HostRuntime) {
    for line in FAULTS {
        assert!(rt;
            matches!(read_line(rt.alloc(), line), Err(LineFault::Syntax)),
            "{line:?}"
        );
    }
}

fn expect_bytes(rt: &impl Abort, given: &[u8], expected: &[u8]) {
    assert_eq!(rt; given, expected);
}

fn expect_numbers(rt: &impl Abort, given: &[u64], expected: &[u64]) {
    assert_eq!(rt; given, expected);
}

fn expect_created(rt: &impl Abort, op: &Op) -> Result<(), Fail> {
    let Op::Create {
        path,
        mode,
        time,
        size,
        reference,
    } = op
    else {
        return Err("a create")?;
    };
    if path.len() != 2 {
        return Err("two components")?;
    }
    expect_numbers(rt, &[u64::from(*mode), *time, *size], &[420, 7, 8]);
    expect_bytes(rt, path.get(0).bytes(), b"a b");
    expect_bytes(rt, reference.bytes(), b"Ar");
    Ok(())
}

#[test]
fn the_values_of_words(rt: HostRuntime) -> Result<(), Fail> {
    let Ok(Line::Space { job, op }) = read_line(rt.alloc(), b"w create /a%20b/c 0644 7 8 %41r")
    else {
        return Err("an operation")?;
    };
    expect_bytes(&rt, job.bytes(), b"w");
    expect_created(&rt, &op)
}

#[test]
fn the_names_of_snapshots(rt: HostRuntime) -> Result<(), Fail> {
    let line = read_line(rt.alloc(), b"begin w s t");
    let Ok(Line::Begin { names, .. }) = &line else {
        return Err("a begin")?;
    };
    assert_eq!(rt; names.len(), 2);
    assert_eq!(rt; names.get(1).bytes(), b"t".as_slice());
    let line = read_line(rt.alloc(), b"w publish s");
    let Ok(Line::Publish { name, .. }) = &line else {
        return Err("a publish")?;
    };
    assert_eq!(rt; name.bytes(), b"s".as_slice());
    Ok(())
}

#[test]
fn the_most_names(rt: HostRuntime) -> Result<(), Fail> {
    let mut line = Vec::new(rt.alloc());
    line.extend_from_slice(b"begin a")?;
    for _ in 0..64 {
        line.extend_from_slice(b" s")?;
    }
    let begun = read_line(rt.alloc(), &line);
    let Ok(Line::Begin { names, .. }) = &begun else {
        return Err("a begin")?;
    };
    assert_eq!(rt; names.len(), 64);
    line.extend_from_slice(b" s")?;
    assert!(rt; matches!(read_line(rt.alloc(), &line), Err(LineFault::Syntax)));
    Ok(())
}

// Lines of plans, with the scope and the number of parts.
const PLANS: [(&[u8], Scope, Option<u16>); 5] = [
    (b"a plan own", Scope::Own, None),
    (b"a  plan all \r", Scope::All, None),
    (b"a plan own 1", Scope::Own, Some(1)),
    (b"a plan all 00000000000000000256", Scope::All, Some(256)),
    (b"a plan all 0004", Scope::All, Some(4)),
];

#[test]
fn the_parts_of_plans(rt: HostRuntime) -> Result<(), Fail> {
    for (line, asked, number) in PLANS {
        let Ok(Line::Plan { scope, parts, .. }) = read_line(rt.alloc(), line) else {
            return Err("a plan")?;
        };
        assert_eq!(rt; scope, asked, "{line:?}");
        assert_eq!(rt; parts, number, "{line:?}");
    }
    let line = read_line(rt.alloc(), b"a part 0256");
    let Ok(Line::Part { part, .. }) = &line else {
        return Err("a part")?;
    };
    assert_eq!(rt; *part, 256);
    Ok(())
}

#[test]
fn long_lines(rt: HostRuntime) -> Result<(), Fail> {
    let mut line = vec![in rt.alloc(); b'#'; 8192]?;
    assert!(rt; read_line(rt.alloc(), &line).is_ok());
    line.push(b'\r')?;
    assert!(rt; read_line(rt.alloc(), &line).is_ok());
    line.push(b'\r')?;
    assert!(rt; matches!(read_line(rt.alloc(), &line), Err(LineFault::Long)));
    Ok(())
}

#[test]
fn bytes_of_a_line(rt: HostRuntime) -> Result<(), Fail> {
    let mut collector = Collector::new(rt.alloc()).ok().ok_or("memory")?;
    assert!(rt; !collector.push(b'a'));
    assert!(rt; !collector.push(b'\r'));
    assert!(rt; collector.push(b'\n'));
    assert_eq!(rt; collector.line(), b"a\r".as_slice());
    collector.clear();
    assert_eq!(rt; collector.line(), b"".as_slice());
    Ok(())
}
