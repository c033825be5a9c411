use dfs_path::*;
use std::test::*;

#[test]
fn names_below_the_root(rt: HostRuntime) -> Result<(), Fail> {
    let path = Path::read(rt.alloc(), b"/a%2e/%c3%A9")
        .ok()
        .ok_or("a path")?;
    assert_eq!(rt; path.len(), 2);
    assert_eq!(rt; path.get(0).bytes(), b"a.".as_slice());
    assert_eq!(rt; path.get(1).bytes(), [0xc3, 0xa9].as_slice());
    let root = Path::read(rt.alloc(), b"/").ok().ok_or("the root")?;
    assert_eq!(rt; root.len(), 0);
    Ok(())
}

const NO_PATHS: [&[u8]; 12] = [
    b"", b"a", b"//", b"/a/", b"/a//b", b"/.", b"/%2E%2e", b"/%2f", b"/%00", b"/a b", b"/%4",
    b"/%4g",
];

#[test]
fn no_paths(rt: HostRuntime) {
    for word in NO_PATHS {
        assert!(rt;
            matches!(Path::read(rt.alloc(), word), Err(PathFault::Bad)),
            "{word:?}"
        );
    }
}

#[test]
fn limits(rt: HostRuntime) -> Result<(), Fail> {
    let mut word = Vec::new(rt.alloc());
    for _ in 0..64 {
        word.extend_from_slice(b"/%61")?;
    }
    assert!(rt; Path::read(rt.alloc(), &word).is_ok());
    word.extend_from_slice(b"/a")?;
    assert!(rt; matches!(Path::read(rt.alloc(), &word), Err(PathFault::Bad)));
    word.clear();
    for _ in 0..16 {
        word.push(b'/')?;
        word.resize(word.len() + 255, b'a')?;
    }
    assert!(rt; Path::read(rt.alloc(), &word).is_ok());
    word.extend_from_slice(b"/a")?;
    assert!(rt; matches!(Path::read(rt.alloc(), &word), Err(PathFault::Bad)));
    Ok(())
}

#[test]
fn escapes(rt: HostRuntime) -> Result<(), Fail> {
    let mut out = vec![in rt.alloc(); b'>'; 1]?;
    let bytes = [0, 32, 33, 37, 47, 126, 127, 255];
    write_escaped(&bytes, &mut out).ok().ok_or("memory")?;
    assert_eq!(rt; out.as_slice(), b">%00%20!%25/~%7F%FF".as_slice());
    let mut back = Vec::new(rt.alloc());
    read_escaped(&out[1..], &mut back).ok().ok_or("escapes")?;
    assert_eq!(rt; back.as_slice(), bytes.as_slice());
    assert!(rt; matches!(read_escaped(b"a\x7f", &mut back), Err(PathFault::Bad)));
    assert_eq!(rt; back.as_slice(), bytes.as_slice());
    let meant = unescape(rt.alloc(), b"%7e~").ok().ok_or("escapes")?;
    assert_eq!(rt; meant.as_slice(), b"~~".as_slice());
    Ok(())
}

#[test]
fn cut_at_the_first(rt: HostRuntime) {
    let (first, behind) = cut(b"a/b/c", b'/');
    assert_eq!(rt; first, b"a".as_slice());
    assert_eq!(rt; behind.unwrap_or(b"").len(), 3);
    assert!(rt; cut(b"abc", b'/').1.is_none());
}
