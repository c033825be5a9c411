use dfs_plan::*;
use dfs_record::{DirId, Key, Name};
use std::alloc::Global;
use std::test::*;

// The key with this letter as its name in the root.
fn key(alloc: Global, letter: u8) -> Result<Key, Fail> {
    Ok(Key {
        parent: DirId::ROOT,
        name: Name::new(alloc, &[letter])?,
    })
}

// The letter of an end, and a dot for an open one.
fn letter(end: Option<&Key>) -> u8 {
    match end {
        Some(key) => key.name.bytes().first().copied().unwrap_or(b'?'),
        None => b'.',
    }
}

#[test]
fn ranges(rt: HostRuntime) -> Result<(), Fail> {
    let alloc = rt.alloc();
    // First keys, the number of parts, a part and its two ends.
    let rows: [(&[u8], u16, u16, &[u8; 2]); 26] = [
        (b"", 1, 0, b".."),
        (b"", 2, 1, b".."),
        (b"", 3, 1, b".."),
        (b"", 256, 255, b".."),
        (b"m", 1, 0, b".."),
        (b"m", 2, 0, b".m"),
        (b"m", 2, 1, b"m."),
        (b"m", 3, 1, b"mm"),
        (b"m", 3, 2, b"m."),
        (b"m", 256, 0, b".m"),
        (b"m", 256, 254, b"mm"),
        (b"m", 256, 255, b"m."),
        (b"dbabc", 1, 0, b".."),
        (b"dbabc", 2, 0, b".b"),
        (b"dbabc", 2, 1, b"b."),
        (b"dbabc", 3, 0, b".b"),
        (b"dbabc", 3, 1, b"bc"),
        (b"dbabc", 3, 2, b"c."),
        (b"dbabc", 256, 0, b".a"),
        (b"dbabc", 256, 51, b"ab"),
        (b"dbabc", 256, 102, b"bb"),
        (b"dbabc", 256, 153, b"bc"),
        (b"dbabc", 256, 204, b"cd"),
        (b"dbabc", 256, 255, b"d."),
        // More keys than are sorted without memory.
        (b"zyxwvutsrqponmlkjihgfedcba", 2, 1, b"n."),
        (b"zyxwvutsrqponmlkjihgfedcba", 4, 1, b"gn"),
    ];
    for (letters, parts, part, ends) in rows {
        let mut first_keys = Vec::new(alloc);
        for &letter in letters {
            first_keys.push(key(alloc, letter)?)?;
        }
        assert!(rt; part < parts && parts <= 256);
        let plan = Plan::new(alloc, first_keys, parts)?;
        let (low, high) = plan.range(part);
        assert_eq!(rt; [letter(low), letter(high)], *ends);
    }
    Ok(())
}
