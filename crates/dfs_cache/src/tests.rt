ghost use Rattle.dfs_cache.specs.Latest.{IsFound};

use super::*;
use dfs_record::{DirId, Name};
use std::test::*;

#[derive(Clone, Copy)]
enum Call {
    /// A directory of this mode, or nothing, was found at the key.
    Put(Option<u16>),
    /// The mode that is then seen, `Some(None)` where nothing was found, and `None` where no pair has the key.
    Get(Option<Option<u16>>),
    Forget,
}

fn root_key(alloc: Global, name: u8) -> Result<Key, Fail> {
    Ok(Key {
        parent: DirId::ROOT,
        name: Name::new(alloc, &[name])?,
    })
}

fn directory(mode: Option<u16>) -> Option<Entry>
    ensures { IsFound result }
{
    let mode = mode?;
    Some(Entry::Dir {
        id: DirId { job: 1, counter: 1 },
        mode: mode.min(0o7777),
        time: 0,
    })
}

fn mode_of(found: &Option<Entry>) -> Option<u16> {
    match found {
        Some(Entry::Dir { mode, .. } | Entry::File { mode, .. }) => Some(*mode),
        None => None,
    }
}

#[test]
fn the_two_latest_pairs_stay(rt: HostRuntime) -> Result<(), Fail> {
    let alloc = rt.alloc();
    let mut lookups = Lookups::new(alloc, 2)?;
    let calls = [
        (b'a', Call::Get(None)),
        (b'a', Call::Put(Some(0o700))),
        (b'b', Call::Put(None)),
        (b'b', Call::Get(Some(None))),
        // This leaves `b` the last.
        (b'a', Call::Get(Some(Some(0o700)))),
        (b'c', Call::Put(Some(0o755))),
        (b'b', Call::Get(None)),
        (b'c', Call::Get(Some(Some(0o755)))),
        // In place of the older pair, so that `c` stays.
        (b'a', Call::Put(Some(0o711))),
        (b'c', Call::Get(Some(Some(0o755)))),
        (b'a', Call::Get(Some(Some(0o711)))),
        // `c` is the last now, and `a` at the front.
        (b'c', Call::Forget),
        (b'c', Call::Forget),
        (b'c', Call::Get(None)),
        (b'd', Call::Put(None)),
        (b'a', Call::Get(Some(Some(0o711)))),
        (b'd', Call::Get(Some(None))),
    ];
    for (name, call) in calls {
        let key = root_key(alloc, name)?;
        match call {
            Call::Put(mode) => lookups.put(key, directory(mode))?,
            Call::Get(seen) => assert_eq!(rt; lookups.get(&key).map(mode_of), seen),
            Call::Forget => lookups.forget(&key),
        }
    }
    Ok(())
}
