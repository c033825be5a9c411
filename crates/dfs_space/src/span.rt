ghost use Rattle.std.specs.Prelude.{◌≡◌, IfOk};
ghost use Rattle.dfs_space.specs.Span.{first_key, next_dir};

use dfs_record::{DirId, Key, Name, NoMemory};
use std::alloc::Global;

/// The least key that a directory may have, since no name has a byte 0.
pub fn first_key(alloc: Global, dir: DirId) -> Result<Key, NoMemory>
    ensures { IfOk result (λ key. key ≡ first_key dir) }
{
    match Name::new(alloc, &[1]) {
        Ok(name) => Ok(Key { parent: dir, name }),
        Err(_) => Err(NoMemory),
    }
}

/// The identity that comes next in the order of identities, where there is one.
pub fn next_dir(dir: DirId) -> Option<DirId>
    ensures { result ≡ next_dir dir }
{
    if dir.counter < u32::MAX {
        return Some(DirId {
            job: dir.job,
            counter: dir.counter + 1,
        });
    }
    if dir.job < u32::MAX {
        return Some(DirId {
            job: dir.job + 1,
            counter: 0,
        });
    }
    None
}
