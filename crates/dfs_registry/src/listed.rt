ghost use Rattle.std.specs.Prelude.{◌≡◌, ◌++◌, ◌∷◌, [], IfOk};
ghost use Rattle.dfs_registry.specs.Body.{body};

use crate::format::{BODY_LEN, CLOSED, COUNTED_LEN, PUBLICATION};
use dfs_record::{NoMemory, SnapName};
use std::alloc::Global;

/// A publication: its name, its job, and where the job's log has the manifest.
#[derive(Debug, Drop)]
pub struct Listed {
    pub name: SnapName,
    pub job: u32,
    pub at: u64,
    pub len: u32,
    pub count: u64,
}

// The body's bytes and a closed gate.
pub fn spell(alloc: Global, listed: &Listed) -> Result<Vec<u8>, NoMemory>
    ensures { IfOk result (λ bytes. bytes.items ≡ body listed.now ++ 0 ∷ []) }
{
    let name = listed.name.bytes();
    let mut bytes = Vec::with_capacity(alloc, BODY_LEN + name.len() + 1)?;
    bytes.extend_from_slice(&(COUNTED_LEN + name.len() as u16).to_be_bytes())?;
    bytes.extend_from_slice(&[PUBLICATION, name.len() as u8])?;
    bytes.extend_from_slice(name)?;
    bytes.extend_from_slice(&listed.job.to_be_bytes())?;
    bytes.extend_from_slice(&listed.at.to_be_bytes())?;
    bytes.extend_from_slice(&listed.len.to_be_bytes())?;
    bytes.extend_from_slice(&listed.count.to_be_bytes())?;
    bytes.extend_from_slice(&[CLOSED])?;
    Ok(bytes)
}
