ghost use Rattle.std.specs.Prelude.{◌≡◌, ◌++◌, ◌∷◌, [], ℕ, drop, IfOk, IsErrOf, false};
ghost use Rattle.dfs_host.specs.Host.{Told, bytes_of, OnlyReads};
ghost use Rattle.dfs_registry.specs.Body.{repeats as is_repeated};
ghost use Rattle.dfs_registry.specs.Reading.{registry, damaged, IsListing};
ghost use Rattle.dfs_registry.specs.Seen.{HasJobs};
ghost use Rattle.dfs_registry.specs.Opening.{EndsBehind, HasRegCause, HoldsBody, IsMarked};

use crate::entries::Entries;
use crate::format::{FIRST_GATE, MOST, STEP_LEN};
use crate::gate::{Gate, read_gate};
use crate::{Listed, RegFault, Registry};
use dfs_host::Host;
use dfs_record::NoMemory;
use std::alloc::Global;
use std::collections::HashSet;

// Whether the publication has the name or the job of one of these. If not, its job is among the jobs from now on.
fn repeats(entries: &Entries, jobs: &mut HashSet<u32>, listed: &Listed) -> Result<bool, NoMemory>
    requires { HasJobs jobs.old entries.now.items }
    ensures repeated { IfOk result (λ repeated. repeated ≡ is_repeated entries.now.items listed.now) }
    ensures jobs { IfOk result (λ repeated. repeated ≡ false → HasJobs jobs.new (entries.now.items ++ listed.now ∷ [])) }
{
    if entries.lists(&listed.name) {
        return Ok(true);
    }
    match jobs.insert(listed.job) {
        Ok(added) => Ok(!added),
        Err(_) => Err(NoMemory),
    }
}

// Follows the gates of a file that has the header.
pub fn read_gates<H: Host>(alloc: Global, host: &mut H) -> Result<Registry, RegFault>
    requires { Told (H.state host.old) (IsMarked (bytes_of (H.state host.old) 0)) }

    ensures ends { Told (H.state host.old) (IfOk result (λ r. EndsBehind r.entries (bytes_of (H.state host.old) 0))) }
    ensures listing { IfOk result (λ r. IsListing r.entries) }
    ensures damaged { Told (H.state host.old) ((place : ℕ) → IsErrOf result (RegFault.Damaged place) → registry (bytes_of (H.state host.old) 0) ≡ damaged place) }
    ensures memory { Told (H.state host.old) (IsErrOf result RegFault.NoMemory → HoldsBody (drop 8 (bytes_of (H.state host.old) 0))) }
    ensures only { OnlyReads (H.state host.old) (H.state host.new) }
    ensures cause { HasRegCause (H.state host.old) (H.state host.new) result }
    ensures never_other { IsErrOf result RegFault.NotRegistry → ⊥ }
    ensures live { IfOk result (λ r. r.spent ≡ false) }
{
    let mut entries = Entries::new(alloc);
    let mut jobs = HashSet::new(alloc);
    let mut gate = FIRST_GATE;
    for turn in 0..MOST + 1 {
        let body = gate + 1;
        match read_gate(alloc, host, gate)? {
            Gate::Closed => return Ok(Registry::of(alloc, entries, gate)),
            Gate::Broken => return Err(RegFault::Damaged(body)),
            Gate::Open(listed) => {
                if turn == MOST {
                    return Err(RegFault::Damaged(body));
                }
                if repeats(&entries, &mut jobs, &listed)? {
                    return Err(RegFault::Damaged(body));
                }
                gate += STEP_LEN + listed.name.bytes().len() as u64;
                entries.push(alloc, listed)?;
            }
        }
    }
    unreachable!()
}
