ghost use Rattle.std.specs.Prelude.{◌≡◌, ◌↔◌, IsOk, IfOk, OnErr};
ghost use Rattle.dfs_host.specs.Counts.{HasCause, one_more};

use dfs_host::Failed;
use std::io;

// The device's answer for an answer of the system: each error is a fault, whatever its kind, and counts.
pub fn answered<T: Drop>(outcome: io::Result<T>, faults: &mut u64) -> Result<T, Failed>
    ensures ok { IfOk result (λ value. IfOk outcome (λ given. value ≡ given)) }
    ensures exactly { IsOk result ↔ IsOk outcome }
    ensures cause { HasCause faults.old faults.new result }
    ensures counted { OnErr result (faults.new ≡ one_more faults.old) }
{
    match outcome {
        Ok(value) => Ok(value),
        Err(_) => {
            *faults = faults.saturating_add(1);
            Err(Failed)
        }
    }
}
