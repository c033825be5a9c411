//! Look-ups in the layers.

ghost use Rattle.std.specs.Prelude.{◌≡◌, ℕ, flat_map, Some, IfOk, IfSome, IsErrOf};
ghost use Rattle.std.specs.List.{AllByRecursion};
ghost use Rattle.dfs_host.specs.Host.{Told};
ghost use Rattle.dfs_host.specs.declared.fault.Fault.{Fault as AnyFault};
ghost use Rattle.dfs_record.specs.Delta.{last_value};
ghost use Rattle.dfs_record.specs.Lend.{key_of};
ghost use Rattle.dfs_record.specs.Record.{IsValue};
ghost use Rattle.dfs_table.specs.declared.run.Run.{Run as AnyRun};
ghost use Rattle.dfs_view.specs.Layers.{IsHeld, Stand, layer_records, records_on, runs_of};

use crate::Layers;
use dfs_host::{Fault, Host};
use dfs_record::{KeyRef, Value};
use dfs_table::Run;
use std::alloc::Global;

/// The value of the last record with the key, and `None` exactly where no layer has one.
pub(crate) fn find<H: Host>(
    alloc: Global,
    host: &mut H,
    layers: &Layers,
    key: KeyRef<'_>,
) -> Result<Option<Value>, Fault>
    requires stand { Told (H.state host.old) (Stand (H.state host.old) layers.now) }
    ensures value { Told (H.state host.old) (IfOk result (λ found. found ≡ last_value (key_of key.entry) (layer_records (H.state host.old) layers.now))) }
    ensures valid { IfOk result (λ found. IfSome found IsValue) }
    ensures memory { (fault : AnyFault) → IsErrOf result fault → fault ≡ Fault.NoMemory }
    ensures host { H.state host.new ≡ H.state host.old }
{
    // The newest layer that has the key counts, so it is asked first.
    match layers.buffer.find(key) {
        Some(value) => copied(alloc, value),
        None => find_below(alloc, host, layers, key),
    }
}

fn copied(alloc: Global, value: &Value) -> Result<Option<Value>, Fault>
    requires { IsValue value.now }
    ensures value { IfOk result (λ found. found ≡ Some value.now) }
    ensures memory { (fault : AnyFault) → IsErrOf result fault → fault ≡ Fault.NoMemory }
{
    match value.lend().to_value(alloc) {
        Ok(value) => Ok(Some(value)),
        Err(_) => Err(Fault::NoMemory),
    }
}

// The same below the open layer.
fn find_below<H: Host>(
    alloc: Global,
    host: &mut H,
    layers: &Layers,
    key: KeyRef<'_>,
) -> Result<Option<Value>, Fault>
    requires held { Told (H.state host.old) (AllByRecursion (λ (r : ℕ × AnyRun). IsHeld (H.state host.old) r.1) (runs_of layers.now)) }
    ensures value { Told (H.state host.old) (IfOk result (λ found. found ≡ last_value (key_of key.entry) (flat_map (λ (r : ℕ × AnyRun). records_on (H.state host.old) r.1) (runs_of layers.now)))) }
    ensures valid { IfOk result (λ found. IfSome found IsValue) }
    ensures memory { (fault : AnyFault) → IsErrOf result fault → fault ≡ Fault.NoMemory }
    ensures host { H.state host.new ≡ H.state host.old }
{
    let mut left = layers.runs_below();
    while left > 0 {
        left -= 1;
        let found = find_in(alloc, host, layers.run_below(left), key)?;
        if found.is_some() {
            return Ok(found);
        }
    }
    Ok(None)
}

// The value that a run has for the key. The one table and the one block that may have it are found by halves.
fn find_in<H: Host>(
    alloc: Global,
    host: &mut H,
    run: &Run,
    key: KeyRef<'_>,
) -> Result<Option<Value>, Fault>
    requires held { Told (H.state host.old) (IsHeld (H.state host.old) run.now) }
    ensures value { Told (H.state host.old) (IfOk result (λ found. found ≡ last_value (key_of key.entry) (records_on (H.state host.old) run.now))) }
    ensures valid { IfOk result (λ found. IfSome found IsValue) }
    ensures memory { (fault : AnyFault) → IsErrOf result fault → fault ≡ Fault.NoMemory }
    ensures host { H.state host.new ≡ H.state host.old }
{
    match run.tables.find(key) {
        Some(index) => run.tables.get(index).find(alloc, host, key),
        None => Ok(None),
    }
}
