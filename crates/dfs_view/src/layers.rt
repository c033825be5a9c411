//! The layers of a job.

ghost use Rattle.std.specs.Prelude.{◌≡◌, ◌<◌, ◌≤◌, ◌+◌, ◌++◌, ◌↔◌, ◌∷◌, [], ℕ, length, map, slice_get, is_ok, true, IsSomeAnd, IsFalse, IsTrue, IsErrOf, OnErr, OnOk};
ghost use Rattle.dfs_host.specs.Fault.{HasFaultCause};
ghost use Rattle.dfs_host.specs.Host.{Told};
ghost use Rattle.dfs_record.specs.Namespace.{after_record};
ghost use Rattle.dfs_record.specs.Record.{IsRecord};
ghost use Rattle.dfs_view.specs.Layers.{AreFit, Stand, layers_map, runs_of};
ghost use Rattle.dfs_view.specs.Lists.{flushed};
ghost use Rattle.dfs_view.specs.View.{AddsOpen, Closes, GoesOn, LeavesLog, WorksOn};

use dfs_buffer::Buffer;
use dfs_change::Change;
use dfs_host::{Fault, Host};
use dfs_log::LogWriter;
use dfs_record::{NoMemory, Record};
use dfs_table::{Run, write_run};
use std::alloc::Global;
use std::rc::Rc;

/// The layers of a job: below all the change sets that it selected, in the order of selection, above them the closed layers, the
/// oldest first, as runs in its log, and above all the open layer, which closes where it has `limit` records.
#[derive(Drop)]
pub struct Layers {
    pub log: LogWriter,
    pub buffer: Buffer,
    pub limit: u32,
    pub runs: Vec<Rc<Run>>,
    pub basis: Vec<Rc<Change>>,
}

impl Layers {
    // How many runs lie below the open layer.
    pub(crate) fn runs_below(&self) -> usize
        ensures { result ≡ length (runs_of self.now) }
    {
        self.basis.len() + self.runs.len()
    }

    // The run with this number, those of the selected change sets first.
    pub(crate) fn run_below(&self, index: usize) -> &Run
        requires { index < length (runs_of self.now) }
        ensures { IsSomeAnd (slice_get (runs_of self.now) index) (λ r. r.1 ≡ result.now) }
    {
        match index.checked_sub(self.basis.len()) {
            Some(own) => &self.runs[own],
            None => &self.basis[index].run,
        }
    }
}

// Puts the record into the open layer, which closes where it then has `limit` records.
pub(crate) fn add<H: Host>(
    alloc: Global,
    host: &mut H,
    layers: &mut Layers,
    rec: Record,
) -> Result<(), Fault>
    requires fit { AreFit layers.old }
    requires stand { Told (H.state host.old) (Stand (H.state host.old) layers.old) }
    requires valid { IsRecord rec }

    ensures fit { OnOk result (AreFit layers.new) }
    ensures stand { Told (H.state host.old) (OnOk result (Stand (H.state host.new) layers.new)) }
    ensures map { Told (H.state host.old) (OnOk result (layers_map (H.state host.new) layers.new ≡ after_record (layers_map (H.state host.old) layers.old) rec)) }
    ensures goes_on { GoesOn (record { host = H.state host.old; layers = layers.old; live = true }) (record { host = H.state host.new; layers = layers.new; live = is_ok result }) (rec ∷ []) }
    ensures room { layers.old.buffer.made + 1 < layers.old.limit → LeavesLog (H.state host.old) (H.state host.new) layers.old layers.new }
    ensures full { IsErrOf result Fault.LogFull ↔ (0 < layers.new.log.refused) }
    ensures cause { HasFaultCause (H.state host.old) (H.state host.new) result }
{
    // Read here, since a log that is not spent refused nothing.
    let _ = layers.log.len();
    let Ok(()) = layers.buffer.put(rec) else {
        return Err(Fault::NoMemory);
    };
    if layers.buffer.made() < layers.limit {
        return Ok(());
    }
    close(alloc, host, layers)
}

/// Closes the open layer, where it has a record; the map stays. `LogFull` exactly where the log refused a piece. After a fault the log
/// is spent.
pub fn flush<H: Host>(alloc: Global, host: &mut H, layers: &mut Layers) -> Result<(), Fault>
    requires fit { AreFit layers.old }
    requires stand { Told (H.state host.old) (Stand (H.state host.old) layers.old) }

    ensures fit { OnOk result (AreFit layers.new) }
    ensures stand { Told (H.state host.old) (OnOk result (Stand (H.state host.new) layers.new)) }
    ensures emptied { OnOk result (layers.new.buffer.made ≡ 0) }
    // The run of the open layer is cut as its records say.
    ensures cut { OnOk result (AddsOpen layers.old layers.new) }
    ensures map { Told (H.state host.old) (OnOk result (layers_map (H.state host.new) layers.new ≡ layers_map (H.state host.old) layers.old)) }
    ensures idle { layers.old.buffer.made ≡ 0 → LeavesLog (H.state host.old) (H.state host.new) layers.old layers.new }
    // No record comes in, and the open layer closes where it has one.
    ensures works { WorksOn (record { host = H.state host.old; layers = layers.old; live = true }) (record { host = H.state host.new; layers = layers.new; live = is_ok result }) 0 flushed }
    ensures full { IsErrOf result Fault.LogFull ↔ (0 < layers.new.log.refused) }
    ensures cause { HasFaultCause (H.state host.old) (H.state host.new) result }
    ensures reads { (H.state host.new).reads ≡ (H.state host.old).reads }
    // Want of memory included: no log goes on over a layer that was written and not noted.
    ensures log_spent { OnErr result (IsTrue layers.new.log.spent) }
{
    // Read here, since a log that is not spent refused nothing.
    let _ = layers.log.len();
    if layers.buffer.made() == 0 {
        return Ok(());
    }
    close(alloc, host, layers)
}

// Closes the open layer: its records become a run of the log. After a fault the log is spent.
fn close<H: Host>(alloc: Global, host: &mut H, layers: &mut Layers) -> Result<(), Fault>
    requires live { IsFalse layers.old.log.spent }
    requires few { layers.old.buffer.made ≤ 65536 }
    requires stand { Told (H.state host.old) (Stand (H.state host.old) layers.old) }

    ensures closes { Closes (H.state host.old) (H.state host.new) layers.old layers.new result }
    ensures full { IsErrOf result Fault.LogFull ↔ (0 < layers.new.log.refused) }
    ensures cause { HasFaultCause (H.state host.old) (H.state host.new) result }
    ensures reads { (H.state host.new).reads ≡ (H.state host.old).reads }
    // Want of memory included: no log goes on over a layer that was written and not noted.
    ensures log_spent { OnErr result (IsTrue layers.new.log.spent) }
{
    // Read here, since no key is there without a record.
    let _ = layers.buffer.made();
    let run = write_run(alloc, host, &mut layers.log, layers.buffer.records())?;
    let Ok(()) = note(alloc, &mut layers.runs, run) else {
        layers.log.spend();
        return Err(Fault::NoMemory);
    };
    layers.buffer.clear();
    Ok(())
}

// Notes the run as that of the newest closed layer.
fn note(alloc: Global, runs: &mut Vec<Rc<Run>>, run: Run) -> Result<(), NoMemory>
    ensures noted { OnOk result (map (λ r. r.value) runs.new.items ≡ map (λ r. r.value) runs.old.items ++ run ∷ []) }
    ensures kept { OnErr result (runs.new.items ≡ runs.old.items) }
{
    let Ok(run) = Rc::new(alloc, run) else {
        return Err(NoMemory);
    };
    match runs.push(run) {
        Ok(()) => Ok(()),
        Err(_) => Err(NoMemory),
    }
}
