//! Operations over layers.

ghost use Rattle.std.specs.Prelude.{◌≡◌, ◌<◌, ◌↔◌, is_ok, true, IfOk, OnOk, IsErrOf};
ghost use Rattle.dfs_host.specs.Fault.{HasFaultCause};
ghost use Rattle.dfs_host.specs.Host.{Told};
ghost use Rattle.dfs_ops.specs.Applied.{IsReply};
ghost use Rattle.dfs_ops.specs.Op.{AreIds, ids_after, outcome};
ghost use Rattle.dfs_path.specs.Op.{IsOp};
ghost use Rattle.dfs_view.specs.Layers.{AreFit, Stand, layers_map};
ghost use Rattle.dfs_job.specs.Applied.{IsApplied};

use dfs_host::{Fault, Host};
use dfs_ops::{Ids, OpReply, apply};
use dfs_path::Op;
use dfs_view::{Layers, View};
use std::alloc::Global;

/// Applies an operation to the namespace of the layers, which get its records.
pub(crate) fn apply_to<H: Host>(
    alloc: Global,
    host: &mut H,
    layers: &mut Layers,
    op: &Op,
    ids: &mut Ids,
) -> Result<OpReply, Fault>
    requires fit { AreFit layers.old }
    requires stand { Told (H.state host.old) (Stand (H.state host.old) layers.old) }
    requires op { IsOp op.now }
    requires ids { AreIds ids.old }

    ensures fit { OnOk result (AreFit layers.new) }
    ensures stand { Told (H.state host.old) (OnOk result (Stand (H.state host.new) layers.new)) }
    ensures answer { Told (H.state host.old) (IfOk result (λ answer. answer ≡ (outcome (layers_map (H.state host.old) layers.old) ids.old op.now).answer)) }
    ensures ids { Told (H.state host.old) (OnOk result (ids.new ≡ ids_after ids.old (outcome (layers_map (H.state host.old) layers.old) ids.old op.now))) }
    ensures again { OnOk result (AreIds ids.new) }
    ensures valid { IfOk result IsReply }
    ensures applied { IsApplied (record { host = H.state host.old; layers = layers.old; live = true }) (record { host = H.state host.new; layers = layers.new; live = is_ok result }) ids.old ids.new op.now result }
    ensures full { IsErrOf result Fault.LogFull ↔ (0 < layers.new.log.refused) }
    ensures cause { HasFaultCause (H.state host.old) (H.state host.new) result }
{
    let mut view = View::new(alloc, host, layers);
    apply(alloc, &mut view, op, ids)
}
