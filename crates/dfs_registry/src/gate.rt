ghost use Rattle.std.specs.Prelude.{◌≡◌, ◌≤◌, ◌<◌, IsTrue, ◌+◌, ◌-◌, length, take, drop, IfOk, OnErr, IsErrOf, ℕ};
ghost use Rattle.dfs_host.specs.Host.{Told, bytes_of, OnlyReads};
ghost use Rattle.dfs_registry.specs.Reading.{is_open};
ghost use Rattle.dfs_registry.specs.Opening.{IsGate, FitsBody, HasRegCause, HoldsBody};

use crate::format::{GATE_LEN, LONGEST_STEP, OPEN};
use crate::parse::{has_body, read_fields};
use crate::{Listed, RegFault};
use dfs_host::Host;
use dfs_record::NoMemory;
use std::alloc::Global;

// What stands at a gate.
#[derive(Drop)]
pub enum Gate {
    Closed,
    Broken,
    Open(Listed),
}

// Whether the gate at the front of the piece is open: a 1, and not the last byte.
fn is_open(piece: &[u8]) -> bool
    ensures answer { result ≡ is_open piece.now }
    ensures long { IsTrue result → 1 < length piece.now }
{
    piece.len() > GATE_LEN && piece[0] == OPEN
}

// What stands at the gate at the front of the piece.
fn parse_gate(alloc: Global, piece: &[u8]) -> Result<Gate, NoMemory>
    requires { length piece.now ≤ 93 }
    ensures gate { IfOk result (IsGate piece.now) }
    ensures body { IfOk result FitsBody }
    ensures memory { OnErr result (HoldsBody piece.now) }
{
    if !is_open(piece) {
        return Ok(Gate::Closed);
    }
    let body = &piece[GATE_LEN..];
    if !has_body(body) {
        return Ok(Gate::Broken);
    }
    Ok(Gate::Open(read_fields(alloc, body)?))
}

// What stands at the gate at this place of file 0.
pub fn read_gate<H: Host>(alloc: Global, host: &mut H, gate: u64) -> Result<Gate, RegFault>
    ensures gate { Told (H.state host.old) (IfOk result (IsGate (drop gate (bytes_of (H.state host.old) 0)))) }
    ensures body { IfOk result FitsBody }
    ensures memory { Told (H.state host.old) (IsErrOf result RegFault.NoMemory → HoldsBody (drop gate (bytes_of (H.state host.old) 0))) }
    ensures only { OnlyReads (H.state host.old) (H.state host.new) }
    ensures cause { HasRegCause (H.state host.old) (H.state host.new) result }
    ensures never_damaged { (at : ℕ) → IsErrOf result (RegFault.Damaged at) → ⊥ }
    ensures never_other { IsErrOf result RegFault.NotRegistry → ⊥ }
{
    let mut piece = [0u8; LONGEST_STEP];
    match host.read_at(0, gate, &mut piece) {
        Ok(count) => match parse_gate(alloc, &piece[..count]) {
            Ok(gate) => Ok(gate),
            Err(_) => Err(RegFault::NoMemory),
        },
        Err(_) => Err(RegFault::Disk),
    }
}
