ghost use Rattle.std.specs.Prelude.{◌≡◌, ◌≤◌, ◌<◌, [], length, take, OnOk, IfOk, IsErrOf, ℕ, false};
ghost use Rattle.std.specs.Str.{bytes_eq};
ghost use Rattle.dfs_host.specs.Disk.{IsSettled};
ghost use Rattle.dfs_host.specs.Host.{Told, bytes_of, ChangesOnly, Only, OnlyReads, HasDiskCause};
ghost use Rattle.dfs_registry.specs.Reading.{registry as reading, listing, at_rest, header};
ghost use Rattle.dfs_registry.specs.Opening.{EndsBehind, HasPublication, HasRegCause, IsAnswer, IsShut};
ghost use Rattle.dfs_registry.specs.Standing.{RegistryStands};

use crate::entries::Entries;
use crate::format::{CLOSED, EMPTY_LEN, FIRST_GATE};
use crate::reading::read_gates;
use crate::settle::{cut_and_sync, write_and_sync};
use crate::{RegFault, Registry};
use dfs_host::{Failed, Host};
use std::alloc::Global;

// Makes an empty registry of a short file.
fn make<H: Host>(host: &mut H) -> Result<(), Failed>
    requires short { Told (H.state host.old) (length (bytes_of (H.state host.old) 0) ≤ 9) }

    ensures settled { Told (H.state host.old) (OnOk result (IsSettled ((H.state host.new).disk.files 0))) }
    ensures file { Told (H.state host.old) (OnOk result (bytes_of (H.state host.new) 0 ≡ at_rest [])) }
    ensures images { Told (H.state host.old) (IsSettled ((H.state host.old).disk.files 0)
        → ChangesOnly 0 (λ c. reading c ≡ listing []) (H.state host.old) (H.state host.new)) }
    ensures only { Only 0 (H.state host.old) (H.state host.new) }
    ensures cause { HasDiskCause (H.state host.old) (H.state host.new) result }
    ensures reads { (H.state host.new).reads ≡ (H.state host.old).reads }
{
    cut_and_sync(host, 0, 0)?;
    write_and_sync(host, 0, 0, b"DFSREG01\0")?;
    Ok(())
}

// Cuts what stands behind the ending gate, and closes it.
fn close<H: Host>(host: &mut H, registry: &Registry) -> Result<(), Failed>
    requires ends { Told (H.state host.old) (EndsBehind registry.now.entries (bytes_of (H.state host.old) 0)) }

    ensures stands { Told (H.state host.old) (OnOk result (RegistryStands (H.state host.new) registry.now)) }
    ensures images { Told (H.state host.old) (IsSettled ((H.state host.old).disk.files 0)
        → ChangesOnly 0 (λ c. reading c ≡ listing registry.now.entries) (H.state host.old) (H.state host.new)) }
    ensures only { Only 0 (H.state host.old) (H.state host.new) }
    ensures cause { HasDiskCause (H.state host.old) (H.state host.new) result }
    ensures reads { (H.state host.new).reads ≡ (H.state host.old).reads }
{
    let gate = registry.gate();
    cut_and_sync(host, 0, gate)?;
    write_and_sync(host, 0, gate, &[CLOSED])?;
    Ok(())
}

// Whether a longer file 0 has the header.
fn has_header<H: Host>(host: &mut H) -> Result<bool, Failed>
    requires { Told (H.state host.old) (9 < length (bytes_of (H.state host.old) 0)) }

    ensures answer { Told (H.state host.old) (IfOk result (λ is. is ≡ bytes_eq (take 8 (bytes_of (H.state host.old) 0)) header)) }
    ensures only { OnlyReads (H.state host.old) (H.state host.new) }
    ensures cause { HasDiskCause (H.state host.old) (H.state host.new) result }
    ensures reads { (H.state host.old).reads ≤ (H.state host.new).reads }
{
    let mut front = [0u8; 8];
    match host.read_at(0, 0, &mut front) {
        Ok(_) => Ok(front.as_slice() == b"DFSREG01".as_slice()),
        Err(_) => Err(Failed),
    }
}

// Opens a short file.
fn open_short<H: Host>(alloc: Global, host: &mut H) -> Result<Registry, RegFault>
    requires short { Told (H.state host.old) (length (bytes_of (H.state host.old) 0) ≤ 9) }

    ensures answer { Told (H.state host.old) (IsAnswer (reading (bytes_of (H.state host.old) 0)) result) }
    ensures stands { Told (H.state host.old) (IfOk result (λ r. RegistryStands (H.state host.new) r)) }
    ensures images { Told (H.state host.old) (IsSettled ((H.state host.old).disk.files 0)
        → ChangesOnly 0 (λ c. reading c ≡ reading (bytes_of (H.state host.old) 0)) (H.state host.old) (H.state host.new)) }
    ensures only { Only 0 (H.state host.old) (H.state host.new) }
    ensures refused { IsErrOf result RegFault.NotRegistry → OnlyReads (H.state host.old) (H.state host.new) }
    ensures broken { (place : ℕ) → IsErrOf result (RegFault.Damaged place) → OnlyReads (H.state host.old) (H.state host.new) }
    ensures memory { IsErrOf result RegFault.NoMemory → ⊥ }
    ensures shut { Told (H.state host.old) (IsShut (reading (bytes_of (H.state host.old) 0)) → OnlyReads (H.state host.old) (H.state host.new)) }
    ensures cause { HasRegCause (H.state host.old) (H.state host.new) result }
    ensures live { IfOk result (λ r. r.spent ≡ false) }
{
    match make(host) {
        Ok(()) => Ok(Registry::of(alloc, Entries::new(alloc), FIRST_GATE)),
        Err(_) => Err(RegFault::Disk),
    }
}

// Opens a longer file.
fn open_long<H: Host>(alloc: Global, host: &mut H) -> Result<Registry, RegFault>
    requires long { Told (H.state host.old) (9 < length (bytes_of (H.state host.old) 0)) }

    ensures answer { Told (H.state host.old) (IsAnswer (reading (bytes_of (H.state host.old) 0)) result) }
    ensures stands { Told (H.state host.old) (IfOk result (λ r. RegistryStands (H.state host.new) r)) }
    ensures images { Told (H.state host.old) (IsSettled ((H.state host.old).disk.files 0)
        → ChangesOnly 0 (λ c. reading c ≡ reading (bytes_of (H.state host.old) 0)) (H.state host.old) (H.state host.new)) }
    ensures only { Only 0 (H.state host.old) (H.state host.new) }
    ensures refused { IsErrOf result RegFault.NotRegistry → OnlyReads (H.state host.old) (H.state host.new) }
    ensures broken { (place : ℕ) → IsErrOf result (RegFault.Damaged place) → OnlyReads (H.state host.old) (H.state host.new) }
    ensures memory { Told (H.state host.old) (IsErrOf result RegFault.NoMemory → HasPublication (bytes_of (H.state host.old) 0)) }
    ensures unwritten { IsErrOf result RegFault.NoMemory → OnlyReads (H.state host.old) (H.state host.new) }
    ensures shut { Told (H.state host.old) (IsShut (reading (bytes_of (H.state host.old) 0)) → OnlyReads (H.state host.old) (H.state host.new)) }
    ensures cause { HasRegCause (H.state host.old) (H.state host.new) result }
    ensures live { IfOk result (λ r. r.spent ≡ false) }
{
    match has_header(host) {
        Ok(true) => {
            let registry = read_gates(alloc, host)?;
            match close(host, &registry) {
                Ok(()) => Ok(registry),
                Err(_) => Err(RegFault::Disk),
            }
        }
        Ok(false) => Err(RegFault::NotRegistry),
        Err(_) => Err(RegFault::Disk),
    }
}

impl Registry {
    /// Opens the registry: reads file 0, and then makes an empty registry of a short file, or closes the ending gate of another one.
    pub fn open<H: Host>(alloc: Global, host: &mut H) -> Result<Registry, RegFault>
        // The answer is what the file stood for, but for want of memory and a failed device call.
        ensures answer { Told (H.state host.old) (IsAnswer (reading (bytes_of (H.state host.old) 0)) result) }
        ensures stands { Told (H.state host.old) (IfOk result (λ r. RegistryStands (H.state host.new) r)) }

        // Where the file was settled, each image since the start stands for what it stood for, also where a device call failed.
        ensures images { Told (H.state host.old) (IsSettled ((H.state host.old).disk.files 0)
            → ChangesOnly 0 (λ c. reading c ≡ reading (bytes_of (H.state host.old) 0)) (H.state host.old) (H.state host.new)) }
        ensures only { Only 0 (H.state host.old) (H.state host.new) }

        ensures refused { IsErrOf result RegFault.NotRegistry → OnlyReads (H.state host.old) (H.state host.new) }
        ensures broken { (place : ℕ) → IsErrOf result (RegFault.Damaged place) → OnlyReads (H.state host.old) (H.state host.new) }

        // NoMemory comes only where the file's first gate is open before a body that can be read, and nothing was written then.
        ensures memory { Told (H.state host.old) (IsErrOf result RegFault.NoMemory → HasPublication (bytes_of (H.state host.old) 0)) }
        ensures unwritten { IsErrOf result RegFault.NoMemory → OnlyReads (H.state host.old) (H.state host.new) }

        // A file that is no registry, or a damaged one, is only read, whatever the answer.
        ensures shut { Told (H.state host.old) (IsShut (reading (bytes_of (H.state host.old) 0)) → OnlyReads (H.state host.old) (H.state host.new)) }

        ensures cause { HasRegCause (H.state host.old) (H.state host.new) result }
        ensures live { IfOk result (λ r. r.spent ≡ false) }
    {
        let Ok(len) = host.len(0) else {
            return Err(RegFault::Disk);
        };
        if len <= EMPTY_LEN {
            open_short(alloc, host)
        } else {
            open_long(alloc, host)
        }
    }
}
