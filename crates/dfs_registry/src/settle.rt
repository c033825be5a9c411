ghost use Rattle.std.specs.Prelude.{◌≡◌, ◌≤◌, ◌+◌, ◌^◌, length, take, OnOk};
ghost use Rattle.dfs_host.specs.Disk.{IsSettled, Torn, Cropped, overwritten};
ghost use Rattle.dfs_host.specs.Host.{Told, bytes_of, ChangesOnly, Only, HasDiskCause};

use dfs_host::{Failed, Host};

// Writes to a file, and settles it. What a crash may leave is said where it was settled before.
pub fn write_and_sync<H: Host>(host: &mut H, file: u32, at: u64, bytes: &[u8]) -> Result<(), Failed>
    requires inside { Told (H.state host.old) (at ≤ length (bytes_of (H.state host.old) file)) }
    requires end { at + length bytes.now ≤ 2 ^ 63 }

    ensures settled { Told (H.state host.old) (OnOk result (IsSettled ((H.state host.new).disk.files file))) }
    ensures written { Told (H.state host.old) (OnOk result (bytes_of (H.state host.new) file ≡ overwritten at bytes.now (bytes_of (H.state host.old) file))) }
    ensures longer { Told (H.state host.old) (OnOk result (at + length bytes.now ≤ length (bytes_of (H.state host.new) file))) }
    ensures images { Told (H.state host.old) (IsSettled ((H.state host.old).disk.files file)
        → ChangesOnly file (Torn at (length bytes.now) (bytes_of (H.state host.old) file)) (H.state host.old) (H.state host.new)) }
    ensures only { Only file (H.state host.old) (H.state host.new) }
    ensures cause { HasDiskCause (H.state host.old) (H.state host.new) result }
    ensures reads { (H.state host.new).reads ≡ (H.state host.old).reads }
{
    host.write_at(file, at, bytes)?;
    host.sync(file)?;
    Ok(())
}

// Cuts a file, and settles it. What a crash may leave is said where it was settled before.
pub fn cut_and_sync<H: Host>(host: &mut H, file: u32, len: u64) -> Result<(), Failed>
    requires inside { Told (H.state host.old) (len ≤ length (bytes_of (H.state host.old) file)) }

    ensures settled { Told (H.state host.old) (OnOk result (IsSettled ((H.state host.new).disk.files file))) }
    ensures cut { Told (H.state host.old) (OnOk result (bytes_of (H.state host.new) file ≡ take len (bytes_of (H.state host.old) file))) }
    ensures images { Told (H.state host.old) (IsSettled ((H.state host.old).disk.files file)
        → ChangesOnly file (Cropped len (bytes_of (H.state host.old) file)) (H.state host.old) (H.state host.new)) }
    ensures only { Only file (H.state host.old) (H.state host.new) }
    ensures cause { HasDiskCause (H.state host.old) (H.state host.new) result }
    ensures reads { (H.state host.new).reads ≡ (H.state host.old).reads }
{
    host.cut(file, len)?;
    host.sync(file)
}
