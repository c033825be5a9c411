//! Look-ups in a published change set.

ghost use Rattle.std.specs.Prelude.{◌≡◌, IfOk, IfSome, IsErrOf};
ghost use Rattle.std.specs.List.{AllByRecursion};
ghost use Rattle.dfs_host.specs.Host.{Told, bytes_of};
ghost use Rattle.dfs_host.specs.declared.fault.Fault.{Fault as AnyFault};
ghost use Rattle.dfs_record.specs.Delta.{last_value};
ghost use Rattle.dfs_record.specs.Lend.{key_of};
ghost use Rattle.dfs_record.specs.Record.{IsValue};
ghost use Rattle.dfs_table.specs.Stored.{IsTableOf, run_records};
ghost use Rattle.dfs_table.specs.Writer.{AreIn};

use crate::Change;
use dfs_host::{Fault, Host};
use dfs_record::{KeyRef, Value};
use std::alloc::Global;

impl Change {
    /// The value that the change set has for the key, and `None` exactly where it has none. Binary searches find the one table that
    /// may have the key, and in it the one block. No call is made on the host: the run holds the bytes of its blocks.
    pub fn find<H: Host>(
        &self,
        alloc: Global,
        host: &mut H,
        key: KeyRef<'_>,
    ) -> Result<Option<Value>, Fault>
        requires stored { Told (H.state host.old) (AllByRecursion (IsTableOf (bytes_of (H.state host.old) self.now.listed.job)) self.now.run.value.tables) }
        requires file { Told (H.state host.old) (AreIn self.now.listed.job self.now.run.value.tables) }

        ensures value { Told (H.state host.old) (IfOk result (λ found. found ≡ last_value (key_of key.entry) (run_records (bytes_of (H.state host.old) self.now.listed.job) self.now.run.value.tables))) }
        ensures valid { IfOk result (λ found. IfSome found IsValue) }
        ensures memory { (fault : AnyFault) → IsErrOf result fault → fault ≡ Fault.NoMemory }
        ensures host { H.state host.new ≡ H.state host.old }
    {
        let tables = &self.run.tables;
        match tables.find(key) {
            Some(index) => tables.get(index).find(alloc, host, key),
            None => Ok(None),
        }
    }
}
