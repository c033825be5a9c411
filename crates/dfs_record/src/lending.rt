//! What is owned, lent.

ghost use Rattle.std.specs.Prelude.{◌≡◌};
ghost use Rattle.dfs_record.specs.Lend.{key_of, value_of, record_of};
ghost use Rattle.dfs_record.specs.Record.{IsId, IsKey, IsRecord};

use crate::{DirId, Entry, Key, KeyRef, Record, RecordRef, Value, ValueRef};

impl DirId {
    /// The identity of these numbers, which are in range since they are passed.
    fn of(job: u32, counter: u32) -> DirId
        ensures value { result ≡ record { job = job; counter = counter } }
        ensures valid { IsId result }
    {
        DirId { job, counter }
    }
}

impl Key {
    /// The same key, with the name lent. A key is always valid.
    pub fn lend(&self) -> KeyRef<'_>
        ensures value { key_of result ≡ self.now }
        ensures valid { IsKey (key_of result) }
    {
        KeyRef {
            parent: DirId::of(self.parent.job, self.parent.counter),
            name: self.name.bytes(),
        }
    }
}

impl Value {
    /// The same value, with the reference lent.
    pub fn lend(&self) -> ValueRef<'_>
        ensures { value_of result ≡ self.now }
    {
        match self {
            Value::Del => ValueRef::Del,
            Value::Put(Entry::Dir { id, mode, time }) => ValueRef::Dir {
                id: *id,
                mode: *mode,
                time: *time,
            },
            Value::Put(
                Entry::File {
                    mode,
                    time,
                    size,
                    reference,
                },
            ) => ValueRef::File {
                mode: *mode,
                time: *time,
                size: *size,
                reference: reference.bytes(),
            },
        }
    }
}

impl Record {
    /// The same record, with the name and the reference lent.
    pub fn lend(&self) -> RecordRef<'_>
        requires { IsRecord self.now }
        ensures value { record_of result ≡ self.now }
        ensures valid { IsRecord (record_of result) }
    {
        RecordRef {
            key: self.key.lend(),
            value: self.value.lend(),
        }
    }
}
