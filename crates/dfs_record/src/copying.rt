//! Copies, and what is lent made one's own.

ghost use Rattle.std.specs.Prelude.{◌≡◌, IfOk, OnOk};
ghost use Rattle.dfs_record.specs.Lend.{key_of, value_of, record_of};
ghost use Rattle.dfs_record.specs.Name.{IsName, IsReference, IsSnapName};
ghost use Rattle.dfs_record.specs.Record.{IsKey, IsEntry, IsValue, IsRecord};

use crate::{
    Entry, Key, KeyRef, Name, NoMemory, Record, RecordRef, Reference, SnapName, Value, ValueRef,
};
use std::alloc::Global;

impl Name {
    /// An equal name with bytes of its own.
    pub fn copy(&self, alloc: Global) -> Result<Name, NoMemory>
        ensures equal { IfOk result (λ name. name ≡ self.now) }
        ensures valid { IfOk result IsName }
    {
        owned_name(alloc, self.bytes())
    }
}

impl Reference {
    /// An equal reference with bytes of its own.
    pub fn copy(&self, alloc: Global) -> Result<Reference, NoMemory>
        ensures equal { IfOk result (λ reference. reference ≡ self.now) }
        ensures valid { IfOk result IsReference }
    {
        owned_reference(alloc, self.bytes())
    }
}

impl SnapName {
    /// An equal name with bytes of its own.
    pub fn copy(&self, alloc: Global) -> Result<SnapName, NoMemory>
        ensures equal { IfOk result (λ name. name ≡ self.now) }
        ensures valid { IfOk result IsSnapName }
    {
        Ok(SnapName {
            bytes: self.bytes.to_vec(alloc)?,
        })
    }
}

impl Key {
    /// An equal key with a name of its own.
    pub fn copy(&self, alloc: Global) -> Result<Key, NoMemory>
        ensures equal { IfOk result (λ key. key ≡ self.now) }
        ensures valid { IfOk result IsKey }
    {
        self.lend().to_key(alloc)
    }
}

impl Entry {
    /// An equal entry with a reference of its own.
    pub fn copy(&self, alloc: Global) -> Result<Entry, NoMemory>
        ensures equal { IfOk result (λ entry. entry ≡ self.now) }
        ensures valid { IsEntry self.now → IfOk result IsEntry }
    {
        match self {
            Entry::Dir { id, mode, time } => Ok(Entry::Dir {
                id: *id,
                mode: *mode,
                time: *time,
            }),
            Entry::File {
                mode,
                time,
                size,
                reference,
            } => Ok(Entry::File {
                mode: *mode,
                time: *time,
                size: *size,
                reference: reference.copy(alloc)?,
            }),
        }
    }
}

fn owned_name(alloc: Global, bytes: &[u8]) -> Result<Name, NoMemory>
    requires { IsName bytes.now }
    ensures { IfOk result (λ name. name ≡ bytes.now) }
{
    Ok(Name {
        bytes: bytes.to_vec(alloc)?,
    })
}

fn owned_reference(alloc: Global, bytes: &[u8]) -> Result<Reference, NoMemory>
    requires { IsReference bytes.now }
    ensures { IfOk result (λ reference. reference ≡ bytes.now) }
{
    Ok(Reference {
        bytes: bytes.to_vec(alloc)?,
    })
}

impl KeyRef<'_> {
    /// The key with a name of its own.
    pub fn to_key(self, alloc: Global) -> Result<Key, NoMemory>
        requires { IsKey (key_of self) }
        ensures equal { IfOk result (λ key. key ≡ key_of self.entry) }
        ensures valid { IfOk result IsKey }
    {
        Ok(Key {
            parent: self.parent,
            name: owned_name(alloc, self.name)?,
        })
    }
}

impl ValueRef<'_> {
    /// The value with a reference of its own.
    pub fn to_value(self, alloc: Global) -> Result<Value, NoMemory>
        requires { IsValue (value_of self) }
        ensures equal { IfOk result (λ value. value ≡ value_of self.entry) }
        ensures valid { IfOk result IsValue }
    {
        match self {
            ValueRef::Del => Ok(Value::Del),
            ValueRef::Dir { id, mode, time } => Ok(Value::Put(Entry::Dir { id, mode, time })),
            ValueRef::File {
                mode,
                time,
                size,
                reference,
            } => Ok(Value::Put(Entry::File {
                mode,
                time,
                size,
                reference: owned_reference(alloc, reference)?,
            })),
        }
    }
}

impl RecordRef<'_> {
    /// The record with a name and a reference of its own.
    pub fn to_record(self, alloc: Global) -> Result<Record, NoMemory>
        requires { IsRecord (record_of self) }
        ensures equal { IfOk result (λ owned. owned ≡ record_of self.entry) }
        ensures valid { IfOk result IsRecord }
    {
        Ok(Record {
            key: self.key.to_key(alloc)?,
            value: self.value.to_value(alloc)?,
        })
    }
}
