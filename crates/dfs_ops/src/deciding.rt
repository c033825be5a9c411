//! What an operation does once it knows what stands where.
ghost use Rattle.std.specs.Prelude.{◌≡◌, ◌<◌, ◌≤◌, ◌^◌, Bool, false, [], ◌∷◌, IfSome};
ghost use Rattle.dfs_record.specs.Namespace.{Namespace};
ghost use Rattle.dfs_record.specs.Record.{IsKey, IsEntry, IsRecord};
ghost use Rattle.dfs_ops.specs.Op.{Outcome, AreIds, makes, put as put_at, del as del_at, adds, unlinks, sets_attributes, with_attributes as changed, is_among as is_in_list, replaces, with_found, rmdirs_entry};
ghost use Rattle.dfs_record.specs.declared.Key.{Key};
ghost use Rattle.dfs_ops.specs.declared.Ids.{Ids};
ghost use Rattle.dfs_ops.specs.Plan.{outcome_of, IsPlan, Uses, on_reached, IsReached, on_hit, IsHit};

use crate::reaching::{Reached, Spot};
use crate::{Ids, OpReply};
use dfs_record::{DirId, Entry, Key, Record, Value};
use dfs_walk::Passed;

/// How many records the operations of a job may make.
pub const MOST_MADE: u32 = 1_048_576;

/// What an operation answers, or the records that it makes.
#[derive(Drop)]
pub enum Plan {
    Answer(OpReply),
    /// One record, and whether it uses an identity.
    One { rec: Record, used: bool },
    Two { first: Record, second: Record },
}

/// What stands in the way at the place that an entry is to leave or to take.
#[derive(Drop)]
pub enum Hit {
    Free,
    Refused(OpReply),
    /// A directory, which has to be empty.
    Dir(DirId),
}

/// The record, where the job has room for it.
pub fn one(ids: Ids, rec: Record, used: bool) -> Plan
    requires ids { AreIds ids }
    requires valid { IsRecord rec }

    ensures planned { outcome_of result ≡ makes ids (rec ∷ []) used }
    ensures valid { IsPlan ids result }
    ensures uses { Uses used result }
{
    if ids.made >= MOST_MADE {
        return Plan::Answer(OpReply::Full);
    }
    Plan::One { rec, used }
}

/// The two records in their order, where the job has room for them.
pub fn two(ids: Ids, first: Record, second: Record) -> Plan
    requires ids { AreIds ids }
    requires first { IsRecord first }
    requires second { IsRecord second }

    ensures planned { outcome_of result ≡ makes ids (first ∷ second ∷ []) false }
    ensures valid { IsPlan ids result }
    ensures uses { Uses false result }
{
    if ids.made > MOST_MADE - 2 {
        return Plan::Answer(OpReply::Full);
    }
    Plan::Two { first, second }
}

/// The record that puts an entry.
pub fn put(key: Key, entry: Entry) -> Record
    ensures { result ≡ put_at key entry }
{
    Record {
        key,
        value: Value::Put(entry),
    }
}

/// The record that deletes what stands at a key.
pub fn del(key: Key) -> Record
    ensures { result ≡ del_at key }
{
    Record {
        key,
        value: Value::Del,
    }
}

/// Puts an entry where nothing stands.
pub fn add(reached: Reached, entry: Entry, ids: Ids, used: bool) -> Plan
    requires reached { IsReached reached }
    requires entry { IsEntry entry }
    requires ids { AreIds ids }

    ensures planned { outcome_of result ≡ on_reached reached (adds ids entry used) }
    ensures valid { IsPlan ids result }
    ensures uses { Uses used result }
{
    match reached {
        Reached::Refused(answer) => Plan::Answer(answer),
        Reached::At(spot) if spot.found.is_some() => Plan::Answer(OpReply::Exists),
        Reached::At(spot) => one(ids, put(spot.key, entry), used),
    }
}

/// Removes what is no directory.
pub fn unlink(reached: Reached, ids: Ids) -> Plan
    requires reached { IsReached reached }
    requires ids { AreIds ids }

    ensures planned { outcome_of result ≡ on_reached reached (unlinks ids) }
    ensures valid { IsPlan ids result }
    ensures uses { Uses false result }
{
    let spot = match reached {
        Reached::Refused(answer) => return Plan::Answer(answer),
        Reached::At(spot) => spot,
    };
    let Spot { key, found, .. } = spot;
    match found {
        None => Plan::Answer(OpReply::NoEnt),
        Some(Entry::Dir { .. }) => Plan::Answer(OpReply::IsDir),
        Some(Entry::File { .. }) => one(ids, del(key), false),
    }
}

/// Sets the mode and the time of an entry.
pub fn set_attributes(reached: Reached, mode: u16, time: u64, ids: Ids) -> Plan
    requires reached { IsReached reached }
    requires mode { mode ≤ 4095 }
    requires ids { AreIds ids }

    ensures planned { outcome_of result ≡ on_reached reached (sets_attributes ids mode time) }
    ensures valid { IsPlan ids result }
    ensures uses { Uses false result }
{
    let spot = match reached {
        Reached::Refused(answer) => return Plan::Answer(answer),
        Reached::At(spot) => spot,
    };
    let Spot { key, found, .. } = spot;
    match found {
        None => Plan::Answer(OpReply::NoEnt),
        Some(entry) => one(ids, put(key, with_attributes(entry, mode, time)), false),
    }
}

// The entry with another mode and time.
fn with_attributes(entry: Entry, mode: u16, time: u64) -> Entry
    requires entry { IsEntry entry }
    requires mode { mode ≤ 4095 }

    ensures value { result ≡ changed entry mode time }
    ensures valid { IsEntry result }
{
    match entry {
        Entry::Dir { id, .. } => Entry::Dir { id, mode, time },
        Entry::File {
            size,
            reference,
            ..
        } => Entry::File {
            mode,
            time,
            size,
            reference,
        },
    }
}

/// Whether the entry is a directory that was passed.
pub fn is_among(entry: &Entry, passed: &Passed) -> bool
    ensures { result ≡ is_in_list entry.now passed.now }
{
    match entry {
        Entry::File { .. } => false,
        Entry::Dir { id, .. } => passed.contains(*id),
    }
}

/// What a directory that is to be removed meets: it has to be one.
pub fn removal(found: &Option<Entry>) -> Hit
    ensures hit { (m : Namespace) (ids : Ids) (key : Key) → with_found found.now (rmdirs_entry m ids key) ≡ on_hit m result (makes ids (del_at key ∷ []) false) }
    ensures valid { IsHit result }
{
    match found {
        None => Hit::Refused(OpReply::NoEnt),
        Some(Entry::File { .. }) => Hit::Refused(OpReply::NotDir),
        Some(Entry::Dir { id, .. }) => Hit::Dir(*id),
    }
}

/// What an entry meets at the place that it is to take.
pub fn meeting(entry: &Entry, found: &Option<Entry>) -> Hit
    ensures hit { (m : Namespace) (renamed : Outcome) → replaces m entry.now found.now renamed ≡ on_hit m result renamed }
    ensures valid { IsHit result }
{
    match (entry, found) {
        (_, None) => Hit::Free,
        (Entry::File { .. }, Some(Entry::File { .. })) => Hit::Free,
        (Entry::File { .. }, Some(Entry::Dir { .. })) => Hit::Refused(OpReply::IsDir),
        (Entry::Dir { .. }, Some(Entry::File { .. })) => Hit::Refused(OpReply::NotDir),
        (Entry::Dir { .. }, Some(Entry::Dir { id, .. })) => Hit::Dir(*id),
    }
}
