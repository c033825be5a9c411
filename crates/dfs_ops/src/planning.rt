//! Each operation's plan: what it reads of the space, and what it then decides.
ghost use Rattle.std.specs.Prelude.{◌≡◌, ◌<◌, ◌≤◌, ◌^◌, Bool, true, false, [], ◌∷◌, IfOk, IfErr, IfSome};
ghost use Rattle.dfs_record.specs.Namespace.{Namespace};
ghost use Rattle.dfs_record.specs.Record.{IsKey, IsEntry};
ghost use Rattle.dfs_path.specs.Op.{IsOp};
ghost use Rattle.dfs_space.specs.Space.{IsReady, HasRead};
ghost use Rattle.dfs_ops.specs.Op.{Outcome, outcome, AreIds, adds, below_root, moves};
ghost use Rattle.dfs_ops.specs.Applied.{makes_dir};
ghost use Rattle.dfs_ops.specs.Plan.{outcome_of, IsPlan, Uses, walked_of, on_hit, IsHit, IsRefusal, on_unblocked};

use crate::deciding::{
    Hit, Plan, add, del, is_among, meeting, one, put, removal, set_attributes, two, unlink,
};
use crate::reaching::{Looked, Reached, Spot, look, reach};
use crate::{Ids, OpReply};
use dfs_host::Fault;
use dfs_path::{Op, Path};
use dfs_record::{DirId, Entry, Key, Reference};
use dfs_space::Space;
use std::alloc::Global;

/// What the operation does on this space. It changes nothing yet.
pub fn plan<S: Space>(alloc: Global, space: &mut S, op: &Op, ids: Ids) -> Result<Plan, Fault>
    requires ready { IsReady (S.state space.old) }
    requires op { IsOp op.now }
    requires ids { AreIds ids }

    ensures planned { (m : Namespace) → S.StandsFor space.old m → IfOk result (λ plan. outcome_of plan ≡ outcome m ids op.now) }
    ensures valid { IfOk result (IsPlan ids) }
    ensures uses { IfOk result (Uses (makes_dir op.now)) }
    ensures reads { HasRead S.StandsFor S.follows S.state space.old space.new result }
{
    match op {
        Op::Mkdir { path, mode, time } => mkdir(alloc, space, path, *mode, *time, ids),
        Op::Create {
            path,
            mode,
            time,
            size,
            reference,
        } => {
            let file = Entry::File {
                mode: *mode,
                time: *time,
                size: *size,
                reference: copied(alloc, reference)?,
            };
            create(alloc, space, path, file, ids)
        }
        Op::Unlink { path } => remove_file(alloc, space, path, ids),
        Op::Rmdir { path } => remove_dir(alloc, space, path, ids),
        Op::Rename { from, to } => rename(alloc, space, from, to, ids),
        Op::Setattr { path, mode, time } => setattr(alloc, space, path, *mode, *time, ids),
        Op::Stat { path } => stat(alloc, space, path, ids),
        Op::List { path } => list(alloc, space, path, ids),
    }
}

fn copied(alloc: Global, reference: &Reference) -> Result<Reference, Fault>
    ensures value { IfOk result (λ reference_. reference_ ≡ reference.now) }
    ensures fault { IfErr result (λ fault. fault ≡ Fault.NoMemory) }
{
    match reference.copy(alloc) {
        Ok(reference) => Ok(reference),
        Err(_) => Err(Fault::NoMemory),
    }
}

fn mkdir<S: Space>(
    alloc: Global,
    space: &mut S,
    path: &Path,
    mode: u16,
    time: u64,
    ids: Ids,
) -> Result<Plan, Fault>
    requires ready { IsReady (S.state space.old) }
    requires mode { mode ≤ 4095 }
    requires ids { AreIds ids }

    ensures planned { (m : Namespace) → S.StandsFor space.old m → IfOk result (λ plan. outcome_of plan ≡ outcome m ids (Op.Mkdir path.now mode time)) }
    ensures valid { IfOk result (IsPlan ids) }
    ensures uses { IfOk result (Uses true) }
    ensures reads { HasRead S.StandsFor S.follows S.state space.old space.new result }
{
    let reached = reach(alloc, space, path)?;
    let id = DirId {
        job: ids.job,
        counter: ids.counter + 1,
    };
    Ok(add(reached, Entry::Dir { id, mode, time }, ids, true))
}

fn create<S: Space>(
    alloc: Global,
    space: &mut S,
    path: &Path,
    file: Entry,
    ids: Ids,
) -> Result<Plan, Fault>
    requires ready { IsReady (S.state space.old) }
    requires file { IsEntry file }
    requires ids { AreIds ids }

    ensures planned { (m : Namespace) → S.StandsFor space.old m → IfOk result (λ plan. outcome_of plan ≡ below_root m path.now (adds ids file false)) }
    ensures valid { IfOk result (IsPlan ids) }
    ensures uses { IfOk result (Uses false) }
    ensures reads { HasRead S.StandsFor S.follows S.state space.old space.new result }
{
    let reached = reach(alloc, space, path)?;
    Ok(add(reached, file, ids, false))
}

fn remove_file<S: Space>(alloc: Global, space: &mut S, path: &Path, ids: Ids) -> Result<Plan, Fault>
    requires ready { IsReady (S.state space.old) }
    requires ids { AreIds ids }

    ensures planned { (m : Namespace) → S.StandsFor space.old m → IfOk result (λ plan. outcome_of plan ≡ outcome m ids (Op.Unlink path.now)) }
    ensures valid { IfOk result (IsPlan ids) }
    ensures uses { IfOk result (Uses false) }
    ensures reads { HasRead S.StandsFor S.follows S.state space.old space.new result }
{
    let reached = reach(alloc, space, path)?;
    Ok(unlink(reached, ids))
}

fn setattr<S: Space>(
    alloc: Global,
    space: &mut S,
    path: &Path,
    mode: u16,
    time: u64,
    ids: Ids,
) -> Result<Plan, Fault>
    requires ready { IsReady (S.state space.old) }
    requires mode { mode ≤ 4095 }
    requires ids { AreIds ids }

    ensures planned { (m : Namespace) → S.StandsFor space.old m → IfOk result (λ plan. outcome_of plan ≡ outcome m ids (Op.Setattr path.now mode time)) }
    ensures valid { IfOk result (IsPlan ids) }
    ensures uses { IfOk result (Uses false) }
    ensures reads { HasRead S.StandsFor S.follows S.state space.old space.new result }
{
    let reached = reach(alloc, space, path)?;
    Ok(set_attributes(reached, mode, time, ids))
}

fn stat<S: Space>(alloc: Global, space: &mut S, path: &Path, ids: Ids) -> Result<Plan, Fault>
    requires { IsReady (S.state space.old) }

    ensures planned { (m : Namespace) → S.StandsFor space.old m → IfOk result (λ plan. outcome_of plan ≡ outcome m ids (Op.Stat path.now)) }
    ensures valid { IfOk result (IsPlan ids) }
    ensures uses { IfOk result (Uses false) }
    ensures reads { HasRead S.StandsFor S.follows S.state space.old space.new result }
{
    match look(alloc, space, path)? {
        Looked::Refused(answer) => Ok(Plan::Answer(answer)),
        Looked::Found(entry) => Ok(Plan::Answer(OpReply::Entry(entry))),
    }
}

fn list<S: Space>(alloc: Global, space: &mut S, path: &Path, ids: Ids) -> Result<Plan, Fault>
    requires { IsReady (S.state space.old) }

    ensures planned { (m : Namespace) → S.StandsFor space.old m → IfOk result (λ plan. outcome_of plan ≡ outcome m ids (Op.List path.now)) }
    ensures valid { IfOk result (IsPlan ids) }
    ensures uses { IfOk result (Uses false) }
    ensures reads { HasRead S.StandsFor S.follows S.state space.old space.new result }
{
    match look(alloc, space, path)? {
        Looked::Refused(answer) => Ok(Plan::Answer(answer)),
        Looked::Found(Entry::File { .. }) => Ok(Plan::Answer(OpReply::NotDir)),
        Looked::Found(Entry::Dir { id, .. }) => {
            let listing = space.list(id)?;
            Ok(Plan::Answer(OpReply::Listing(listing)))
        }
    }
}

fn remove_dir<S: Space>(alloc: Global, space: &mut S, path: &Path, ids: Ids) -> Result<Plan, Fault>
    requires ready { IsReady (S.state space.old) }
    requires ids { AreIds ids }

    ensures planned { (m : Namespace) → S.StandsFor space.old m → IfOk result (λ plan. outcome_of plan ≡ outcome m ids (Op.Rmdir path.now)) }
    ensures valid { IfOk result (IsPlan ids) }
    ensures uses { IfOk result (Uses false) }
    ensures reads { HasRead S.StandsFor S.follows S.state space.old space.new result }
{
    let spot = match reach(alloc, space, path)? {
        Reached::Refused(answer) => return Ok(Plan::Answer(answer)),
        Reached::At(spot) => spot,
    };
    if let Some(answer) = blocked(space, removal(&spot.found))? {
        return Ok(Plan::Answer(answer));
    }
    Ok(one(ids, del(spot.key), false))
}

// The refusal that what was met gives: a directory may have no child.
fn blocked<S: Space>(space: &mut S, hit: Hit) -> Result<Option<OpReply>, Fault>
    requires ready { IsReady (S.state space.old) }
    requires hit { IsHit hit }

    ensures blocked { (m : Namespace) → S.StandsFor space.old m → IfOk result (λ blocked. (o : Outcome) → on_hit m hit o ≡ on_unblocked blocked o) }
    ensures valid { IfOk result (λ blocked. IfSome blocked IsRefusal) }
    ensures reads { HasRead S.StandsFor S.follows S.state space.old space.new result }
{
    match hit {
        Hit::Free => Ok(None),
        Hit::Refused(answer) => Ok(Some(answer)),
        Hit::Dir(id) => {
            if space.any_child(id)? {
                Ok(Some(OpReply::NotEmpty))
            } else {
                Ok(None)
            }
        }
    }
}

fn rename<S: Space>(
    alloc: Global,
    space: &mut S,
    from: &Path,
    to: &Path,
    ids: Ids,
) -> Result<Plan, Fault>
    requires ready { IsReady (S.state space.old) }
    requires ids { AreIds ids }

    ensures planned { (m : Namespace) → S.StandsFor space.old m → IfOk result (λ plan. outcome_of plan ≡ outcome m ids (Op.Rename from.now to.now)) }
    ensures valid { IfOk result (IsPlan ids) }
    ensures uses { IfOk result (Uses false) }
    ensures reads { HasRead S.StandsFor S.follows S.state space.old space.new result }
{
    if to.len() == 0 {
        return Ok(Plan::Answer(OpReply::Root));
    }
    let source = match reach(alloc, space, from)? {
        Reached::Refused(answer) => return Ok(Plan::Answer(answer)),
        Reached::At(spot) => spot,
    };
    let Spot { key, found, .. } = source;
    match found {
        None => Ok(Plan::Answer(OpReply::NoEnt)),
        Some(entry) => take(alloc, space, key, entry, to, ids),
    }
}

// Takes an entry from its key to where a path leads.
fn take<S: Space>(
    alloc: Global,
    space: &mut S,
    from: Key,
    entry: Entry,
    to: &Path,
    ids: Ids,
) -> Result<Plan, Fault>
    requires ready { IsReady (S.state space.old) }
    requires from { IsKey from }
    requires entry { IsEntry entry }
    requires ids { AreIds ids }

    ensures planned { (m : Namespace) → S.StandsFor space.old m → IfOk result (λ plan. outcome_of plan ≡ below_root m to.now (moves m ids from entry)) }
    ensures valid { IfOk result (IsPlan ids) }
    ensures uses { IfOk result (Uses false) }
    ensures reads { HasRead S.StandsFor S.follows S.state space.old space.new result }
{
    match reach(alloc, space, to)? {
        Reached::Refused(answer) => Ok(Plan::Answer(answer)),
        Reached::At(target) => place(space, from, entry, target, ids),
    }
}

// Takes an entry from its key to a place that was reached.
fn place<S: Space>(
    space: &mut S,
    from: Key,
    entry: Entry,
    target: Spot,
    ids: Ids,
) -> Result<Plan, Fault>
    requires ready { IsReady (S.state space.old) }
    requires from { IsKey from }
    requires entry { IsEntry entry }
    requires target { IsKey target.key }
    requires ids { AreIds ids }

    ensures planned { (m : Namespace) → S.StandsFor space.old m → IfOk result (λ plan. outcome_of plan ≡ moves m ids from entry (walked_of target) target.key) }
    ensures valid { IfOk result (IsPlan ids) }
    ensures uses { IfOk result (Uses false) }
    ensures reads { HasRead S.StandsFor S.follows S.state space.old space.new result }
{
    if from.cmp(&target.key).is_eq() {
        return Ok(Plan::Answer(OpReply::Done));
    }
    if is_among(&entry, &target.passed) {
        return Ok(Plan::Answer(OpReply::Inside));
    }
    if let Some(answer) = blocked(space, meeting(&entry, &target.found))? {
        return Ok(Plan::Answer(answer));
    }
    Ok(two(ids, del(from), put(target.key, entry)))
}
