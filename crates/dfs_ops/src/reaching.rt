//! What stands at a path, before an operation decides.
ghost use Rattle.std.specs.Prelude.{◌≡◌, IfOk};
ghost use Rattle.dfs_record.specs.declared.Key.{Key};
ghost use Rattle.dfs_record.specs.declared.Entry.{Entry};
ghost use Rattle.dfs_record.specs.Namespace.{Namespace};
ghost use Rattle.dfs_space.specs.Space.{IsReady, HasRead};
ghost use Rattle.dfs_walk.specs.declared.Walked.{Walked};
ghost use Rattle.dfs_ops.specs.Op.{Outcome, below_root, found_at, at_place, with_found};
ghost use Rattle.dfs_walk.specs.Walked.{IsWalked};
ghost use Rattle.dfs_ops.specs.Plan.{on_reached, IsReached, on_looked, IsLooked};

use crate::OpReply;
use dfs_host::Fault;
use dfs_path::Path;
use dfs_record::{Entry, Key};
use dfs_space::Space;
use dfs_walk::{Passed, WalkFault, Walked, walk};
use std::alloc::Global;

/// A place, what stands there, and the directories on the way.
#[derive(Drop)]
pub struct Spot {
    pub key: Key,
    pub found: Option<Entry>,
    pub passed: Passed,
}

/// Where a changing operation goes on.
#[derive(Drop)]
pub enum Reached {
    At(Spot),
    Refused(OpReply),
}

/// What a reading operation goes on with.
#[derive(Drop)]
pub enum Looked {
    Found(Entry),
    Refused(OpReply),
}

/// The place at the end of the path, which the root has not.
pub fn reach<S: Space>(alloc: Global, space: &mut S, path: &Path) -> Result<Reached, Fault>
    requires { IsReady (S.state space.old) }

    ensures reached { (m : Namespace) → S.StandsFor space.old m → IfOk result (λ reached. (f : Walked → Key → Outcome) → below_root m path.now f ≡ on_reached reached f) }
    ensures valid { IfOk result IsReached }
    ensures reads { HasRead S.StandsFor S.follows S.state space.old space.new result }
{
    match walk(alloc, space, path) {
        Ok(walked) => Ok(place_of(walked)),
        Err(WalkFault::NoEnt) => Ok(Reached::Refused(OpReply::NoEnt)),
        Err(WalkFault::NotDir) => Ok(Reached::Refused(OpReply::NotDir)),
        Err(WalkFault::Fault(fault)) => Err(fault),
    }
}

// The place of a walk, which is none at the root.
fn place_of(walked: Walked) -> Reached
    requires { IsWalked walked }
    ensures reached { (f : Walked → Key → Outcome) → at_place walked.place (f walked) ≡ on_reached result f }
    ensures valid { IsReached result }
{
    let Walked {
        place,
        found,
        passed,
    } = walked;
    match place {
        Some(key) => Reached::At(Spot { key, found, passed }),
        None => Reached::Refused(OpReply::Root),
    }
}

// What a walk found.
fn entry_of(walked: Walked) -> Looked
    requires { IsWalked walked }
    ensures looked { (f : Entry → Outcome) → with_found walked.found f ≡ on_looked result f }
    ensures valid { IsLooked result }
{
    let Walked { found, .. } = walked;
    match found {
        Some(entry) => Looked::Found(entry),
        None => Looked::Refused(OpReply::NoEnt),
    }
}

/// What stands at the end of the path, the root's entry too.
pub fn look<S: Space>(alloc: Global, space: &mut S, path: &Path) -> Result<Looked, Fault>
    requires { IsReady (S.state space.old) }

    ensures looked { (m : Namespace) → S.StandsFor space.old m → IfOk result (λ looked. (f : Entry → Outcome) → found_at m path.now f ≡ on_looked looked f) }
    ensures valid { IfOk result IsLooked }
    ensures reads { HasRead S.StandsFor S.follows S.state space.old space.new result }
{
    match walk(alloc, space, path) {
        Ok(walked) => Ok(entry_of(walked)),
        Err(WalkFault::NoEnt) => Ok(Looked::Refused(OpReply::NoEnt)),
        Err(WalkFault::NotDir) => Ok(Looked::Refused(OpReply::NotDir)),
        Err(WalkFault::Fault(fault)) => Err(fault),
    }
}
