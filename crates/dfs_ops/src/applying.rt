ghost use Rattle.std.specs.Prelude.{◌≡◌, ◌≤◌, ◌+◌, false, [], ◌∷◌, IfOk, OnOk};
ghost use Rattle.dfs_record.specs.Namespace.{Namespace, after_record, after_records};
ghost use Rattle.dfs_record.specs.Record.{IsRecord};
ghost use Rattle.dfs_path.specs.Op.{IsOp};
ghost use Rattle.dfs_space.specs.Space.{IsReady, HasSpaceCause};
ghost use Rattle.dfs_ops.specs.Op.{outcome, ids_after, AreIds};
ghost use Rattle.dfs_ops.specs.Applied.{Applied, OnOther, IsReply};
ghost use Rattle.dfs_ops.specs.Plan.{outcome_of, IsPlan, CarriedOut};

use crate::deciding::Plan;
use crate::planning::plan;
use crate::{Ids, OpReply};
use dfs_host::Fault;
use dfs_path::Op;
use dfs_record::Record;
use dfs_space::Space;
use std::alloc::Global;

/// Applies an operation to a space, for a job with these numbers.
///
/// The job's number is at least 1, its counter is at most the number of its records, and these are
/// at most 1,048,576; this holds again after every answer but a fault. A fault comes by the causes
/// of the space's calls or for want of memory, and `LogFull` where a `store` of this call answered it; after a
/// fault nothing is said of the map and of `ids`.
pub fn apply<S: Space>(
    alloc: Global,
    space: &mut S,
    op: &Op,
    ids: &mut Ids,
) -> Result<OpReply, Fault>
    requires ready { IsReady (S.state space.old) }
    requires op { IsOp op.now }
    requires ids { AreIds ids.old }

    // What is answered, and what stands afterwards, by the definition.
    ensures answer { (m : Namespace) → S.StandsFor space.old m → IfOk result (λ answer. answer ≡ (outcome m ids.old op.now).answer) }
    ensures map { (m : Namespace) → S.StandsFor space.old m → OnOk result (S.StandsFor space.new (after_records m (outcome m ids.old op.now).records)) }
    ensures ids { (m : Namespace) → S.StandsFor space.old m → OnOk result (ids.new ≡ ids_after ids.old (outcome m ids.old op.now)) }

    // Every answer but `Done` leaves the map and the numbers, and after each they may be given again.
    ensures left { (m : Namespace) → S.StandsFor space.old m → OnOther result (S.StandsFor space.new m) }
    ensures kept { OnOther result (ids.new ≡ ids.old) }
    ensures again { OnOk result (AreIds ids.new) }

    ensures valid { IfOk result IsReply }
    ensures applied { Applied S.follows S.StandsFor space.old space.new ids.old ids.new op.now result }
    ensures cause { HasSpaceCause (S.state space.old) (S.state space.new) result }
{
    let plan = plan(alloc, space, op, *ids)?;
    carry_out(space, plan, ids)
}

// Stores the records of a plan, and counts them.
fn carry_out<S: Space>(space: &mut S, plan: Plan, ids: &mut Ids) -> Result<OpReply, Fault>
    requires ready { IsReady (S.state space.old) }
    requires ids { AreIds ids.old }
    requires plan { IsPlan ids.old plan }

    ensures answer { IfOk result (λ answer. answer ≡ (outcome_of plan).answer) }
    ensures map { (m : Namespace) → S.StandsFor space.old m → OnOk result (S.StandsFor space.new (after_records m (outcome_of plan).records)) }
    ensures again { OnOk result (AreIds ids.new) }
    ensures valid { IfOk result IsReply }
    ensures carried { CarriedOut S.follows space.old space.new ids.old ids.new (outcome_of plan) result }
    ensures cause { HasSpaceCause (S.state space.old) (S.state space.new) result }
{
    match plan {
        Plan::Answer(answer) => Ok(answer),
        Plan::One { rec, used } => store_one(space, rec, used, ids),
        Plan::Two { first, second } => store_two(space, first, second, ids),
    }
}

fn store_one<S: Space>(
    space: &mut S,
    rec: Record,
    used: bool,
    ids: &mut Ids,
) -> Result<OpReply, Fault>
    requires ready { IsReady (S.state space.old) }
    requires ids { AreIds ids.old }
    requires valid { IsRecord rec }
    requires room { ids.old.made + 1 ≤ 1048576 }

    ensures answer { IfOk result (λ answer. answer ≡ OpReply.Done) }
    ensures map { (m : Namespace) → S.StandsFor space.old m → OnOk result (S.StandsFor space.new (after_record m rec)) }
    ensures again { OnOk result (AreIds ids.new) }
    ensures carried { CarriedOut S.follows space.old space.new ids.old ids.new (record { answer = OpReply.Done; records = rec ∷ []; used = used }) result }
    ensures cause { HasSpaceCause (S.state space.old) (S.state space.new) result }
{
    space.store(rec)?;
    ids.made += 1;
    if used {
        ids.counter += 1;
    }
    Ok(OpReply::Done)
}

fn store_two<S: Space>(
    space: &mut S,
    first: Record,
    second: Record,
    ids: &mut Ids,
) -> Result<OpReply, Fault>
    requires ready { IsReady (S.state space.old) }
    requires ids { AreIds ids.old }
    requires first { IsRecord first }
    requires second { IsRecord second }
    requires room { ids.old.made + 2 ≤ 1048576 }

    ensures answer { IfOk result (λ answer. answer ≡ OpReply.Done) }
    ensures map { (m : Namespace) → S.StandsFor space.old m → OnOk result (S.StandsFor space.new (after_record (after_record m first) second)) }
    ensures again { OnOk result (AreIds ids.new) }
    ensures carried { CarriedOut S.follows space.old space.new ids.old ids.new (record { answer = OpReply.Done; records = first ∷ second ∷ []; used = false }) result }
    ensures cause { HasSpaceCause (S.state space.old) (S.state space.new) result }
{
    space.store(first)?;
    space.store(second)?;
    ids.made += 2;
    Ok(OpReply::Done)
}
