//! Laws of the definitions, each the contract of a function that does nothing.
ghost use Rattle.dfs_ops.specs.Within.{MakesWithin, LeavesWithin, StaysWithin, LeavesEmpty, EachBounded};

/// The records of an operation on a valid namespace are valid, with the identities that the job may
/// have, and leave such a namespace, in which a directory that was made is empty.
pub fn records_within()
    ensures made { MakesWithin }
    ensures left { LeavesWithin }
    ensures stays { StaysWithin }
    ensures empty { LeavesEmpty }
{}

/// A refusal makes no record and leaves the numbers, an operation makes at most two records, and the
/// numbers after it may be given again.
pub fn outcomes_bounded()
    ensures { EachBounded }
{}
