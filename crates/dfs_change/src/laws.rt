//! Laws of the definitions, each the contract of a function that does nothing.
ghost use Rattle.dfs_change.specs.Meant.{DamagedLogsMeanNothing, HasOneChangeSet, NothingBehindMeans, WholeLogsMean};

/// A log is whole, and then has one change set, or it is damaged; the function says which.
pub fn logs_are_whole_or_damaged()
    ensures whole { WholeLogsMean }
    ensures damaged { DamagedLogsMeanNothing }
    ensures one { HasOneChangeSet }
{}

/// Bytes behind the manifest of an entry do not count.
pub fn nothing_behind_means()
    ensures { NothingBehindMeans }
{}
