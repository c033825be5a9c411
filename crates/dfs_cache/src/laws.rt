//! Laws of the definitions, as the contract of a function that does nothing.

ghost use Rattle.dfs_cache.specs.Runs.{GettingChangesNothing, IsForgotten, StaysFound};

/// What is found after runs of calls.
pub fn what_is_found()
    ensures put { StaysFound }
    ensures got { GettingChangesNothing }
    ensures forgotten { IsForgotten }
{}
