//! The law of the definitions, as the contract of a function that does nothing.

ghost use Rattle.dfs_plan.specs.Parts.{HasOnePart};

/// Each key lies in exactly one part.
pub fn one_part()
    ensures { HasOnePart }
{}
