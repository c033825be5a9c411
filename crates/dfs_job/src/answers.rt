/// What became of a plan.
#[derive(Clone, Copy, Debug, PartialEq, Eq)]
pub enum Planned {
    /// It is under way.
    Made,
    /// Another one is under way.
    Busy,
    /// The job has made 65,535 of them.
    Full,
}

/// What became of a part of a plan.
#[derive(Clone, Copy, Debug, PartialEq, Eq)]
pub enum JobPart {
    /// It was merged, and others are left.
    Merged,
    /// It was merged and was the last one, so that the plan is over.
    Last,
    /// No plan is under way.
    NoPlan,
    /// The plan has no part with this number.
    Range,
    /// It was merged before.
    Done,
}
