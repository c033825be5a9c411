//! Laws of the definitions, as the contract of a function that does nothing.
ghost use Rattle.dfs_space.specs.Span.{FirstKeyIsLeast, NextDirIsLeast, SpanIsDir};

/// The keys of a directory are those from its first key up to the first key of the next identity.
pub fn span_laws()
    ensures first { FirstKeyIsLeast }
    ensures next { NextDirIsLeast }
    ensures span { SpanIsDir }
{}
