//! Laws of the definitions, each the contract of a function that does nothing.
ghost use Rattle.dfs_registry.specs.Reading.{BodiesReadBack, BodiesAreSpelled, ListsReadBack};

/// A publication's bytes are read as this publication, whatever stands behind them, and no other bytes are. A registry at rest
/// is read as its list.
pub fn what_is_written_is_read()
    ensures bodies { BodiesReadBack }
    ensures spelled { BodiesAreSpelled }
    ensures lists { ListsReadBack }
{}
