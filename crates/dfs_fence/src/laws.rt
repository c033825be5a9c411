//! Laws of the definitions, each the contract of a function that does nothing.

ghost use Rattle.dfs_fence.specs.Cover.{AtMostOneCovers};
ghost use Rattle.dfs_fence.specs.Index.{HasOneList, IsShort};

/// At most one fence covers a key.
pub fn one_covers()
    ensures { AtMostOneCovers }
{}

/// Bytes are the index of at most one list of fences, and an index has at most 2,220,036 bytes.
pub fn index_laws()
    ensures once { HasOneList }
    ensures short { IsShort }
{}
