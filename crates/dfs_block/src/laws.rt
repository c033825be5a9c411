//! Laws of the definitions, each the contract of a function that does nothing.

ghost use Rattle.dfs_block.specs.Block.{HasItsLast, HasOneList, RisesByLast};

/// Bytes are the block of at most one list of records.
pub fn one_list()
    ensures { HasOneList }
{}

/// Keys go on rising exactly where the next one is above the last, and then it is the last one.
pub fn rises_by_last()
    ensures rises { RisesByLast }
    ensures last { HasItsLast }
{}
