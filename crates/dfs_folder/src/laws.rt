ghost use Rattle.dfs_folder.specs.Names.{HasOwnName};

/// No two files have one name.
pub fn own_names()
    ensures { HasOwnName }
{}
