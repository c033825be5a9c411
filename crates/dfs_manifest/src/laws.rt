//! Laws of the definitions, each the contract of a function that does nothing.

ghost use Rattle.dfs_manifest.specs.Manifest.{HasOneList, IsShort};

/// Bytes are the manifest of at most one list of tables, and a manifest has at most 1,572,868 bytes.
pub fn manifest_laws()
    ensures once { HasOneList }
    ensures short { IsShort }
{}
