//! Manifests written behind bytes.

ghost use Rattle.std.specs.Prelude.{◌≡◌, ◌≤◌, ◌++◌, OnErr, OnOk, length};
ghost use Rattle.std.specs.List.{flat_map};
ghost use Rattle.dfs_record.specs.Writing.{IsGrown};
ghost use Rattle.dfs_manifest.specs.Manifest.{extent_bytes, manifest_bytes, most_tables};

use dfs_record::NoMemory;

/// Appends the one spelling of the manifest of these tables, each the place and the length of its index. Without memory
/// `out` has the bytes that it had.
pub fn write(tables: &[(u64, u32)], out: &mut Vec<u8>) -> Result<(), NoMemory>
    requires { length tables.now ≤ most_tables }
    ensures spelled { OnOk result (out.new.items ≡ out.old.items ++ manifest_bytes tables.now) }
    ensures unchanged { OnErr result (out.new.items ≡ out.old.items) }
{
    let before = out.len();
    let written = append(tables, out);
    if written.is_err() {
        out.truncate(before);
    }
    written
}

fn append(tables: &[(u64, u32)], out: &mut Vec<u8>) -> Result<(), NoMemory>
    requires { length tables.now ≤ most_tables }
    ensures spelled { OnOk result (out.new.items ≡ out.old.items ++ manifest_bytes tables.now) }
    ensures grown { IsGrown out.old.items out.new.items }
{
    let count = tables.len() as u32;
    out.extend_from_slice(&count.to_be_bytes())?;
    append_tables(tables, out)?;
    Ok(())
}

fn append_tables(tables: &[(u64, u32)], out: &mut Vec<u8>) -> Result<(), NoMemory>
    ensures spelled { OnOk result (out.new.items ≡ out.old.items ++ flat_map extent_bytes tables.now) }
    ensures grown { IsGrown out.old.items out.new.items }
{
    for table in tables {
        append_table(*table, out)?;
    }
    Ok(())
}

fn append_table(table: (u64, u32), out: &mut Vec<u8>) -> Result<(), NoMemory>
    ensures spelled { OnOk result (out.new.items ≡ out.old.items ++ extent_bytes table) }
    ensures grown { IsGrown out.old.items out.new.items }
{
    out.extend_from_slice(&table.0.to_be_bytes())?;
    out.extend_from_slice(&table.1.to_be_bytes())?;
    Ok(())
}
