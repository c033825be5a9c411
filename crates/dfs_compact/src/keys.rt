//! The first keys of the blocks of runs.

ghost use Rattle.std.specs.Prelude.{◌≡◌, ◌++◌, map, IfOk, OnOk};
ghost use Rattle.dfs_table.specs.Tables.{all_fences};
ghost use Rattle.dfs_compact.specs.Parts.{first_keys};

use dfs_record::{Key, NoMemory};
use dfs_table::{Run, Table};
use std::alloc::Global;
use std::rc::Rc;

/// The first key of each block of the runs.
pub(crate) fn keys_of(alloc: Global, sources: &[Rc<Run>]) -> Result<Vec<Key>, NoMemory>
    ensures { IfOk result (λ keys. keys.items ≡ first_keys (map (λ r. r.value) sources.now)) }
{
    let mut keys = Vec::new(alloc);
    for run in sources {
        add_run(alloc, run, &mut keys)?;
    }
    Ok(keys)
}

// Adds the first keys of the run's blocks.
fn add_run(alloc: Global, run: &Run, keys: &mut Vec<Key>) -> Result<(), NoMemory>
    ensures { OnOk result (keys.new.items ≡ keys.old.items ++ map (λ f. f.first) (all_fences run.now.tables)) }
{
    for index in 0..run.tables.len() {
        add_table(alloc, run.tables.get(index), keys)?;
    }
    Ok(())
}

// Adds the first keys of the table's blocks.
fn add_table(alloc: Global, table: &Table, keys: &mut Vec<Key>) -> Result<(), NoMemory>
    ensures { OnOk result (keys.new.items ≡ keys.old.items ++ map (λ f. f.first) table.now.fences) }
{
    for index in 0..table.fences.len() {
        let first = table.fences.get(index).first.copy(alloc)?;
        let Ok(()) = keys.push(first) else {
            return Err(NoMemory);
        };
    }
    Ok(())
}
