//! The jobs of the identities in records.

ghost use Rattle.std.specs.Prelude.{◌≡◌};
ghost use Rattle.std.specs.List.{list_all};
ghost use Rattle.dfs_record.specs.Lend.{record_of, value_of};
ghost use Rattle.dfs_table.specs.Identities.{is_value_within as is_value_within_job, is_within as is_within_job};

use dfs_block::Block;
use dfs_record::{Head, RecordRef, Records, ValueRef};

// Whether the identities in each record of the block are of jobs up to this one.
pub(crate) fn are_within(job: u32, block: &Block<'_>) -> bool
    ensures { result ≡ list_all (is_within_job job) block.now }
{
    let mut records = block.records();
    while let Head::Item(rec) = records.head() {
        if !is_within(job, rec) {
            return false;
        }
        records.advance();
    }
    true
}

// Whether the identities in the record are of jobs up to this one.
fn is_within(job: u32, rec: RecordRef<'_>) -> bool
    ensures { result ≡ is_within_job job (record_of rec.entry) }
{
    rec.key.parent.job <= job && is_value_within(job, rec.value)
}

fn is_value_within(job: u32, value: ValueRef<'_>) -> bool
    ensures { result ≡ is_value_within_job job (value_of value.entry) }
{
    match value {
        ValueRef::Dir { id, .. } => id.job <= job,
        ValueRef::Del | ValueRef::File { .. } => true,
    }
}
