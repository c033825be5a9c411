//! The layers as sources of records.

ghost use Rattle.std.specs.Prelude.{◌≡◌, ◌++◌, ◌∷◌, [], ℕ, All, map, Some, IfOk, option_copied};
ghost use Rattle.std.specs.List.{AllByRecursion};
ghost use Rattle.dfs_host.specs.Host.{HostState};
ghost use Rattle.dfs_record.specs.Delta.{delta, records_of};
ghost use Rattle.dfs_record.specs.Record.{IsRecord};
ghost use Rattle.dfs_cursor.specs.Ranges.{part};
ghost use Rattle.dfs_table.specs.declared.run.Run.{Run as AnyRun};
ghost use Rattle.dfs_view.specs.Layers.{LiesIn, Stand, layer_records, records_on, runs_of};

use crate::Layers;
use dfs_buffer::{Buffer, BufferRecords};
use dfs_cursor::{EitherRecords, RangeRecords};
use dfs_merge::Merge;
use dfs_record::{Key, NoMemory, Records};
use dfs_table::{Run, RunRecords};
use std::alloc::Global;

// A part of a run or of the open layer.
pub(crate) type Source<'a> = RangeRecords<'a, EitherRecords<RunRecords<'a>, BufferRecords<'a>>>;

/// The records of all layers from one key up to, not with, another: each key once, with its last value.
pub(crate) fn merged<'a>(
    alloc: Global,
    layers: &'a Layers,
    low: &'a Key,
    high: Option<&'a Key>,
) -> Result<Merge<Source<'a>>, NoMemory>
    ensures rest { (host : HostState) → Stand host layers.entry.now → IfOk result (λ merge. ⟦<Merge<Source<'a>> as Records>⟧.rest merge ≡ records_of (delta (part (Some low.entry.now) (option_copied high.entry) (layer_records host layers.entry.now)))) }
    ensures unread { IfOk result (λ merge. ⟦<Merge<Source<'a>> as Records>⟧.unread merge ≡ 0) }
    ensures valid { IfOk result (λ _. All IsRecord (records_of layers.entry.now.buffer.held)) }
{
    let sources = parts(alloc, layers, low, high)?;
    Merge::new(alloc, sources)
}

// Each layer from one key up to, not with, another, the open one last.
fn parts<'a>(
    alloc: Global,
    layers: &'a Layers,
    low: &'a Key,
    high: Option<&'a Key>,
) -> Result<Vec<Source<'a>>, NoMemory>
    ensures rests { (host : HostState) → Stand host layers.entry.now → IfOk result (λ sources. map ⟦<Source<'a> as Records>⟧.rest sources.items
        ≡ map (λ (r : ℕ × AnyRun). part (Some low.entry.now) (option_copied high.entry) (records_on host r.1)) (runs_of layers.entry.now) ++ part (Some low.entry.now) (option_copied high.entry) (records_of layers.entry.now.buffer.held) ∷ []) }
    ensures loaded { IfOk result (λ sources. AllByRecursion (λ s. ⟦<Source<'a> as Records>⟧.unread s ≡ 0) sources.items) }
    ensures valid { IfOk result (λ _. All IsRecord (records_of layers.entry.now.buffer.held)) }
{
    let mut sources = Vec::new(alloc);
    for index in 0..layers.runs_below() {
        let source = part_of_run(alloc, layers.run_below(index), low, high)?;
        let Ok(()) = sources.push(source) else {
            return Err(NoMemory);
        };
    }
    match sources.push(part_of_buffer(&layers.buffer, low, high)) {
        Ok(()) => Ok(sources),
        Err(_) => Err(NoMemory),
    }
}

fn part_of_run<'a>(
    alloc: Global,
    run: &'a Run,
    low: &'a Key,
    high: Option<&'a Key>,
) -> Result<Source<'a>, NoMemory>
    ensures rest { (host : HostState) (file : ℕ) → LiesIn host file run.entry.now → IfOk result (λ source. ⟦<Source<'a> as Records>⟧.rest source ≡ part (Some low.entry.now) (option_copied high.entry) (records_on host run.entry.now)) }
    ensures loaded { IfOk result (λ source. ⟦<Source<'a> as Records>⟧.unread source ≡ 0) }
{
    let records = RunRecords::new(alloc, run, Some(low), high)?;
    Ok(RangeRecords::new(EitherRecords::First(records), Some(low), high))
}

fn part_of_buffer<'a>(buffer: &'a Buffer, low: &'a Key, high: Option<&'a Key>) -> Source<'a>
    ensures rest { ⟦<Source<'a> as Records>⟧.rest result ≡ part (Some low.entry.now) (option_copied high.entry) (records_of buffer.entry.now.held) }
    ensures loaded { ⟦<Source<'a> as Records>⟧.unread result ≡ 0 }
    ensures valid { All IsRecord (records_of buffer.entry.now.held) }
{
    let records = buffer.records_from(low);
    RangeRecords::new(EitherRecords::Second(records), Some(low), high)
}
