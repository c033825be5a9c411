//! Runs that are written to a log.

ghost use Rattle.std.specs.Prelude.{◌≡◌, ◌≤◌, ◌<◌, ◌+◌, ◌*◌, ◌++◌, ◌∷◌, ◌⊎◌, ◌↔◌, ℕ, List, [], length, take, Some, true, IsFalse, IsTrue, IsErrOf, IfOk, OnOk, OnErr};
ghost use Rattle.std.specs.List.{AllByRecursion, sum_by};
ghost use Rattle.dfs_host.specs.Fault.{HasFaultCause};
ghost use Rattle.dfs_host.specs.Host.{Told, bytes_of, Only};
ghost use Rattle.dfs_record.specs.declared.Key.{Key};
ghost use Rattle.dfs_record.specs.declared.Record.{Record};
ghost use Rattle.dfs_record.specs.Delta.{delta};
ghost use Rattle.dfs_record.specs.Lend.{key_of, record_of};
ghost use Rattle.dfs_record.specs.Record.{IsRecord};
ghost use Rattle.dfs_record.specs.Records.{KeysRise};
ghost use Rattle.dfs_block.specs.Block.{IsAboveLast, IsBlock, block_bytes, first_key, last_key};
ghost use Rattle.dfs_fence.specs.declared.fence.Fence.{Fence};
ghost use Rattle.dfs_fence.specs.Index.{AreApart, IsFence, IsIndex, index_bytes, last_end, most_fences};
ghost use Rattle.dfs_fence.specs.Index.{IsAboveLast as IsAboveEnd};
ghost use Rattle.dfs_log.specs.Logs.{LogStands};
ghost use Rattle.dfs_table.specs.Appending.{Appends, HasAppended};
ghost use Rattle.dfs_table.specs.Steps.{ClosesBlock, ClosesTable, EndsRun, IsReady, States};
ghost use Rattle.dfs_table.specs.Counts.{count_of};
ghost use Rattle.dfs_table.specs.Stored.{IsStored, run_records};
ghost use Rattle.dfs_table.specs.Tables.{all_fences};
ghost use Rattle.dfs_table.specs.Writer.{AddsBlock, AddsTable, AreIn, Fits, IsFull, IsOneTooMany, IsSound, WriterStands, count_in, fences_of, fresh, owed, pushed, table_len, wrote};

use crate::{BlockBytes, Run, Table, Tables};
use dfs_block::{Block, BlockBuilder};
use dfs_fence::{Fence, Fences};
use dfs_host::{Fault, Host};
use dfs_log::LogWriter;
use dfs_record::{NoMemory, RecordRef};
use std::alloc::Global;
use std::marker::Model;
use std::mem;

/// The most blocks of a table.
const MOST_BLOCKS: usize = 4096;

/// The writer of a run. It holds one block, and what it keeps of each table: the fences, and until tables are read block by block
/// also the bytes of its blocks.
#[derive(Drop)]
pub struct TableWriter {
    alloc: Global,
    block: BlockBuilder,
    fences: Fences,
    blocks: BlockBytes,
    closed: Tables,
    tables_left: u32,
    spent: bool,
}

impl Model for TableWriter {
    ghost use Rattle.std.specs.Prelude.{◌≡◌, false};
    ghost use Rattle.dfs_table.specs.Writer.{WriterState, IsSound};

    ghost Value = { WriterState };

    ghost view = { λ w. record { closed = w.closed; fences = w.fences; blocks = w.blocks; records = w.block; tables_left = w.tables_left; spent = w.spent } };

    ghost invariant = { λ w. w.spent ≡ false → IsSound (record { closed = w.closed; fences = w.fences; blocks = w.blocks; records = w.block; tables_left = w.tables_left; spent = w.spent }) };
}

impl TableWriter {
    /// The writer of a run of at most so many tables. It takes room for one block.
    pub fn new(alloc: Global, tables_left: u32) -> Result<TableWriter, NoMemory>
        ensures { IfOk result (λ writer. writer ≡ fresh tables_left) }
    {
        Ok(TableWriter {
            alloc,
            block: BlockBuilder::new(alloc)?,
            fences: Fences::new(alloc),
            blocks: BlockBytes::new(alloc),
            closed: Tables::new(alloc),
            tables_left,
            spent: false,
        })
    }

    /// Adds a record, whose key is above that of the last one. The log is that of the earlier calls. A block is written when the
    /// next record would carry it past 4,096 bytes, and an index when its table has 4,096 blocks. After a fault the writer and the
    /// log are spent.
    pub fn push<H: Host>(
        &mut self,
        host: &mut H,
        log: &mut LogWriter,
        rec: RecordRef<'_>,
    ) -> Result<(), Fault>
        requires valid { IsRecord (record_of rec) }
        requires above { IsAboveLast (last_key self.old.records) (key_of rec.key) }
        requires live { IsFalse self.old.spent }
        requires log_live { IsFalse log.old.spent }
        requires file { AreIn log.old.file self.old.closed }
        requires log { Told (H.state host.old) (LogStands (H.state host.old) log.old) }
        requires stands { Told (H.state host.old) (WriterStands (bytes_of (H.state host.old) log.old.file) self.old) }

        // The record is the last of those that the writer was given.
        ensures pushed { Told (H.state host.old) (OnOk result (pushed (bytes_of (H.state host.new) log.old.file) self.new ≡ pushed (bytes_of (H.state host.old) log.old.file) self.old ++ record_of rec.entry ∷ [])) }
        ensures stands { Told (H.state host.old) (OnOk result (WriterStands (bytes_of (H.state host.new) log.old.file) self.new)) }
        ensures log { Told (H.state host.old) (OnOk result (LogStands (H.state host.new) log.new)) }
        ensures last { OnOk result (last_key self.new.records ≡ Some (key_of rec.entry.key)) }
        ensures file { OnOk result (AreIn log.old.file self.new.closed) }
        ensures tables_left { self.new.tables_left ≡ self.old.tables_left }

        // It goes into the block under way exactly where it fits there, and then host and log are as before. Where it does not, what
        // is not written yet becomes one block at the log's end, and it begins the next one. A table is closed with 4,096 blocks, and
        // its index begins behind the last one.
        ensures fits { Fits self.old (record_of rec.entry) → OnOk result (self.new ≡ record self.old { records = self.old.records ++ record_of rec.entry ∷ [] }) }
        ensures untouched { Fits self.old (record_of rec.entry) → (H.state host.new ≡ H.state host.old) × OnOk result (log.new ≡ log.old) }
        ensures untouched_but_spent { Fits self.old (record_of rec.entry) → OnErr result (log.new ≡ record log.old { spent = true }) }
        ensures begins { ¬ (Fits self.old (record_of rec.entry)) → OnOk result ((self.new.records ≡ record_of rec.entry ∷ []) × AddsBlock log.old.len self.old self.new) }
        ensures full_tables { OnOk result (AllByRecursion IsFull self.new.closed) }
        ensures count { OnOk result (count_in self.new ≡ count_in self.old + 1) }
        ensures enough { OnOk result (4096 * length self.new.closed ≤ count_in self.new) }

        // What the log had stays, also where a device call failed.
        ensures before { Told (H.state host.old) (take log.old.len (bytes_of (H.state host.new) log.old.file) ≡ bytes_of (H.state host.old) log.old.file) }

        // `LogFull` exactly where the log refused a piece or one table too many would be begun, but for want of memory and a disk fault.
        ensures full { IsErrOf result Fault.LogFull → (0 < log.new.refused) ⊎ IsOneTooMany self.old (record_of rec.entry) }
        ensures refused { 0 < log.new.refused → IsErrOf result Fault.LogFull }
        ensures over { 0 < log.new.refused → log.new.limit < log.new.len + log.new.refused }
        ensures one_too_many { IsOneTooMany self.old (record_of rec.entry) → OnOk result ⊥ }
        ensures never_changed { (file at : ℕ) → IsErrOf result (Fault.Changed file at) → ⊥ }

        // The log grows by blocks and indexes alone.
        ensures wrote { OnOk result (log.new.len + wrote self.old ≡ log.old.len + wrote self.new) }

        // A record costs the log at most 1,100 bytes, those not yet written and a refused piece counted.
        ensures growth { OnOk result (log.new.len + owed self.new ≤ log.old.len + owed self.old + 1100) }
        ensures growth_at_most { log.new.len + log.new.refused ≤ log.old.len + owed self.old + 1100 }

        ensures only { Only log.old.file (H.state host.old) (H.state host.new) }
        ensures cause { HasFaultCause (H.state host.old) (H.state host.new) result }
        ensures reads { (H.state host.new).reads ≡ (H.state host.old).reads }
        ensures same { (log.new.file ≡ log.old.file) × (log.new.limit ≡ log.old.limit) }
        ensures live { OnOk result (IsFalse self.new.spent × IsFalse log.new.spent) }
        ensures spent { OnErr result (IsTrue self.new.spent) }
        ensures log_spent { OnErr result (IsTrue log.new.spent) }
    {
        self.spent = true;
        match self.place(host, log, rec) {
            Ok(()) => {
                self.spent = false;
                Ok(())
            }
            Err(fault) => {
                log.spend();
                Err(fault)
            }
        }
    }

    /// Writes the block under way and the index of its table, and answers the run of all records that the writer was given. Without
    /// one it has no table, and nothing is written. After a fault the log is spent.
    pub fn finish<H: Host>(self, host: &mut H, log: &mut LogWriter) -> Result<Run, Fault>
        requires live { IsFalse self.spent }
        requires log_live { IsFalse log.old.spent }
        requires file { AreIn log.old.file self.closed }
        requires log { Told (H.state host.old) (LogStands (H.state host.old) log.old) }
        requires stands { Told (H.state host.old) (WriterStands (bytes_of (H.state host.old) log.old.file) self) }

        // The run is stored in the log's file for the change set of the records, which are its own in order.
        ensures stored { Told (H.state host.old) (IfOk result (λ run. IsStored (bytes_of (H.state host.new) log.old.file) run (delta (pushed (bytes_of (H.state host.old) log.old.file) self)))) }
        ensures records { Told (H.state host.old) (IfOk result (λ run. run_records (bytes_of (H.state host.new) log.old.file) run.tables ≡ pushed (bytes_of (H.state host.old) log.old.file) self)) }
        ensures none { self.records ≡ [] → IfOk result (λ run. run.tables ≡ []) × (H.state host.new ≡ H.state host.old) }
        // What is not written yet becomes the last block of one last table, at the log's end, and the index begins behind it. The tables
        // before it stay.
        ensures last { 1 ≤ length self.records → IfOk result (λ run. AddsTable log.old.len self run.tables) }
        ensures count { IfOk result (λ run. count_of (all_fences run.tables) ≡ count_in self) }
        ensures file { IfOk result (λ run. AreIn log.old.file run.tables) }
        ensures few { IfOk result (λ run. length run.tables ≤ self.tables_left) }
        ensures log { Told (H.state host.old) (OnOk result (LogStands (H.state host.new) log.new)) }

        // What the log had stays, also where a device call failed.
        ensures before { Told (H.state host.old) (take log.old.len (bytes_of (H.state host.new) log.old.file) ≡ bytes_of (H.state host.old) log.old.file) }

        // `LogFull` exactly where the log refused a piece.
        ensures full { IsErrOf result Fault.LogFull ↔ (0 < log.new.refused) }
        ensures over { 0 < log.new.refused → log.new.limit < log.new.len + log.new.refused }
        ensures never_changed { (file at : ℕ) → IsErrOf result (Fault.Changed file at) → ⊥ }

        // The log grows by the run's blocks and indexes alone.
        ensures wrote { IfOk result (λ run. log.new.len + wrote self ≡ log.old.len + sum_by table_len run.tables) }
        ensures growth { log.new.len + log.new.refused ≤ log.old.len + owed self }
        ensures only { Only log.old.file (H.state host.old) (H.state host.new) }
        ensures cause { HasFaultCause (H.state host.old) (H.state host.new) result }
        ensures reads { (H.state host.new).reads ≡ (H.state host.old).reads }
        ensures same { (log.new.file ≡ log.old.file) × (log.new.limit ≡ log.old.limit) }
        ensures live { OnOk result (IsFalse log.new.spent) }
        ensures log_spent { OnErr result (IsTrue log.new.spent) }
    {
        let mut writer = self;
        writer.spent = true;
        match writer.close(host, log) {
            Ok(()) => Ok(Run {
                tables: writer.closed,
            }),
            Err(fault) => {
                log.spend();
                Err(fault)
            }
        }
    }

    // Writes what is not written yet.
    fn close<H: Host>(&mut self, host: &mut H, log: &mut LogWriter) -> Result<(), Fault>
        requires sound { IsSound self.old }
        requires spent { IsTrue self.old.spent }
        requires live { IsFalse log.old.spent }
        requires file { AreIn log.old.file self.old.closed }
        requires log { Told (H.state host.old) (LogStands (H.state host.old) log.old) }
        requires stands { Told (H.state host.old) (WriterStands (bytes_of (H.state host.old) log.old.file) self.old) }

        ensures pushed { Told (H.state host.old) (OnOk result (pushed (bytes_of (H.state host.new) log.old.file) self.new ≡ pushed (bytes_of (H.state host.old) log.old.file) self.old)) }
        ensures stands { Told (H.state host.old) (OnOk result (WriterStands (bytes_of (H.state host.new) log.old.file) self.new)) }
        ensures log { Told (H.state host.old) (OnOk result (LogStands (H.state host.new) log.new)) }
        ensures rise { OnOk result (AreApart (all_fences self.new.closed)) }
        ensures count { OnOk result (count_of (all_fences self.new.closed) ≡ count_in self.old) }
        ensures written { OnOk result ((self.new.records ≡ []) × (self.new.fences ≡ []) × (self.new.blocks ≡ [])) }
        ensures none { self.old.records ≡ [] → OnOk result (self.new.closed ≡ []) × (H.state host.new ≡ H.state host.old) }
        ensures last { 1 ≤ length self.old.records → OnOk result (AddsTable log.old.len self.old self.new.closed) }
        ensures file { OnOk result (AreIn log.old.file self.new.closed) }
        ensures few { OnOk result (length self.new.closed ≤ self.old.tables_left) }
        ensures live { OnOk result (IsFalse log.new.spent) }
        ensures full { IsErrOf result Fault.LogFull ↔ (0 < log.new.refused) }
        ensures failed { IsErrOf result Fault.Disk → IsTrue log.new.spent }
        ensures never_changed { (file at : ℕ) → IsErrOf result (Fault.Changed file at) → ⊥ }
        ensures wrote { OnOk result (log.new.len + wrote self.old ≡ log.old.len + wrote self.new) }
        ensures growth { log.new.len + log.new.refused ≤ log.old.len + owed self.old }
        ensures left { Appends (H.state host.old) (H.state host.new) log.old log.new }
        ensures cause { HasFaultCause (H.state host.old) (H.state host.new) result }
    {
        // Read here, since the length is within the limit of every log.
        let _ = log.len();
        if self.block.count() == 0 {
            return Ok(());
        }
        self.close_block(host, log)?;
        self.close_table(host, log)?;
        Ok(())
    }

    // Puts the record into the block under way, or into the next one.
    fn place<H: Host>(
        &mut self,
        host: &mut H,
        log: &mut LogWriter,
        rec: RecordRef<'_>,
    ) -> Result<(), Fault>
        requires valid { IsRecord (record_of rec) }
        requires above { IsAboveLast (last_key self.old.records) (key_of rec.key) }
        requires sound { IsSound self.old }
        requires spent { IsTrue self.old.spent }
        requires live { IsFalse log.old.spent }
        requires file { AreIn log.old.file self.old.closed }
        requires log { Told (H.state host.old) (LogStands (H.state host.old) log.old) }
        requires stands { Told (H.state host.old) (WriterStands (bytes_of (H.state host.old) log.old.file) self.old) }

        ensures pushed { Told (H.state host.old) (OnOk result (pushed (bytes_of (H.state host.new) log.old.file) self.new ≡ pushed (bytes_of (H.state host.old) log.old.file) self.old ++ record_of rec.entry ∷ [])) }
        ensures stands { Told (H.state host.old) (OnOk result (WriterStands (bytes_of (H.state host.new) log.old.file) self.new)) }
        ensures log { Told (H.state host.old) (OnOk result (LogStands (H.state host.new) log.new)) }
        ensures last { OnOk result (last_key self.new.records ≡ Some (key_of rec.entry.key)) }
        ensures file { OnOk result (AreIn log.old.file self.new.closed) }
        ensures fits { Fits self.old (record_of rec.entry) → OnOk result (self.new ≡ record self.old { records = self.old.records ++ record_of rec.entry ∷ [] }) }
        ensures untouched { Fits self.old (record_of rec.entry) → (H.state host.new ≡ H.state host.old) × (log.new ≡ log.old) }
        ensures begins { ¬ (Fits self.old (record_of rec.entry)) → OnOk result ((self.new.records ≡ record_of rec.entry ∷ []) × AddsBlock log.old.len self.old self.new) }
        ensures count { OnOk result (count_in self.new ≡ count_in self.old + 1) }
        ensures sound { OnOk result (IsSound self.new) }
        ensures live { OnOk result (IsFalse log.new.spent) }
        ensures full { IsErrOf result Fault.LogFull → (0 < log.new.refused) ⊎ IsOneTooMany self.old (record_of rec.entry) }
        ensures refused { 0 < log.new.refused → IsErrOf result Fault.LogFull }
        ensures one_too_many { IsOneTooMany self.old (record_of rec.entry) → OnOk result ⊥ }
        ensures failed { IsErrOf result Fault.Disk → IsTrue log.new.spent }
        ensures never_changed { (file at : ℕ) → IsErrOf result (Fault.Changed file at) → ⊥ }
        ensures wrote { OnOk result (log.new.len + wrote self.old ≡ log.old.len + wrote self.new) }
        ensures growth { OnOk result (log.new.len + owed self.new ≤ log.old.len + owed self.old + 1100) }
        ensures growth_at_most { log.new.len + log.new.refused ≤ log.old.len + owed self.old + 1100 }
        ensures left { Appends (H.state host.old) (H.state host.new) log.old log.new }
        ensures cause { HasFaultCause (H.state host.old) (H.state host.new) result }
        ensures same { (self.new.tables_left ≡ self.old.tables_left) × (self.new.spent ≡ self.old.spent) }
    {
        // Read here, since the length is within the limit of every log.
        let _ = log.len();
        if self.block.count() == 0 && !self.may_begin() {
            return Err(Fault::LogFull);
        }
        if self.block.push(rec) {
            return Ok(());
        }
        self.next_block(host, log)?;
        let _ = self.block.push(rec);
        Ok(())
    }

    // Whether one more table may be begun.
    fn may_begin(&self) -> bool
        ensures { IsTrue result ↔ (length self.now.closed < self.now.tables_left) }
    {
        self.closed.len() < self.tables_left as usize
    }

    // Writes the block under way, and the index of its table where the block was the last one.
    fn next_block<H: Host>(&mut self, host: &mut H, log: &mut LogWriter) -> Result<(), Fault>
        requires some { 1 ≤ length self.old.records }
        requires sound { IsSound self.old }
        requires spent { IsTrue self.old.spent }
        requires live { IsFalse log.old.spent }
        requires file { AreIn log.old.file self.old.closed }
        requires log { Told (H.state host.old) (LogStands (H.state host.old) log.old) }
        requires stands { Told (H.state host.old) (WriterStands (bytes_of (H.state host.old) log.old.file) self.old) }

        ensures pushed { Told (H.state host.old) (OnOk result (pushed (bytes_of (H.state host.new) log.old.file) self.new ≡ pushed (bytes_of (H.state host.old) log.old.file) self.old)) }
        ensures stands { Told (H.state host.old) (OnOk result (WriterStands (bytes_of (H.state host.new) log.old.file) self.new)) }
        ensures log { Told (H.state host.old) (OnOk result (LogStands (H.state host.new) log.new)) }
        ensures file { OnOk result (AreIn log.old.file self.new.closed) }
        ensures ready { OnOk result (IsReady (last_key self.old.records) (count_in self.old) self.new) }
        ensures block { OnOk result (AddsBlock log.old.len self.old self.new) }
        ensures live { OnOk result (IsFalse log.new.spent) }
        ensures full { IsErrOf result Fault.LogFull → (0 < log.new.refused) ⊎ EndsRun self.old }
        ensures refused { 0 < log.new.refused → IsErrOf result Fault.LogFull }
        ensures one_too_many { EndsRun self.old → OnOk result ⊥ }
        ensures failed { IsErrOf result Fault.Disk → IsTrue log.new.spent }
        ensures never_changed { (file at : ℕ) → IsErrOf result (Fault.Changed file at) → ⊥ }
        ensures wrote { OnOk result (log.new.len + wrote self.old ≡ log.old.len + wrote self.new) }
        ensures growth { OnOk result (log.new.len + owed self.new ≤ log.old.len + owed self.old) }
        ensures growth_at_most { log.new.len + log.new.refused ≤ log.old.len + owed self.old }
        ensures left { Appends (H.state host.old) (H.state host.new) log.old log.new }
        ensures cause { HasFaultCause (H.state host.old) (H.state host.new) result }
        ensures same { (self.new.tables_left ≡ self.old.tables_left) × (self.new.spent ≡ self.old.spent) }
    {
        self.close_block(host, log)?;
        if self.fences.len() < MOST_BLOCKS {
            return Ok(());
        }
        self.close_table(host, log)?;
        if self.may_begin() {
            Ok(())
        } else {
            Err(Fault::LogFull)
        }
    }

    // Writes the block under way.
    fn close_block<H: Host>(&mut self, host: &mut H, log: &mut LogWriter) -> Result<(), Fault>
        requires some { 1 ≤ length self.old.records }
        requires sound { IsSound self.old }
        requires spent { IsTrue self.old.spent }
        requires live { IsFalse log.old.spent }
        requires log { Told (H.state host.old) (LogStands (H.state host.old) log.old) }

        ensures block { IsBlock (block_bytes self.old.records) self.old.records }
        ensures closes { OnOk result (ClosesBlock log.old.len self.old self.new) }
        ensures appended { OnOk result (HasAppended (H.state host.old) (H.state host.new) log.old log.new (block_bytes self.old.records)) }
        ensures full { IsErrOf result Fault.LogFull ↔ (0 < log.new.refused) }
        ensures failed { IsErrOf result Fault.Disk → IsTrue log.new.spent }
        ensures never_changed { (file at : ℕ) → IsErrOf result (Fault.Changed file at) → ⊥ }
        ensures growth { log.new.len + log.new.refused ≤ log.old.len + length (block_bytes self.old.records) }
        ensures left { Appends (H.state host.old) (H.state host.new) log.old log.new }
        ensures cause { HasFaultCause (H.state host.old) (H.state host.new) result }
        ensures same { (self.new.tables_left ≡ self.old.tables_left) × (self.new.spent ≡ self.old.spent) }
    {
        write_block(
            self.alloc,
            host,
            log,
            &self.block,
            &mut self.fences,
            &mut self.blocks,
        )?;
        self.block.clear();
        Ok(())
    }

    // Writes the index of the table under way.
    fn close_table<H: Host>(&mut self, host: &mut H, log: &mut LogWriter) -> Result<(), Fault>
        requires some { 1 ≤ length self.old.fences }
        requires rise { AreApart (fences_of self.old) }
        requires spent { IsTrue self.old.spent }
        requires live { IsFalse log.old.spent }
        requires log { Told (H.state host.old) (LogStands (H.state host.old) log.old) }

        ensures index { IsIndex (index_bytes self.old.fences) self.old.fences }
        ensures closes { OnOk result (ClosesTable log.old.file log.old.len self.old self.new) }
        ensures appended { OnOk result (HasAppended (H.state host.old) (H.state host.new) log.old log.new (index_bytes self.old.fences)) }
        ensures full { IsErrOf result Fault.LogFull ↔ (0 < log.new.refused) }
        ensures failed { IsErrOf result Fault.Disk → IsTrue log.new.spent }
        ensures never_changed { (file at : ℕ) → IsErrOf result (Fault.Changed file at) → ⊥ }
        ensures growth { log.new.len + log.new.refused ≤ log.old.len + length (index_bytes self.old.fences) }
        ensures left { Appends (H.state host.old) (H.state host.new) log.old log.new }
        ensures cause { HasFaultCause (H.state host.old) (H.state host.new) result }
        ensures same { (self.new.tables_left ≡ self.old.tables_left) × (self.new.spent ≡ self.old.spent) }
    {
        let (index_at, index_len) = write_index(self.alloc, host, log, &self.fences)?;
        let fences = mem::replace(&mut self.fences, Fences::new(self.alloc));
        let blocks = mem::replace(&mut self.blocks, BlockBytes::new(self.alloc));
        let Ok(table) = Table::new(self.alloc, log.file(), index_at, index_len, fences, blocks)
        else {
            return Err(Fault::NoMemory);
        };
        let Ok(()) = self.closed.push(table) else {
            return Err(Fault::NoMemory);
        };
        Ok(())
    }
}

// Writes the block, and adds its fence and its bytes to those of its table.
fn write_block<H: Host>(
    alloc: Global,
    host: &mut H,
    log: &mut LogWriter,
    block: &BlockBuilder,
    fences: &mut Fences,
    blocks: &mut BlockBytes,
) -> Result<(), Fault>
    requires some { 1 ≤ length block.now }
    requires few { length fences.old < most_fences }
    requires above { (key : Key) → first_key block.now ≡ Some key → IsAboveEnd (last_end fences.old) key }
    requires live { IsFalse log.old.spent }
    requires log { Told (H.state host.old) (LogStands (H.state host.old) log.old) }

    ensures block { IsBlock (block_bytes block.now) block.now }
    ensures fence { OnOk result ((fence : Fence) × (States log.old.len block.now fence × (fences.new ≡ fences.old ++ fence ∷ []))) }
    ensures blocks { OnOk result (blocks.new ≡ blocks.old ++ block_bytes block.now) }
    ensures appended { OnOk result (HasAppended (H.state host.old) (H.state host.new) log.old log.new (block_bytes block.now)) }
    ensures full { IsErrOf result Fault.LogFull ↔ (0 < log.new.refused) }
    ensures failed { IsErrOf result Fault.Disk → IsTrue log.new.spent }
    ensures never_changed { (file at : ℕ) → IsErrOf result (Fault.Changed file at) → ⊥ }
    ensures growth { log.new.len + log.new.refused ≤ log.old.len + length (block_bytes block.now) }
    ensures left { Appends (H.state host.old) (H.state host.new) log.old log.new }
    ensures cause { HasFaultCause (H.state host.old) (H.state host.new) result }
{
    let bytes = block.bytes();
    let Ok(fence) = fence_of(alloc, bytes, log.len()) else {
        return Err(Fault::NoMemory);
    };
    if blocks.add(bytes).is_err() {
        return Err(Fault::NoMemory);
    }
    log.append(host, bytes)?;
    match fences.push(fence) {
        Ok(()) => Ok(()),
        Err(_) => Err(Fault::NoMemory),
    }
}

// The fence of a block that begins at this place.
fn fence_of(alloc: Global, bytes: &[u8], at: u64) -> Result<Fence, NoMemory>
    requires { (rs : List Record) × IsBlock bytes.now rs }
    ensures states { (rs : List Record) → IsBlock bytes.now rs → IfOk result (States at rs) }
    ensures fence { IfOk result IsFence }
{
    let Some(block) = Block::read(bytes) else {
        unreachable!();
    };
    Ok(Fence {
        at,
        len: bytes.len() as u32,
        count: block.count(),
        first: block.first_key().to_key(alloc)?,
        last: block.last_key().to_key(alloc)?,
    })
}

// Writes the index of these fences, and answers its place and length.
fn write_index<H: Host>(
    alloc: Global,
    host: &mut H,
    log: &mut LogWriter,
    fences: &Fences,
) -> Result<(u64, u32), Fault>
    requires some { 1 ≤ length fences.now }
    requires live { IsFalse log.old.spent }
    requires log { Told (H.state host.old) (LogStands (H.state host.old) log.old) }

    ensures place { IfOk result (λ place. (place.0 ≡ log.old.len) × (place.1 ≡ length (index_bytes fences.now))) }
    ensures index { IsIndex (index_bytes fences.now) fences.now }
    ensures appended { OnOk result (HasAppended (H.state host.old) (H.state host.new) log.old log.new (index_bytes fences.now)) }
    ensures full { IsErrOf result Fault.LogFull ↔ (0 < log.new.refused) }
    ensures failed { IsErrOf result Fault.Disk → IsTrue log.new.spent }
    ensures never_changed { (file at : ℕ) → IsErrOf result (Fault.Changed file at) → ⊥ }
    ensures growth { log.new.len + log.new.refused ≤ log.old.len + length (index_bytes fences.now) }
    ensures left { Appends (H.state host.old) (H.state host.new) log.old log.new }
    ensures cause { HasFaultCause (H.state host.old) (H.state host.new) result }
{
    let at = log.len();
    let mut index = Vec::new(alloc);
    let Ok(()) = fences.write(&mut index) else {
        return Err(Fault::NoMemory);
    };
    log.append(host, &index)?;
    Ok((at, index.len() as u32))
}
