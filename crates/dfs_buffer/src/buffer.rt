//! The buffer.

ghost use Rattle.std.specs.Prelude.{All, ◌≡◌, ◌<◌, ◌≤◌, ◌↔◌, List, [], ◌∷◌, ◌++◌, option_copied, IfSome, OnOk, OnErr, Some, None};
ghost use Rattle.dfs_record.specs.declared.Record.{Record as OwnRecord};
ghost use Rattle.dfs_record.specs.Delta.{records_of, last_value};
ghost use Rattle.dfs_record.specs.KeyMap.{get, len};
ghost use Rattle.dfs_record.specs.Lend.{key_of};
ghost use Rattle.dfs_record.specs.Record.{IsRecord, IsValue};
ghost use Rattle.dfs_record.specs.Records.{Files};
ghost use Rattle.dfs_cursor.specs.Ranges.{part};
ghost use Rattle.dfs_buffer.specs.Buffer.{nothing, after_put, StandsFor};

use crate::chunks::{find, from_key, put};
use crate::cursor::BufferRecords;
use dfs_record::{Key, KeyRef, NoMemory, Record, Records, Value};
use std::alloc::Global;
use std::marker::Model;

/// The last value of each key that was put since the buffer was cleared.
#[derive(Drop)]
pub struct Buffer {
    chunks: Vec<Vec<Record>>,
    made: u32,
}

impl Model for Buffer {
    ghost use Rattle.std.specs.Prelude.{flat_map};
    ghost use Rattle.dfs_record.specs.Delta.{delta};
    ghost use Rattle.dfs_buffer.specs.Buffer.{Buffered, buffered_code};
    ghost use Rattle.dfs_buffer.specs.Chunks.{IsBuffer};

    ghost Value = { Buffered };

    ghost coded = { buffered_code };

    ghost view = { λ b. record { held = delta (flat_map (λ c. c.items) b.chunks.items); made = b.made } };

    ghost invariant = { λ b. IsBuffer (λ c. c.items) b.chunks.items b.made };
}

impl Buffer {
    /// An empty buffer. Memory is taken as records come.
    pub fn new(alloc: Global) -> Buffer
        ensures empty { result ≡ nothing }
        ensures stands { StandsFor result [] }
    {
        Buffer {
            chunks: Vec::new(alloc),
            made: 0,
        }
    }

    /// Puts a record in the place of the older one with its key, if there is one.
    pub fn put(&mut self, rec: Record) -> Result<(), NoMemory>
        requires { IsRecord rec }
        ensures ok { OnOk result (self.new ≡ after_put self.old rec) }
        ensures unchanged { OnErr result (self.new ≡ self.old) }
        ensures stands { OnOk result ((rs : List OwnRecord) → StandsFor self.old rs → StandsFor self.new (rs ++ rec ∷ [])) }
    {
        put(&mut self.chunks, rec)?;
        self.made = self.made.saturating_add(1);
        Ok(())
    }

    /// The value that the key has, and `None` exactly where no record with the key was put.
    pub fn find(&self, key: KeyRef<'_>) -> Option<&Value>
        ensures value { option_copied result ≡ get self.now.held (key_of key.entry) }
        ensures valid { IfSome result (λ v. IsValue v.now) }
        ensures last { (rs : List OwnRecord) → StandsFor self.now rs → option_copied result ≡ last_value (key_of key.entry) rs }
    {
        find(&self.chunks, key)
    }

    /// Each key once, in rising order, with its last value.
    pub fn records<'a>(&'a self) -> BufferRecords<'a>
        ensures rest { ⟦<BufferRecords<'a> as Records>⟧.rest result ≡ records_of self.now.held }
        ensures unread { ⟦<BufferRecords<'a> as Records>⟧.unread result ≡ 0 }
        ensures comes { (files : Files) (l : List OwnRecord) → ⟦<BufferRecords<'a> as Records>⟧.Comes result files l ↔ (l ≡ records_of self.now.held) }
    {
        BufferRecords::new(&self.chunks)
    }

    /// The same from the key on: those whose keys are not below it. The first is found by halves.
    pub fn records_from<'a>(&'a self, low: &Key) -> BufferRecords<'a>
        ensures rest { ⟦<BufferRecords<'a> as Records>⟧.rest result ≡ part (Some low.now) None (records_of self.now.held) }
        ensures unread { ⟦<BufferRecords<'a> as Records>⟧.unread result ≡ 0 }
        ensures comes { (files : Files) (l : List OwnRecord) → ⟦<BufferRecords<'a> as Records>⟧.Comes result files l ↔ (l ≡ part (Some low.now) None (records_of self.now.held)) }
        ensures valid { All IsRecord (records_of self.now.held) }
    {
        let (records, behind) = from_key(&self.chunks, low.lend());
        BufferRecords::over(records, behind)
    }

    /// How many records were put since the buffer was cleared, counted up to the greatest `u32`.
    pub fn made(&self) -> u32
        ensures made { result ≡ self.now.made }
        // No key without a record that was put.
        ensures few { self.now.made < 4294967295 → len self.now.held ≤ self.now.made }
    {
        self.made
    }

    /// Takes all records out.
    pub fn clear(&mut self)
        ensures { self.new ≡ nothing }
    {
        self.chunks.clear();
        self.made = 0;
    }
}
