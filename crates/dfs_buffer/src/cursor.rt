//! The records of a buffer, in the order of their keys.

ghost use Rattle.std.specs.Prelude.{◌≡◌, ◌<◌, List, ◌++◌, None, All, refl, length, drop, flat_map};
ghost use Rattle.std.proofs.Props.{props};
ghost use Rattle.dfs_record.specs.declared.Record.{Record as OwnRecord};
ghost use Rattle.dfs_record.specs.Record.{IsRecord};
ghost use Rattle.dfs_record.specs.Records.{KeysRise};
ghost use Rattle.dfs_record.specs.Same.{same_rises, same_begins, same_one};
ghost use Rattle.dfs_record.specs.Valid.{IsRecord-prop};

use dfs_record::{Head, Record, Records};

/// The records of a buffer that were not passed yet, all of them loaded.
#[derive(Drop)]
pub struct BufferRecords<'a> {
    records: &'a [Record],
    behind: &'a [Vec<Record>],
    ghost rises: { KeysRise (records.now ++ flat_map (λ c. c.items) behind.now) } by { Prim.hlevel props },
    ghost valid: { All IsRecord (records.now ++ flat_map (λ c. c.items) behind.now) } by { Prim.hlevel (props, IsRecord-prop) },
    ghost filled: { All (λ c. 0 < length c.items) behind.now } by { Prim.hlevel props },
    ghost begun: { 0 < length behind.now → 0 < length records.now } by { Prim.hlevel props },
}

impl<'a> BufferRecords<'a> {
    pub(crate) fn new(chunks: &'a [Vec<Record>]) -> BufferRecords<'a>
        requires rises { KeysRise (flat_map (λ c. c.items) chunks.now) }
        requires valid { All IsRecord (flat_map (λ c. c.items) chunks.now) }
        requires filled { All (λ c. 0 < length c.items) chunks.now }
        ensures { ⟦<BufferRecords<'a> as Records>⟧.rest result ≡ flat_map (λ c. c.items) chunks.entry.now }
    {
        BufferRecords::over(&[], chunks)
    }

    /// The first chunk is begun where no record stands before the chunks.
    pub(crate) fn over(records: &'a [Record], behind: &'a [Vec<Record>]) -> BufferRecords<'a>
        requires rises { KeysRise (records.now ++ flat_map (λ c. c.items) behind.now) }
        requires valid { All IsRecord (records.now ++ flat_map (λ c. c.items) behind.now) }
        requires filled { All (λ c. 0 < length c.items) behind.now }
        ensures { ⟦<BufferRecords<'a> as Records>⟧.rest result ≡ records.entry.now ++ flat_map (λ c. c.items) behind.entry.now }
    {
        let [first, others @ ..] = behind else {
            return BufferRecords { records, behind };
        };
        if records.is_empty() {
            return BufferRecords {
                records: first,
                behind: others,
            };
        }
        BufferRecords { records, behind }
    }
}

impl Records for BufferRecords<'_> {
    ghost rest = { λ s. s.records.now ++ flat_map (λ c. c.items) s.behind.now };

    ghost unread = { λ _. 0 };

    ghost bound = { λ _. None };

    ghost Comes = { λ s files l. l ≡ s.records.now ++ flat_map (λ c. c.items) s.behind.now };

    fn head(&self) -> Head<'_> {
        match self.records {
            [] => Head::End,
            [first, ..] => Head::Item(first.lend()),
        }
    }

    fn advance(&mut self) {
        *self = BufferRecords::over(&self.records[1..], self.behind);
    }

    ghost rest_rises = { λ s. s.rises };

    ghost bound_none = { λ s. (λ _. refl, λ _. refl) };

    ghost bound_above = { λ s. tt };

    ghost comes_rises = { λ s files l e. same_rises (s.records.now ++ flat_map (λ c. c.items) s.behind.now) l s.rises e };

    ghost comes_begins = { λ s files l e. same_begins (s.records.now ++ flat_map (λ c. c.items) s.behind.now) l e };

    ghost comes_loaded = { λ s files l h _. h };

    ghost comes_one = { λ s files l m e d. same_one (s.records.now ++ flat_map (λ c. c.items) s.behind.now) l m e d };
}
