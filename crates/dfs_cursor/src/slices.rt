//! Records in memory.

ghost use Rattle.std.specs.Prelude.{◌≡◌, ◌↔◌, List, [], None, All, refl, length, drop};
ghost use Rattle.std.proofs.Props.{props};
ghost use Rattle.dfs_record.specs.declared.Record.{Record as OwnRecord};
ghost use Rattle.dfs_record.specs.Record.{IsRecord};
ghost use Rattle.dfs_record.specs.Records.{Files, KeysRise};
ghost use Rattle.dfs_record.specs.Valid.{IsRecord-prop};
ghost use Rattle.dfs_record.specs.Same.{same_rises, same_begins, same_one};

use dfs_record::{Head, Record, Records};

/// The records of a slice in the order of their keys, all of them loaded.
#[derive(Debug, Drop)]
pub struct SliceRecords<'a> {
    records: &'a [Record],
    ghost rises: { KeysRise records.now } by { Prim.hlevel props },
    ghost valid: { All IsRecord records.now } by { Prim.hlevel (props, IsRecord-prop) },
}

impl<'a> SliceRecords<'a> {
    /// A source of these records, in the order that they have. Over any files just they come.
    pub fn new(records: &'a [Record]) -> SliceRecords<'a>
        requires rises { KeysRise records.now }
        requires valid { All IsRecord records.now }
        ensures rest { ⟦<SliceRecords<'a> as Records>⟧.rest result ≡ records.entry.now }
        ensures unread { ⟦<SliceRecords<'a> as Records>⟧.unread result ≡ 0 }
        ensures comes { (files : Files) (l : List OwnRecord) → ⟦<SliceRecords<'a> as Records>⟧.Comes result files l ↔ (l ≡ records.entry.now) }
    {
        SliceRecords { records }
    }
}

impl Records for SliceRecords<'_> {
    ghost rest = { λ s. s.records.now };

    ghost unread = { λ _. 0 };

    ghost bound = { λ _. None };

    ghost Comes = { λ s files l. l ≡ s.records.now };

    fn head(&self) -> Head<'_> {
        match self.records {
            [] => Head::End,
            [first, ..] => Head::Item(first.lend()),
        }
    }

    fn advance(&mut self) {
        self.records = &self.records[1..];
    }

    ghost rest_rises = { λ s. s.rises };

    ghost bound_none = { λ s. (λ _. refl, λ _. refl) };

    ghost bound_above = { λ s. tt };

    ghost comes_rises = { λ s files l e. same_rises s.records.now l s.rises e };

    ghost comes_begins = { λ s files l e. same_begins s.records.now l e };

    ghost comes_loaded = { λ s files l h _. h };

    ghost comes_one = { λ s files l m e d. same_one s.records.now l m e d };
}
