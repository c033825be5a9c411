//! Laws of the definitions, each the contract of a function that does nothing.
ghost use Rattle.std.specs.Cmp.{IsTotalOrder};
ghost use Rattle.std.specs.FinMap.{IsAntisymmetric};
ghost use Rattle.dfs_record.specs.Key.{key_cmp};
ghost use Rattle.dfs_record.specs.KeyMap.{AreOneByAnswers, EmptyAnswers, InsertAnswers, RemoveAnswers};
ghost use Rattle.dfs_record.specs.Delta.{IsOwnRecords, HasLastValues};
ghost use Rattle.dfs_record.specs.Namespace.{MergedReplays};
ghost use Rattle.dfs_record.specs.Records.{OwnRecordsRise, RisingAreOwn};
ghost use Rattle.dfs_record.specs.Record.{HasOneSpelling, KeyHasOneSpelling, IsSpelledOnce, KeyIsSpelledOnce, IsSpelledShort};

/// Bytes spell one record, a record has one spelling, and no spelling begins another one.
pub fn one_spelling()
    ensures once { IsSpelledOnce }
    ensures apart { HasOneSpelling }
    ensures short { IsSpelledShort }
{}

/// The same of the bytes of keys.
pub fn key_one_spelling()
    ensures once { KeyIsSpelledOnce }
    ensures apart { KeyHasOneSpelling }
{}

/// The order of keys is total, and keys that compare alike are one.
pub fn keys_ordered()
    ensures total { IsTotalOrder key_cmp }
    ensures exact { IsAntisymmetric key_cmp }
{}

/// Maps from keys with the same answer at every key are equal.
pub fn equal_maps<X>()
    ensures { AreOneByAnswers X }
{}

/// What maps from keys answer.
pub fn map_answers<X>()
    ensures empty { EmptyAnswers X }
    ensures inserted { InsertAnswers X }
    ensures removed { RemoveAnswers X }
{}

/// A change set is what its own records leave.
pub fn own_records()
    ensures { IsOwnRecords }
{}

/// A change set has the last value of each key, and records with rising keys are those of their change set.
pub fn change_sets()
    ensures last { HasLastValues }
    ensures rise { OwnRecordsRise }
    ensures own { RisingAreOwn }
{}

/// A merged change set may stand in the place of those that it was merged from.
pub fn merged_replays()
    ensures { MergedReplays }
{}
