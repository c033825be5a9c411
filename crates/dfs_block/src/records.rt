//! The records of a block, one after the other.

ghost use Rattle.std.specs.Prelude.{◌≡◌, []};
ghost use Rattle.dfs_record.specs.Records.{KeysRise};
ghost use Rattle.dfs_block.specs.Front.{records_front};
ghost use Rattle.dfs_block.specs.Left.{records_left, IsFirst, IsFirst-prop};

use dfs_record::{Head, RecordRef, Records, decode};

/// The records of a block that were not passed yet. Their names and references are lent from the block's bytes.
#[derive(Debug, Drop)]
pub struct BlockRecords<'a> {
    pub(crate) first: Option<RecordRef<'a>>,
    left: u16,
    behind: &'a [u8],
    ghost rise: { KeysRise (records_left first left behind.now) },
    ghost valid: { IsFirst first } by { IsFirst-prop first },
}

impl<'a> BlockRecords<'a> {
    // Up to so many records that the first bytes spell.
    pub(crate) fn at(count: u16, bytes: &'a [u8]) -> BlockRecords<'a>
        requires { KeysRise (records_front count bytes.now) }
        ensures { records_left result.first result.left result.behind.now ≡ records_front count bytes.entry.now }
    {
        if count == 0 {
            return BlockRecords::none(bytes);
        }
        let Some((rec, len)) = decode(bytes) else {
            return BlockRecords::none(bytes);
        };
        let (_, behind) = bytes.split_at(len);
        BlockRecords {
            first: Some(rec),
            left: count - 1,
            behind,
        }
    }

    fn none(bytes: &'a [u8]) -> BlockRecords<'a>
        ensures { records_left result.first result.left result.behind.now ≡ [] }
    {
        BlockRecords {
            first: None,
            left: 0,
            behind: bytes,
        }
    }
}

impl Records for BlockRecords<'_> {
    ghost use Rattle.std.specs.Prelude.{◌≡◌, None, refl};
    ghost use Rattle.dfs_block.specs.Left.{records_left};
    ghost use Rattle.dfs_record.specs.Same.{same_rises, same_begins, same_one};

    ghost rest = { λ s. records_left s.first s.left s.behind.now };

    ghost unread = { λ _. 0 };

    ghost bound = { λ _. None };

    ghost Comes = { λ s files l. l ≡ records_left s.first s.left s.behind.now };

    fn head(&self) -> Head<'_> {
        match self.first {
            Some(rec) => Head::Item(rec),
            None => Head::End,
        }
    }

    fn advance(&mut self) {
        *self = BlockRecords::at(self.left, self.behind);
    }

    ghost rest_rises = { λ s. s.rise };

    ghost bound_none = { λ s. (λ _. refl, λ _. refl) };

    ghost bound_above = { λ s. tt };

    ghost comes_rises = { λ s files l e. same_rises (records_left s.first s.left s.behind.now) l s.rise e };

    ghost comes_begins = { λ s files l e. same_begins (records_left s.first s.left s.behind.now) l e };

    ghost comes_loaded = { λ s files l e _. e };

    ghost comes_one = { λ s files l m e d. same_one (records_left s.first s.left s.behind.now) l m e d };
}
