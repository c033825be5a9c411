//! Sources of two kinds.

ghost use Rattle.dfs_cursor.specs.declared.either.EitherRecords.TheVariants.{First, Second};
ghost use Rattle.dfs_cursor.specs.Either.{of_inside, ComesInside};

use dfs_record::{Head, Records};

/// A source of one kind or of another, so that both may stand in one list of sources.
#[derive(Drop)]
pub enum EitherRecords<A: Records, B: Records> {
    First(A),
    Second(B),
}

impl<A: Records, B: Records> Records for EitherRecords<A, B> {
    ghost rest = { of_inside A.rest B.rest };

    ghost unread = { of_inside A.unread B.unread };

    ghost bound = { of_inside A.bound B.bound };

    ghost Comes = { ComesInside A.Comes B.Comes };

    fn head(&self) -> Head<'_> {
        match self {
            EitherRecords::First(source) => source.head(),
            EitherRecords::Second(source) => source.head(),
        }
    }

    fn advance(&mut self) {
        match self {
            EitherRecords::First(source) => source.advance(),
            EitherRecords::Second(source) => source.advance(),
        }
    }

    ghost rest_rises = { elim [ First x ↦ A.rest_rises x | Second y ↦ B.rest_rises y ] };

    ghost bound_none = { elim [ First x ↦ A.bound_none x | Second y ↦ B.bound_none y ] };

    ghost bound_above = { elim [ First x ↦ A.bound_above x | Second y ↦ B.bound_above y ] };

    ghost comes_rises = { elim [ First x ↦ A.comes_rises x | Second y ↦ B.comes_rises y ] };

    ghost comes_begins = { elim [ First x ↦ A.comes_begins x | Second y ↦ B.comes_begins y ] };

    ghost comes_loaded = { elim [ First x ↦ A.comes_loaded x | Second y ↦ B.comes_loaded y ] };

    ghost comes_one = { elim [ First x ↦ A.comes_one x | Second y ↦ B.comes_one y ] };
}
