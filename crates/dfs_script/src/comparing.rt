//! Words of jobs in the order of their bytes.

ghost use Rattle.std.specs.Cmp.{partial_order_from_own_ties};
ghost use Rattle.std.specs.Cmp.Lexicographic.{slice_cmp};
ghost use Rattle.std.specs.Cmp.Rules.{comparing};
ghost use Rattle.std.specs.Ordering.{nat_cmp, as_partial_cmp};
ghost use Rattle.std.specs.Str.{bytes_eq};
ghost use Rattle.std.proofs.Common.{rules};

use crate::JobWord;
use std::cmp::Ordering;

impl PartialEq for JobWord {
    ghost eq = { bytes_eq };

    ghost laws = { Prim.search (comparing, rules) };

    fn eq(&self, other: &JobWord) -> bool {
        self.bytes == other.bytes
    }
}

impl Eq for JobWord {
    ghost laws = { Prim.search (comparing, rules) };
}

impl Ord for JobWord {
    ghost cmp = { slice_cmp nat_cmp };

    ghost total = { Prim.search (comparing, rules) };

    ghost matches_partial_cmp = { Prim.search (comparing, rules) };

    ghost matches_eq = { Prim.search (comparing, rules) };

    fn cmp(&self, other: &JobWord) -> Ordering {
        self.bytes.cmp(&other.bytes)
    }
}

impl PartialOrd for JobWord {
    ghost partial_cmp = { as_partial_cmp (slice_cmp nat_cmp) };

    ghost laws = { partial_order_from_own_ties (Prim.search (comparing, rules)) (Prim.search (comparing, rules)) };

    fn partial_cmp(&self, other: &JobWord) -> Option<Ordering> {
        Some(self.cmp(other))
    }
}
