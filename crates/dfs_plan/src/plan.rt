//! Plans over the first keys of blocks.

ghost use Rattle.std.specs.Prelude.{◌≡◌, ◌+◌, ◌*◌, ◌/◌, ◌<◌, ◌≤◌, length, IfOk, IsOk, option_copied};
ghost use Rattle.std.specs.List.Sorted.{IsPermutation};
ghost use Rattle.dfs_plan.specs.Parts.{AreSorted, boundary};
ghost use Rattle.dfs_plan.specs.Plan.{IsPlan};

use dfs_record::{Key, NoMemory};
use std::alloc::Global;
use std::marker::Model;

/// The boundaries between parts, seen as the sorted first keys of the blocks and the number of parts.
///
/// A key that is the first of several blocks stands there as often.
#[derive(Debug, Drop)]
pub struct Plan {
    keys: Vec<Key>,
    parts: u16,
}

impl Model for Plan {
    ghost use Rattle.dfs_plan.specs.Plan.{PlanState, IsPlan};

    ghost Value = { PlanState };

    ghost view = { λ plan. record { keys = plan.keys.items; parts = plan.parts } };

    ghost invariant = { λ plan. IsPlan plan.keys.items plan.parts };
}

impl Plan {
    /// The plan of so many parts over these first keys, which may come in any order.
    ///
    /// Sorting up to 20 keys needs no memory.
    pub fn new(alloc: Global, first_keys: Vec<Key>, parts: u16) -> Result<Plan, NoMemory>
        requires some { 1 ≤ parts }
        requires most { parts ≤ 256 }

        ensures parts { IfOk result (λ plan. plan.parts ≡ parts) }
        ensures sorted { IfOk result (λ plan. AreSorted plan.keys) }
        ensures keys { IfOk result (λ plan. IsPermutation first_keys.items plan.keys) }
        ensures few { length first_keys.items ≤ 20 → IsOk result }
    {
        let mut keys = first_keys;
        keys.as_mut_slice().sort(alloc)?;
        Ok(Plan { keys, parts })
    }

    /// The ends of a part: it has the keys from the first end up to, not with, the second one.
    ///
    /// None is an open end. Without first keys both ends of each part are open.
    pub fn range(&self, part: u16) -> (Option<&Key>, Option<&Key>)
        requires { part < self.now.parts }

        ensures low { option_copied result.0 ≡ boundary self.now.keys self.now.parts part }
        ensures high { option_copied result.1 ≡ boundary self.now.keys self.now.parts (part + 1) }
        ensures valid { IsPlan self.now.keys self.now.parts }
    {
        (self.boundary(part), self.boundary(part + 1))
    }

    // The outer ends have none.
    fn boundary(&self, index: u16) -> Option<&Key>
        ensures at { option_copied result ≡ boundary self.now.keys self.now.parts index }
        ensures valid { IsPlan self.now.keys self.now.parts }
    {
        if index >= self.parts || index == 0 {
            return None;
        }
        self.keys.get(self.place(index))
    }

    // Where the boundary stands among the keys.
    fn place(&self, index: u16) -> usize
        requires { index < self.now.parts }
        ensures { result ≡ index * length self.now.keys / self.now.parts }
    {
        // 64 bits do not hold each product.
        (u128::from(index) * self.keys.len() as u128 / u128::from(self.parts)) as usize
    }
}
