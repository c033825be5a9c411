use crate::line::Line;
use dfs_host::{Failed, Source};
use std::marker::Model;

/// The script of a generated workload, seen as its bytes to come.
///
/// It keeps its place alone, and makes each line from there.
#[derive(Drop)]
pub struct GenSource {
    creates: u32,
    // The line to give next, and how many bytes of it were given.
    line: Option<Line>,
    given: usize,
}

impl Model for GenSource {
    ghost use Rattle.std.specs.Prelude.{ℕ, List};

    ghost Value = { List ℕ };

    ghost use Rattle.dfs_gen.specs.GenSource.{bytes_left, IsWithin};

    ghost view = { λ source. bytes_left source.creates source.line source.given };

    ghost invariant = { λ source. IsWithin source.creates source.line source.given };
}

impl GenSource {
    ghost use Rattle.std.specs.Prelude.{◌≡◌, ◌≤◌, ◌<◌, ◌++◌, [], length, take};
    ghost use Rattle.dfs_gen.specs.Script.{script};

    /// The script with so many creates.
    #[tactic(auto, unfolding(crate::specs::Script::script))]
    pub fn new(creates: u32) -> GenSource
        ensures rest { result ≡ script creates }
    {
        GenSource {
            creates,
            line: Some(Line::first(creates)),
            given: 0,
        }
    }

    // Gives what fits of the next line, and answers how many bytes that is.
    fn give(&mut self, out: &mut [u8]) -> usize
        ensures bound { result ≤ length out.old }
        ensures moved { self.old ≡ take result out.new ++ self.new }
        ensures none { 0 < length out.old → result ≡ 0 → self.old ≡ [] }
    {
        let Some(line) = self.line else {
            return 0;
        };
        let text = line.text(self.creates);
        let left = &text.bytes()[self.given..];
        let count = left.len().min(out.len());
        out[..count].copy_from_slice(&left[..count]);
        if count == left.len() {
            self.line = line.next(self.creates);
            self.given = 0;
        } else {
            self.given += count;
        }
        count
    }
}

impl Source for GenSource {
    ghost use Rattle.std.specs.Prelude.{◌≡◌, ◌≤◌, ◌<◌, ◌↔◌, [], min, length, IfOk, IsOk, OnErr, IsTrue};
    ghost use Rattle.dfs_host.specs.Counts.{HasCause};
    ghost use Rattle.dfs_host.specs.Source.{Moves};
    ghost use Rattle.dfs_gen.specs.GenSource.{source_of};

    ghost state = { source_of };

    /// Fills `out` as far as the script goes.
    ///
    /// # Errors
    ///
    /// None.
    fn take(&mut self, out: &mut [u8]) -> Result<usize, Failed>
        ensures bound { IfOk result (λ count. count ≤ length out.old) }
        ensures moved { IsTrue (source_of self.old).tells →
            IfOk result (λ count. Moves count (source_of self.old).rest (source_of self.new).rest out.new) }
        ensures end { IsTrue (source_of self.old).tells →
            0 < length out.old → IfOk result (λ count. count ≡ 0 ↔ ((source_of self.old).rest ≡ [])) }
        ensures failed { IsTrue (source_of self.old).tells →
            OnErr result ((source_of self.new).rest ≡ (source_of self.old).rest) }
        ensures tells { (source_of self.new).tells ≡ (source_of self.old).tells }
        ensures cause { HasCause (source_of self.old).faults (source_of self.new).faults result }

        // Beyond the trait.
        ensures never_fails { IsOk result }
        ensures fills { IfOk result (λ count. count ≡ min (length out.old) (length self.old)) }
    {
        let mut filled = 0;
        while filled < out.len() {
            let count = self.give(&mut out[filled..]);
            if count == 0 {
                return Ok(filled);
            }
            filled += count;
        }
        Ok(filled)
    }
}
