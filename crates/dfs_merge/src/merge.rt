//! The merge.

ghost use Rattle.std.specs.Prelude.{◌≡◌, ◌↔◌, ◌<◌, List, IfOk, length, map};
ghost use Rattle.dfs_record.specs.Delta.{merged};
ghost use Rattle.dfs_record.specs.Records.{Files};
ghost use Rattle.dfs_record.specs.declared.Record.{Record as OwnRecord};
ghost use Rattle.dfs_merge.specs.Laws.{rest_rises as merge_rises, bound_none as merge_bound_none, bound_above as merge_bound_above, comes_rises as merge_comes_rises, comes_begins as merge_comes_begins, comes_loaded as merge_comes_loaded, comes_one as merge_comes_one};
ghost use Rattle.dfs_merge.specs.Sources.{sources as sources_of, merged_rest, all_unread, least_bound, MergedComes, IsMergePassed};
ghost use Rattle.dfs_merge.specs.Tree.{IsTournament};

use crate::rank::head_at;
use crate::tree::Tree;
use dfs_record::{Head, NoMemory, Records};
use std::alloc::Global;
use std::marker::Model;

/// The merged list of its sources, oldest first: each key once, with the value of the last source that has it.
#[derive(Drop)]
pub struct Merge<C: Records> {
    sources: Vec<C>,
    tree: Option<Tree>,
}

impl<C: Records> Model for Merge<C> {
    ghost use Rattle.std.specs.Prelude.{List};
    ghost use Rattle.dfs_merge.specs.Sources.{sources as sources_of};
    ghost use Rattle.dfs_merge.specs.Tree.{IsTreeOf};

    ghost Value = { List C };

    ghost view = { λ m. m.sources.items };

    ghost invariant = { λ m. IsTreeOf (sources_of C.rest C.unread C.bound m.sources.items) m.tree };
}

impl<C: Records + Drop> Merge<C> {
    /// The merge of these sources, oldest first. It is the only call that takes memory.
    pub fn new(alloc: Global, sources: Vec<C>) -> Result<Merge<C>, NoMemory>
        ensures sources { IfOk result (λ merge. merge ≡ sources.items) }
        ensures rest { IfOk result (λ merge. ⟦<Merge<C> as Records>⟧.rest merge ≡ merged_rest (sources_of C.rest C.unread C.bound sources.items)) }
        ensures whole { all_unread (sources_of C.rest C.unread C.bound sources.items) ≡ 0 → IfOk result (λ merge. ⟦<Merge<C> as Records>⟧.rest merge ≡ merged (map C.rest sources.items)) }
        ensures unread { IfOk result (λ merge. ⟦<Merge<C> as Records>⟧.unread merge ≡ all_unread (sources_of C.rest C.unread C.bound sources.items)) }
        ensures comes { (files : Files) (l : List OwnRecord) → IfOk result (λ merge. ⟦<Merge<C> as Records>⟧.Comes merge files l ↔ MergedComes C.Comes sources.items files l) }
        ensures bound { IfOk result (λ merge. ⟦<Merge<C> as Records>⟧.bound merge ≡ least_bound (sources_of C.rest C.unread C.bound sources.items)) }
    {
        let tree = if sources.is_empty() {
            None
        } else {
            Some(Tree::build(alloc, &sources, 0, sources.len())?)
        };
        Ok(Merge { sources, tree })
    }
}

impl<C: Records> Records for Merge<C> {
    ghost rest = { λ s. merged_rest (sources_of C.rest C.unread C.bound s) };

    ghost unread = { λ s. all_unread (sources_of C.rest C.unread C.bound s) };

    ghost bound = { λ s. least_bound (sources_of C.rest C.unread C.bound s) };

    ghost Comes = { λ s files l. MergedComes C.Comes s files l };

    fn head(&self) -> Head<'_> {
        match &self.tree {
            None => Head::End,
            Some(tree) => head_at(&self.sources, tree.winner()),
        }
    }

    fn advance(&mut self) {
        if let Some(tree) = &mut self.tree {
            pass(tree, &mut self.sources);
        }
    }

    ghost rest_rises = { λ s. merge_rises (sources_of C.rest C.unread C.bound s) };

    ghost bound_none = { λ s. merge_bound_none C.rest C.unread C.bound C.bound_none s };

    ghost bound_above = { λ s. merge_bound_above C.rest C.unread C.bound C.bound_none C.bound_above s };

    ghost comes_rises = { λ s files l h. merge_comes_rises C.rest C.unread C.bound C.Comes files (λ t m e. record { rises = C.comes_rises t files m e; begins = C.comes_begins t files m e; loaded = C.comes_loaded t files m e }) s l h };

    ghost comes_begins = { λ s files l h. merge_comes_begins C.rest C.unread C.bound C.Comes files (λ t m e. record { rises = C.comes_rises t files m e; begins = C.comes_begins t files m e; loaded = C.comes_loaded t files m e }) s l h };

    ghost comes_loaded = { λ s files l h. merge_comes_loaded C.rest C.unread C.bound C.Comes files (λ t m e. record { rises = C.comes_rises t files m e; begins = C.comes_begins t files m e; loaded = C.comes_loaded t files m e }) s l h };

    ghost comes_one = { λ s files. merge_comes_one C.Comes files (λ t. C.comes_one t files) s };
}

/// Takes the first key off all sources.
fn pass<C: Records>(tree: &mut Tree, sources: &mut Vec<C>)
    requires tree { IsTournament (sources_of C.rest C.unread C.bound sources.old.items) 0 (length sources.old.items) tree.old }
    requires some { 0 < length (merged_rest (sources_of C.rest C.unread C.bound sources.old.items)) }
    ensures passed { IsMergePassed C.rest C.unread C.bound C.Comes sources.old.items sources.new.items }
    ensures tree { IsTournament (sources_of C.rest C.unread C.bound sources.new.items) 0 (length sources.new.items) tree.new }
{
    let first = tree.winner();
    let _ = tree.pass_others(sources, first);
    sources[first].advance();
    tree.replay(sources, first);
}
