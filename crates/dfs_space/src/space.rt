ghost use Rattle.std.specs.Prelude.{◌≡◌, ◌++◌, List, [], ◌∷◌, All, IsTrue, IfOk, IfSome, OnOk, OnErr, IsErrOf};
ghost use Rattle.dfs_record.specs.KeyMap.{get};
ghost use Rattle.dfs_record.specs.Namespace.{Namespace, after_record};
ghost use Rattle.dfs_record.specs.Record.{IsKey, IsEntry, IsRecord};
ghost use Rattle.dfs_record.specs.declared.Record.{Record};
ghost use Rattle.dfs_space.specs.Children.{IsChild, children, has_child};
ghost use Rattle.dfs_space.specs.Space.{SpaceState, IsReady, HasSpaceCause};

use crate::Listing;
use dfs_host::Fault;
use dfs_record::{DirId, Entry, Key, Record};

/// What stands for a namespace, the finite map from keys to entries. One that doesn't tell what it
/// has stands for none.
///
/// A call may be made where the space is not spent and its log has refused no piece, and every
/// answer but a fault leaves it so.
pub trait Space {
    /// The space stands for the map.
    ghost StandsFor: { Self → Namespace → Type 0 };

    ghost state: { Self → SpaceState };

    /// The later state comes of the earlier one by these records, faults included.
    ghost follows: { Self → Self → List Record → Type 0 };

    /// What a fault of a call leaves of the space, which may be spent then.
    ghost AfterFault: { Self → Type 0 };

    /// What the map has at a key.
    fn lookup(&mut self, key: &Key) -> Result<Option<Entry>, Fault>
        requires ready { IsReady (state self.old) }
        requires key { IsKey key.now }

        ensures found { (m : Namespace) → StandsFor self.old m → IfOk result (λ found. found ≡ get m key.now) }
        ensures valid { IfOk result (λ found. IfSome found IsEntry) }
        ensures map { (m : Namespace) → StandsFor self.old m → StandsFor self.new m }
        ensures follows { follows self.old self.new [] }
        ensures cause { HasSpaceCause (state self.old) (state self.new) result }
        ensures after_fault { OnErr result (AfterFault self.new) }
        ensures never_full { IsErrOf result Fault.LogFull → ⊥ };

    /// Whether some key of the map has the directory as its parent.
    fn any_child(&mut self, dir: DirId) -> Result<bool, Fault>
        requires { IsReady (state self.old) }

        ensures answer { (m : Namespace) → StandsFor self.old m → IfOk result (λ answer. answer ≡ has_child m dir) }
        ensures map { (m : Namespace) → StandsFor self.old m → StandsFor self.new m }
        ensures follows { follows self.old self.new [] }
        ensures cause { HasSpaceCause (state self.old) (state self.new) result }
        ensures after_fault { OnErr result (AfterFault self.new) }
        ensures never_full { IsErrOf result Fault.LogFull → ⊥ };

    /// The names in a directory with their entries, in the order of the names' bytes.
    fn list(&mut self, dir: DirId) -> Result<Listing, Fault>
        requires { IsReady (state self.old) }

        ensures listing { (m : Namespace) → StandsFor self.old m → IfOk result (λ listing. listing ≡ children m dir) }
        ensures valid { IfOk result (All IsChild) }
        ensures map { (m : Namespace) → StandsFor self.old m → StandsFor self.new m }
        ensures follows { follows self.old self.new [] }
        ensures cause { HasSpaceCause (state self.old) (state self.new) result }
        ensures after_fault { OnErr result (AfterFault self.new) }
        ensures never_full { IsErrOf result Fault.LogFull → ⊥ };

    /// A put sets its key, a deletion removes it. After a fault nothing is said of the map.
    fn store(&mut self, rec: Record) -> Result<(), Fault>
        requires ready { IsReady (state self.old) }
        requires valid { IsRecord rec }

        ensures map { (m : Namespace) → StandsFor self.old m → OnOk result (StandsFor self.new (after_record m rec)) }
        ensures follows { follows self.old self.new (rec ∷ []) }
        ensures cause { HasSpaceCause (state self.old) (state self.new) result }
        ensures after_fault { OnErr result (AfterFault self.new) };

    ghost told: { (x : Self) (m : Namespace) → StandsFor x m → IsTrue (state x).tells };

    ghost follows_itself: { (x : Self) → follows x x [] };

    ghost follows_on: { (x y z : Self) (rs ss : List Record) → follows x y rs → follows y z ss → follows x z (rs ++ ss) };
}
