//! A walk of what a partition has.
ghost use Rattle.std.specs.Prelude.{◌≡◌, List, IfOk, IsTrue};
ghost use Rattle.saved_items.specs.Items.{Pair, pair_of};
ghost use Rattle.kept_items.specs.Walk.{IsPartitionPair, Steps};

use outside::NoMemory;
use saved_items::SavedPair;

/// Who goes over what a partition has, one pair after another; in a cache the oldest first.
pub trait Walks {
    /// What contracts see of what it goes over.
    type Source;

    /// No call changes it.
    ghost source: { Self → Self.Source };

    /// The pairs that are still to come.
    ghost rest: { Self → List Pair };

    /// The next pair, in place of the one that `pair` held; or false where none is left.
    fn next(&mut self, pair: &mut SavedPair) -> Result<bool, NoMemory>
        ensures next { IfOk result (λ more. Steps (rest self.old) (rest self.new) more (pair_of pair.new)) }
        ensures fits { IfOk result (λ more. IsTrue more → IsPartitionPair (pair_of pair.new)) }
        ensures same { source self.new ≡ source self.old };
}
