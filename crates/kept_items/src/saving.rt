//! What is saved of a partition.
ghost use Rattle.std.specs.Prelude.{◌≡◌, ◌≤◌, OnOk, IfOk, IsErrOf, IsTrue};
ghost use Rattle.outside.specs.Faults.{Rose};
ghost use Rattle.saved_items.specs.Items.{pair_of};
ghost use Rattle.kept_items.specs.Parts.{entries_of};
ghost use Rattle.kept_items.specs.Kept.{is_kept, is_saved, kept_at};
ghost use Rattle.kept_items.specs.Walk.{IsPartitionPair, Steps, SavesAll, SavesStep};

use crate::Walks;
use memcached_commands::{Moment, is_there};
use memcached_text::read_item;
use outside::{NoMemory, Sink};
use saved_items::{
    Closing, MAX_SAVED_KEY_LEN, SavedPair, SpillFault, Spiller, close_partition, put_pair,
};

/// Whether what is stored is an item that is there: its time has not come, and no flush took it.
pub fn is_kept(at: &Moment, stored: &[u8]) -> bool
    ensures { result ≡ is_kept at.now stored.now }
{
    is_there(at, &read_item(stored))
}

/// Whether it is saved: it is there, and a file may have its key.
pub fn is_saved(at: &Moment, key: &[u8], stored: &[u8]) -> bool
    ensures { result ≡ is_saved at.now key.now stored.now }
{
    key.len() <= MAX_SAVED_KEY_LEN && is_kept(at, stored)
}

// The next pair of the walk, which fails for want of memory alone.
fn next_pair<W: Walks>(walk: &mut W, pair: &mut SavedPair) -> Result<bool, SpillFault>
    ensures next { IfOk result (λ more. Steps (W.rest walk.old) (W.rest walk.new) more (pair_of pair.new)) }
    ensures fits { IfOk result (λ more. IsTrue more → IsPartitionPair (pair_of pair.new)) }
    ensures same { W.source walk.new ≡ W.source walk.old }
    ensures no_fault { IsErrOf result SpillFault.Failed → ⊥ }
{
    match walk.next(pair) {
        Ok(more) => Ok(more),
        Err(NoMemory) => Err(SpillFault::NoMemory),
    }
}

// Saves the next pair of the walk, where it is to be saved, and says whether there was a pair.
fn save_next<K: Sink, W: Walks>(
    sink: &mut K,
    spiller: &mut Spiller,
    walk: &mut W,
    at: &Moment,
    pair: &mut SavedPair,
) -> Result<bool, SpillFault>
    ensures saves { IfOk result (λ more. SavesStep (K.taken sink.old) (K.taken sink.new) spiller.old spiller.new at.now (W.rest walk.old) (W.rest walk.new) more) }
    ensures same { W.source walk.new ≡ W.source walk.old }
    ensures cause { IsErrOf result SpillFault.Failed → Rose (K.faults sink.old) (K.faults sink.new) }
    ensures never_fall { K.faults sink.old ≤ K.faults sink.new }
{
    if !next_pair(walk, pair)? {
        return Ok(false);
    }
    if is_saved(at, pair.key.as_slice(), pair.value.as_slice()) {
        put_pair(sink, spiller, pair)?;
    }
    Ok(true)
}

/// Saves what is there of a partition at this moment, which its walk goes over, and closes it. `pair` is room that is used again.
#[tactic(auto, using(crate::proofs::Walked::so_far_first, crate::proofs::Walked::so_far_then, crate::proofs::Walked::so_far_end))]
pub fn save_part<K: Sink, W: Walks>(
    sink: &mut K,
    spiller: &mut Spiller,
    walk: &mut W,
    at: &Moment,
    closing: Closing,
    pair: &mut SavedPair,
) -> Result<(), SpillFault>
    ensures saves { OnOk result (SavesAll (K.taken sink.old) (K.taken sink.new) spiller.old spiller.new (entries_of (kept_at at.now (W.rest walk.old)) closing)) }
    ensures same { W.source walk.new ≡ W.source walk.old }
    ensures cause { IsErrOf result SpillFault.Failed → Rose (K.faults sink.old) (K.faults sink.new) }
    ensures never_fall { K.faults sink.old ≤ K.faults sink.new }
{
    let mut more = true;
    while more {
        more = save_next(sink, spiller, walk, at, pair)?;
    }
    close_partition(sink, spiller, closing)
}
