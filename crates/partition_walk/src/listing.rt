//! Where the items of a partition lie.
ghost use Rattle.std.specs.Prelude.{◌≡◌, ◌↔◌, [], IsTrue, OnOk};
ghost use Rattle.partition_words.specs.Shape.{IsMain, IsBucket};
ghost use Rattle.partition_words.specs.LiveEntry.{IsLive};
ghost use Rattle.partition_words.specs.OwnerState.{stamp_in};
ghost use Rattle.partition_walk.specs.Listed.{HasItem, HasItemInChain, IsItemAt, Adds, AreListed};

use circular_log::is_live;
use mica_words::{SLOTS, entry_offset};
use outside::NoMemory;
use partition_model::Mode;
use partition_words::{OwnerWords, Shape, WordAt};

// Whether the entry names an item that is there by this stamp.
fn names_item(shape: &Shape, stamp: u64, entry: u64) -> bool
    ensures { IsTrue result ↔ IsLive shape.now stamp entry }
{
    if entry == 0 {
        return false;
    }
    match shape.mode {
        Mode::Cache => is_live(entry_offset(entry), stamp, shape.words),
        Mode::Store => true,
    }
}

// Adds the offsets of the items of a bucket.
fn list_bucket<W: OwnerWords>(
    words: &mut W,
    shape: &Shape,
    stamp: u64,
    bucket: u32,
    offsets: &mut Vec<u64>,
) -> Result<(), NoMemory>
    requires shape { shape.now ≡ (W.owner words.old).shape }
    requires stamp { stamp ≡ stamp_in (W.owner words.old) }
    requires bucket { IsBucket (W.owner words.old).shape bucket }
    ensures listed { OnOk result (Adds (HasItem (W.owner words.old) bucket) offsets.old.items offsets.new.items) }
    ensures same { W.owner words.new ≡ W.owner words.old }
    ensures home { W.home words.new ≡ W.home words.old }
{
    for slot in 0..SLOTS {
        let entry = words.read(WordAt::Entry(bucket, slot));
        if names_item(shape, stamp, entry) {
            offsets.push(entry_offset(entry))?;
        }
    }
    Ok(())
}

// Adds those of the chain of a main bucket.
fn list_chain<W: OwnerWords>(
    words: &mut W,
    shape: &Shape,
    stamp: u64,
    bucket: u32,
    offsets: &mut Vec<u64>,
) -> Result<(), NoMemory>
    requires shape { shape.now ≡ (W.owner words.old).shape }
    requires stamp { stamp ≡ stamp_in (W.owner words.old) }
    requires bucket { IsMain (W.owner words.old).shape bucket }
    ensures listed { OnOk result (Adds (HasItemInChain (W.owner words.old) bucket) offsets.old.items offsets.new.items) }
    ensures same { W.owner words.new ≡ W.owner words.old }
    ensures home { W.home words.new ≡ W.home words.old }
{
    let mut at = bucket;
    for _link in 0..=shape.spares {
        list_bucket(words, shape, stamp, at, offsets)?;
        let next = words.read(WordAt::Link(at)) as u32;
        if next == 0 {
            return Ok(());
        }
        at = next;
    }
    Ok(())
}

// Adds those of all chains.
fn list_chains<W: OwnerWords>(words: &mut W, offsets: &mut Vec<u64>) -> Result<(), NoMemory>
    requires { offsets.old.items ≡ [] }
    ensures listed { OnOk result (Adds (IsItemAt (W.owner words.old)) [] offsets.new.items) }
    ensures same { W.owner words.new ≡ W.owner words.old }
    ensures home { W.home words.new ≡ W.home words.old }
{
    let shape = words.shape();
    let stamp = words.read(WordAt::Stamp);
    for bucket in 0..shape.buckets {
        list_chain(words, &shape, stamp, bucket, offsets)?;
    }
    Ok(())
}

/// Where the items of all live entries lie, each once, the lowest first, in place of what `offsets` held.
pub fn list_items<W: OwnerWords>(words: &mut W, offsets: &mut Vec<u64>) -> Result<(), NoMemory>
    ensures listed { OnOk result (AreListed (W.owner words.old) offsets.new.items) }
    ensures same { W.owner words.new ≡ W.owner words.old }
    ensures home { W.home words.new ≡ W.home words.old }
{
    offsets.clear();
    list_chains(words, offsets)?;
    offsets.sort_unstable();
    offsets.dedup();
    Ok(())
}
