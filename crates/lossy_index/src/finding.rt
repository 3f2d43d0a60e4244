//! The slot of a key.
ghost use Rattle.std.specs.Prelude.{◌≡◌, MatchOption};
ghost use Rattle.mica_words.specs.Hash.{hash_of};
ghost use Rattle.mica_words.specs.Item.{KeyFits};
ghost use Rattle.partition_words.specs.Shape.{IsMain};
ghost use Rattle.partition_words.specs.OwnerState.{stamp_in};
ghost use Rattle.partition_words.specs.Kept.{Kept};
ghost use Rattle.lossy_index.specs.Slot.{IsSlotOf, IsFoundAt, HasNoSlot};

use mica_words::{SLOTS, entry_offset, entry_tag, tag_of, tail_of};
use partition_words::{OwnerWords, WordAt, holds_key_hashed};

/// A key's slot, and the offset in its entry.
#[derive(Clone, Copy)]
pub struct Found {
    pub slot: u32,
    pub offset: u64,
}

/// The slot whose live item has the key.
pub fn find<W: OwnerWords>(words: &mut W, bucket: u32, key: &[u8]) -> Option<u32>
    requires bucket { IsMain (W.owner words.old).shape bucket }
    requires key { KeyFits key.now }
    ensures found { MatchOption result (HasNoSlot (W.owner words.old) bucket key.entry.now)
        (IsSlotOf (W.owner words.old) bucket key.entry.now) }
    ensures same { W.owner words.new ≡ W.owner words.old }
    ensures home { W.home words.new ≡ W.home words.old }
    ensures kept { Kept (W.owner words.new) }
{
    let stamp = words.read(WordAt::Stamp);
    let hash = words.shape().hashing.key_hash(key);
    match find_hashed(words, bucket, key, hash, stamp) {
        Some(found) => Some(found.slot),
        None => None,
    }
}

/// `find` where the key's hash and the stamp are at hand.
pub fn find_hashed<W: OwnerWords>(
    words: &mut W,
    bucket: u32,
    key: &[u8],
    hash: u64,
    stamp: u64,
) -> Option<Found>
    requires kept { Kept (W.owner words.old) }
    requires bucket { IsMain (W.owner words.old).shape bucket }
    requires key { KeyFits key.now }
    requires hashed { hash ≡ hash_of (W.owner words.old).shape.hashing key.now }
    requires stamped { stamp ≡ stamp_in (W.owner words.old) }
    ensures found { MatchOption result (HasNoSlot (W.owner words.old) bucket key.entry.now)
        (IsFoundAt (W.owner words.old) bucket key.entry.now) }
    ensures same { W.owner words.new ≡ W.owner words.old }
    ensures home { W.home words.new ≡ W.home words.old }
    ensures kept { Kept (W.owner words.new) }
{
    let tag = tag_of(hash);
    let tail = tail_of(stamp);
    let log_words = u64::from(words.shape().words);
    for slot in 0..SLOTS {
        let entry = words.read(WordAt::Entry(bucket, slot));
        let offset = entry_offset(entry);
        if entry_tag(entry) == tag
            && tail <= offset + log_words
            && holds_key_hashed(words, offset, key, hash)
        {
            return Some(Found { slot, offset });
        }
    }
    None
}
