//! The chained index of store mode.
ghost use Rattle.std.specs.Prelude.{◌≡◌, ◌≢◌, ℕ, ◌+◌, ◌<◌, ◌≤◌, ◌^◌, ◌↔◌, ◌++◌, ◌∷◌, [], IsTrue, IsFalse, IfOk, MatchOption, length};
ghost use Rattle.mica_words.specs.declared.entry.TheConstants.{SLOTS};
ghost use Rattle.mica_words.specs.Entry.{entry_of, entry_tag as entry_tag_of, entry_offset as entry_offset_of};
ghost use Rattle.mica_words.specs.Hash.{hash_of};
ghost use Rattle.mica_words.specs.Item.{KeyFits};
ghost use Rattle.partition_words.specs.Shape.{IsPossibleShape, IsMain, IsBucket};
ghost use Rattle.partition_words.specs.OwnerState.{as_made, entry_in, marked_in};
ghost use Rattle.partition_words.specs.Events.{WhenMarked};
ghost use Rattle.partition_words.specs.ItemAt.{HasKey};
ghost use Rattle.partition_words.specs.Kept.{Kept};
ghost use Rattle.chained_index.specs.ChainEntries.{entries_of, entries_with, entries_without, IsUsed, IsSpotOf, HasNoSpot};
ghost use Rattle.chained_index.specs.ChainChange.{ChangesChain};
ghost use Rattle.chained_index.specs.ChainShape.{EndsIn, EndsAt};
ghost use Rattle.chained_index.specs.Index.{IsIndexOf, LacksPlace};

use mica_words::{SLOTS, entry_of, entry_offset, entry_tag, tag_of};
use outside::NoMemory;
use partition_words::{OwnerWords, Shape, WordAt, holds_key_hashed};
use std::alloc::Global;
use std::marker::Model;

/// Where an entry stands.
#[derive(Clone, Copy, PartialEq, Eq)]
pub struct Spot {
    pub bucket: u32,
    pub slot: u32,
}

/// Which spare buckets are free: those that came back, and so many that were never used from one on, which no row lists.
/// The chains themselves stand in the words.
#[derive(Drop)]
pub struct ChainedIndex {
    shape: Shape,
    returned: Vec<u32>,
    unused: u32,
    left: u32,
}

impl Model for ChainedIndex {
    ghost use Rattle.std.specs.Prelude.{◌+◌, ◌^◌, ◌<◌, ◌≤◌, ◌++◌, vec_capacity};
    ghost use Rattle.chained_index.specs.Index.{Index};
    ghost use Rattle.chained_index.specs.Unused.{unused_from};

    ghost Value = { Index };

    ghost view = { λ i. record {
      shape = i.shape;
      free = unused_from i.unused i.left ++ i.returned.items;
    } };

    ghost invariant = { λ i. (i.shape.spares ≤ vec_capacity i.returned) × (i.unused + i.left < 2 ^ 32) };
}

// Where a chain ends: its last bucket, the bucket before that, and how many slots of the last one
// are used.
#[derive(Clone, Copy)]
struct ChainEnd {
    before: u32,
    bucket: u32,
    used: u32,
}

impl ChainedIndex {
    /// The index of words as made: all spare buckets are free.
    pub fn new(alloc: Global, shape: &Shape) -> Result<ChainedIndex, NoMemory>
        requires { IsPossibleShape shape.now }
        ensures { IfOk result (λ index. IsIndexOf index (as_made shape.now)) }
    {
        let returned = Vec::with_capacity(alloc, shape.spares as usize)?;
        Ok(ChainedIndex {
            shape: *shape,
            returned,
            unused: shape.buckets,
            left: shape.spares,
        })
    }

    // Whether a spare is free.
    fn has_spare(&self) -> bool
        ensures { IsFalse result ↔ (self.now.free ≡ []) }
    {
        self.left > 0 || !self.returned.is_empty()
    }

    // Takes a free spare, one that came back where there is one.
    fn take_spare(&mut self) -> Option<u32>
        ensures shape { self.new.shape ≡ self.old.shape }
        ensures taken { MatchOption result (self.old.free ≡ []) (λ spare. self.old.free ≡ self.new.free ++ spare ∷ []) }
    {
        if let Some(spare) = self.returned.pop() {
            return Some(spare);
        }
        if self.left == 0 {
            return None;
        }
        let spare = self.unused;
        self.unused += 1;
        self.left -= 1;
        Some(spare)
    }

    // Takes a spare back.
    fn give_spare(&mut self, spare: u32)
        requires { length self.old.free < self.old.shape.spares }
        ensures { self.new ≡ record self.old { free = self.old.free ++ spare ∷ [] } }
    {
        self.returned.push_reserved(spare);
    }

    /// Looks behind the entries of the key's tag alone.
    pub fn find<W: OwnerWords>(&self, words: &mut W, bucket: u32, key: &[u8]) -> Option<Spot>
        requires index { IsIndexOf self.now (W.owner words.old) }
        requires bucket { IsMain (W.owner words.old).shape bucket }
        requires key { KeyFits key.now }
        ensures found { MatchOption result (HasNoSpot (W.owner words.old) bucket key.entry.now)
            (IsSpotOf (W.owner words.old) bucket key.entry.now) }
        ensures same { W.owner words.new ≡ W.owner words.old }
        ensures home { W.home words.new ≡ W.home words.old }
        ensures kept { Kept (W.owner words.new) }
    {
        let hash = words.shape().hashing.key_hash(key);
        self.find_hashed(words, bucket, key, hash)
    }

    /// `find` where the key's hash is at hand.
    pub fn find_hashed<W: OwnerWords>(
        &self,
        words: &mut W,
        bucket: u32,
        key: &[u8],
        hash: u64,
    ) -> Option<Spot>
        requires index { IsIndexOf self.now (W.owner words.old) }
        requires bucket { IsMain (W.owner words.old).shape bucket }
        requires key { KeyFits key.now }
        requires hashed { hash ≡ hash_of (W.owner words.old).shape.hashing key.now }
        ensures found { MatchOption result (HasNoSpot (W.owner words.old) bucket key.entry.now)
            (IsSpotOf (W.owner words.old) bucket key.entry.now) }
        ensures same { W.owner words.new ≡ W.owner words.old }
        ensures home { W.home words.new ≡ W.home words.old }
        ensures kept { Kept (W.owner words.new) }
    {
        let tag = tag_of(hash);
        let mut at = bucket;
        for _link in 0..=self.shape.spares {
            for slot in 0..SLOTS {
                let entry = words.read(WordAt::Entry(at, slot));
                if entry == 0 {
                    return None;
                }
                if names_key(words, entry, tag, key, hash) {
                    return Some(Spot { bucket: at, slot });
                }
            }
            let next = words.read(WordAt::Link(at)) as u32;
            if next == 0 {
                return None;
            }
            at = next;
        }
        None
    }

    /// Whether a further entry has a place in the chain.
    pub fn has_place<W: OwnerWords>(&self, words: &mut W, bucket: u32) -> bool
        requires index { IsIndexOf self.now (W.owner words.old) }
        requires bucket { IsMain (W.owner words.old).shape bucket }
        ensures place { IsFalse result ↔ LacksPlace self.now (W.owner words.old) bucket }
        ensures same { W.owner words.new ≡ W.owner words.old }
        ensures home { W.home words.new ≡ W.home words.old }
    {
        self.has_spare() || self.end_of(words, bucket).used < SLOTS
    }

    /// Adds an entry after the chain's last.
    pub fn place<W: OwnerWords>(&mut self, words: &mut W, bucket: u32, tag: u16, offset: u64)
        requires index { IsIndexOf self.old (W.owner words.old) }
        requires marked { marked_in (W.owner words.old).phase bucket ≡ 1 }
        requires bucket { IsMain (W.owner words.old).shape bucket }
        requires place { ¬ (LacksPlace self.old (W.owner words.old) bucket) }
        requires tag { 1 ≤ tag }
        requires offset { offset < 2 ^ 48 }
        ensures entries { ChangesChain (W.owner words.old) (W.owner words.new) bucket
            (entries_of (W.owner words.old) bucket ++ entry_of tag offset ∷ []) }
        ensures index { IsIndexOf self.new (W.owner words.new) }
        ensures kept { Kept (W.owner words.new) }
        ensures home { W.home words.new ≡ W.home words.old }
    {
        let entry = entry_of(tag, offset);
        let end = self.end_of(words, bucket);
        if end.used < SLOTS {
            words.put_entry(end.bucket, end.used, entry);
        } else if let Some(next) = self.take_spare() {
            words.put_entry(next, 0, entry);
            words.put_link(end.bucket, next);
        }
    }

    /// Changes the entry of a spot in the chain of the bucket whose write is marked.
    pub fn replace<W: OwnerWords>(&mut self, words: &mut W, spot: Spot, tag: u16, offset: u64)
        requires index { IsIndexOf self.old (W.owner words.old) }
        requires spot { WhenMarked (W.owner words.old).phase
            (λ b write before. IsUsed (W.owner words.old) b spot) }
        requires tag { 1 ≤ tag }
        requires offset { offset < 2 ^ 48 }
        ensures entries { WhenMarked (W.owner words.old).phase (λ b write before.
            ChangesChain (W.owner words.old) (W.owner words.new) b
            (entries_with (W.owner words.old) b spot (entry_of tag offset))) }
        ensures index { (self.new ≡ self.old) × IsIndexOf self.new (W.owner words.new) }
        ensures kept { Kept (W.owner words.new) }
        ensures home { W.home words.new ≡ W.home words.old }
    {
        words.put_entry(spot.bucket, spot.slot, entry_of(tag, offset));
    }

    /// Moves the chain's last entry into the spot, and releases a spare bucket that becomes empty.
    pub fn remove<W: OwnerWords>(&mut self, words: &mut W, bucket: u32, spot: Spot)
        requires index { IsIndexOf self.old (W.owner words.old) }
        requires marked { marked_in (W.owner words.old).phase bucket ≡ 1 }
        requires bucket { IsMain (W.owner words.old).shape bucket }
        requires spot { IsUsed (W.owner words.old) bucket spot }
        ensures entries { ChangesChain (W.owner words.old) (W.owner words.new) bucket
            (entries_without (W.owner words.old) bucket spot) }
        ensures index { IsIndexOf self.new (W.owner words.new) }
        ensures kept { Kept (W.owner words.new) }
        ensures home { W.home words.new ≡ W.home words.old }
    {
        let end = self.end_of(words, bucket);
        let last = end.used - 1;
        let entry = words.read(WordAt::Entry(end.bucket, last));
        words.put_entry(spot.bucket, spot.slot, entry);
        words.put_entry(end.bucket, last, 0);
        if last == 0 && end.bucket != bucket {
            words.put_link(end.before, 0);
            self.give_spare(end.bucket);
        }
    }

    // The end of a bucket's chain. The bucket before a main one is itself.
    fn end_of<W: OwnerWords>(&self, words: &mut W, bucket: u32) -> ChainEnd
        requires index { IsIndexOf self.now (W.owner words.old) }
        requires bucket { IsMain (W.owner words.old).shape bucket }
        ensures end { EndsAt (W.owner words.old) bucket result }
        ensures same { W.owner words.new ≡ W.owner words.old }
        ensures home { W.home words.new ≡ W.home words.old }
        ensures kept { Kept (W.owner words.new) }
    {
        let (before, last) = self.last_two(words, bucket);
        ChainEnd {
            before,
            bucket: last,
            used: used_slots(words, last),
        }
    }

    // The last bucket of a chain, after the one before it.
    fn last_two<W: OwnerWords>(&self, words: &mut W, bucket: u32) -> (u32, u32)
        requires index { IsIndexOf self.now (W.owner words.old) }
        requires bucket { IsMain (W.owner words.old).shape bucket }
        ensures last { EndsIn (W.owner words.old) bucket result.0 result.1 }
        ensures inside { IsBucket (W.owner words.old).shape result.1 }
        ensures same { W.owner words.new ≡ W.owner words.old }
        ensures home { W.home words.new ≡ W.home words.old }
    {
        let mut before = bucket;
        let mut at = bucket;
        for _link in 0..self.shape.spares {
            let next = words.read(WordAt::Link(at)) as u32;
            if next == 0 {
                return (before, at);
            }
            before = at;
            at = next;
        }
        (before, at)
    }
}

// Whether the entry has the tag, and its item the key.
fn names_key<W: OwnerWords>(words: &mut W, entry: u64, tag: u16, key: &[u8], hash: u64) -> bool
    requires key { KeyFits key.now }
    requires hashed { hash ≡ hash_of (W.owner words.old).shape.hashing key.now }
    ensures names { IsTrue result ↔ ((entry_tag_of entry ≡ tag)
        × HasKey (W.owner words.old) (entry_offset_of entry) key.entry.now) }
    ensures same { W.owner words.new ≡ W.owner words.old }
    ensures home { W.home words.new ≡ W.home words.old }
{
    entry_tag(entry) == tag && holds_key_hashed(words, entry_offset(entry), key, hash)
}

// How many slots of the bucket are used before the first empty one.
fn used_slots<W: OwnerWords>(words: &mut W, bucket: u32) -> u32
    requires { IsBucket (W.owner words.old).shape bucket }
    ensures used { (result ≤ SLOTS)
        × ((slot : ℕ) → slot < result → entry_in (W.owner words.old) bucket slot ≢ 0)
        × (result < SLOTS → entry_in (W.owner words.old) bucket result ≡ 0) }
    ensures same { W.owner words.new ≡ W.owner words.old }
    ensures home { W.home words.new ≡ W.home words.old }
    ensures kept { Kept (W.owner words.new) }
{
    for slot in 0..SLOTS {
        if words.read(WordAt::Entry(bucket, slot)) == 0 {
            return slot;
        }
    }
    SLOTS
}
