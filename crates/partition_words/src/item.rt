//! Items in the words of a partition.
ghost use Rattle.std.specs.Prelude.{◌≡◌, ℕ, ◌+◌, ◌<◌, ◌^◌, ◌↔◌, IsTrue, length, slice_index};
ghost use Rattle.mica_words.specs.Hash.{hash_of};
ghost use Rattle.mica_words.specs.Item.{KeyFits, StoredFits, words_for};
ghost use Rattle.mica_words.specs.Packing.{packed};
ghost use Rattle.partition_words.specs.OwnerState.{item_in};
ghost use Rattle.partition_words.specs.Events.{CanPlay, plays, puts_from, item_events};
ghost use Rattle.partition_words.specs.ItemAt.{HasKey, HasKeyWords};
ghost use Rattle.partition_words.specs.Kept.{Kept};

use crate::shape::WordAt;
use crate::words::OwnerWords;
use mica_words::{header_key_len, header_of, item_size, packed_word};

/// Whether the words at the offset have the key's length, its hash and its words.
pub fn holds_key<W: OwnerWords>(words: &mut W, offset: u64, key: &[u8]) -> bool
    requires offset { offset < 2 ^ 48 }
    requires key { KeyFits key.now }
    ensures holds { IsTrue result ↔ HasKey (W.owner words.old) offset key.entry.now }
    ensures same { W.owner words.new ≡ W.owner words.old }
    ensures home { W.home words.new ≡ W.home words.old }
{
    let hash = words.shape().hashing.key_hash(key);
    holds_key_hashed(words, offset, key, hash)
}

/// `holds_key` where the key's hash is at hand.
pub fn holds_key_hashed<W: OwnerWords>(words: &mut W, offset: u64, key: &[u8], hash: u64) -> bool
    requires offset { offset < 2 ^ 48 }
    requires key { KeyFits key.now }
    requires hashed { hash ≡ hash_of (W.owner words.old).shape.hashing key.now }
    ensures holds { IsTrue result ↔ HasKey (W.owner words.old) offset key.entry.now }
    ensures same { W.owner words.new ≡ W.owner words.old }
    ensures home { W.home words.new ≡ W.home words.old }
{
    let header = words.read(WordAt::Item(offset));
    if header_key_len(header) as usize != key.len() {
        return false;
    }
    words.read(WordAt::Item(offset + 1)) == hash && holds_packed(words, offset + 2, key)
}

// Whether the words from the offset on are those that the bytes are packed into.
fn holds_packed<W: OwnerWords>(words: &mut W, offset: u64, bytes: &[u8]) -> bool
    requires { offset + words_for (length bytes.now) < 2 ^ 64 }
    ensures holds { IsTrue result ↔ ((i : ℕ) → i < words_for (length bytes.entry.now)
        → item_in (W.owner words.old) (offset + i) ≡ slice_index (packed bytes.entry.now) i) }
    ensures same { W.owner words.new ≡ W.owner words.old }
    ensures home { W.home words.new ≡ W.home words.old }
{
    for i in 0..bytes.len().div_ceil(8) {
        if words.read(WordAt::Item(offset + i as u64)) != packed_word(bytes, i) {
            return false;
        }
    }
    true
}

/// Stores the header, the hash, the key and the value, in this order.
pub fn write_item<W: OwnerWords>(words: &mut W, offset: u64, room: u32, key: &[u8], value: &[u8])
    requires key { KeyFits key.now }
    requires value { StoredFits value.now }
    requires room { room < 16777216 }
    requires allowed { CanPlay (item_events (W.owner words.old).shape.hashing offset room key.now value.now) (W.owner words.old) }
    ensures events { W.owner words.new
        ≡ plays (item_events (W.owner words.old).shape.hashing offset room key.entry.now value.entry.now) (W.owner words.old) }
    ensures kept { Kept (W.owner words.new) }
    ensures home { W.home words.new ≡ W.home words.old }
{
    let hash = words.shape().hashing.key_hash(key);
    write_item_hashed(words, offset, room, key, hash, value);
}

/// `write_item` where the key's hash is at hand.
pub fn write_item_hashed<W: OwnerWords>(
    words: &mut W,
    offset: u64,
    room: u32,
    key: &[u8],
    hash: u64,
    value: &[u8],
)
    requires key { KeyFits key.now }
    requires hashed { hash ≡ hash_of (W.owner words.old).shape.hashing key.now }
    requires value { StoredFits value.now }
    requires room { room < 16777216 }
    requires allowed { CanPlay (item_events (W.owner words.old).shape.hashing offset room key.now value.now) (W.owner words.old) }
    ensures events { W.owner words.new
        ≡ plays (item_events (W.owner words.old).shape.hashing offset room key.entry.now value.entry.now) (W.owner words.old) }
    ensures kept { Kept (W.owner words.new) }
    ensures home { W.home words.new ≡ W.home words.old }
{
    words.put_word(
        offset,
        header_of(room, key.len() as u32, value.len() as u32),
    );
    words.put_word(offset + 1, hash);
    put_packed(words, offset + 2, key);
    put_packed(words, offset + u64::from(item_size(key.len(), 0)), value);
}

/// Stores the header and the value of an item whose hash and key are there: they are not stored again.
pub fn rewrite_item<W: OwnerWords>(words: &mut W, offset: u64, room: u32, key: &[u8], value: &[u8])
    requires kept { Kept (W.owner words.old) }
    requires key { KeyFits key.now }
    requires value { StoredFits value.now }
    requires room { room < 16777216 }
    requires there { HasKeyWords (W.owner words.old) offset key.now }
    requires allowed { CanPlay (item_events (W.owner words.old).shape.hashing offset room key.now value.now) (W.owner words.old) }
    ensures events { W.owner words.new
        ≡ plays (item_events (W.owner words.old).shape.hashing offset room key.entry.now value.entry.now) (W.owner words.old) }
    ensures kept { Kept (W.owner words.new) }
    ensures home { W.home words.new ≡ W.home words.old }
{
    let header = header_of(room, key.len() as u32, value.len() as u32);
    words.put_word(offset, header);
    put_packed(words, offset + u64::from(item_size(key.len(), 0)), value);
}

// Stores the words that the bytes are packed into, from the offset on.
fn put_packed<W: OwnerWords>(words: &mut W, offset: u64, bytes: &[u8])
    requires low { offset + words_for (length bytes.now) < 2 ^ 64 }
    requires kept { Kept (W.owner words.old) }
    requires allowed { CanPlay (puts_from offset (packed bytes.now)) (W.owner words.old) }
    ensures events { W.owner words.new
        ≡ plays (puts_from offset (packed bytes.entry.now)) (W.owner words.old) }
    ensures kept { Kept (W.owner words.new) }
    ensures home { W.home words.new ≡ W.home words.old }
{
    for i in 0..bytes.len().div_ceil(8) {
        words.put_word(offset + i as u64, packed_word(bytes, i));
    }
}
