//! Items, from their first word on.
ghost use Rattle.std.specs.Prelude.{◌≡◌, ◌+◌, ◌<◌, ◌^◌};
ghost use Rattle.mica_words.specs.Hash.{hash_of};
ghost use Rattle.mica_words.specs.Item.{KeyFits, StoredFits, item_size as item_size_of};
ghost use Rattle.partition_words.specs.Kept.{Kept};
ghost use Rattle.circular_log.specs.LogItem.{HasItem, IsValueAt, room_at, words_from};
ghost use Rattle.circular_log.specs.LogWrite.{MayAppend, MayRewrite, with_item};

use mica_words::{header_key_len, header_room, header_value_len, item_size};
use partition_model::ItemBuf;
use partition_words::{OwnerWords, WordAt, rewrite_item, write_item_hashed};

/// Writes the marked write's item at the offset, in a room of the item's size.
pub fn append<W: OwnerWords>(words: &mut W, offset: u64, key: &[u8], value: &[u8])
    requires key { KeyFits key.now }
    requires value { StoredFits value.now }
    requires marked { MayAppend (W.owner words.old) offset key.now value.now }
    ensures item { W.owner words.new ≡ with_item (W.owner words.old) offset
        (item_size_of key.entry.now value.entry.now) key.entry.now value.entry.now }
    ensures home { W.home words.new ≡ W.home words.old }
    ensures kept { Kept (W.owner words.new) }
{
    let hash = words.shape().hashing.key_hash(key);
    append_hashed(words, offset, key, hash, value);
}

/// `append` where the key's hash is at hand.
pub fn append_hashed<W: OwnerWords>(words: &mut W, offset: u64, key: &[u8], hash: u64, value: &[u8])
    requires key { KeyFits key.now }
    requires hashed { hash ≡ hash_of (W.owner words.old).shape.hashing key.now }
    requires value { StoredFits value.now }
    requires marked { MayAppend (W.owner words.old) offset key.now value.now }
    ensures item { W.owner words.new ≡ with_item (W.owner words.old) offset
        (item_size_of key.entry.now value.entry.now) key.entry.now value.entry.now }
    ensures home { W.home words.new ≡ W.home words.old }
    ensures kept { Kept (W.owner words.new) }
{
    // A load tells that the words are lawful: so the offsets of the item are known to be small.
    words.read(WordAt::Stamp);
    let room = item_size(key.len(), value.len());
    write_item_hashed(words, offset, room, key, hash, value);
}

/// Writes the marked write's value into the room of the key's item. The room stays, and so do the hash and
/// the key, which are not stored again.
pub fn rewrite<W: OwnerWords>(words: &mut W, offset: u64, key: &[u8], value: &[u8])
    requires key { KeyFits key.now }
    requires value { StoredFits value.now }
    requires marked { MayRewrite (W.owner words.old) offset key.now value.now }
    ensures item { W.owner words.new ≡ with_item (W.owner words.old) offset
        (room_at (W.owner words.old) offset) key.entry.now value.entry.now }
    ensures home { W.home words.new ≡ W.home words.old }
    ensures kept { Kept (W.owner words.new) }
{
    let room = header_room(words.read(WordAt::Item(offset)));
    rewrite_item(words, offset, room, key, value);
}

// The eight words from the offset on.
fn eight_words<W: OwnerWords>(words: &mut W, offset: u64) -> [u64; 8]
    requires offset { offset + 8 < 2 ^ 64 }
    requires kept { Kept (W.owner words.old) }
    ensures words { result ≡ words_from (W.owner words.old) offset 8 }
    ensures same { W.owner words.new ≡ W.owner words.old }
    ensures home { W.home words.new ≡ W.home words.old }
    ensures kept { Kept (W.owner words.new) }
{
    let mut block = [0; 8];
    for i in 0..8 {
        block[i] = words.read(WordAt::Item(offset + i as u64));
    }
    block
}

/// Copies the value of the item that stands at the offset. The buffer's length is stored once for eight words.
pub fn item_at<W: OwnerWords>(words: &mut W, offset: u64, out: &mut ItemBuf)
    requires offset { offset < 2 ^ 48 }
    requires item { HasItem (W.owner words.old) offset }
    ensures value { IsValueAt (W.owner words.old) offset out.new }
    ensures same { W.owner words.new ≡ W.owner words.old }
    ensures home { W.home words.new ≡ W.home words.old }
    ensures kept { Kept (W.owner words.new) }
{
    let header = words.read(WordAt::Item(offset));
    let len = header_value_len(header) as usize;
    let value_at = offset + 2 + u64::from(header_key_len(header).div_ceil(8));
    let count = len.div_ceil(8);
    out.clear();
    for at in 0..count / 8 {
        let block = eight_words(words, value_at + 8 * at as u64);
        out.push_words(&block);
    }
    for i in count / 8 * 8..count {
        out.push_word(words.read(WordAt::Item(value_at + i as u64)));
    }
    out.truncate(len);
}
