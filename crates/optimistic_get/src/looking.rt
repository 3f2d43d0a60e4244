//! The item behind an entry, by loads in an open try.
ghost use Rattle.std.specs.Prelude.{◌≡◌, ◌+◌, ◌<◌, ◌≤◌, ◌^◌, true, is_some, length, MatchBool, MatchOption};
ghost use Rattle.mica_words.specs.declared.item.TheConstants.{MAX_STORED_LEN};
ghost use Rattle.mica_words.specs.Hash.{hash_of};
ghost use Rattle.mica_words.specs.Item.{words_for, largest_stored_item};
ghost use Rattle.mica_words.specs.Packing.{packed};
ghost use Rattle.partition_words.specs.Spelt.{ShowsOther, ShowsItem};
ghost use Rattle.optimistic_get.specs.Loading.{loads_in, GoesOn, HasLoadedWords, LacksWord, HasKeyOf, HoldsValue};

use crate::wanted::Wanted;
use mica_words::{MAX_STORED_LEN, header_key_len, header_value_len, item_size, packed_word};
use partition_model::{ItemBuf, Mode};
use partition_words::ReaderWords;

// Whether the words from the offset on are those that the bytes are packed into. It loads up to the first that is not.
fn holds_packed<R: ReaderWords>(seat: &mut R, offset: u64, bytes: &[u8]) -> bool
    requires open { is_some (R.reader seat.old).current ≡ true }
    requires low { offset + words_for (length bytes.now) < 2 ^ 64 }
    ensures on { GoesOn (R.reader seat.old) (words_for (length bytes.entry.now)) (R.reader seat.new) }
    ensures shows { MatchBool result (HasLoadedWords (R.reader seat.new) offset (packed bytes.entry.now))
        (LacksWord (R.reader seat.new) offset (packed bytes.entry.now)) }
    ensures home { R.home seat.new ≡ R.home seat.old }
    ensures plan { R.plan seat.new ≡ R.plan seat.old }
{
    for i in 0..bytes.len().div_ceil(8) {
        if seat.item_word(offset + i as u64) != packed_word(bytes, i) {
            return false;
        }
    }
    true
}

// Where the item at the offset is the key's, the length of its value.
fn value_len_at<R: ReaderWords>(seat: &mut R, offset: u64, wanted: &Wanted<'_>) -> Option<usize>
    requires open { is_some (R.reader seat.old).current ≡ true }
    requires offset { offset < 2 ^ 48 }
    requires hashed { wanted.now.hash ≡ hash_of (R.reader seat.old).shape.hashing wanted.now.key.now }
    ensures on { GoesOn (R.reader seat.old) (2 + words_for (length wanted.now.key.now)) (R.reader seat.new) }
    ensures shows { MatchOption result
        (ShowsOther (R.reader seat.new).shape (loads_in (R.reader seat.new)) offset wanted.now.key.now)
        (HasKeyOf (R.reader seat.new) offset wanted.now.key.now) }
    ensures home { R.home seat.new ≡ R.home seat.old }
    ensures plan { R.plan seat.new ≡ R.plan seat.old }
{
    let header = seat.item_word(offset);
    if header_key_len(header) as usize != wanted.key.len() {
        return None;
    }
    let len = header_value_len(header) as usize;
    if len > MAX_STORED_LEN {
        return None;
    }
    if seat.item_word(offset + 1) != wanted.hash {
        return None;
    }
    if holds_packed(seat, offset + 2, wanted.key) {
        Some(len)
    } else {
        None
    }
}

// Loads the value of this length, which stands at the offset. The buffer's length is stored once for eight words.
fn load_value<R: ReaderWords>(seat: &mut R, offset: u64, len: usize, out: &mut ItemBuf)
    requires open { is_some (R.reader seat.old).current ≡ true }
    requires low { offset < 2 ^ 63 }
    requires len { len ≤ MAX_STORED_LEN }
    ensures on { GoesOn (R.reader seat.old) (words_for len) (R.reader seat.new) }
    ensures value { HoldsValue (R.reader seat.new) offset len out.new }
    ensures home { R.home seat.new ≡ R.home seat.old }
    ensures plan { R.plan seat.new ≡ R.plan seat.old }
{
    out.clear();
    let words = len.div_ceil(8);
    for at in 0..words / 8 {
        let block = seat.item_block(offset + 8 * at as u64);
        out.push_words(&block);
    }
    for i in words / 8 * 8..words {
        let word = seat.item_word(offset + i as u64);
        out.push_word(word);
    }
    out.truncate(len);
}

/// Whether the item at the offset is the key's. Then its value is in the buffer.
pub(crate) fn look<R: ReaderWords>(
    seat: &mut R,
    offset: u64,
    wanted: &Wanted<'_>,
    out: &mut ItemBuf,
) -> bool
    requires open { is_some (R.reader seat.old).current ≡ true }
    requires offset { offset < 2 ^ 48 }
    requires hashed { wanted.now.hash ≡ hash_of (R.reader seat.old).shape.hashing wanted.now.key.now }
    ensures on { GoesOn (R.reader seat.old) largest_stored_item (R.reader seat.new) }
    ensures shows { MatchBool result
        (ShowsItem (R.reader seat.new).shape (loads_in (R.reader seat.new)) offset wanted.now.key.now out.new)
        (ShowsOther (R.reader seat.new).shape (loads_in (R.reader seat.new)) offset wanted.now.key.now
        × (out.new ≡ out.old)) }
    ensures home { R.home seat.new ≡ R.home seat.old }
    ensures plan { R.plan seat.new ≡ R.plan seat.old }
{
    let shape = seat.shape();
    if matches!(shape.mode, Mode::Store) && offset >= u64::from(shape.words) {
        return false;
    }
    let Some(len) = value_len_at(seat, offset, wanted) else {
        return false;
    };
    let value_at = offset + u64::from(item_size(wanted.key.len(), 0));
    load_value(seat, value_at, len, out);
    true
}
