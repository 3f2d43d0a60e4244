//! Loads by a reader's seat outside its gets: ahead of them, so that what they will look at is at hand, and of what stands in an index.
ghost use Rattle.std.specs.Prelude.{◌≡◌, ◌≤◌, ◌<◌, ◌^◌, false, length, IfSome};
ghost use Rattle.mica_words.specs.declared.item.TheConstants.{MAX_KEY_LEN};
ghost use Rattle.mica_words.specs.Item.{KeyFits};
ghost use Rattle.mica_words.specs.Mark.{is_mark};
ghost use Rattle.partition_model.specs.declared.options.TheConstants.{MOST_PARTITIONS};

use crate::glancing::Glimpse;
use mica_words::{
    MAX_KEY_LEN, SLOTS, bucket_of, entry_of as entry_word, entry_offset, entry_tag, header_key_len,
    header_room, header_value_len, tag_of, tail_of,
};
use partition_model::{ItemBuf, Mode, Options};
use partition_table::ReaderSeat;
use partition_words::{ReaderWords, Shape, WordAt};

/// What is in use of tables of as many words, 16 MiB, is mostly in the caches: there a load ahead costs more than it gains.
const CACHED_WORDS: usize = 1 << 21;

/// A cache line has so many words.
const LINE_WORDS: u32 = 8;

/// The last word of an item with a key of 16 bytes and a value of 64, of which a client of memcached's stores 80.
const LAST_WORD: u64 = 13;

/// Whether the tables of all partitions together are larger than the caches.
pub fn are_large(options: &Options) -> bool
    requires { options.now.partitions ≤ MOST_PARTITIONS }
{
    let shape = Shape::of(options);
    options.partitions as usize * shape.word_count() > CACHED_WORDS
}

/// Loads the lines of the bucket of this hash.
pub fn load_bucket(seat: &ReaderSeat, hash: u64) {
    let bucket = bucket_of(hash, seat.shape().buckets);
    seat.peek(WordAt::Epoch(bucket));
    seat.peek(WordAt::Entry(bucket, LINE_WORDS - 1));
    seat.peek(WordAt::Entry(bucket, SLOTS - 1));
}

/// The first entry of this hash's bucket with its tag; 0 where none has it.
pub fn entry_of(seat: &ReaderSeat, hash: u64) -> u64 {
    let bucket = bucket_of(hash, seat.shape().buckets);
    let tag = tag_of(hash);
    for slot in 0..SLOTS {
        let entry = seat.peek(WordAt::Entry(bucket, slot));
        if entry_tag(entry) == tag {
            return entry;
        }
    }
    0
}

/// Loads the lines of the item of an entry, of a longer one the first.
pub fn load_item(seat: &ReaderSeat, entry: u64) {
    let offset = entry_offset(entry);
    seat.peek(WordAt::Item(offset));
    seat.peek(WordAt::Item(offset + u64::from(LINE_WORDS)));
    seat.peek(WordAt::Item(offset + LAST_WORD));
}

/// So many bytes of a value are loaded at a glance.
const HEAD_LEN: usize = 16;

// Loads so many bytes of an item.
fn load_bytes(seat: &ReaderSeat, offset: u64, len: usize, out: &mut ItemBuf)
    requires offset { offset < 2 ^ 63 }
    requires len { len ≤ MAX_KEY_LEN }
    ensures { length out.new ≡ len }
{
    out.clear();
    for at in 0..len.div_ceil(8) {
        let word = seat.peek(WordAt::Item(offset + at as u64));
        out.push_word(word);
    }
    out.truncate(len);
}

// Loads the key of an item, and tells its header; none where no item stands, or one as long as a mark.
fn load_key(seat: &ReaderSeat, offset: u64, key: &mut ItemBuf) -> Option<u64>
    requires offset { offset < 2 ^ 48 }
    ensures key { IfSome result (λ _. KeyFits key.new × (is_mark key.new ≡ false)) }
{
    let header = seat.peek(WordAt::Item(offset));
    let key_len = header_key_len(header) as usize;
    if key_len == 0 || key_len >= MAX_KEY_LEN {
        return None;
    }
    load_bytes(seat, offset + 2, key_len, key);
    Some(header)
}

// Loads the key of an item, and the first bytes of its value.
fn glance_at(seat: &ReaderSeat, offset: u64, key: &mut ItemBuf, head: &mut ItemBuf) -> Glimpse
    requires offset { offset < 2 ^ 48 }
    ensures key { result ≡ Glimpse.Item → KeyFits key.new × (is_mark key.new ≡ false) }
{
    let Some(header) = load_key(seat, offset, key) else {
        return Glimpse::Nothing;
    };
    let value_at = offset + 2 + key.value().len().div_ceil(8) as u64;
    let head_len = (header_value_len(header) as usize).min(HEAD_LEN);
    load_bytes(seat, value_at, head_len, head);
    Glimpse::Item
}

/// Loads what stands at a place of the index. In cache mode there are no places.
pub fn glance(seat: &ReaderSeat, place: u64, key: &mut ItemBuf, head: &mut ItemBuf) -> Glimpse
    ensures key { result ≡ Glimpse.Item → KeyFits key.new × (is_mark key.new ≡ false) }
{
    let shape = seat.shape();
    let buckets = u64::from(shape.buckets) + u64::from(shape.spares);
    let bucket = place / u64::from(SLOTS);
    if !matches!(shape.mode, Mode::Store) || bucket >= buckets {
        return Glimpse::Beyond;
    }
    let slot = (place % u64::from(SLOTS)) as u32;
    let entry = seat.peek(WordAt::Entry(bucket as u32, slot));
    if entry == 0 {
        return Glimpse::Nothing;
    }
    glance_at(seat, entry_offset(entry), key, head)
}

/// A look of a hand ends so far ahead of what a log writes over next: a part in so many of its words.
const LEAD_PARTS: u32 = 32;

/// The lead has room for four of the largest items that a datagram brings, where that is no more than a quarter of the log.
const LEAST_LEAD: u32 = 4_232;

// How far ahead of what is written over next a look of a hand ends, in a log of so many words.
fn lead_of(words: u32) -> u32 {
    (words / LEAD_PARTS).max(LEAST_LEAD.min(words / 4))
}

// The tail of a log.
fn tail_at(seat: &ReaderSeat) -> u64 {
    tail_of(seat.peek(WordAt::Stamp))
}

/// The oldest word of a log that was not written over.
pub fn oldest_word(seat: &ReaderSeat) -> u64 {
    tail_at(seat).saturating_sub(u64::from(seat.shape().words))
}

/// Where a look of a hand ends that goes over a log.
pub fn end_of_look(seat: &ReaderSeat) -> u64 {
    let words = seat.shape().words;
    let ahead = tail_at(seat).saturating_add(u64::from(lead_of(words)));
    ahead.saturating_sub(u64::from(words))
}

/// An item of a log: its key's hash, and how many words it may use.
#[derive(Clone, Copy)]
pub struct LogItem {
    pub hash: u64,
    pub room: u32,
}

/// Loads the key of the item that begins at the offset, if one does: the word behind its header is the hash of its key, it ends before the tail, and it was not written
/// over meanwhile.
pub fn item_at(seat: &ReaderSeat, offset: u64, key: &mut ItemBuf) -> Option<LogItem>
    requires offset { offset < 2 ^ 48 }
    ensures key { IfSome result (λ _. KeyFits key.new) }
{
    let header = load_key(seat, offset, key)?;
    let item = LogItem {
        hash: seat.shape().hashing.key_hash(key.value()),
        room: header_room(header),
    };
    let end = offset + u64::from(item.room);
    let is_whole = seat.peek(WordAt::Item(offset + 1)) == item.hash && end <= tail_at(seat);
    if is_whole && item.room > 0 && oldest_word(seat) <= offset {
        Some(item)
    } else {
        None
    }
}

/// Whether an entry of this hash names the offset.
pub fn is_named(seat: &ReaderSeat, hash: u64, offset: u64) -> bool
    requires offset { offset < 2 ^ 48 }
{
    let bucket = bucket_of(hash, seat.shape().buckets);
    let entry = entry_word(tag_of(hash), offset);
    for slot in 0..SLOTS {
        if seat.peek(WordAt::Entry(bucket, slot)) == entry {
            return true;
        }
    }
    false
}
