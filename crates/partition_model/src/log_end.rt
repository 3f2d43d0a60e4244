//! The end of a log, whose offsets have as many bits as an entry has for them.
ghost use Rattle.std.specs.Prelude.{◌↔◌, ◌<◌, IsTrue};
ghost use Rattle.mica_words.specs.Stamp.{tail_of};
ghost use Rattle.partition_model.specs.Limits.{last_tail};

use mica_words::{MAX_KEY_LEN, MAX_STORED_LEN, OFFSET_BITS, tail_of};

/// The words of the largest item.
pub const LARGEST_STORED_ITEM: u64 = 2
    + (MAX_KEY_LEN as u64 + 7) / 8
    + (MAX_STORED_LEN as u64 + 7) / 8;

/// The first tail from which the largest item would not end before the last offset.
pub const LAST_TAIL: u64 = (1 << OFFSET_BITS) - LARGEST_STORED_ITEM;

/// Whether the log of this stamp takes one write more, as large as an item can be.
pub fn has_room(stamp: u64) -> bool
    ensures { IsTrue result ↔ (tail_of stamp < last_tail) }
{
    tail_of(stamp) < LAST_TAIL
}
