//! The hand that goes over the log of a cache, and what it passes.
ghost use Rattle.std.specs.Prelude.{◌≡◌, ◌<◌, ◌^◌, ℕ};
ghost use Rattle.mica_words.specs.Item.{KeyFits};

use crate::reads::Reads;
use fronts::seat_loads::{LogItem, is_named, item_at, oldest_word};
use fronts::{Changed, Decide, Passed};
use mica_words::OFFSET_BITS;
use partition_model::{Answer, ItemBuf};
use partition_table::ReaderSeat;

/// Counts a read of an item with this hash, if the decision reads and found one. None are counted in store mode.
pub(crate) fn count_if_read<D: Decide>(
    reads: Option<&Reads>,
    hash: u64,
    decide: &D,
    changed: &Changed,
) {
    if let Some(reads) = reads {
        if decide.is_read() && matches!(changed.found, Some(Answer::Hit)) {
            reads.count(hash);
        }
    }
}

// Whether the item at the offset was read and is its key's. One read of it is taken away then.
fn take_read(seat: &ReaderSeat, reads: &Reads, item: LogItem, offset: u64) -> bool
    requires offset { offset < 2 ^ 48 }
{
    let was_read = reads.has(item.hash) && is_named(seat, item.hash, offset);
    if was_read {
        reads.take(item.hash);
    }
    was_read
}

/// Moves the hand on over a log, up to an end. Where it was passed by the tail it goes on at the oldest word that is left.
pub(crate) fn pass_item(
    seat: &ReaderSeat,
    reads: Option<&Reads>,
    end: u64,
    key: &mut ItemBuf,
) -> Passed
    ensures { (words : ℕ) → result ≡ Passed.Read words → KeyFits key.new }
{
    let Some(reads) = reads else {
        return Passed::End;
    };
    let hand = reads.hand();
    let oldest = oldest_word(seat);
    if hand < oldest {
        reads.go_on(hand, oldest);
        return Passed::Other;
    }
    if hand >= end.min(1 << OFFSET_BITS) {
        return Passed::End;
    }
    let Some(item) = item_at(seat, hand, key) else {
        reads.go_on(hand, hand + 1);
        return Passed::Other;
    };
    let is_first = reads.go_on(hand, hand + u64::from(item.room));
    if is_first && take_read(seat, reads, item, hand) {
        Passed::Read(item.room)
    } else {
        Passed::Other
    }
}
