//! Changes of one entry.
ghost use Rattle.std.specs.Prelude.{◌≡◌, ◌<◌, ◌≤◌, ◌^◌, IfSome};
ghost use Rattle.mica_words.specs.declared.entry.TheConstants.{SLOTS};
ghost use Rattle.mica_words.specs.Entry.{entry_of as entry_word};
ghost use Rattle.partition_words.specs.declared.event.Event.TheVariants.{PutsEntry};
ghost use Rattle.partition_words.specs.Shape.{IsMain};
ghost use Rattle.partition_words.specs.OwnerState.{marked_in};
ghost use Rattle.partition_words.specs.Events.{after};
ghost use Rattle.partition_words.specs.Kept.{Kept};
ghost use Rattle.lossy_index.specs.Place.{GivesWay, TakesSlot};

use mica_words::{SLOTS, entry_of, entry_offset, tail_of};
use partition_words::{OwnerWords, WordAt};

/// Stores an entry of the tag and the offset, and answers its slot: `old` where that is given, else the one
/// that gives way.
pub fn place<W: OwnerWords>(
    words: &mut W,
    bucket: u32,
    old: Option<u32>,
    tag: u16,
    offset: u64,
) -> u32
    requires marked { marked_in (W.owner words.old).phase bucket ≡ 1 }
    requires bucket { IsMain (W.owner words.old).shape bucket }
    requires old { IfSome old (λ slot. slot < SLOTS) }
    requires tag { 1 ≤ tag }
    requires offset { offset < 2 ^ 48 }
    ensures slot { TakesSlot (W.owner words.old) bucket old result }
    ensures entry { W.owner words.new
        ≡ after (PutsEntry bucket result (entry_word tag offset)) (W.owner words.old) }
    ensures home { W.home words.new ≡ W.home words.old }
    ensures kept { Kept (W.owner words.new) }
{
    let slot = match old {
        Some(slot) => slot,
        None => slot_that_gives_way(words, bucket),
    };
    words.put_entry(bucket, slot, entry_of(tag, offset));
    slot
}

/// Empties the slot.
pub fn clear<W: OwnerWords>(words: &mut W, bucket: u32, slot: u32)
    requires marked { marked_in (W.owner words.old).phase bucket ≡ 1 }
    requires slot { slot < SLOTS }
    ensures entry { W.owner words.new ≡ after (PutsEntry bucket slot 0) (W.owner words.old) }
    ensures home { W.home words.new ≡ W.home words.old }
    ensures kept { Kept (W.owner words.new) }
{
    words.put_entry(bucket, slot, 0);
}

// The first empty slot, else the first whose item the log has passed, else the one of least offset.
fn slot_that_gives_way<W: OwnerWords>(words: &mut W, bucket: u32) -> u32
    requires { IsMain (W.owner words.old).shape bucket }
    ensures slot { GivesWay (W.owner words.old) bucket result }
    ensures same { W.owner words.new ≡ W.owner words.old }
    ensures home { W.home words.new ≡ W.home words.old }
{
    let tail = tail_of(words.read(WordAt::Stamp));
    let log_words = u64::from(words.shape().words);
    let mut passed = None;
    let mut oldest = 0;
    let mut least = u64::MAX;
    for slot in 0..SLOTS {
        let entry = words.read(WordAt::Entry(bucket, slot));
        if entry == 0 {
            return slot;
        }
        let offset = entry_offset(entry);
        if offset + log_words < tail {
            passed = passed.or(Some(slot));
        }
        if offset < least {
            least = offset;
            oldest = slot;
        }
    }
    passed.unwrap_or(oldest)
}
