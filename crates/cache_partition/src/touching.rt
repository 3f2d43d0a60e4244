//! A touch, by its events: the key's item is carried to the tail of the log, where it has one.
ghost use Rattle.std.specs.Prelude.{◌≡◌, [], Some, None};
ghost use Rattle.mica_words.specs.Item.{KeyFits};
ghost use Rattle.partition_model.specs.declared.write.Op.TheVariants.{Touch};
ghost use Rattle.partition_model.specs.Write.{IsWrite, write_of};
ghost use Rattle.partition_model.specs.History.{stamp_of};
ghost use Rattle.partition_words.specs.OwnerState.{options_in};
ghost use Rattle.partition_words.specs.Kept.{Kept};
ghost use Rattle.cache_partition.specs.Gained.{MayWrite, Gains};
ghost use Rattle.cache_partition.specs.Sought.{IsSought, had_record};

use crate::seeking::{Sought, begin, seek};
use circular_log::{carry, size_at};
use lossy_index::place;
use mica_words::{tag_of, tail_of};
use partition_model::Op;
use partition_words::OwnerWords;

/// What a touch gives: the new stamp, and whether the key has a record.
#[derive(Drop)]
pub(crate) struct Touched {
    pub stamp: u64,
    pub has_record: bool,
}

/// Appends the key's record anew, where it has one.
pub(crate) fn touch<W: OwnerWords>(words: &mut W, key: &[u8]) -> Touched
    requires may { MayWrite (W.owner words.old) }
    requires key { KeyFits key.now }
    ensures gains { Gains (W.owner words.old) (W.owner words.new) (write_of Touch key.entry.now []) }
    ensures stamp { result.stamp
        ≡ stamp_of (options_in (W.owner words.new)) (W.owner words.new).history }
    ensures found { result.has_record ≡ had_record (W.owner words.old) key.entry.now }
    ensures home { W.home words.new ≡ W.home words.old }
{
    let sought = seek(words, key);
    let stamp = match sought.slot {
        Some(slot) => carry_to_tail(words, &sought, slot, key),
        None => mark_only(words, &sought, key),
    };
    Touched {
        stamp,
        has_record: sought.slot.is_some(),
    }
}

// The key's item is carried to the tail, where its slot names it afterwards.
fn carry_to_tail<W: OwnerWords>(words: &mut W, sought: &Sought, slot: u32, key: &[u8]) -> u64
    requires kept { Kept (W.owner words.old) }
    requires may { MayWrite (W.owner words.old) }
    requires write { IsWrite (write_of Touch key.now []) }
    requires sought { IsSought (W.owner words.old) key.now sought.now }
    requires slot { sought.now.slot ≡ Some slot }
    ensures gains { Gains (W.owner words.old) (W.owner words.new) (write_of Touch key.entry.now []) }
    ensures stamp { result ≡ stamp_of (options_in (W.owner words.new)) (W.owner words.new).history }
    ensures home { W.home words.new ≡ W.home words.old }
{
    let size = size_at(words, sought.offset);
    let tail = tail_of(sought.stamp);
    let stamp = sought.stamp + 65_536 * u64::from(size);
    begin(words, sought.bucket, Op::Touch, key, &[], stamp);
    carry(words, sought.offset, tail);
    place(words, sought.bucket, Some(slot), tag_of(sought.hash), tail);
    words.end_write(sought.bucket);
    stamp
}

// A key without an item has none afterwards.
fn mark_only<W: OwnerWords>(words: &mut W, sought: &Sought, key: &[u8]) -> u64
    requires kept { Kept (W.owner words.old) }
    requires may { MayWrite (W.owner words.old) }
    requires write { IsWrite (write_of Touch key.now []) }
    requires sought { IsSought (W.owner words.old) key.now sought.now }
    requires no_slot { sought.now.slot ≡ None }
    ensures gains { Gains (W.owner words.old) (W.owner words.new) (write_of Touch key.entry.now []) }
    ensures stamp { result ≡ stamp_of (options_in (W.owner words.new)) (W.owner words.new).history }
    ensures home { W.home words.new ≡ W.home words.old }
{
    let stamp = sought.stamp + 1;
    begin(words, sought.bucket, Op::Touch, key, &[], stamp);
    words.end_write(sought.bucket);
    stamp
}
