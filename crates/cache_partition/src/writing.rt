//! A put or an add, by its events: in the room that the key's item has, else at the tail of the log.
ghost use Rattle.std.specs.Prelude.{◌≡◌, Some, None};
ghost use Rattle.mica_words.specs.Item.{KeyFits, StoredFits};
ghost use Rattle.partition_model.specs.declared.write.Op.TheVariants.{Put};
ghost use Rattle.partition_model.specs.Write.{GivesValue, IsWrite, write_of};
ghost use Rattle.partition_model.specs.History.{stamp_of};
ghost use Rattle.partition_words.specs.OwnerState.{options_in};
ghost use Rattle.partition_words.specs.Kept.{Kept};
ghost use Rattle.cache_partition.specs.Gained.{MayWrite, Gains};
ghost use Rattle.cache_partition.specs.Sought.{AppendsValue, IsSought, IsAcceptable, kept_offset};

use crate::seeking::{Sought, begin, seek};
use circular_log::{append_hashed, is_live, rewrite};
use lossy_index::place;
use mica_words::{header_room, item_size, tag_of, tail_of};
use partition_model::{Op, keeps};
use partition_words::{OwnerWords, WordAt};

/// Stores the value for the key, and answers the new stamp.
pub(crate) fn put<W: OwnerWords>(words: &mut W, key: &[u8], value: &[u8]) -> u64
    requires may { MayWrite (W.owner words.old) }
    requires key { KeyFits key.now }
    requires value { StoredFits value.now }
    requires taken { IsAcceptable (W.owner words.old) (write_of Put key.now value.now) }
    ensures gains { Gains (W.owner words.old) (W.owner words.new)
        (write_of Put key.entry.now value.entry.now) }
    ensures stamp { result ≡ stamp_of (options_in (W.owner words.new)) (W.owner words.new).history }
    ensures home { W.home words.new ≡ W.home words.old }
{
    let sought = seek(words, key);
    match offset_that_keeps(words, &sought, key, value) {
        Some(offset) => put_in_place(words, &sought, offset, key, value),
        None => put_at_tail(words, &sought, Op::Put, key, value),
    }
}

// The offset of the key's item where the new one keeps its room, and the log will not have passed it by the next stamp.
fn offset_that_keeps<W: OwnerWords>(
    words: &mut W,
    sought: &Sought,
    key: &[u8],
    value: &[u8],
) -> Option<u64>
    requires kept { Kept (W.owner words.old) }
    requires may { MayWrite (W.owner words.old) }
    requires write { IsWrite (write_of Put key.now value.now) }
    requires sought { IsSought (W.owner words.old) key.now sought.now }
    ensures kept_offset { result
        ≡ kept_offset (W.owner words.old) (write_of Put key.entry.now value.entry.now) }
    ensures same { (W.owner words.new ≡ W.owner words.old) × (W.home words.new ≡ W.home words.old) }
    ensures kept { Kept (W.owner words.new) }
{
    sought.slot?;
    let offset = sought.offset;
    let room = header_room(words.read(WordAt::Item(offset)));
    let stays = keeps(item_size(key.len(), value.len()), room);
    (stays && is_live(offset, sought.stamp + 1, words.shape().words)).then_some(offset)
}

// The put writes its value into the room of the key's item.
fn put_in_place<W: OwnerWords>(
    words: &mut W,
    sought: &Sought,
    offset: u64,
    key: &[u8],
    value: &[u8],
) -> u64
    requires kept { Kept (W.owner words.old) }
    requires may { MayWrite (W.owner words.old) }
    requires write { IsWrite (write_of Put key.now value.now) }
    requires taken { IsAcceptable (W.owner words.old) (write_of Put key.now value.now) }
    requires sought { IsSought (W.owner words.old) key.now sought.now }
    requires in_place { kept_offset (W.owner words.old) (write_of Put key.now value.now)
        ≡ Some offset }
    ensures gains { Gains (W.owner words.old) (W.owner words.new)
        (write_of Put key.entry.now value.entry.now) }
    ensures stamp { result ≡ stamp_of (options_in (W.owner words.new)) (W.owner words.new).history }
    ensures home { W.home words.new ≡ W.home words.old }
{
    let stamp = sought.stamp + 1;
    begin(words, sought.bucket, Op::Put, key, value, stamp);
    rewrite(words, offset, key, value);
    words.end_write(sought.bucket);
    stamp
}

/// The write appends its item, which the key's slot names afterwards, and the new stamp is answered.
pub(crate) fn put_at_tail<W: OwnerWords>(
    words: &mut W,
    sought: &Sought,
    op: Op,
    key: &[u8],
    value: &[u8],
) -> u64
    requires gives { GivesValue op }
    requires kept { Kept (W.owner words.old) }
    requires may { MayWrite (W.owner words.old) }
    requires value { StoredFits value.now }
    requires write { IsWrite (write_of op key.now value.now) }
    requires taken { IsAcceptable (W.owner words.old) (write_of op key.now value.now) }
    requires sought { IsSought (W.owner words.old) key.now sought.now }
    requires at_tail { AppendsValue (W.owner words.old) (write_of op key.now value.now) value.now }
    ensures gains { Gains (W.owner words.old) (W.owner words.new)
        (write_of op key.entry.now value.entry.now) }
    ensures stamp { result ≡ stamp_of (options_in (W.owner words.new)) (W.owner words.new).history }
    ensures home { W.home words.new ≡ W.home words.old }
{
    let tail = tail_of(sought.stamp);
    let stamp = sought.stamp + 65_536 * u64::from(item_size(key.len(), value.len()));
    begin(words, sought.bucket, op, key, value, stamp);
    append_hashed(words, tail, key, sought.hash, value);
    place(words, sought.bucket, sought.slot, tag_of(sought.hash), tail);
    words.end_write(sought.bucket);
    stamp
}
