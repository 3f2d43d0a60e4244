//! Items that are carried to the tail.
ghost use Rattle.std.specs.Prelude.{◌≡◌, ◌+◌, ◌<◌, ◌^◌};
ghost use Rattle.partition_words.specs.Events.{CanPlay, plays, puts_from};
ghost use Rattle.partition_words.specs.Kept.{Kept};
ghost use Rattle.circular_log.specs.LogItem.{HasItem, IsSizeAt, words_from};
ghost use Rattle.circular_log.specs.LogCarry.{MayCarry, IsCarried, StoresBehind};

use mica_words::{header_key_len, header_of, header_value_len, item_size};
use partition_words::{OwnerWords, WordAt};

/// Writes the item of a touched key at the tail, in a room of its size. Each of its words is loaded before it is
/// stored, one after another, so where it is written over itself the copy is whole.
pub fn carry<W: OwnerWords>(words: &mut W, from: u64, to: u64)
    requires marked { MayCarry (W.owner words.old) from to }
    ensures item { IsCarried (W.owner words.old) from to (W.owner words.new) }
    ensures home { W.home words.new ≡ W.home words.old }
    ensures kept { Kept (W.owner words.new) }
{
    let header = words.read(WordAt::Item(from));
    let key_len = header_key_len(header);
    let value_len = header_value_len(header);
    let size = item_size(key_len as usize, value_len as usize);
    words.put_word(to, header_of(size, key_len, value_len));
    copy_words(words, from + 1, to + 1, size - 1);
}

// Copies so many words from one offset to another.
fn copy_words<W: OwnerWords>(words: &mut W, from: u64, to: u64, count: u32)
    requires kept { Kept (W.owner words.old) }
    requires low { (from + count < 2 ^ 64) × (to + count < 2 ^ 64) }
    requires behind { StoresBehind (W.owner words.old).shape from to count }
    requires allowed { CanPlay (puts_from to (words_from (W.owner words.old) from count))
        (W.owner words.old) }
    ensures copied { W.owner words.new
        ≡ plays (puts_from to (words_from (W.owner words.old) from count)) (W.owner words.old) }
    ensures home { W.home words.new ≡ W.home words.old }
    ensures kept { Kept (W.owner words.new) }
{
    for i in 0..u64::from(count) {
        let word = words.read(WordAt::Item(from + i));
        words.put_word(to + i, word);
    }
}

/// How many words the item has that stands at the offset.
pub fn size_at<W: OwnerWords>(words: &mut W, offset: u64) -> u32
    requires offset { offset < 2 ^ 48 }
    requires item { HasItem (W.owner words.old) offset }
    ensures size { IsSizeAt (W.owner words.old) offset result }
    ensures same { W.owner words.new ≡ W.owner words.old }
    ensures home { W.home words.new ≡ W.home words.old }
    ensures kept { Kept (W.owner words.new) }
{
    let header = words.read(WordAt::Item(offset));
    item_size(
        header_key_len(header) as usize,
        header_value_len(header) as usize,
    )
}
