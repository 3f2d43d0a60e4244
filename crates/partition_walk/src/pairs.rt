//! Pairs, read from the words.
ghost use Rattle.std.specs.Prelude.{◌≡◌, ◌+◌, ◌<◌, ◌^◌, OnOk, true};
ghost use Rattle.mica_words.specs.Item.{words_for};
ghost use Rattle.saved_items.specs.Items.{pair_of};
ghost use Rattle.kept_items.specs.Walk.{IsPartitionPair};
ghost use Rattle.partition_walk.specs.PairAt.{bytes_in, pair_at, is_item};

use mica_words::{header_key_len, header_value_len};
use outside::NoMemory;
use partition_words::{OwnerWords, WordAt};
use saved_items::SavedPair;

// So many bytes from this offset on, in place of those in `out`.
fn read_bytes<W: OwnerWords>(
    words: &mut W,
    offset: u64,
    len: usize,
    out: &mut Vec<u8>,
) -> Result<(), NoMemory>
    requires { offset + words_for len < 2 ^ 64 }
    ensures bytes { OnOk result (out.new.items ≡ bytes_in (W.owner words.old) offset len) }
    ensures same { W.owner words.new ≡ W.owner words.old }
    ensures home { W.home words.new ≡ W.home words.old }
{
    out.clear();
    for at in 0..len.div_ceil(8) {
        let word = words.read(WordAt::Item(offset + at as u64));
        out.extend_from_slice(&word.to_le_bytes())?;
    }
    out.truncate(len);
    Ok(())
}

/// The pair of the item at the offset, in place of the one that `pair` held.
pub(crate) fn read_pair<W: OwnerWords>(
    words: &mut W,
    offset: u64,
    pair: &mut SavedPair,
) -> Result<(), NoMemory>
    requires { is_item (W.owner words.old) offset ≡ true }
    ensures pair { OnOk result (pair_of pair.new ≡ pair_at (W.owner words.old) offset) }
    ensures fits { OnOk result (IsPartitionPair (pair_of pair.new)) }
    ensures same { W.owner words.new ≡ W.owner words.old }
    ensures home { W.home words.new ≡ W.home words.old }
{
    let header = words.read(WordAt::Item(offset));
    let key_len = header_key_len(header) as usize;
    let value_len = header_value_len(header) as usize;
    let value_at = offset + 2 + key_len.div_ceil(8) as u64;
    read_bytes(words, offset + 2, key_len, &mut pair.key)?;
    read_bytes(words, value_at, value_len, &mut pair.value)?;
    pair.reads = 0;
    pair.is_long = false;
    Ok(())
}
