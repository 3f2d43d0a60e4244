//! The answer to a get in cache mode.
ghost use Rattle.std.specs.Prelude.{◌≡◌};
ghost use Rattle.mica_words.specs.Item.{KeyFits};
ghost use Rattle.partition_model.specs.declared.options.Mode.TheVariants.{Cache};
ghost use Rattle.partition_model.specs.Answer.{IsAnswer};
ghost use Rattle.partition_model.specs.History.{answer_of};
ghost use Rattle.partition_words.specs.declared.state.Phase.TheVariants.{Idle};
ghost use Rattle.partition_words.specs.OwnerState.{options_in};

use crate::seeking::bucket_and_hash;
use circular_log::item_at;
use lossy_index::find_hashed;
use partition_model::{Answer, ItemBuf};
use partition_words::{OwnerWords, WordAt};

/// Copies the key's value into the buffer.
pub(crate) fn value_of<W: OwnerWords>(words: &mut W, key: &[u8], out: &mut ItemBuf) -> Answer
    requires key { KeyFits key.now }
    requires idle { (W.owner words.old).phase ≡ Idle }
    requires cached { (W.owner words.old).shape.mode ≡ Cache }
    ensures answer { IsAnswer result out.new
        (answer_of (options_in (W.owner words.old)) (W.owner words.old).history key.entry.now) }
    ensures same { (W.owner words.new ≡ W.owner words.old) × (W.home words.new ≡ W.home words.old) }
{
    let (bucket, hash) = bucket_and_hash(words, key);
    let stamp = words.read(WordAt::Stamp);
    match find_hashed(words, bucket, key, hash, stamp) {
        Some(found) => {
            item_at(words, found.offset, out);
            Answer::Hit
        }
        None => {
            out.clear();
            Answer::Miss
        }
    }
}
