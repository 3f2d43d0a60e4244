//! Where a key's entry stands, and the answer to a get.
ghost use Rattle.std.specs.Prelude.{◌≡◌, ◌<◌};
ghost use Rattle.mica_words.specs.declared.entry.TheConstants.{SLOTS};
ghost use Rattle.mica_words.specs.Hash.{hash_of};
ghost use Rattle.mica_words.specs.Item.{KeyFits};
ghost use Rattle.mica_words.specs.Entry.{entry_offset as entry_offset_of};
ghost use Rattle.partition_model.specs.Answer.{IsAnswer};
ghost use Rattle.partition_model.specs.History.{answer_of};
ghost use Rattle.partition_words.specs.Shape.{IsBucket};
ghost use Rattle.partition_words.specs.OwnerState.{options_in};
ghost use Rattle.partition_words.specs.StandsFor.{room_in};
ghost use Rattle.partition_words.specs.Kept.{Kept};
ghost use Rattle.chained_index.specs.ChainEntries.{spot_entry};
ghost use Rattle.chained_index.specs.Index.{IsIndexOf};
ghost use Rattle.store_partition.specs.Sought.{IsSought};
ghost use Rattle.store_partition.specs.Parts.{AreParts};

use block_heap::Heap;
use chained_index::{ChainedIndex, Spot};
use circular_log::item_at;
use mica_words::{bucket_of, entry_offset, header_room};
use partition_model::{Answer, ItemBuf};
use partition_words::{OwnerWords, WordAt};

/// A key's hash, its bucket, and the spot of its entry there if it has one.
#[derive(Drop)]
pub(crate) struct Place {
    pub hash: u64,
    pub bucket: u32,
    pub spot: Option<Spot>,
}

/// Looks the key up.
pub(crate) fn seek<W: OwnerWords>(words: &mut W, index: &ChainedIndex, key: &[u8]) -> Place
    requires index { IsIndexOf index.now (W.owner words.old) }
    requires key { KeyFits key.now }
    ensures hashed { result.hash ≡ hash_of (W.owner words.old).shape.hashing key.entry.now }
    ensures sought { IsSought (W.owner words.old) key.entry.now result.bucket result.spot }
    ensures same { (W.owner words.new ≡ W.owner words.old) × (W.home words.new ≡ W.home words.old) }
    ensures kept { Kept (W.owner words.new) }
{
    let shape = words.shape();
    let hash = shape.hashing.key_hash(key);
    let bucket = bucket_of(hash, shape.buckets);
    let spot = index.find_hashed(words, bucket, key, hash);
    Place { hash, bucket, spot }
}

/// The words of an item: where they begin, and how many it may use.
#[derive(Clone, Copy)]
pub(crate) struct Block {
    pub offset: u64,
    pub room: u32,
}

/// The block of the item that a spot's entry names.
pub(crate) fn block_at<W: OwnerWords>(words: &mut W, spot: Spot) -> Block
    requires { IsBucket (W.owner words.old).shape spot.bucket × (spot.slot < SLOTS) }
    ensures offset { result.offset ≡ entry_offset_of (spot_entry (W.owner words.old) spot) }
    ensures room { result.room ≡ room_in (W.owner words.old) (spot_entry (W.owner words.old) spot) }
    ensures same { (W.owner words.new ≡ W.owner words.old) × (W.home words.new ≡ W.home words.old) }
    ensures kept { Kept (W.owner words.new) }
{
    let offset = entry_offset(words.read(WordAt::Entry(spot.bucket, spot.slot)));
    let room = header_room(words.read(WordAt::Item(offset)));
    Block { offset, room }
}

/// Copies the key's value into the buffer.
pub(crate) fn value_of<W: OwnerWords>(
    words: &mut W,
    index: &ChainedIndex,
    heap: &Heap,
    key: &[u8],
    out: &mut ItemBuf,
) -> Answer
    requires parts { AreParts index.now heap.now (W.owner words.old) }
    requires key { KeyFits key.now }
    ensures answer { IsAnswer result out.new
        (answer_of (options_in (W.owner words.old)) (W.owner words.old).history key.entry.now) }
    ensures same { (W.owner words.new ≡ W.owner words.old) × (W.home words.new ≡ W.home words.old) }
{
    match seek(words, index, key).spot {
        Some(spot) => {
            let entry = words.read(WordAt::Entry(spot.bucket, spot.slot));
            item_at(words, entry_offset(entry), out);
            Answer::Hit
        }
        None => {
            out.clear();
            Answer::Miss
        }
    }
}
