//! What is known of a key before a write to it, and the write's begin.
ghost use Rattle.std.specs.Prelude.{◌≡◌, ◌++◌, ◌∷◌, []};
ghost use Rattle.mica_words.specs.Hash.{hash_of};
ghost use Rattle.mica_words.specs.Item.{KeyFits};
ghost use Rattle.partition_model.specs.Write.{IsWrite, write_of};
ghost use Rattle.partition_model.specs.History.{stamp_of};
ghost use Rattle.partition_words.specs.Shape.{IsMain};
ghost use Rattle.partition_words.specs.OwnerState.{options_in, bucket_in};
ghost use Rattle.partition_words.specs.Kept.{Kept};
ghost use Rattle.cache_partition.specs.Gained.{MayWrite, marked_with};
ghost use Rattle.cache_partition.specs.Sought.{IsSought, IsAcceptable};

use lossy_index::find_hashed;
use mica_words::bucket_of;
use partition_model::Op;
use partition_words::{OwnerWords, WordAt};

/// A key's hash, its bucket, its slot there if it has one, with the offset in the slot's entry, and the stamp.
#[derive(Drop)]
pub(crate) struct Sought {
    pub hash: u64,
    pub bucket: u32,
    pub slot: Option<u32>,
    pub offset: u64,
    pub stamp: u64,
}

/// The bucket of a key, and the key's hash.
pub(crate) fn bucket_and_hash<W: OwnerWords>(words: &W, key: &[u8]) -> (u32, u64)
    ensures bucket { result.0 ≡ bucket_in (W.owner words.now) key.now }
    ensures main { IsMain (W.owner words.now).shape result.0 }
    ensures hashed { result.1 ≡ hash_of (W.owner words.now).shape.hashing key.now }
{
    let shape = words.shape();
    let hash = shape.hashing.key_hash(key);
    (bucket_of(hash, shape.buckets), hash)
}

/// Looks the key up.
pub(crate) fn seek<W: OwnerWords>(words: &mut W, key: &[u8]) -> Sought
    requires { KeyFits key.now }
    ensures sought { IsSought (W.owner words.old) key.entry.now result }
    ensures same { (W.owner words.new ≡ W.owner words.old) × (W.home words.new ≡ W.home words.old) }
    ensures kept { Kept (W.owner words.new) }
{
    let (bucket, hash) = bucket_and_hash(words, key);
    let stamp = words.read(WordAt::Stamp);
    match find_hashed(words, bucket, key, hash, stamp) {
        Some(found) => Sought {
            hash,
            bucket,
            slot: Some(found.slot),
            offset: found.offset,
            stamp,
        },
        None => Sought {
            hash,
            bucket,
            slot: None,
            offset: 0,
            stamp,
        },
    }
}

/// Begins the write in its bucket and marks it.
pub(crate) fn begin<W: OwnerWords>(
    words: &mut W,
    bucket: u32,
    op: Op,
    key: &[u8],
    value: &[u8],
    stamp: u64,
)
    requires kept { Kept (W.owner words.old) }
    requires may { MayWrite (W.owner words.old) }
    requires bucket { bucket ≡ bucket_in (W.owner words.old) key.now }
    requires write { IsWrite (write_of op key.now value.now) }
    requires taken { IsAcceptable (W.owner words.old) (write_of op key.now value.now) }
    requires stamp { stamp ≡ stamp_of (options_in (W.owner words.old))
        ((W.owner words.old).history ++ write_of op key.now value.now ∷ []) }
    ensures marked { W.owner words.new ≡ marked_with (W.owner words.old) bucket
        (write_of op key.entry.now value.entry.now) stamp }
    ensures home { W.home words.new ≡ W.home words.old }
    ensures kept { Kept (W.owner words.new) }
{
    words.begin_write(bucket);
    words.mark(op, key, value, stamp);
}
