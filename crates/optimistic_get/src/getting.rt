//! A get: tries of the key's bucket, until one does not fail or none is left.
ghost use Rattle.std.specs.Prelude.{◌≡◌, ◌<◌};
ghost use Rattle.mica_words.specs.Hash.{bucket_of as bucket_of_key, hash_of};
ghost use Rattle.mica_words.specs.Item.{KeyFits};
ghost use Rattle.optimistic_get.specs.Gets.{AnswersGet};

use crate::trying::try_get;
use crate::wanted::Wanted;
use mica_words::{bucket_of, tag_of};
use partition_model::ItemBuf;
use partition_words::ReaderWords;
use std::hint::spin_loop;

/// What a get answers.
#[derive(Clone, Copy, PartialEq, Eq)]
pub enum Got {
    /// The value is in the buffer, and was the machine's answer at this stamp.
    Hit { stamp: u64 },
    /// The machine had no value at this stamp.
    Miss { stamp: u64 },
    /// Each try failed, the last one with these two epochs.
    Again { first: u64, last: u64 },
}

impl Got {
    ghost use Rattle.optimistic_get.specs.Gets.{is_again as again_is};

    /// Whether each try failed.
    pub fn is_again(&self) -> bool
        ensures { result ≡ again_is self.now }
    {
        matches!(self, Got::Again { .. })
    }
}

/// The machine's answer at the last stamp load, or `Again` where each of the tries failed.
pub fn get<R: ReaderWords>(seat: &mut R, key: &[u8], tries: u32, out: &mut ItemBuf) -> Got
    requires key { KeyFits key.now }
    requires tries { 0 < tries }
    ensures answers { AnswersGet (R.reader seat.old) (bucket_of_key (R.reader seat.old).shape.hashing key.now (R.reader seat.old).shape.buckets)
        tries key.now result out.new (R.reader seat.new) }
    ensures home { R.home seat.new ≡ R.home seat.old }
{
    let hash = seat.shape().hashing.key_hash(key);
    get_hashed(seat, key, hash, tries, out)
}

/// As `get`, for a key whose hash is at hand.
pub fn get_hashed<R: ReaderWords>(
    seat: &mut R,
    key: &[u8],
    hash: u64,
    tries: u32,
    out: &mut ItemBuf,
) -> Got
    requires key { KeyFits key.now }
    requires hashed { hash ≡ hash_of (R.reader seat.old).shape.hashing key.now }
    requires tries { 0 < tries }
    ensures answers { AnswersGet (R.reader seat.old) (bucket_of_key (R.reader seat.old).shape.hashing key.now (R.reader seat.old).shape.buckets)
        tries key.now result out.new (R.reader seat.new) }
    ensures home { R.home seat.new ≡ R.home seat.old }
{
    let bucket = bucket_of(hash, seat.shape().buckets);
    let wanted = Wanted {
        key,
        hash,
        tag: tag_of(hash),
    };
    for _try in 1..tries {
        let got = try_get(seat, bucket, &wanted, out);
        if !got.is_again() {
            return got;
        }
        spin_loop();
    }
    try_get(seat, bucket, &wanted, out)
}
