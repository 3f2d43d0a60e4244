//! A get that is asked again until it answers.
ghost use Rattle.std.specs.Prelude.{◌≡◌, ◌<◌};
ghost use Rattle.mica_words.specs.Hash.{hash_of};
ghost use Rattle.mica_words.specs.Item.{KeyFits};
ghost use Rattle.optimistic_get.specs.Asked.{IsRead};

use crate::getting::{Got, get_hashed};
use partition_model::ItemBuf;
use partition_words::ReaderWords;
use std::sync::Wait;
use std::thread;

/// Asks until there is an answer, so never `Again`. Where all tries of a call failed, the owner may want the core to
/// go on.
pub fn ask<W: Wait, R: ReaderWords>(
    rt: &W,
    seat: &mut R,
    key: &[u8],
    tries: u32,
    out: &mut ItemBuf,
) -> Got
    requires key { KeyFits key.now }
    requires tries { 0 < tries }
    ensures answered { IsRead (R.reader seat.old) key.now result out.new (R.reader seat.new) }
    ensures home { R.home seat.new ≡ R.home seat.old }
{
    let hash = seat.shape().hashing.key_hash(key);
    ask_hashed(rt, seat, key, hash, tries, out)
}

/// As `ask`, for a key whose hash is at hand.
pub fn ask_hashed<W: Wait, R: ReaderWords>(
    rt: &W,
    seat: &mut R,
    key: &[u8],
    hash: u64,
    tries: u32,
    out: &mut ItemBuf,
) -> Got
    requires key { KeyFits key.now }
    requires hashed { hash ≡ hash_of (R.reader seat.old).shape.hashing key.now }
    requires tries { 0 < tries }
    ensures answered { IsRead (R.reader seat.old) key.now result out.new (R.reader seat.new) }
    ensures home { R.home seat.new ≡ R.home seat.old }
{
    for _ in rt.forever() {
        match get_hashed(seat, key, hash, tries, out) {
            Got::Again { .. } => thread::yield_now(),
            got => return got,
        }
    }
    unreachable!()
}
