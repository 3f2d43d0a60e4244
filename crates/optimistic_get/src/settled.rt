//! The get of a script that has no event left.
ghost use Rattle.std.specs.Prelude.{◌≡◌};
ghost use Rattle.mica_words.specs.Item.{KeyFits};
ghost use Rattle.scripted_reader.specs.Script.{HasPlayedOut};
ghost use Rattle.scripted_reader.specs.Seat.{book_of};
ghost use Rattle.optimistic_get.specs.Settled.{AnswersPlayed};

use crate::getting::Got;
use crate::trying::try_get;
use crate::wanted::Wanted;
use mica_words::{bucket_of, tag_of};
use partition_model::{Answer, ItemBuf};
use partition_words::ReaderWords;
use scripted_reader::Scripted;

/// The machine's answer after the events that were played, by one try.
pub fn get_settled(seat: &mut Scripted, key: &[u8], out: &mut ItemBuf) -> Answer
    requires key { KeyFits key.now }
    requires settled { HasPlayedOut (book_of seat.old) }
    ensures played { AnswersPlayed (book_of seat.old) key.now result out.new (book_of seat.new) }
    ensures home { ⟦<Scripted as ReaderWords>⟧.home seat.new ≡ ⟦<Scripted as ReaderWords>⟧.home seat.old }
    ensures plan { ⟦<Scripted as ReaderWords>⟧.plan seat.new ≡ ⟦<Scripted as ReaderWords>⟧.plan seat.old }
{
    let shape = seat.shape();
    let hash = shape.hashing.key_hash(key);
    let bucket = bucket_of(hash, shape.buckets);
    let wanted = Wanted {
        key,
        hash,
        tag: tag_of(hash),
    };
    match try_get(seat, bucket, &wanted, out) {
        Got::Hit { .. } => Answer::Hit,
        Got::Miss { .. } => Answer::Miss,
        Got::Again { .. } => unreachable!(),
    }
}
