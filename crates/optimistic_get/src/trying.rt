//! One try of a get, between two loads of its bucket's epoch.
ghost use Rattle.std.specs.Prelude.{◌≡◌, ◌<◌, ◌^◌, ◌↔◌, IsTrue, IfSome};
ghost use Rattle.mica_words.specs.Hash.{bucket_of, hash_of};
ghost use Rattle.partition_words.specs.Shape.{IsMain};
ghost use Rattle.partition_words.specs.LiveEntry.{IsLiveItem};
ghost use Rattle.optimistic_get.specs.Gets.{Tries};
ghost use Rattle.optimistic_get.specs.Settled.{TriesAtRest};

use crate::getting::Got;
use crate::searching::search;
use crate::wanted::Wanted;
use mica_words::tail_of;
use partition_model::{ItemBuf, Mode};
use partition_words::{ReaderWords, Shape};

// Whether the log has not passed the item by the stamp. In store mode it never does.
fn is_live(shape: &Shape, offset: u64, stamp: u64) -> bool
    requires { offset < 2 ^ 48 }
    ensures { IsTrue result ↔ IsLiveItem shape.now.mode shape.now.words stamp offset }
{
    match shape.mode {
        Mode::Cache => tail_of(stamp) <= offset + u64::from(shape.words),
        Mode::Store => true,
    }
}

/// One try of the key's bucket.
#[tactic(auto, using(crate::proofs::Answering::main_opened, crate::proofs::Answering::main_stamped))]
pub(crate) fn try_get<R: ReaderWords>(
    seat: &mut R,
    bucket: u32,
    wanted: &Wanted<'_>,
    out: &mut ItemBuf,
) -> Got
    requires main { IsMain (R.reader seat.old).shape bucket }
    requires bucket { bucket ≡ bucket_of (R.reader seat.old).shape.hashing wanted.now.key.now (R.reader seat.old).shape.buckets }
    requires hashed { wanted.now.hash ≡ hash_of (R.reader seat.old).shape.hashing wanted.now.key.now }
    ensures tries { Tries (R.reader seat.old) bucket wanted.now.key.now result out.new (R.reader seat.new) }
    ensures planned { IfSome (R.plan seat.old)
        (TriesAtRest (R.reader seat.old) result (R.reader seat.new)) }
    ensures home { R.home seat.new ≡ R.home seat.old }
    ensures plan { R.plan seat.new ≡ R.plan seat.old }
{
    let first = seat.first_epoch(bucket);
    if first % 2 == 1 {
        out.clear();
        return Got::Again { first, last: first };
    }
    let best = search(seat, bucket, wanted, out);
    let stamp = seat.stamp();
    let last = seat.last_epoch();
    if last != first {
        out.clear();
        return Got::Again { first, last };
    }
    match best {
        Some(offset) if is_live(&seat.shape(), offset, stamp) => Got::Hit { stamp },
        _ => {
            out.clear();
            Got::Miss { stamp }
        }
    }
}
