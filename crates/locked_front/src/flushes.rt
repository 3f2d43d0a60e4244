//! Writes that may flush their partition.
ghost use Rattle.std.specs.Prelude.{◌≡◌};
ghost use Rattle.mica_words.specs.Hash.{hash_of};
ghost use Rattle.mica_words.specs.Item.{KeyFits};
ghost use Rattle.partition_model.specs.Write.{HasValueOf, write_of};
ghost use Rattle.partition_words.specs.OwnerStep.{IsOwnerStep};
ghost use Rattle.fronts.specs.Flushes.{AreKept};

use fronts::KeptFlushes;
use partition_model::{Op, Outcome};
use partition_words::{Partition, write_to};

/// Does a write in the partition, and takes it among the flushes where it is one.
pub fn write_counted<P: Partition>(
    part: &mut P,
    kept: &mut KeptFlushes,
    op: Op,
    key: &[u8],
    hash: u64,
    value: &[u8],
) -> Outcome
    requires key { KeyFits key.now }
    requires hashed { hash ≡ hash_of (P.owner part.old).shape.hashing key.now }
    requires value { HasValueOf op value.now }
    requires kept { AreKept (P.owner part.old).shape.hashing (P.owner part.old).shape.buckets (P.owner part.old).history kept.old }
    ensures step { IsOwnerStep (P.owner part.old) (P.owner part.new) (write_of op key.now value.now) result }
    ensures kept { AreKept (P.owner part.new).shape.hashing (P.owner part.new).shape.buckets (P.owner part.new).history kept.new }
    ensures home { P.home part.new ≡ P.home part.old }
{
    let outcome = write_to(part, op, key, value);
    if outcome.is_accepted() {
        *kept = kept.and_then(part.accepted(), op, key, hash);
    }
    outcome
}
