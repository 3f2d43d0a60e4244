//! The two events that each write begins with.
ghost use Rattle.std.specs.Prelude.{◌≡◌};
ghost use Rattle.partition_model.specs.Write.{write_of};
ghost use Rattle.partition_words.specs.Events.{MayBegin, MayMark, after};
ghost use Rattle.partition_words.specs.declared.event.Event.TheVariants.{Begins};
ghost use Rattle.partition_words.specs.Kept.{Kept};
ghost use Rattle.store_partition.specs.Parts.{marked_in_bucket};

use partition_model::Op;
use partition_words::OwnerWords;

/// Begins a write in the bucket, and marks it.
pub(crate) fn begin_marked<W: OwnerWords>(
    words: &mut W,
    bucket: u32,
    op: Op,
    key: &[u8],
    value: &[u8],
    stamp: u64,
)
    requires begin { MayBegin (W.owner words.old) bucket }
    requires mark { MayMark (after (Begins bucket) (W.owner words.old)) (write_of op key.now value.now) stamp }
    ensures events { W.owner words.new
        ≡ marked_in_bucket (W.owner words.old) bucket (write_of op key.entry.now value.entry.now) stamp }
    ensures kept { Kept (W.owner words.new) }
    ensures home { W.home words.new ≡ W.home words.old }
{
    words.begin_write(bucket);
    words.mark(op, key, value, stamp);
}
