//! A delete, by its events.
ghost use Rattle.std.specs.Prelude.{◌≡◌, []};
ghost use Rattle.mica_words.specs.Item.{KeyFits};
ghost use Rattle.partition_model.specs.declared.write.Op.TheVariants.{Del};
ghost use Rattle.partition_model.specs.Write.{write_of};
ghost use Rattle.partition_model.specs.History.{stamp_of};
ghost use Rattle.partition_words.specs.OwnerState.{options_in};
ghost use Rattle.cache_partition.specs.Gained.{MayWrite, Gains};
ghost use Rattle.cache_partition.specs.Sought.{had_record};

use crate::seeking::{begin, seek};
use lossy_index::clear;
use partition_model::Op;
use partition_words::OwnerWords;

/// What a delete gives: the new stamp, and whether the key had a record.
#[derive(Drop)]
pub(crate) struct Removed {
    pub stamp: u64,
    pub had_record: bool,
}

/// Drops the key's record where there is one.
pub(crate) fn remove<W: OwnerWords>(words: &mut W, key: &[u8]) -> Removed
    requires may { MayWrite (W.owner words.old) }
    requires key { KeyFits key.now }
    ensures gains { Gains (W.owner words.old) (W.owner words.new) (write_of Del key.entry.now []) }
    ensures stamp { result.stamp
        ≡ stamp_of (options_in (W.owner words.new)) (W.owner words.new).history }
    ensures found { result.had_record ≡ had_record (W.owner words.old) key.entry.now }
    ensures home { W.home words.new ≡ W.home words.old }
{
    let sought = seek(words, key);
    let stamp = sought.stamp + 1;
    begin(words, sought.bucket, Op::Del, key, &[], stamp);
    if let Some(slot) = sought.slot {
        clear(words, sought.bucket, slot);
    }
    words.end_write(sought.bucket);
    Removed {
        stamp,
        had_record: sought.slot.is_some(),
    }
}
