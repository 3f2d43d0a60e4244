//! What an owner does with the write of a job.
ghost use Rattle.std.specs.Prelude.{◌≡◌};
ghost use Rattle.partition_model.specs.Write.{IsWrite};
ghost use Rattle.partition_words.specs.OwnerStep.{IsOwnerStep};

use crate::cow_write::CowWrite;
use partition_model::Outcome;
use partition_words::{Partition, write_to};

/// Does the write in the partition.
pub fn apply_write<P: Partition>(part: &mut P, write: &CowWrite) -> Outcome
    requires { IsWrite write.now }
    ensures step { IsOwnerStep (P.owner part.old) (P.owner part.new) write.now result }
    ensures home { P.home part.new ≡ P.home part.old }
{
    write_to(part, write.op, write.key.bytes(), write.value.bytes())
}
