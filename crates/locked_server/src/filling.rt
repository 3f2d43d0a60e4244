//! The filling of partitions, before they lie under their locks.
ghost use Rattle.std.specs.Prelude.{◌≡◌, ◌≢◌, true, All, IfOk, OnOk, OnErr};
ghost use Rattle.mica_words.specs.Hash.{partition_of};
ghost use Rattle.partition_model.specs.declared.write.Outcome.{Outcome};
ghost use Rattle.partition_model.specs.Write.{IsWrite, is_accepted};
ghost use Rattle.partition_model.specs.Options.{IsPossible};
ghost use Rattle.partition_words.specs.OwnerState.{as_made};
ghost use Rattle.partition_words.specs.Shape.{shape_of};
ghost use Rattle.partition_words.specs.OwnerStep.{IsOwnerStep};
ghost use Rattle.fronts.specs.Flushes.{AreKept};
ghost use Rattle.locked_server.specs.Filled.{RefusesFilling, IsFilledOwner, origin_of};

use fronts::KeptFlushes;
use locked_front::write_counted;
use mica_words::partition_of;
use outside::NoMemory;
use partition_model::{Options, Write};
use partition_words::Partition;
use std::alloc::{AllocError, AllocFailed};
use std::error::Error;
use std::fmt;

/// Why the partitions could not be made and filled.
#[derive(Clone, Copy, Debug)]
pub enum OpenFault {
    /// A write was refused.
    Refused,
    NoMemory,
}

impl fmt::Display for OpenFault {
    fn fmt<W: fmt::Write>(&self, f: &mut fmt::Formatter<W>) -> fmt::Result {
        match self {
            OpenFault::Refused => f.write_str("a write that was to fill a partition was refused"),
            OpenFault::NoMemory => fmt::Display::fmt(&NoMemory, f),
        }
    }
}

impl Error for OpenFault {}

impl From<NoMemory> for OpenFault {
    ghost use Rattle.locked_server.specs.declared.filling.OpenFault.TheVariants.{NoMemory};

    ghost from_gives = { λ _ e. e ≡ NoMemory };

    fn from(_: NoMemory) -> Self {
        OpenFault::NoMemory
    }
}

impl From<AllocError> for OpenFault {
    ghost use Rattle.locked_server.specs.declared.filling.OpenFault.TheVariants.{NoMemory};

    ghost from_gives = { λ _ e. e ≡ NoMemory };

    fn from(_: AllocError) -> Self {
        OpenFault::NoMemory
    }
}

impl<T: Drop> From<AllocFailed<T>> for OpenFault {
    ghost use Rattle.locked_server.specs.declared.filling.OpenFault.TheVariants.{NoMemory};

    ghost from_gives = { λ _ e. e ≡ NoMemory };

    fn from(_: AllocFailed<T>) -> Self {
        OpenFault::NoMemory
    }
}

// Does the write in the partition, where it is to one of its keys, and says whether it was not refused.
fn fill_one<P: Partition>(
    part: &mut P,
    flushes: &mut KeptFlushes,
    options: &Options,
    number: u32,
    write: &Write,
) -> bool
    requires valid { IsPossible options.now }
    requires hashing { (P.owner part.old).shape.hashing ≡ options.now.hashing }
    requires write { IsWrite write.now }
    requires flushes { AreKept (P.owner part.old).shape.hashing (P.owner part.old).shape.buckets (P.owner part.old).history flushes.old }
    ensures own { partition_of options.now.hashing write.now.key options.now.partitions ≡ number
        → (outcome : Outcome) × (is_accepted outcome ≡ result) × IsOwnerStep (P.owner part.old) (P.owner part.new) write.now outcome }
    ensures other { partition_of options.now.hashing write.now.key options.now.partitions ≢ number → (result ≡ true) × (P.owner part.new ≡ P.owner part.old) }
    ensures flushes { AreKept (P.owner part.new).shape.hashing (P.owner part.new).shape.buckets (P.owner part.new).history flushes.new }
{
    let key = write.key.bytes();
    let hash = options.hashing.key_hash(key);
    if partition_of(hash, options.partitions) != number {
        return true;
    }
    write_counted(part, flushes, write.op, key, hash, write.value.bytes()).is_accepted()
}

/// Does those of the writes in the partition that are to its keys, up to the first that is refused. Says what flushes are among them.
pub(crate) fn fill<P: Partition>(
    part: &mut P,
    options: &Options,
    number: u32,
    filling: &[Write],
) -> Result<KeptFlushes, OpenFault>
    requires valid { IsPossible options.now }
    requires made { P.owner part.old ≡ as_made (shape_of options.now) }
    requires writes { All IsWrite filling.now }
    ensures filled { OnOk result (IsFilledOwner options.now (P.owner part.new)) }
    ensures origin { OnOk result ((P.owner part.new).history ≡ origin_of options.now filling.now number) }
    ensures flushes { IfOk result (AreKept (P.owner part.new).shape.hashing (P.owner part.new).shape.buckets (P.owner part.new).history) }
    ensures refused { OnErr result (RefusesFilling options.now filling.now) }
{
    let mut flushes = KeptFlushes::none(options.hashing, options.buckets);
    for write in filling {
        if !fill_one(part, &mut flushes, options, number, write) {
            return Err(OpenFault::Refused);
        }
    }
    Ok(flushes)
}
