//! What each mode's partition does for its table.
ghost use Rattle.std.specs.Prelude.{◌≡◌, IfOk};
ghost use Rattle.partition_model.specs.declared.options.Mode.{Mode};
ghost use Rattle.partition_model.specs.Options.{IsPossible};
ghost use Rattle.partition_words.specs.declared.state.OwnerState.{OwnerState};
ghost use Rattle.partition_words.specs.Shape.{shape_of};
ghost use Rattle.partition_words.specs.OwnerState.{as_made};
ghost use Rattle.partition_table.specs.Seats.{owner_state};

use cache_partition::CachePartition;
use outside::NoMemory;
use partition_model::Options;
use partition_table::{OwnerSeat, make_from_zeros};
use partition_words::{Partition, Shape};
use std::alloc::Global;
use store_partition::StorePartition;

/// A partition over an owner's seat, which can be kept when the run has ended.
pub trait OnTable: Drop {
    /// The mode that it is for.
    ghost mode: { Mode };

    /// The owner's state, as the partition has it.
    ghost state: { Self → OwnerState };

    /// A partition with nothing in it, over a table made for these options by a row of zeros that is lent: as many as the table has words.
    fn from_zeros(alloc: Global, options: &Options, zeros: &[u64]) -> Result<Self, NoMemory>
        requires possible { IsPossible options.now }
        requires mode { options.now.mode ≡ Self.mode }
        requires zeros { zeros.now ≡ (as_made (shape_of options.now)).words }
        ensures made { IfOk result (λ p. Self.state p ≡ as_made (shape_of options.now)) };

    /// Gives back the owner's seat; the words of the table stay as they are.
    fn into_seat(self) -> OwnerSeat
        ensures { owner_state result ≡ Self.state self };
}

impl OnTable for CachePartition<OwnerSeat> {
    ghost use Rattle.partition_model.specs.declared.options.Mode.TheVariants.{Cache};

    ghost mode = { Cache };

    ghost state = { λ p. ⟦<CachePartition<OwnerSeat> as Partition>⟧.owner p };

    fn from_zeros(alloc: Global, options: &Options, zeros: &[u64]) -> Result<Self, NoMemory> {
        let words = make_from_zeros(alloc, &Shape::of(options), zeros)?;
        Ok(CachePartition::new(words))
    }

    fn into_seat(self) -> OwnerSeat {
        self.into_words()
    }
}

impl OnTable for StorePartition<OwnerSeat> {
    ghost use Rattle.partition_model.specs.declared.options.Mode.TheVariants.{Store};

    ghost mode = { Store };

    ghost state = { λ p. ⟦<StorePartition<OwnerSeat> as Partition>⟧.owner p };

    fn from_zeros(alloc: Global, options: &Options, zeros: &[u64]) -> Result<Self, NoMemory> {
        let words = make_from_zeros(alloc, &Shape::of(options), zeros)?;
        StorePartition::new(alloc, words)
    }

    fn into_seat(self) -> OwnerSeat {
        self.into_words()
    }
}
