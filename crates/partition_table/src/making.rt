//! Making a partition's table.
ghost use Rattle.std.specs.Prelude.{◌≡◌, IfOk};
ghost use Rattle.partition_words.specs.Shape.{IsPossibleShape};
ghost use Rattle.partition_words.specs.OwnerState.{as_made};
ghost use Rattle.partition_table.specs.Seats.{owner_state};

use crate::owner::OwnerSeat;
use crate::places::Places;
use crate::rule::PartitionTable;
use atomic_table::Table;
use outside::NoMemory;
use partition_words::Shape;
use std::alloc::Global;
use std::sync::Arc;

/// As many zeros as a partition has words, for the making of any number of partitions of this shape.
pub fn zeros_for(alloc: Global, shape: &Shape) -> Result<Vec<u64>, NoMemory>
    ensures { IfOk result (λ zeros. zeros.items ≡ (as_made shape.now).words) }
{
    let zeros = vec![in alloc; 0u64; shape.word_count()]?;
    Ok(zeros)
}

/// A partition whose words are 0, in the hands of its owner. The zeros are lent, and are the caller's afterwards.
pub fn make_from_zeros(alloc: Global, shape: &Shape, zeros: &[u64]) -> Result<OwnerSeat, NoMemory>
    requires valid { IsPossibleShape shape.now }
    requires zeros { zeros.now ≡ (as_made shape.now).words }
    ensures made { IfOk result (λ s. owner_state s ≡ as_made shape.now) }
{
    let (table, seat) = Table::of_words(alloc, zeros, shape)?;
    let table: Arc<PartitionTable, Global> = Arc::new(alloc, table)?;
    Ok(OwnerSeat {
        table,
        seat,
        places: Places::new(shape),
    })
}

/// A partition whose words are 0, with a row of zeros of its own.
pub fn make(alloc: Global, shape: &Shape) -> Result<OwnerSeat, NoMemory>
    requires { IsPossibleShape shape.now }
    ensures made { IfOk result (λ s. owner_state s ≡ as_made shape.now) }
{
    let zeros = zeros_for(alloc, shape)?;
    make_from_zeros(alloc, shape, zeros.as_slice())
}
