//! What a seat knows, and the rule of a partition's table.
use atomic_table::{Table, TableRule};
use partition_words::{OwnerState, ReaderState, Shape};
use std::alloc::Global;

/// What a seat at a partition's table knows. No value of it is made.
pub enum View {
    /// The one seat that writes.
    Owns(OwnerState),
    /// A reader's seat, or a note.
    Reads(ReaderState),
    /// A seat that was joined into another.
    Spent,
}

/// The rule, which is told the shape.
pub struct Law;

impl TableRule<(), View, Shape> for Law {
    ghost use Rattle.partition_table.specs.Rule.{IsLawful, first_view};

    ghost holds = { λ _. IsLawful };

    ghost first = { first_view };
}

/// The words of one partition.
pub type PartitionTable = Table<(), View, Shape, Law, Global>;
