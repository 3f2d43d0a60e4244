//! The owner seats of a run that has ended.
ghost use Rattle.std.specs.Prelude.{◌≡◌, ◌<◌, ◌+◌, ◌++◌, [], ◌∷◌, length};
ghost use Rattle.partition_words.specs.declared.state.Phase.TheVariants.{Idle};
ghost use Rattle.partition_table.specs.Seats.{owner_state};
ghost use Rattle.partition_table.specs.Tabled.{kept_seat_of};

use crate::owner::OwnerSeat;
use partition_model::Write;
use partition_words::Shape;
use std::collections::LinkedList;
use std::marker::Model;

/// What contracts see of a kept seat. No value of it is made.
pub struct KeptSeat {
    pub shape: Shape,
    pub history: LinkedList<Write>,
    pub closed: u64,
}

/// Its places are a fixed row, so that keeping a seat takes no memory.
#[derive(Drop)]
pub struct Tables {
    seats: [Option<OwnerSeat>; 64],
    count: u32,
}

impl Model for Tables {
    ghost use Rattle.std.specs.Prelude.{◌≡◌, ◌≤◌, List, length};
    ghost use Rattle.partition_table.specs.declared.tables.KeptSeat.{KeptSeat};
    ghost use Rattle.partition_table.specs.Tabled.{kept_seats};

    ghost Value = { List KeptSeat };

    ghost view = { λ t. kept_seats t.seats t.count };

    ghost invariant = { λ t. (length t.seats ≡ 64) × (t.count ≤ 64) × (length (kept_seats t.seats t.count) ≡ t.count) };
}

impl Tables {
    /// No tables.
    pub fn new() -> Tables
        ensures { result ≡ [] }
    {
        Tables {
            seats: [
                None, None, None, None, None, None, None, None, None, None, None, None, None, None,
                None, None, None, None, None, None, None, None, None, None, None, None, None, None,
                None, None, None, None, None, None, None, None, None, None, None, None, None, None,
                None, None, None, None, None, None, None, None, None, None, None, None, None, None,
                None, None, None, None, None, None, None, None,
            ],
            count: 0,
        }
    }

    /// How many tables are kept.
    pub fn len(&self) -> u32
        ensures { result ≡ length self.now }
    {
        self.count
    }

    /// Keeps a seat, last.
    pub fn keep(&mut self, seat: OwnerSeat)
        requires few { length self.old < 64 }
        requires idle { (owner_state seat).phase ≡ Idle }
        ensures { self.new ≡ self.old ++ kept_seat_of seat ∷ [] }
    {
        self.seats[self.count as usize] = Some(seat);
        self.count += 1;
    }
}
