//! Room for the commands of a front, and what it counts of them.
ghost use Rattle.std.specs.Prelude.{◌≡◌};

use crate::noted::Noted;
use memcached_stats::{Board, Tally};
use outside::NoMemory;
use partition_model::ItemBuf;
use std::alloc::Global;

/// What a front has in hand for its commands.
#[derive(Drop)]
pub struct Buffers<'a> {
    /// Room for a value that is found.
    pub found: ItemBuf,
    /// Room for the value that is to be stored.
    pub next: ItemBuf,
    /// Whether the last answer was a write that was refused.
    pub is_refused: bool,
    /// What is noted for the next sweep.
    pub noted: Noted,
    /// What the front has counted.
    pub tally: Tally,
    /// Where it shows that, in the place of this number.
    pub board: &'a Board,
    pub place: u32,
}

impl<'a> Buffers<'a> {
    /// Empty buffers, with the place on the board at which their front counts.
    pub fn new(alloc: Global, board: &'a Board, place: u32) -> Result<Buffers<'a>, NoMemory> {
        Ok(Buffers {
            found: ItemBuf::new(alloc)?,
            next: ItemBuf::new(alloc)?,
            is_refused: false,
            noted: Noted::new(),
            tally: Tally::new(),
            board,
            place,
        })
    }

    /// Shows what the front has counted since this was done last.
    pub fn show(&mut self)
        ensures { self.new.tally ≡ self.old.tally }
    {
        self.board.show(self.place, &mut self.tally);
    }
}
