//! What commands leave for the sweep behind them.

use partition_model::Outcome;

// The bit of a partition.
fn bit_of(partition: u32) -> u64 {
    1 << (partition % 64)
}

/// What commands leave for the sweep behind them. No answer rests on it.
#[derive(Drop)]
pub struct Noted {
    // The partition where a write found no room last.
    full: Option<u32>,
    // The partitions that were written, a bit for each.
    written: u64,
}

impl Noted {
    /// Nothing noted.
    pub fn new() -> Noted {
        Noted {
            full: None,
            written: 0,
        }
    }

    /// Notes what came of a write in a partition.
    pub fn note(&mut self, partition: u32, outcome: Outcome) {
        match outcome {
            Outcome::FullBlock | Outcome::FullSpare => self.full = Some(partition),
            _ => self.written |= bit_of(partition),
        }
    }

    /// The partition where a write found no room since this was asked last.
    pub fn take_full(&mut self) -> Option<u32> {
        self.full.take()
    }

    /// Whether a partition was written since this was asked last of it.
    pub fn take_written(&mut self, partition: u32) -> bool {
        let bit = bit_of(partition);
        let was_written = self.written & bit != 0;
        self.written &= !bit;
        was_written
    }
}
