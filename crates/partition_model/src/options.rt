//! The options of a run.
ghost use Rattle.std.specs.Prelude.{◌↔◌, ◌≤◌, IsTrue};

use crate::ranges::{is_in, is_power_up_to};
use mica_words::Hashing;

/// The most writes that a partition may be asked to bear by the words of `mica`.
pub const MAX_WEAR: u64 = 68_719_476_736;

/// The most partitions that can be.
pub const MOST_PARTITIONS: u32 = 64;

/// The most spare buckets that a partition can have; its main ones are as many at most.
pub const MOST_SPARES: u32 = 16_777_216;

/// The most words that a partition's log or heap can have.
pub const MOST_WORDS: u32 = 1_073_741_824;

/// The most writes that a partition can bear: of their stamps and epochs each fits a word.
pub const MOST_WEAR: u64 = 4_611_686_018_427_387_904;

/// How a partition keeps its keys.
#[derive(Clone, Copy, PartialEq, Eq)]
pub enum Mode {
    /// A circular log, which passes over old items, and a lossy index.
    Cache,
    /// Rooms of a heap and a chained index, which lose nothing and may be full.
    Store,
}

/// What a run is made of. The partitions share nothing, so each number of one is of each.
#[derive(Clone, Copy, PartialEq, Eq)]
pub struct Options {
    pub mode: Mode,
    pub partitions: u32,
    /// Main buckets of a partition.
    pub buckets: u32,
    /// Spare buckets of a partition, for store mode.
    pub spares: u32,
    /// Words of 8 bytes of a partition's log or heap.
    pub words: u32,
    pub readers: u32,
    /// How often a get is tried before it is asked again.
    pub tries: u32,
    /// How many writes a partition accepts.
    pub wear: u64,
    pub hashing: Hashing,
}

impl Options {
    ghost use Rattle.partition_model.specs.Options.{IsPossible, IsValid};

    /// Whether each number is in the range that the words of `mica` have.
    pub fn is_valid(&self) -> bool
        ensures { IsTrue result ↔ IsValid self.now }
    {
        is_in(self.partitions, 1, 16)
            && is_power_up_to(self.buckets, 16)
            && is_in(self.spares, 0, 65_536)
            && is_in(self.words, 256, 1_048_576)
            && is_in(self.readers, 1, 16)
            && is_in(self.tries, 1, 1_000)
            && (1..=MAX_WEAR).contains(&self.wear)
    }

    /// Whether partitions can be made of the numbers.
    pub fn is_possible(&self) -> bool
        ensures { IsTrue result ↔ IsPossible self.now }
    {
        is_in(self.partitions, 1, MOST_PARTITIONS)
            && is_power_up_to(self.buckets, 24)
            && is_in(self.spares, 0, MOST_SPARES)
            && is_in(self.words, 256, MOST_WORDS)
            && is_in(self.readers, 1, 16)
            && is_in(self.tries, 1, 1_000)
            && (1..=MOST_WEAR).contains(&self.wear)
    }
}
