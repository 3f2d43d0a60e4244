//! What a front counts for itself.

ghost use Rattle.std.specs.Prelude.{◌≡◌, ◌<◌, ◌+◌, ◌*◌, ◌^◌};
ghost use Rattle.memcached_stats.specs.Tallies.{counted, lifted, none_tallied, noted, number_at, put_at, raised};

use crate::counter::{COUNTERS, Counter};
use partition_model::MOST_PARTITIONS;
use std::marker::Model;

/// How many numbers a front counts at most: its counters, and two of each partition.
pub const MOST_NUMBERS: usize = COUNTERS + 2 * MOST_PARTITIONS as usize;

// So many words hold a bit for each.
const MARK_WORDS: usize = MOST_NUMBERS / 64 + 1;

/// The place of the first number of a partition.
pub fn place_of_partition(partition: u32) -> usize
    ensures small { result < 2 ^ 34 }
    ensures place { result ≡ COUNTERS + 2 * partition }
{
    COUNTERS + 2 * partition as usize
}

/// What a front counts for itself: how often each counter was raised, and how many writes each partition had accepted and its stamp, as the front saw it last.
/// Clauses see the list of these numbers.
#[derive(Drop)]
pub struct Tally {
    pub(crate) numbers: [u64; MOST_NUMBERS],
    // The places whose numbers changed since they were taken for changed last, a bit for each.
    changed: [u64; MARK_WORDS],
}

impl Model for Tally {
    ghost use Rattle.std.specs.Prelude.{List, ℕ};

    ghost Value = { List ℕ };

    ghost view = { λ t. t.numbers };
}

impl Tally {
    /// Where nothing was counted.
    pub fn new() -> Tally
        ensures { result ≡ none_tallied }
    {
        Tally {
            numbers: [0; MOST_NUMBERS],
            changed: [0; MARK_WORDS],
        }
    }

    // The number at a place, or none.
    fn number(&self, place: usize) -> u64
        ensures { result ≡ number_at place self.now }
    {
        self.numbers.get(place).copied().unwrap_or(0)
    }

    // Puts a number at a place, where there is one.
    fn put(&mut self, place: usize, number: u64)
        ensures { self.new ≡ put_at place number self.old }
    {
        if place < MOST_NUMBERS {
            if self.numbers[place] != number {
                self.changed[place / 64] |= 1 << (place % 64);
            }
            self.numbers[place] = number;
        }
    }

    // A place whose number has changed, which counts for unchanged from now on.
    pub(crate) fn take_changed(&mut self) -> Option<usize>
        ensures { self.new ≡ self.old }
    {
        let at = self.changed.iter().position(|marks| *marks != 0)?;
        let marks = self.changed[at];
        self.changed[at] = marks & marks.wrapping_sub(1);
        Some(at * 64 + marks.trailing_zeros() as usize)
    }

    /// Raises a counter by so many.
    pub fn raise(&mut self, counter: Counter, by: u64)
        ensures { self.new ≡ raised counter by self.old }
    {
        let place = counter as usize;
        let number = self.number(place);
        self.put(place, number.saturating_add(by));
    }

    /// Lifts a counter to this number, where it is less.
    pub fn lift(&mut self, counter: Counter, least: u64)
        ensures { self.new ≡ lifted counter least self.old }
    {
        let place = counter as usize;
        let number = self.number(place);
        self.put(place, number.max(least));
    }

    /// Raises a counter by one, if any.
    pub fn count(&mut self, counter: Option<Counter>)
        ensures { self.new ≡ counted counter self.old }
    {
        if let Some(counter) = counter {
            self.raise(counter, 1);
        }
    }

    /// Notes how many writes a partition has accepted, and its stamp.
    pub fn note(&mut self, partition: u32, writes: u64, stamp: u64)
        ensures { self.new ≡ noted partition writes stamp self.old }
    {
        let place = place_of_partition(partition);
        self.put(place, writes);
        self.put(place + 1, stamp);
    }
}
