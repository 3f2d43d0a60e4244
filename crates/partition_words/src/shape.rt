//! The shape of a partition, and its words by their meaning.
ghost use Rattle.std.specs.Prelude.{◌≡◌, ◌↔◌, IsTrue, ◌+◌, ◌*◌, ◌%◌, ◌<◌};
ghost use Rattle.partition_model.specs.Options.{IsPossible, IsValid};
ghost use Rattle.partition_words.specs.Shape.{shape_of, IsPossibleShape, is_in_range};
ghost use Rattle.partition_words.specs.Layout.{bucket_words, main_words, entries_at, place_at, word_count};

use mica_words::{Hashing, SLOTS};
use partition_model::{MOST_SPARES, MOST_WEAR, MOST_WORDS, Mode, Options};

/// A bucket's entries and its link.
const BUCKET_WORDS: usize = SLOTS as usize + 1;

/// Those of a main bucket, with its epoch.
const MAIN_WORDS: usize = BUCKET_WORDS + 1;

/// How many words a partition has of each kind, in which mode, how many writes it may bear, and how its keys are hashed.
#[derive(Clone, Copy, PartialEq, Eq)]
pub struct Shape {
    pub mode: Mode,
    pub buckets: u32,
    pub spares: u32,
    pub words: u32,
    pub wear: u64,
    pub hashing: Hashing,
}

/// A word by its meaning.
#[derive(Clone, Copy, PartialEq, Eq)]
pub enum WordAt {
    Stamp,
    /// The main bucket.
    Epoch(u32),
    /// The bucket and the slot.
    Entry(u32, u32),
    /// The bucket.
    Link(u32),
    /// The offset, of which each number names a word: the item words go round.
    Item(u64),
}

impl Shape {
    /// There are no spares in cache mode.
    pub fn of(options: &Options) -> Shape
        ensures same { result ≡ shape_of options.now }
        ensures possible { IsPossible options.now → IsPossibleShape result }
        ensures valid { IsValid options.now → IsPossibleShape result }
    {
        let spares = match options.mode {
            Mode::Cache => 0,
            Mode::Store => options.spares,
        };
        Shape {
            mode: options.mode,
            buckets: options.buckets,
            spares,
            words: options.words,
            wear: options.wear,
            hashing: options.hashing,
        }
    }

    /// Whether partitions can be made of this shape.
    pub fn is_possible(&self) -> bool
        ensures { IsTrue result ↔ IsPossibleShape self.now }
    {
        self.is_in_range()
    }

    fn is_in_range(&self) -> bool
        ensures { result ≡ is_in_range self.now }
    {
        let spares = match self.mode {
            Mode::Cache => 0,
            Mode::Store => MOST_SPARES,
        };
        self.buckets.is_power_of_two()
            && self.buckets <= 1 << 24
            && self.spares <= spares
            && 256 <= self.words
            && self.words <= MOST_WORDS
            && 1 <= self.wear
            && self.wear <= MOST_WEAR
    }

    /// Where the word lies.
    pub fn place(&self, at: WordAt) -> usize
        requires { 0 < self.now.words }
        ensures { result ≡ place_at self.now at }
    {
        match at {
            WordAt::Stamp => 0,
            WordAt::Epoch(bucket) => 1 + MAIN_WORDS * bucket as usize,
            WordAt::Entry(bucket, slot) => self.first_entry(bucket) + slot as usize,
            WordAt::Link(bucket) => self.first_entry(bucket) + SLOTS as usize,
            WordAt::Item(offset) => self.first_item() + self.around(offset),
        }
    }

    // The place of a bucket's first entry.
    fn first_entry(&self, bucket: u32) -> usize
        ensures { result ≡ entries_at self.now bucket }
    {
        1 + BUCKET_WORDS * bucket as usize + (bucket as usize + 1).min(self.buckets as usize)
    }

    fn first_item(&self) -> usize
        ensures { result ≡ 1 + main_words * self.now.buckets + bucket_words * self.now.spares }
    {
        1 + MAIN_WORDS * self.buckets as usize + BUCKET_WORDS * self.spares as usize
    }

    // Most offsets of store mode need no division.
    fn around(&self, offset: u64) -> usize
        requires { 0 < self.now.words }
        ensures { result ≡ offset % self.now.words }
    {
        let words = u64::from(self.words);
        (if offset < words {
            offset
        } else {
            offset % words
        }) as usize
    }

    /// How many words a table of this shape has.
    pub fn word_count(&self) -> usize
        ensures { result ≡ word_count self.now }
    {
        self.first_item() + self.words as usize
    }
}
