//! How often the items of a cache were read, and the hands that go over its logs. No answer rests on them.
ghost use Rattle.std.specs.Prelude.{◌<◌};

use mica_words::{bucket_of, tag_of};
use outside::NoMemory;
use partition_model::{Mode, Options};
use std::alloc::Global;
use std::sync::atomic::{AtomicU64, Ordering};

/// A read counts so often at most.
const MOST_READS: u64 = 3;

/// A word has so many counts, of two bits each.
const COUNTS: u16 = 32;

/// The counts of a bucket have so many words.
const COUNT_WORDS: usize = 2;

/// How often the items of one partition were read since its hand came by last, and how far the hand has come.
#[derive(Drop)]
pub struct Reads {
    buckets: u32,
    // Those of each bucket, by the lower bits of a tag.
    counts: Vec<AtomicU64>,
    hand: AtomicU64,
}

// By how many bits a tag's count is shifted in its word.
fn shift_of(tag: u16) -> u32
    ensures { result < 64 }
{
    2 * u32::from(tag % COUNTS)
}

impl Reads {
    fn new(alloc: Global, buckets: u32) -> Result<Reads, NoMemory> {
        let words = COUNT_WORDS * buckets as usize;
        let mut counts = Vec::with_capacity(alloc, words)?;
        for _ in 0..words {
            counts.push(AtomicU64::new(0))?;
        }
        Ok(Reads {
            buckets,
            counts,
            hand: AtomicU64::new(0),
        })
    }

    // The word with the count of a hash.
    fn word_of(&self, hash: u64) -> Option<&AtomicU64> {
        let bucket = bucket_of(hash, self.buckets.max(1)) as usize;
        let half = usize::from(tag_of(hash) / COUNTS) % COUNT_WORDS;
        self.counts.get(COUNT_WORDS * bucket + half)
    }

    /// Counts a read of an item with this hash.
    pub fn count(&self, hash: u64) {
        let Some(word) = self.word_of(hash) else {
            return;
        };
        let shift = shift_of(tag_of(hash));
        let counts = word.load(Ordering::Relaxed);
        if counts >> shift & MOST_READS < MOST_READS {
            word.store(counts.wrapping_add(1 << shift), Ordering::Relaxed);
        }
    }

    /// Whether a read is counted of an item with this hash.
    pub fn has(&self, hash: u64) -> bool {
        match self.word_of(hash) {
            Some(word) => word.load(Ordering::Relaxed) >> shift_of(tag_of(hash)) & MOST_READS > 0,
            None => false,
        }
    }

    /// Takes a read off the count of an item with this hash, if one is counted.
    pub fn take(&self, hash: u64) {
        let Some(word) = self.word_of(hash) else {
            return;
        };
        let shift = shift_of(tag_of(hash));
        let counts = word.load(Ordering::Relaxed);
        if counts >> shift & MOST_READS > 0 {
            word.store(counts.wrapping_sub(1 << shift), Ordering::Relaxed);
        }
    }

    /// How far its hand has come.
    pub fn hand(&self) -> u64 {
        self.hand.load(Ordering::Relaxed)
    }

    /// Moves its hand on, and says whether it was where it was thought to be.
    pub fn go_on(&self, from: u64, to: u64) -> bool {
        self.hand
            .compare_exchange(from, to, Ordering::Relaxed, Ordering::Relaxed)
            .is_ok()
    }
}

/// Those of all partitions, in order: none in store mode.
pub(crate) fn reads_of_all(alloc: Global, options: &Options) -> Result<Vec<Reads>, NoMemory> {
    let partitions = match options.mode {
        Mode::Cache => options.partitions,
        Mode::Store => 0,
    };
    let mut reads = Vec::with_capacity(alloc, partitions as usize)?;
    for _ in 0..partitions {
        reads.push(Reads::new(alloc, options.buckets)?)?;
    }
    Ok(reads)
}
