//! Flushes of a partition.
ghost use Rattle.std.specs.Prelude.{◌≡◌, ◌<◌, ◌&&◌, ℕ, List, []};
ghost use Rattle.mica_words.specs.Hash.{hash_of};
ghost use Rattle.partition_model.specs.Write.{write_of};
ghost use Rattle.fronts.specs.Flushes.{AreKept, flush_in, flushed_at, flushes_then, is_delete, kept_then, marks, no_flushes, waits_at};

use byteorder::{ByteOrder, LittleEndian};
use mica_words::{Hashing, bucket_of, is_mark};
use partition_model::Op;

/// How long a key is that says when it flushes, at the least.
pub const FLUSH_LEN: usize = 17;

/// The second at which a flush takes place, and the one at which it was asked for. One that takes place at once has 0 for both.
#[derive(Clone, Copy)]
pub struct Flush {
    pub due: u64,
    pub asked: u64,
}

/// How many of a partition's writes are flushed: so many before a second, and so many from it on.
#[derive(Clone, Copy)]
pub struct Flushes {
    pub before: u64,
    pub due: u64,
    pub after: u64,
}

/// What the flushes of a partition of so many buckets, whose keys are hashed so, come to, and how many of its writes are in bucket 0, where all flushes are.
#[derive(Clone, Copy)]
pub struct KeptFlushes {
    pub hashing: Hashing,
    pub buckets: u32,
    pub in_first: u64,
    pub flushes: Flushes,
}

// Whether a write in bucket 0 is a flush.
fn is_flush(hashing: Hashing, op: Op, key: &[u8]) -> bool
    ensures { result ≡ (is_delete op && marks hashing key.now) }
{
    op == Op::Del && is_mark(key) && hashing.has_marks()
}

/// When a key of a flush flushes its partition.
#[tactic(auto, unfolding(crate::specs::Flushes::flush_in))]
pub fn flush_in(key: &[u8]) -> Flush
    ensures { result ≡ flush_in key.now }
{
    if key.len() < FLUSH_LEN {
        return Flush { due: 0, asked: 0 };
    }
    Flush {
        due: LittleEndian::read_u64(&key[1..]),
        asked: LittleEndian::read_u64(&key[9..]),
    }
}

impl Flushes {
    /// Nothing was flushed.
    pub fn none() -> Flushes
        ensures { result ≡ no_flushes }
    {
        Flushes {
            before: 0,
            due: 0,
            after: 0,
        }
    }

    /// How many writes are flushed at a second.
    pub fn flushed_at(&self, second: u64) -> u64
        ensures { result ≡ flushed_at second self.now }
    {
        if second < self.due {
            self.before
        } else {
            self.after
        }
    }

    /// The second of a flush that waits at this one, and 0 where none does.
    pub fn waits_at(&self, second: u64) -> u64
        ensures { result ≡ waits_at second self.now }
    {
        if second < self.due { self.due } else { 0 }
    }

    /// One flush more, as the write with which there are so many.
    pub fn and_then(&self, count: u64, flush: Flush) -> Flushes
        ensures { result ≡ flushes_then count flush self.now }
    {
        Flushes {
            before: self.flushed_at(flush.asked),
            due: flush.due,
            after: count,
        }
    }
}

impl KeptFlushes {
    /// Nothing was written.
    pub fn none(hashing: Hashing, buckets: u32) -> KeptFlushes
        requires { 0 < buckets }
        ensures { AreKept hashing buckets [] result }
    {
        KeptFlushes {
            hashing,
            buckets,
            in_first: 0,
            flushes: Flushes::none(),
        }
    }

    /// One write more was accepted, with which there are so many.
    pub fn and_then(&self, count: u64, op: Op, key: &[u8], hash: u64) -> KeptFlushes
        requires hashed { hash ≡ hash_of self.now.hashing key.now }
        requires some { 0 < self.now.buckets }
        requires few { self.now.in_first < count }
        ensures { (value : List ℕ) → result ≡ kept_then count (write_of op key.now value) self.now }
    {
        if bucket_of(hash, self.buckets) != 0 {
            return *self;
        }
        let flushes = if is_flush(self.hashing, op, key) {
            self.flushes.and_then(count, flush_in(key))
        } else {
            self.flushes
        };
        KeptFlushes {
            hashing: self.hashing,
            buckets: self.buckets,
            in_first: self.in_first + 1,
            flushes,
        }
    }
}
