//! The sizes of partitions, by how much memory all of them may take.
ghost use Rattle.std.specs.Prelude.{◌≡◌, ◌≤◌};
ghost use Rattle.partition_model.specs.Options.{InRange};
ghost use Rattle.partition_sizes.specs.Sizes.{partitions_for, word_bytes, buckets_for, spares_for, sizes_for};

use crate::bytes::{HEAP_BYTES, partition_bytes};
use mica_words::Hashing;
use partition_model::{MOST_WORDS, Mode};
use partition_words::Shape;

/// The least memory that sizes are made for, 64 MiB.
pub const LEAST_MEMORY: u64 = 67_108_864;

/// The most, 512 GiB.
pub const MOST_MEMORY: u64 = 549_755_813_888;

/// Up to 32 GiB there are 16 partitions at most, and 64 above.
pub const FEW_PARTITIONS_MEMORY: u64 = 34_359_738_368;

/// There is one for each 32 MiB, up to so many.
pub const PARTITION_MEMORY: u64 = 33_554_432;

/// What is left to the program itself, its threads and its sockets.
pub const PROGRAM_BYTES: u64 = 16_777_216;

/// The words of an item with a key of 16 bytes and a value of 64: its header and its hash, two words of the key, eight of the
/// value, and two of what may stand before it, as flags and a unique number.
pub const ITEM_WORDS: u64 = 14;

/// The bytes of the index for an item, where each bucket has five, and its share of the heap's lists.
pub const INDEX_BYTES: u64 = 32;

/// How many partitions there are, and how many main buckets, spare buckets and words each of them has.
#[derive(Clone, Copy)]
pub struct Sizes {
    pub partitions: u32,
    pub buckets: u32,
    pub spares: u32,
    pub words: u32,
}

fn partitions_for(memory: u64) -> u32
    ensures { result ≡ partitions_for memory }
{
    if memory <= FEW_PARTITIONS_MEMORY {
        (memory / PARTITION_MEMORY).min(16) as u32
    } else {
        64
    }
}

fn word_bytes(mode: Mode) -> u64
    ensures { result ≡ word_bytes mode }
{
    match mode {
        Mode::Cache => 8,
        Mode::Store => 8 + HEAP_BYTES,
    }
}

fn buckets_for(items: u64) -> u32
    requires { items ≤ 167772160 }
    ensures { result ≡ buckets_for items }
{
    items.div_ceil(10).next_power_of_two() as u32
}

fn spares_for(mode: Mode, buckets: u32) -> u32
    ensures { result ≡ spares_for mode buckets }
{
    match mode {
        Mode::Cache => 0,
        Mode::Store => buckets / 8,
    }
}

/// The sizes of partitions that take this memory, with room for as many items of 16 bytes of key and 64 of value as it has room for.
pub fn sizes_for(mode: Mode, memory: u64) -> Sizes
    requires { InRange LEAST_MEMORY MOST_MEMORY memory }
    ensures { result ≡ sizes_for mode memory }
{
    let partitions = partitions_for(memory);
    let bytes = (memory - PROGRAM_BYTES) / u64::from(partitions);
    let word = word_bytes(mode);
    let buckets = buckets_for(bytes / (ITEM_WORDS * word + INDEX_BYTES));
    let spares = spares_for(mode, buckets);
    let empty = partition_bytes(Shape {
        mode,
        buckets,
        spares,
        words: 0,
        wear: 1,
        hashing: Hashing::Fnv1a,
    });
    let words = ((bytes - empty) / word).min(u64::from(MOST_WORDS)) as u32;
    Sizes {
        partitions,
        buckets,
        spares,
        words,
    }
}
