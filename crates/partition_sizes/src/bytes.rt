//! What a partition is made of, row by row, and how many bytes that takes.
ghost use Rattle.std.specs.Prelude.{◌≡◌, ◌<◌, ◌≤◌};
ghost use Rattle.partition_model.specs.declared.options.TheConstants.{MOST_PARTITIONS};
ghost use Rattle.partition_sizes.specs.Bytes.{table_bytes, row_bytes, rows_of, partition_bytes, bytes_of, start_bytes};

use partition_model::{Mode, Options};
use partition_words::Shape;

/// The bytes that a heap uses beside each of its words: four for the word's tag, and one more for the slots of free blocks.
/// A slot has 16 bytes, which are reserved and not touched before so many blocks are free at once. So one byte a word is enough
/// for them unless more than one word in 16 begins a free block. That can't be where each block in use has 15 words or more.
pub const HEAP_BYTES: u64 = 5;

/// The bytes of the heads and the marks of a heap's lists.
pub const LISTS_BYTES: u64 = 13_968;

/// The bytes that an index has for each of its spares.
pub const SPARE_BYTES: u64 = 4;

/// The bytes that a cache has for each bucket beside its table: counts of reads.
pub const READS_BYTES: u64 = 16;

/// A row of a partition in memory.
#[derive(Clone, Copy)]
pub enum Row {
    /// The words of its table: of the stamp, of the index and of its items.
    Table,
    /// What a heap has beside each word of items.
    HeapWords,
    /// The lists of a heap.
    HeapLists,
    /// What an index has beside each spare.
    Spares,
    /// The counts of reads.
    Reads,
}

static CACHE_ROWS: [Row; 2] = [Row::Table, Row::Reads];

static STORE_ROWS: [Row; 4] = [Row::Table, Row::HeapWords, Row::HeapLists, Row::Spares];

// The rows of a partition.
fn rows_of(mode: Mode) -> &'static [Row]
    ensures { result.now ≡ rows_of mode }
{
    match mode {
        Mode::Cache => CACHE_ROWS.as_slice(),
        Mode::Store => STORE_ROWS.as_slice(),
    }
}

fn table_bytes(shape: Shape) -> u64
    ensures bytes { result ≡ table_bytes shape }
    ensures fits { result < 2199023255552 }
{
    8 * shape.word_count() as u64
}

// The bytes of a row.
fn row_bytes(shape: Shape, row: Row) -> u64
    ensures bytes { result ≡ row_bytes shape row }
    ensures fits { result < 2199023255552 }
{
    match row {
        Row::Table => table_bytes(shape),
        Row::HeapWords => HEAP_BYTES * u64::from(shape.words),
        Row::HeapLists => LISTS_BYTES,
        Row::Spares => SPARE_BYTES * u64::from(shape.spares),
        Row::Reads => READS_BYTES * u64::from(shape.buckets),
    }
}

/// The bytes of one partition.
pub fn partition_bytes(shape: Shape) -> u64
    ensures bytes { result ≡ partition_bytes shape }
    ensures fits { result ≤ 8796093022208 }
{
    let rows = rows_of(shape.mode);
    let mut bytes = 0;
    for row in rows {
        bytes += row_bytes(shape, *row);
    }
    bytes
}

/// The bytes of all partitions.
pub fn bytes_of(options: &Options) -> u64
    requires { options.now.partitions ≤ MOST_PARTITIONS }
    ensures { result ≡ bytes_of options.now }
{
    u64::from(options.partitions) * partition_bytes(Shape::of(options))
}

/// The most bytes that a start takes: all partitions, and for a moment a row of zeros as long as a table.
pub fn start_bytes(options: &Options) -> u64
    requires { options.now.partitions ≤ MOST_PARTITIONS }
    ensures { result ≡ start_bytes options.now }
{
    bytes_of(options) + table_bytes(Shape::of(options))
}
