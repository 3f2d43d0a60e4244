//! What a file of saved items keeps.

use std::alloc::Global;

/// The longest key, in bytes.
pub const MAX_SAVED_KEY_LEN: usize = 250;

/// The most partitions.
pub const MAX_PARTITIONS: u64 = 65_536;

/// The first word: `MIMG`, the version, 2, and zeros.
pub const MAGIC: u64 = 0x02_474d_494d;

/// How the partitions chose the place of a key.
#[derive(Clone, Copy, Debug, PartialEq, Eq)]
pub enum Hashing {
    /// By the papers' hash.
    Papers,
    /// By a hash with this secret.
    Secret(u64, u64),
}

/// How the partitions kept their keys.
#[derive(Clone, Copy, Debug, PartialEq, Eq)]
pub enum SavedMode {
    Cache,
    Store,
}

/// What is said of all partitions.
#[derive(Clone, Copy, Debug, PartialEq, Eq)]
pub struct Head {
    /// The server's second at which saving began.
    pub second: u64,
    pub hashing: Hashing,
    pub mode: SavedMode,
    pub partitions: u64,
}

/// What is said of a partition behind its pairs.
#[derive(Clone, Copy, Debug, PartialEq, Eq)]
pub struct Closing {
    /// How many writes it had accepted.
    pub written: u64,
    /// It had given this unique number to no item, nor one above it.
    pub next: u64,
    /// The second of a flush that waits there, else 0.
    pub until: u64,
}

/// A pair as it is written and read, in room that is used again.
#[derive(Drop)]
pub struct SavedPair {
    pub key: Vec<u8>,
    pub value: Vec<u8>,
    /// How often it was read, as far as that is counted.
    pub reads: u8,
    /// Whether it was in the long log.
    pub is_long: bool,
}

impl SavedPair {
    /// Room for a pair.
    pub fn new(alloc: Global) -> SavedPair {
        SavedPair {
            key: Vec::new(alloc),
            value: Vec::new(alloc),
            reads: 0,
            is_long: false,
        }
    }
}

/// The lengths and marks of a pair.
#[derive(Clone, Copy, Debug, PartialEq, Eq)]
pub struct Lengths {
    pub key_len: usize,
    pub value_len: usize,
    pub reads: u8,
    pub is_long: bool,
}
