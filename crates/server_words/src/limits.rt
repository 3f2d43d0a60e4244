//! How much of each a server may have, and how long a text may be.

/// The most fronts of a server, of both kinds together.
pub const MOST_FRONTS: u32 = 64;

/// The most datagrams of one front, whose requests, and those of all fronts, can be counted in 64 bits.
pub const MAX_BATCHES: u64 = 281_474_976_710_656;

/// The most bytes that a source or a file may give.
pub const MAX_SOURCE_LEN: usize = 16_777_216;
