//! What a client says.

/// The version of the datagrams that a client sends and reads.
pub const VERSION: u8 = 2;
