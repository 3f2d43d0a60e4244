//! The secret of a hash.

/// What makes a hash one that only its owner can compute: two words of 64 bits, drawn at random.
#[derive(Clone, Copy)]
pub struct Secret {
    pub k0: u64,
    pub k1: u64,
}
