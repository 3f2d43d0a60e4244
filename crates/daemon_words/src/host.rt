//! What words do not say, and a server is told beside them.

/// What a machine gives beside words.
#[derive(Clone, Copy, PartialEq, Eq)]
pub struct Host {
    /// How many processors there are.
    pub processors: u32,
    /// A secret of two words, drawn at random, for the hash of keys.
    pub k0: u64,
    pub k1: u64,
}
