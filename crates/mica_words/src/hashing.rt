//! How the keys of a table are hashed.

ghost use Rattle.std.specs.Prelude.{◌≡◌};
ghost use Rattle.mica_words.specs.Hash.{hash_of, IsPlainHash};
ghost use Rattle.mica_words.specs.Mark.{has_marks};

use crate::hash::key_hash;
use crate::mark::{is_mark, mark_hash};
use keyed_hash::{Secret, keyed_hash};

/// How the keys of a table are hashed.
#[derive(Clone, Copy, PartialEq, Eq)]
pub enum Hashing {
    /// By FNV-1a, which anybody can compute.
    Fnv1a,
    /// By SipHash-1-3 under a secret of two words; and a key can be a mark.
    SipHash(u64, u64),
}

impl Hashing {
    /// Whether a key can be a mark.
    pub fn has_marks(self) -> bool
        ensures { result ≡ has_marks self }
    {
        matches!(self, Hashing::SipHash(_, _))
    }

    /// The hash of a key.
    #[tactic(auto, unfolding(crate::specs::Hash::hash_of))]
    pub fn key_hash(self, key: &[u8]) -> u64
        ensures { result ≡ hash_of self key.now }
    {
        match self {
            Hashing::Fnv1a => key_hash(key),
            Hashing::SipHash(k0, k1) => {
                if is_mark(key) {
                    mark_hash(key)
                } else {
                    keyed_hash(&Secret { k0, k1 }, key)
                }
            }
        }
    }
}

/// By FNV-1a the hash of each key is its formula, without an exception.
pub fn plain_hash()
    ensures { IsPlainHash }
{}
