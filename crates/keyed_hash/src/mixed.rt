//! The four words that SipHash mixes.

use crate::secret::Secret;

/// The four words, with what was read of a key so far mixed in.
#[derive(Clone, Copy)]
pub struct Mixed {
    v0: u64,
    v1: u64,
    v2: u64,
    v3: u64,
}

impl Mixed {
    ghost use Rattle.std.specs.Prelude.{◌≡◌, ◌*◌, ◌%◌, ◌^◌, ℕ, bit_and, bit_or};
    ghost use Rattle.std.specs.Hash.DefaultHasher.{with_keys, round, write_word, finish};
    ghost use Rattle.keyed_hash.specs.SipHash.{hasher_of};

    /// The words as a secret begins them.
    pub fn under(secret: &Secret) -> Mixed
        ensures { hasher_of result 0 0 ≡ with_keys secret.now.k0 secret.now.k1 }
    {
        Mixed {
            v0: secret.k0 ^ 0x736f_6d65_7073_6575,
            v1: secret.k1 ^ 0x646f_7261_6e64_6f6d,
            v2: secret.k0 ^ 0x6c79_6765_6e65_7261,
            v3: secret.k1 ^ 0x7465_6462_7974_6573,
        }
    }

    /// One round.
    fn round(self) -> Mixed
        ensures { (tail count : ℕ) → hasher_of result tail count ≡ round (hasher_of self tail count) }
    {
        let a0 = self.v0.wrapping_add(self.v1);
        let a2 = self.v2.wrapping_add(self.v3);
        let a1 = self.v1.rotate_left(13) ^ a0;
        let a3 = self.v3.rotate_left(16) ^ a2;
        let b2 = a2.wrapping_add(a1);
        let b0 = a0.rotate_left(32).wrapping_add(a3);
        let b1 = a1.rotate_left(17) ^ b2;
        let b3 = a3.rotate_left(21) ^ b0;
        Mixed {
            v0: b0,
            v1: b1,
            v2: b2.rotate_left(32),
            v3: b3,
        }
    }

    /// A word of the key goes in, by one round.
    pub fn with_word(self, word: u64) -> Mixed
        ensures { (tail count : ℕ) → hasher_of result tail count ≡ write_word (hasher_of self tail count) word }
    {
        let mixed = Mixed {
            v3: self.v3 ^ word,
            ..self
        };
        let mixed = mixed.round();
        Mixed {
            v0: mixed.v0 ^ word,
            ..mixed
        }
    }

    /// The hash: the last word of the key goes in, and three rounds follow.
    pub fn finished(self, last: u64) -> u64
        ensures { (tail count : ℕ) → last ≡ bit_or ((bit_and count 255 * 2 ^ 56) % 2 ^ 64) tail
            → result ≡ finish (hasher_of self tail count) }
    {
        let mixed = self.with_word(last);
        let turned = Mixed {
            v2: mixed.v2 ^ 0xff,
            ..mixed
        };
        let one = turned.round();
        let two = one.round();
        let three = two.round();
        three.v0 ^ three.v1 ^ three.v2 ^ three.v3
    }
}
