//! The hash of a whole key.

ghost use Rattle.std.specs.Prelude.{◌≡◌, ◌<◌, length};
ghost use Rattle.keyed_hash.specs.SipHash.{siphash, IsTail};

use crate::mixed::Mixed;
use crate::secret::Secret;

/// The hash of a key under a secret, by SipHash-1-3.
pub fn keyed_hash(secret: &Secret, key: &[u8]) -> u64
    ensures { result ≡ siphash secret.now.k0 secret.now.k1 key.now }
{
    let mut mixed = Mixed::under(secret);
    let mut rest = key;
    while let Some((word, behind)) = rest.split_first_chunk::<8>() {
        mixed = mixed.with_word(u64::from_le_bytes(*word));
        rest = behind;
    }
    // The last word has in its highest byte how long the key is, modulo 256.
    mixed.finished((key.len() as u64 & 0xff) << 56 | tail_of(rest))
}

/// The bytes that fill no word, the first of them lowest.
fn tail_of(rest: &[u8]) -> u64
    requires { length rest.now < 8 }
    ensures { IsTail rest.now result }
{
    let mut tail = 0;
    for place in 0..rest.len() {
        tail |= (rest[place] as u64) << (8 * place);
    }
    tail
}
