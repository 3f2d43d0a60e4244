//! Bytes packed into words, the first byte lowest.

ghost use Rattle.std.specs.Prelude.{◌≡◌, ◌<◌, ◌≤◌, ◌++◌, length, drop, slice_index};
ghost use Rattle.mica_words.specs.Item.{words_for};
ghost use Rattle.mica_words.specs.Packing.{packed, unpacked};

use byteorder::{ByteOrder, LittleEndian};

/// Packs bytes into words. The last word is filled up with zeros.
pub fn pack(from: &[u8], into: &mut [u64])
    requires { length into.old ≡ words_for (length from.now) }
    ensures { into.new ≡ packed from.now }
{
    let whole = from.len() / 8;
    let (words, rest) = from.split_at(8 * whole);
    LittleEndian::read_u64_into(words, &mut into[..whole]);
    if !rest.is_empty() {
        into[whole] = LittleEndian::read_uint(rest, rest.len());
    }
}

/// One of the words that the bytes are packed into.
pub fn packed_word(from: &[u8], at: usize) -> u64
    requires { at < words_for (length from.now) }
    ensures { result ≡ slice_index (packed from.now) at }
{
    let rest = &from[8 * at..];
    if rest.len() < 8 {
        return LittleEndian::read_uint(rest, rest.len());
    }
    LittleEndian::read_u64(rest)
}

/// Unpacks the first `len` bytes of words, and leaves the rest of `into` as it is.
pub fn unpack(from: &[u64], len: usize, into: &mut [u8])
    requires words { words_for len ≤ length from.now }
    requires room { len ≤ length into.old }
    ensures { into.new ≡ unpacked len from.now ++ drop len into.old }
{
    let whole = len / 8;
    LittleEndian::write_u64_into(&from[..whole], &mut into[..8 * whole]);
    let rest = len % 8;
    if rest > 0 {
        into[8 * whole..len].copy_from_slice(&from[whole].to_le_bytes()[..rest]);
    }
}
