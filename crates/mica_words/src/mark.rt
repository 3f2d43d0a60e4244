//! Marks: keys of the most bytes, that no client of connections can name, since their keys end before.

ghost use Rattle.std.specs.Prelude.{◌≡◌, true};
ghost use Rattle.mica_words.specs.Hash.{MarksLie};
ghost use Rattle.mica_words.specs.Mark.{is_mark, mark_hash};

use crate::item::MAX_KEY_LEN;

/// Whether a key is as long as a mark.
pub fn is_mark(key: &[u8]) -> bool
    ensures { result ≡ is_mark key.now }
{
    key.len() == MAX_KEY_LEN
}

/// The hash of a mark.
pub fn mark_hash(key: &[u8]) -> u64
    requires { is_mark key.now ≡ true }
    ensures { result ≡ mark_hash key.now }
{
    u64::from(key[0]) << 48
}

/// Whatever the secret, a mark is in bucket 0 of the partition that its first byte names.
pub fn marks_lie()
    ensures { MarksLie }
{}
