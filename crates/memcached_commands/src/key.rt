//! Keys, in whatever way clients spell them.
ghost use Rattle.std.specs.Prelude.{◌≡◌, true};
ghost use Rattle.memcached_commands.specs.Keys.{spelled};

use base64::engine::general_purpose::STANDARD;
use memcached_text::{MAX_KEY_LEN, Text};
use std::marker::Model;

/// The most bytes that may be written while a key is decoded.
pub const KEY_ROOM: usize = 192;

/// A key as a client spelled it. Clauses see the key itself.
#[derive(Drop)]
pub struct Key<'a> {
    word: Text<'a>,
    is_base64: bool,
}

impl<'a> Model for Key<'a> {
    ghost use Rattle.std.specs.Prelude.{List, ℕ};
    ghost use Rattle.memcached_commands.specs.Keys.{spelled};

    ghost Value = { List ℕ };

    ghost view = { λ k. spelled k.is_base64 k.word };
}

impl<'a> Key<'a> {
    /// The key that a word spells: itself, or what it is the base64 of. Empty where it spells none.
    #[inline(always)]
    pub fn spelled(word: Text<'a>, is_base64: bool) -> Key<'a>
        ensures { result ≡ spelled is_base64 word.entry }
    {
        Key { word, is_base64 }
    }

    /// The bytes of the key, in the room where they are decoded.
    #[inline(always)]
    pub fn bytes<'b>(&'b self, room: &'b mut [u8; KEY_ROOM]) -> &'b [u8]
        ensures { result.now ≡ self.now }
    {
        let word = self.word.bytes();
        if self.is_base64 {
            decoded(word, room)
        } else {
            word
        }
    }
}

// What a word is the base64 of. Empty where it is none, or too long.
#[tactic(auto, unfolding(base64::specs::GeneralPurpose::decoded_of))]
fn decoded<'a>(word: &[u8], room: &'a mut [u8; KEY_ROOM]) -> &'a [u8]
    ensures { result.now ≡ spelled true word.now }
{
    if word.len() > MAX_KEY_LEN {
        return b"".as_slice();
    }
    match STANDARD.decode_slice_unchecked(word, room) {
        Ok(len) => &room[..len],
        Err(_) => b"".as_slice(),
    }
}
