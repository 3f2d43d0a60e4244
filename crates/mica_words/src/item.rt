//! What fits an item, and the words that it takes.

ghost use Rattle.std.specs.Prelude.{◌≡◌, ◌+◌, ◌≤◌, ◌↔◌, IsTrue};
ghost use Rattle.mica_words.specs.Item.{words_for, KeyFits, StoredFits, ValueFits};

/// The longest key, in bytes.
pub const MAX_KEY_LEN: usize = 255;

/// The longest value of a trace, of an image and of a datagram, in bytes.
pub const MAX_VALUE_LEN: usize = 8192;

/// The longest value that a partition keeps, in bytes: that of a protocol, and 16 bytes that are stored before it.
pub const MAX_STORED_LEN: usize = 1_048_592;

/// The words of an item whose key and value have these lengths in bytes.
pub fn item_size(key_len: usize, value_len: usize) -> u32
    requires key { key_len ≤ MAX_KEY_LEN }
    requires value { value_len ≤ MAX_STORED_LEN }
    ensures { result ≡ 2 + words_for key_len + words_for value_len }
{
    (2 + key_len.div_ceil(8) + value_len.div_ceil(8)) as u32
}

/// Whether this is a key: it has a byte, and no more than the most.
pub fn key_fits(key: &[u8]) -> bool
    ensures { IsTrue result ↔ KeyFits key.now }
{
    !key.is_empty() && key.len() <= MAX_KEY_LEN
}

/// Whether this is a value of a trace, of an image or of a datagram.
pub fn value_fits(value: &[u8]) -> bool
    ensures { IsTrue result ↔ ValueFits value.now }
{
    value.len() <= MAX_VALUE_LEN
}

/// Whether a partition keeps such a value.
pub fn stored_fits(value: &[u8]) -> bool
    ensures { IsTrue result ↔ StoredFits value.now }
{
    value.len() <= MAX_STORED_LEN
}
