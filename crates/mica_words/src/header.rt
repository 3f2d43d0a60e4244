//! An item's first word: its room in words, and the lengths of its key and its value in bytes.

ghost use Rattle.std.specs.Prelude.{◌≡◌, ◌<◌, ◌+◌, ◌*◌, ◌/◌, ◌^◌};
ghost use Rattle.mica_words.specs.Header.{header_of, header_room, header_key_len, header_value_len, IsPlainHeader};

/// The header of an item. A room that needs no more than 16 bits leaves 16 to the key's length.
pub fn header_of(room: u32, key_len: u32, value_len: u32) -> u64
    requires room { room < 2 ^ 24 }
    requires key_len { key_len + 256 * (room / 65536) < 65536 }
    ensures { result ≡ header_of room key_len value_len }
{
    let above = key_len + 256 * (room / 65536);
    u64::from(room % 65536) | u64::from(above) << 16 | u64::from(value_len) << 32
}

/// The header of an item that has fewer than 65,536 words is as if none had more.
pub fn plain_header()
    ensures { IsPlainHeader }
{}

/// The number of words that the item may use, its header included.
pub fn header_room(word: u64) -> u32
    ensures { result ≡ header_room word }
{
    ((word >> 24 & 0xff) << 16 | word & 0xffff) as u32
}

/// The number of bytes of the key.
pub fn header_key_len(word: u64) -> u32
    ensures { result ≡ header_key_len word }
{
    (word >> 16 & 0xff) as u32
}

/// The number of bytes of the value.
pub fn header_value_len(word: u64) -> u32
    ensures { result ≡ header_value_len word }
{
    (word >> 32) as u32
}
