//! How long the parts of a command may be.

use mica_words::MAX_STORED_LEN;

/// The longest key, in bytes, as the protocol has it. The store takes longer ones.
pub const MAX_KEY_LEN: usize = 250;

/// The bytes of an item's numbers, which are stored before its value.
pub const HEADER_LEN: usize = 16;

/// The longest value of an item, in bytes. What is stored is longer by the header.
pub const MAX_TEXT_LEN: usize = MAX_STORED_LEN - HEADER_LEN;

/// The most bytes that a line may say of the value in its block. What is longer than a value may be is dropped.
pub const MAX_BLOCK_LEN: u32 = 2_147_483_645;

/// The longest line, in bytes, without its line feed. That of a get may be longer.
pub const MAX_LINE_LEN: usize = 65_536;

/// The longest line of a get, in bytes, without its line feed: clients put each key that is asked for at once into one.
pub const MAX_GET_LINE_LEN: usize = 1_048_576;

/// Bytes that wait for more are fewer than so many: a line, its line feed, and a block with its two last bytes. Nor is the line of a get longer.
pub const MAX_WAITING_LEN: usize = MAX_LINE_LEN + 1 + MAX_TEXT_LEN + 2;

/// The most bytes of a reply to one key that are neither of the key nor of a value.
pub const MAX_FRAME_LEN: usize = 78;

/// The most bytes that are replied to one key, or to a command that has none.
pub const MAX_REPLY_LEN: usize = 1_049_360;
