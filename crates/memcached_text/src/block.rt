//! The block of a value, behind its line.
ghost use Rattle.std.specs.Prelude.{◌≡◌};
ghost use Rattle.memcached_text.specs.Block.{block_at};

use crate::Text;

/// The bytes that end a block.
pub const END_LEN: usize = 2;

/// What the block of a value is.
#[derive(Drop)]
pub enum Block<'a> {
    /// Not all of it has come.
    Waiting,
    /// It does not end where its line says.
    Bad,
    /// The value.
    Whole(Text<'a>),
}

// The block of a value of so many bytes, at the front of the bytes behind its line.
#[tactic(auto, unfolding(crate::specs::Block::block_at))]
pub fn block_at(len: u32, bytes: &[u8]) -> Block
    ensures { result ≡ block_at len bytes.now }
{
    let len = len as usize;
    if bytes.len() < len + END_LEN {
        return Block::Waiting;
    }
    let (value, end) = bytes.split_at(len);
    if end.starts_with(b"\r\n") {
        Block::Whole(value.into())
    } else {
        Block::Bad
    }
}
