//! A writer of saved items: what does not fill a block is held back.
ghost use Rattle.std.specs.Prelude.{◌≡◌, ◌<◌, vec_len, IfOk};

use crate::blocks::{BLOCK_LEN, CONTENT_WORDS, FIRST_SUM};
use outside::NoMemory;
use std::alloc::Global;

/// A writer of saved items.
#[derive(Drop)]
pub struct Spiller {
    pub(crate) held: Vec<u8>,
    pub(crate) words: Vec<u64>,
    /// The sum behind the blocks that were written.
    pub(crate) sum: u64,
    /// 256 times how many pairs the partition at hand has so far.
    pub(crate) close: u64,
    ghost room: { vec_len words ≡ 8191 },
    ghost within: { vec_len held < 65528 },
}

impl Spiller {
    ghost use Rattle.saved_items.specs.Spiller.{IsFresh};

    /// A writer at the beginning of a file. It takes its memory here, a block and its words.
    pub fn new(alloc: Global) -> Result<Self, NoMemory>
        ensures { IfOk result IsFresh }
    {
        let mut words = Vec::new(alloc);
        words.resize(CONTENT_WORDS, 0)?;
        Ok(Spiller {
            held: Vec::with_capacity(alloc, BLOCK_LEN)?,
            words,
            sum: FIRST_SUM,
            close: 0,
        })
    }
}
