//! A reader of saved items: one block is in memory, and is checked before a byte of it is used.
ghost use Rattle.std.specs.Prelude.{◌≡◌, ◌≤◌, vec_len, IfOk};

use crate::blocks::{BLOCK_LEN, CONTENT_LEN, CONTENT_WORDS, FIRST_SUM};
use outside::NoMemory;
use std::alloc::Global;

/// A reader of saved items.
#[derive(Drop)]
pub struct SavedReader {
    pub(crate) block: Vec<u8>,
    pub(crate) words: Vec<u64>,
    /// How many bytes of the block were given.
    pub(crate) at: usize,
    /// The sum behind the block.
    pub(crate) sum: u64,
    ghost whole: { vec_len block ≡ 65536 },
    ghost room: { vec_len words ≡ 8191 },
    ghost in_range: { at ≤ 65528 },
}

impl SavedReader {
    ghost use Rattle.saved_items.specs.Reader.{IsAtFirst};

    /// A reader at the beginning of a file. It takes its memory here, a block and its words.
    pub fn new(alloc: Global) -> Result<Self, NoMemory>
        ensures { IfOk result IsAtFirst }
    {
        let mut block = Vec::new(alloc);
        block.resize(BLOCK_LEN, 0)?;
        let mut words = Vec::new(alloc);
        words.resize(CONTENT_WORDS, 0)?;
        Ok(SavedReader {
            block,
            words,
            at: CONTENT_LEN,
            sum: FIRST_SUM,
        })
    }
}
