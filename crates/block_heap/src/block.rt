//! A block of words.
ghost use Rattle.std.specs.Prelude.{◌≡◌};
ghost use Rattle.block_heap.specs.Blocks.{free_block, used_block};

/// The most words that a heap can have.
pub const MOST_WORDS: u32 = 1_073_741_824;

/// Words that lie together, which are used or free as a whole.
#[derive(Clone, Copy)]
pub struct Block {
    pub place: u32,
    pub size: u32,
    pub used: bool,
}

impl Block {
    /// A free block.
    pub fn free(place: u32, size: u32) -> Self
        ensures { result ≡ free_block place size }
    {
        Block {
            place,
            size,
            used: false,
        }
    }

    /// A block in use.
    pub fn used(place: u32, size: u32) -> Self
        ensures { result ≡ used_block place size }
    {
        Block {
            place,
            size,
            used: true,
        }
    }
}
