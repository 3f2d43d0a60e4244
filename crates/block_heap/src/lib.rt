//! A heap of words, given out in blocks. Blocks that are given back are joined with free ones beside them. Fragmentation
//! remains: no free block may be large enough where all of them together would be.
//!
//! The layer above may rely on this: the blocks fill the heap, no two free ones touch, `take` is refused
//! exactly where no free block is large enough, and after `new` no call takes memory. It may not rely on
//! which block `take` gives.
#![tactic(auto)]

mod block;
mod heap;
mod links;
mod lists;
mod marks;
mod ranks;
mod row;
mod tagged;

pub use block::MOST_WORDS;
pub use heap::Heap;
