//! How many bytes partitions take, and the sizes of partitions for so many bytes.
//!
//! A caller may rely on this: `bytes_of` counts the words of the tables as `epoch_core` lays them out, and what is used of the rows
//! beside them. Of the sizes that `sizes_for` gives partitions can be made, and these take no more than the memory that was asked
//! for, less what the program takes itself.
#![tactic(auto)]

mod bytes;
mod laws;
mod sizes;

pub use bytes::{bytes_of, start_bytes};
pub use laws::sizes_fit;
pub use sizes::{ITEM_WORDS, LEAST_MEMORY, MOST_MEMORY, Sizes, sizes_for};
