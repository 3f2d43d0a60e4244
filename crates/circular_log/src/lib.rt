//! Items in the circular log of cache mode: a put appends its item at the tail, over the
//! oldest items, or writes its value into the room that the key's item has, and a touch carries the key's item to
//! the tail. An item that the log writes over, and so has passed, is evicted.
//!
//! The layer above may rely on this: after `append`, `rewrite` and `carry` the owner's state is the one with the item
//! stored at the offset, and nothing else has changed; `item_at` gives the value that the words at an offset
//! spell; and `is_live` says whether the log has not passed an offset yet. No call takes memory, and none
//! refuses.
#![tactic(auto)]

mod carrying;
mod items;
mod live;

pub use carrying::{carry, size_at};
pub use items::{append, append_hashed, item_at, rewrite};
pub use live::is_live;
