//! The lossy index of cache mode: in each bucket, entries of a tag and an item's
//! offset. An entry whose item the log has passed stays until its slot is taken, and a full bucket gives up its
//! oldest entry. In both cases the item is evicted. Keys of one bucket and one tag are a collision: the keys of their
//! items tell them apart.
//!
//! The layer above may rely on this: `find` gives the slot whose live item has the key, exactly where there is
//! one; `place` and `clear` store one entry, and `place` in the slot that `specs/Place` says. No call takes
//! memory, and none refuses.
#![tactic(auto)]

mod finding;
mod placing;

pub use finding::{Found, find, find_hashed};
pub use placing::{clear, place};
