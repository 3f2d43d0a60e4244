//! A partition in cache mode: a circular log of items and a lossy index over one owner's words.
//!
//! An item is evicted where the log has passed it, or where it is displaced: a full bucket gives its oldest entry away.
//! This is no LRU: items go in the order in which they were stored, and a get changes nothing of it. A put that finds
//! room in its key's item leaves the item in its place; a touch stores it once more.
//!
//! The layer above may rely on this: each `put`, `add`, `touch` and `del` is one step of the cache machine, whose history
//! grows by exactly the accepted write, and `get` answers that history with loads alone. No call takes memory.
#![tactic(auto)]

mod partition;
mod reading;
mod removing;
mod seeking;
mod touching;
mod writing;

pub use partition::CachePartition;
