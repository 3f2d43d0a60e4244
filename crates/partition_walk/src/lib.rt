//! A walk of a partition's words: its pairs, one after another, those of a cache in the order of its log.
//!
//! The layer above may rely on this: `list_items` says where the items of all live entries lie, and a `WordsWalk` over them gives what the partition has
//! behind its history, each key once with its value, and nothing else (`IsWalk` of `kept_items`). The words stay as they are.
#![tactic(auto)]

mod listing;
mod pairs;
mod walk;

pub use listing::list_items;
pub use walk::WordsWalk;
