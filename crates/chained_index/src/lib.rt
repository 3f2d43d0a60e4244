//! The index of a partition in store mode: each main bucket has a chain of buckets,
//! with as many spare ones behind it as its entries need. Keys of one bucket and one tag are a collision: the keys of
//! their items tell them apart.
//!
//! The layer above may rely on this: a chain's entries are a list (`entries_of`), which `place`, `replace`
//! and `remove` change as their names say, and they change nothing else (`ChangesChain`). Chains stay dense,
//! so a spare bucket is in use exactly where it is needed (`IsIndexOf`). After the making no call takes memory.
#![tactic(auto)]

mod index;

pub use index::{ChainedIndex, Spot};
