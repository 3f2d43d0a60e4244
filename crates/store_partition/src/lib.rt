//! A partition in store mode: a heap of blocks and a chained index over one owner's words.
//!
//! The layer above may rely on this: each `put`, `add`, `touch` and `del` is one step of the store machine, whose
//! history grows by exactly the accepted write; `get` answers that history; and a refused write has loads alone. After
//! `new` no call takes memory.
#![tactic(auto)]

mod marking;
mod partition;
mod reading;

pub use partition::StorePartition;
