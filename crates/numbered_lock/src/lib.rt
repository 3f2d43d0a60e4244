//! Locks with numbers: what lies under a lock has the number of the lock.
//!
//! A plain lock knows nothing of what lies under it but its type. The layer above may rely on this: what is found under a lock of a number has that
//! number, and nothing else is put back there.
#![tactic(auto)]

mod lock;
mod rule;
#[cfg(test)]
mod tests;

pub use lock::{Held, NumberedLock};
pub use rule::{LockRule, LockSeatView, Numbered};
