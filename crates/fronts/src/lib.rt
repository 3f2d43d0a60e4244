//! What the front of a port is to those that answer for it: reads, writes and changes of the partitions, in an order that its session tells.
//!
//! The layer above may rely on this: what a front answers is the answer of the machines at the stamp that it tells, and its stamps do not
//! fall. `queue_front` and `locked_front` have forms of it.
#![tactic(auto)]

mod ahead;
mod changing;
mod counting;
mod flushes;
mod front;
mod glancing;
pub mod seat_loads;
mod totals;

pub use ahead::{MOST_AHEAD, load_all};
pub use changing::{Changed, Changes, Decide, When};
pub use counting::CountsWrites;
pub use flushes::{FLUSH_LEN, Flush, Flushes, KeptFlushes, flush_in};
pub use front::Front;
pub use glancing::{Glances, Glimpse, Passed};
pub use totals::{ServeFault, Totals};
