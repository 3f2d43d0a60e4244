//! A command of memcached as a decision that is made where its partition is held.
//!
//! The layer above may rely on this: what the partition's front does by it is what `decide` says of the value that is there
//! at that moment, where unique numbers and flushes are functions of the partition's history.
#![tactic(auto)]

mod laws;
mod order;
mod sweep_order;

pub use laws::{gone_stays_gone, numbers_rise, swaps_what_stands};
pub use order::{CommandOrder, LAST_UNIQUE, moment_at};
pub use sweep_order::{SweepOrder, is_over};
