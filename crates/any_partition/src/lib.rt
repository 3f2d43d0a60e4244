//! A partition of either mode in one type: over the words of one thread, and over a table of its own with the owner's seat.
//!
//! The layer above may rely on this: it is made with nothing in it, and each of its calls is the step, or the answer, of its mode's machine.
#![tactic(auto)]

mod on_table;
mod plain;

pub use on_table::OnTable;
pub use plain::PlainPartition;
