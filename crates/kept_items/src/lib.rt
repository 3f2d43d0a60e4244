//! What of the items goes on behind a stop and a start: which of those that a partition has are saved, and which of those that were saved are loaded.
//!
//! The layer above may rely on this: `save_part` puts what is there of a walk, each item as it is stored, and nothing that is over or flushed; `Lasting` hands
//! on what is not over at a start; and where a walk is of what a partition has, and another one begins with what was loaded, a command finds in it what it
//! would have found had nothing happened (`goes_on`).
#![tactic(auto)]

mod laws;
mod loading;
mod saving;
mod walk;

pub use laws::{fills_what_lasts, goes_on, keeps_what_is_there, parts_again, stop_and_start};
pub use loading::{Lasting, lasts};
pub use saving::{is_kept, is_saved, save_part};
pub use walk::Walks;
