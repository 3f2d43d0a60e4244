//! Bounded queues under a rule, whatever goes through them and whatever its ends agreed on.
//!
//! The layer above may rely on this: of each sender, what was taken and then what waits is what it sent, in its order, each
//! once, and each message may follow those that its sender sent before.
#![tactic(auto)]

mod moves;
mod rule;

pub use moves::{CAPACITY, put, take};
pub use rule::{InOrder, NewSender, PassView, Queued, TakenIn, Terms, Whole};
