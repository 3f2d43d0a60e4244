//! A book of turns: what is done to a shared thing under its lock, by whom, in one order.
//!
//! The book lies under the lock beside the thing, and each of those who take turns has a token of its own, outside. The layer above may rely
//! on this: of the entries in the book, those of each taker are just those that its token has, in order, and there are no others. No entry
//! takes memory: entries and tokens exist in the proofs.
#![tactic(auto)]

mod book;
mod rule;

pub use book::{Taker, TurnBook};
pub use rule::{BookRule, BookSeatView, Entered, Entry};
