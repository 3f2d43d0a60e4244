//! A reader of one thread for tests: between its loads the kept events of an owner happen, as many as a plan says.
//!
//! The layer above may rely on this: its loads find what the plan lays down (`FindsEpoch` and its like).
#![tactic(auto)]

mod scripted;

pub use scripted::{Book, Look, Plot, Scripted};
