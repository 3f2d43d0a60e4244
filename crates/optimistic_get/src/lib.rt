//! A get by loads alone: the reader compares the bucket's epoch before and after its loads,
//! and uses nothing that it loaded where the epoch was odd or moved.
//!
//! The layer above may rely on this: `Hit` and `Miss` are what the machine answers at the history that the seat
//! has seen then (`Answers`), and `Again` comes exactly where each try failed. No call takes memory, and `ask` alone
//! waits: it gets again until there is an answer.
#![tactic(auto)]

mod asking;
mod getting;
mod looking;
mod searching;
mod settled;
mod trying;
mod wanted;

pub use asking::{ask, ask_hashed};
pub use getting::{Got, get, get_hashed};
pub use settled::get_settled;
