//! Plain words of servers and of those who ask them: ports, how many fronts stand behind them, and limits.
//!
//! A caller may rely on this: what is valid or possible lies in the ranges of `specs/`. `specs/Output.antt` says what contracts see of what a
//! program writes.
#![tactic(auto)]

mod ask_options;
mod limits;
mod ports;

pub use ask_options::AskOptions;
pub use limits::{MAX_BATCHES, MAX_SOURCE_LEN, MOST_FRONTS};
pub use ports::PortOptions;
