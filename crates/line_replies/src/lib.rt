//! What a partition replies to a line of a trace, and a trace answered line by line on one thread.
//!
//! The layer above may rely on this: what `reply_to` gives is the machine's reply to the line after the partition's
//! history, which gains the accepted write; `reply_to_all` gives an exact report.
#![tactic(auto)]

mod all_lines;
mod line;

pub use all_lines::reply_to_all;
pub use line::reply_to;
