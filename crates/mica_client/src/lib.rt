//! A client of the server: it asks for what a trace says, and makes the report of the replies.
//!
//! The layer above may rely on this: batches go out in order, each once, when all tickets of the one before it are answered;
//! with a report each ticket has one reply, which is the report's line of that number; and each fault has its cause in the
//! datagrams that passed (`specs/Exchange`).
//!
//! A program asks a server at port 9000 of this machine over UDP:
//!
//! ```text
//! let options = AskOptions { port: 9_000, partitions: 4, fronts: 1, per: 32, wait: 5 };
//! let trace = read_trace(alloc, b"put a 1\nsync\nget a\n")?;
//! let report = ask(alloc, &options, &trace, &mut UdpLink::new(&rt))?;
//! ```
//!
//! A test does so with a `MemLink`, to which it has added the replies.
#![tactic(auto)]

mod answer_list;
mod answers;
mod batches;
mod exchange;
mod fault;
mod laws;
mod link;
mod memory_link;
mod options;
mod request;
mod share;
mod udp_link;

pub use exchange::ask;
pub use fault::AskFault;
pub use laws::{answered_once, one_cause, sent_in_order};
pub use link::Link;
pub use memory_link::MemLink;
pub use options::VERSION;
pub use server_words::AskOptions;
pub use udp_link::UdpLink;
