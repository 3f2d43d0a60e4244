//! The server: its ports, the fronts behind them and the owners of the partitions, each in a thread of its own.
//!
//! What a front makes of its datagrams stands in `datagram_answers`, what it is in `fronts`. Six of their names and of `queue_front`'s this crate passes on. What all fronts of `serve` received and
//! replied is `Served` of `served`: the writes of all fronts are one run of each partition's machine, and each get is its answer at the
//! replied stamp.
#![tactic(auto)]

mod meeting;
mod opening;
mod server;
mod service;
mod tables;
mod worker;

pub use datagram_answers::serve_batch;
pub use fronts::{Front, ServeFault, Totals};
pub use queue_front::{QueueFront, SoloFront};
pub use server_words::{MAX_BATCHES, PortOptions};
pub use service::serve;
