//! The outside of this machine: standard streams and files, UDP sockets, and the system's clock. What they give no contract can say.
#![tactic(auto)]

mod std_clock;
mod std_sink;
mod std_source;
mod udp;

pub use std_clock::StdClock;
pub use std_sink::StdSink;
pub use std_source::StdSource;
pub use udp::{UdpEnd, UdpNet};
