//! The outside in memory, for tests: sources, sinks, nets and clocks that tell their bytes, their datagrams, their seconds and their
//! faults beforehand.
#![tactic(auto)]

mod mem_clock;
mod memory_end;
mod memory_net;
mod memory_ports;
mod memory_sink;
mod memory_source;
mod sent_room;
mod setup;

pub use mem_clock::MemClock;
pub use memory_end::MemEnd;
pub use memory_net::MemNet;
pub use memory_sink::MemSink;
pub use memory_source::MemSource;
