//! Connections in memory, for tests: they tell their schedule beforehand and each call that was made, so what stands is known.
#![tactic(auto)]

mod boxed_connections;
mod memory_connection;
mod memory_connections;
mod memory_list;
mod memory_listeners;
mod memory_log;
mod memory_ports;
mod stage;

pub use boxed_connections::BoxedConnections;
pub use memory_connections::MemConnections;
pub use memory_listeners::MemListeners;
