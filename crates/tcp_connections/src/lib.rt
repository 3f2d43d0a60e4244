//! Connections of this machine, over TCP and over Unix sockets: listeners and connections over epoll. What they give no contract can say.
#![tactic(auto)]

mod door;
mod door_troubles;
mod hall;
mod patience;
mod slot;
mod stream;
mod tcp_connections;
mod tcp_listeners;
mod tcp_port;

pub use door::{Door, Refused};
pub use door_troubles::DoorTroubles;
pub use tcp_connections::TcpConnections;
pub use tcp_listeners::TcpListeners;
