//! Streams of bytes from and to the outside: connections and listeners as traits, and the log of what passed.
//!
//! The layer above may rely on this: a read that says `All` or `Later` left nothing, and a write takes all that the peer has room for. A
//! connection that breaks is its peer's doing and no fault: `next` alone answers `Failed`, where the count of faults rose in that call.
//! `memory_connections` and `tcp_connections` have the forms of it.
#![tactic(auto)]

mod connections;
mod listeners;
mod schedule;

pub use connections::{Broken, Connections, Event, Input};
pub use listeners::{Listeners, Place};
pub use schedule::{Change, Step};
