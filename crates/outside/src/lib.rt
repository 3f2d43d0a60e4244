//! The outside: where bytes come from and go to, datagrams and the clock, as traits, and what the threads of a run need of the system.
//!
//! The layer above may rely on this: a call answers `Failed` only where the count of faults rose in that call, and has then moved
//! nothing. The seconds that a clock tells never fall. `memory_outside` and `host_outside` have the forms of it.
#![tactic(auto)]

mod bytes;
mod clock;
mod cow_bytes;
mod datagrams;
mod fault;
mod gate;
mod net;
mod rehearsal;
mod sink;
mod source;

pub use bytes::Bytes;
pub use clock::{Clock, second_after};
pub use cow_bytes::CowBytes;
pub use datagrams::Datagrams;
pub use fault::{Failed, NoMemory};
pub use gate::{FreeGate, Gate};
pub use net::Net;
pub use rehearsal::rehearse;
pub use sink::{Sink, write_all};
pub use source::{ReadFault, Source, read_up_to};
