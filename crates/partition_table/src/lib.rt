//! The words of a partition on an atomic table, whose rule is what is kept of its owner and of each of its readers.
//!
//! The layer above may rely on this: of a table there is one owner's seat, whose history grows at its own marks alone.
//! A seat that it lends, or a note, has seen its history. A reader's loads take no lock and need no runtime, and each
//! fits what the owner stored, whatever both do meanwhile. A seat or a note may be moved to another thread, and it
//! can be given back where `home` says that it is of the same table. `lend` alone takes memory, and where there is
//! none nothing has changed.
#![tactic(auto)]

mod making;
mod owner;
mod places;
mod plays;
mod reader;
mod rule;
mod tables;

pub use making::{make, make_from_zeros, zeros_for};
pub use owner::OwnerSeat;
pub use reader::{Aside, Note, ReaderSeat};
pub use tables::{KeptSeat, Tables};
