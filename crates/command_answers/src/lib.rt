//! How commands of memcached are answered through a front, with no connection.
//!
//! Clients pipeline: they send commands before they have the replies to those before. Commands that came together are answered one after another, in their
//! order, and `load_ahead` loads beforehand what they will look at.
//!
//! What a client said is answered key by key: each by one look, with the write that is decided of it as the next step. So a get
//! of many keys may be answered in parts, with other answers between. Behind a set that found no room stands a delete of its key. The layer above may rely on this: the front's sessions go on by just the answers
//! that `answer_next` says, these are answers to what was asked, and the text that is appended is the one that is due to them. Beside that `sweep` looks at a
//! few places of an index, and deletes what is over there, in store mode. In cache mode it touches items that were read and will be written over soon.
#![tactic(auto)]

mod ahead;
mod answer;
mod ask;
mod buffers;
mod flush;
mod keeping;
mod laws;
mod noted;
mod pace;
mod sweeper;

pub use ahead::load_ahead;
pub use answer::{Limits, Numbering, Progress, answer_next};
pub use buffers::Buffers;
pub use keeping::MOST_MOVED;
pub use laws::spells_on;
pub use noted::Noted;
pub use sweeper::{MOST_SWEPT, Sweeper, sweep};
