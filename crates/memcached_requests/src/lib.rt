//! What a client of memcached wants, in whatever protocol it says so, and what is replied to it.
//!
//! Each command stands in the protocol of its first byte: 128 begins a frame of the binary protocol, and all else a line. No state is kept between them. `next_of` in
//! `specs/Next` says what bytes begin with: a request, how it is replied to, and the bytes that it takes. The layer above may rely on this: it carries requests out without
//! knowing how they are spelled, and `said_text` in `specs/Replies` is all that is ever replied, but for what the server counts.
#![tactic(auto)]

mod frame;
mod frame_reply;
mod laws;
mod line;
mod meta;
mod next;
mod reply;
mod request;

pub use frame_reply::{NO_ITEM, version_name};
pub use laws::{asks_alike, one_next, told_replies};
pub use next::next_command;
pub use reply::{put_said, put_stat};
pub use request::{Next, Request, Style};
