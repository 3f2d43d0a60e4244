//! Memcached's meta commands: what their lines say, what they ask of a key, and the texts of their replies.
//!
//! `mg`, `ms`, `md`, `ma` and `me` are lines with a key and flags, each a letter with an argument behind it. Each flag stands once. What stands at the front of
//! bytes is one thing: such a command, a refusal with the bytes that are dropped, or the beginning of its block. All other lines are those of `memcached_text`.
//! What is asked is the ask of a classic command with more fields, so `decide` in memcached_commands answers both.
#![tactic(auto)]

mod ask;
mod fault;
mod flags;
mod laws;
mod lifetime;
mod line;
mod manner;
mod next;
mod reply;

pub use ask::meta_ask;
pub use fault::{MetaFault, meta_fault_line};
pub use flags::{MAX_OPAQUE_LEN, argument_of, has_flag};
pub use laws::{as_classic, never_hidden, one_spelling, whole_lines};
pub use line::{Meta, Verb, is_base64};
pub use manner::Manner;
pub use next::{MetaNext, next_meta};
pub use reply::{MAX_SAID_LEN, put_meta};
