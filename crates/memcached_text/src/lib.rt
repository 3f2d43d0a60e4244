//! Memcached's text protocol as bytes: the commands that a client's bytes spell, and the texts of replies.
//!
//! What stands at the front of bytes is one thing: a command with the bytes that it takes, a refusal with the
//! bytes that are dropped, a line that is too long, or the beginning of one of these. It is what `next_of` in
//! `specs/Next` says, and stays so whatever bytes follow. So it does not matter in which pieces the bytes come.
//! No call that reads takes memory: a command borrows its keys and its data from the bytes.
#![tactic(auto)]

mod append;
mod block;
mod command;
mod fault;
mod forms;
mod item;
mod key_line;
mod laws;
mod lifetime;
mod limits;
mod line;
mod next;
mod number;
mod reply;
mod server_line;
mod spelled;
mod split;
mod storage_line;
mod text;
mod waiting;
mod words;

pub use append::append_parts;
pub use command::{Command, Direction, Side, Topic, Wants};
pub use fault::Fault;
pub use item::{Item, marked, put_item, read_item};
pub use laws::{one_answer, one_command, one_item, one_meaning, one_place, quiet_as_asked};
pub use lifetime::{Due, Lifetime, MAX_SECONDS};
pub use limits::{
    HEADER_LEN, MAX_FRAME_LEN, MAX_GET_LINE_LEN, MAX_KEY_LEN, MAX_LINE_LEN, MAX_REPLY_LEN,
    MAX_TEXT_LEN, MAX_WAITING_LEN,
};
pub use next::{Next, next_command};
pub use number::number_of;
pub use reply::{Reply, fault_line, put_last_value, put_number, put_stat, put_value, reply_line};
pub use server_line::topic_of;
pub use spelled::spelled_key;
pub use text::Text;
pub use waiting::{lacks_feed, waits_for_line};
pub use words::Words;
