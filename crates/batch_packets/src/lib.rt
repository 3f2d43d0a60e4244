//! Datagrams of the server as bytes: a batch of requests, and the replies to it.
//!
//! What is read is the batch, or the replies, whose text the bytes are. A fault is the first one in
//! the order of the format, and comes exactly there; out of memory alone is free. What is written is
//! the text. Bytes are the text of at most one batch, and of at most one list of replies.
#![tactic(auto)]

mod batch;
mod checking;
mod fault;
mod header;
mod item;
mod laws;
mod replies;
mod reply_text;
mod status;

pub use batch::{Batch, BatchRef, Request, RequestList, Want, read_batch, write_batch};
pub use checking::{RequestRef, Requests, check_batch};
pub use fault::BatchFault;
pub use header::{
    HEADER_LEN, Header, MAX_DATAGRAM_LEN_V1, MAX_DATAGRAM_LEN_V2, MAX_ITEMS, MAX_VALUE_LEN_V1,
    is_version, max_datagram_len, max_value_len,
};
pub use laws::one_reading;
pub use replies::{Replies, Reply, ReplyList, is_reply, read_replies, write_replies};
pub use reply_text::ReplyText;
pub use status::Status;

/// The text of a batch, or of replies.
pub type Datagram = outside::Bytes;
