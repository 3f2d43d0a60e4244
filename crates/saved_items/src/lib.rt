//! The file of saved items: blocks of one length with their sums, whose content is a head, the pairs of each partition, and what closes it.
//!
//! The layer above may rely on this: what `put_head`, `put_pair`, `close_partition` and `finish` wrote has one text, and reading it hands on the same
//! entries; no entry is handed on before the sum of each block that it lies in held; and a file in which one word was changed, or that was cut, is not
//! read without a fault.
#![tactic(auto)]

mod blocks;
mod fault;
mod items;
mod laws;
mod reader;
mod reading;
mod spiller;
mod stream;
mod taking;
mod writing;

pub use blocks::{BLOCK_LEN, CONTENT_LEN};
pub use fault::{SavedFault, SpillFault};
pub use items::{Closing, Hashing, Head, MAX_SAVED_KEY_LEN, SavedMode, SavedPair};
pub use laws::{no_beginning, one_changed_word, one_reading, reads_all};
pub use reader::SavedReader;
pub use reading::{read_end, read_entry, read_head};
pub use spiller::Spiller;
pub use taking::{Refused, TakesEntries, read_entries};
pub use writing::{close_partition, finish, put_head, put_pair};
