//! What a server that stays up can be asked: its partitions, by their sizes or by the memory that they may take, its ports of datagrams and of
//! memcached's clients, and an image; or what it is and which words it knows.
//!
//! A caller may rely on this: words give what the grammar in `specs/DaemonWords.antt` says, and are refused exactly where it gives nothing. What
//! was read is possible. memcached's short words stand for the long ones that `specs/ShortWords.antt` says.
#![tactic(auto)]

mod about;
mod at_start;
mod doors;
mod foreign;
mod host;
mod known;
mod memory;
mod options;
mod question;
mod refusal;
mod secret;
mod short_words;
mod streams;
mod wrong_together;
mod wrong_word;

pub use about::{VERSION, answer_to};
pub use at_start::verbosity;
pub use doors::{Doors, doors_given};
pub use host::Host;
pub use options::{DaemonOptions, read_daemon};
pub use question::{Question, question_of};
pub use refusal::refusal_text;
pub use short_words::{Waiting, long_words};
pub use streams::{StreamOptions, StreamPorts};
pub use wrong_together::value_given;
