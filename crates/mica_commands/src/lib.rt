//! What the program can be asked: its commands and the words that give them, generated traces, and summaries of runs.
//!
//! A caller may rely on this: words give the command of the grammar in `specs/CommandLine.antt`, and are refused exactly
//! where it gives none. Options that were read are valid. A generated trace is that of its options, word for word of the
//! generator, and a summary is that of its trace and its report.
#![tactic(auto)]

mod command;
mod draw;
mod examples;
mod gen_options;
mod generated_text;
mod generator;
mod option_values;
mod spelling;
mod summary;

pub use command::{Command, read_words};
pub use examples::{default_replay, named_options};
pub use gen_options::GenOptions;
pub use generated_text::gen_text;
pub use generator::gen_trace;
pub use option_words::WordsFault;
pub use server_words::MAX_SOURCE_LEN;
pub use summary::put_summary;
