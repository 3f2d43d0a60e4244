//! The top call, whose contract is the headline.
//!
//! A caller may rely on this: `mica` carries out the command that the words give, by the grammar of `mica_commands`, and
//! keeps its promises: `specs/Promise.antt` says what a promise is, `specs/Promises.antt` has those of each command, and
//! `specs/Headline.antt` what a replay prints. Each status has its cause in the words, in the bytes that the source gave, in
//! what passed over the link, or in a count of faults that rose.
#![tactic(auto)]

mod ask_command;
mod bench_command;
mod check_command;
mod check_parts;
mod exclusive_command;
mod finding;
mod gen_command;
mod image_command;
mod input;
mod laws;
mod output;
mod program;
mod replay_command;
mod serve_command;
mod status;
mod top;
mod unpack_command;

pub use laws::headline;
pub use mica_commands::{
    Command, GenOptions, MAX_SOURCE_LEN, WordsFault, gen_trace, put_summary, read_words,
};
pub use program::{exit_code, run_program};
pub use status::Status;
pub use top::mica;
