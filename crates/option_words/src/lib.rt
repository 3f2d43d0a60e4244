//! The words that a program is started with: options with one value each, and what their texts mean.
//!
//! A caller may rely on this: words give to options the texts of the grammar in `specs/Words.antt`, and are refused exactly where that gives
//! none; a text means the value that `specs/Settings.antt` says.
#![tactic(auto)]

mod clap_command;
mod program_words;
mod values;
mod words_fault;

pub use clap_command::matches_of;
pub use program_words::{all_words, behind_name};
pub use values::{count, mode, number, number_of, power_of_two, required};
pub use words_fault::WordsFault;
