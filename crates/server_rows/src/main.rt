//! Rows of a server that stays up as data, in the form that `rows/data/README` says: its words, what the outside holds, and what it must write,
//! send and end with. The words of this program are files of rows. It prints a line for each run that ends otherwise, and then how many
//! runs there were.
#![tactic(auto)]

mod overheard;
mod run;

use crate::run::try_row;
use anyhow::Result;
use row_parts::rows_of;
use std::sync::Wait;
use std::thread::Threads;
use std::{env, fs};

/// Tries the rows of a file, and tells how many runs they make.
fn try_file(
    rt: &(impl AllocGlobal + Print + Threads + Wait + Sync),
    name: &str,
    text: &str,
) -> Result<u32> {
    let mut runs = 0u32;
    for row in &rows_of(rt.alloc(), text)? {
        if row.is_whole {
            runs = runs.saturating_add(try_row(rt, name, row)?);
        } else {
            println!(rt; "{name}, before {}: no row", row.place)?;
        }
    }
    Ok(runs)
}

fn main(rt: HostRuntime) -> Result<()> {
    let mut runs = 0u32;
    for name in env::args(&rt)?.skip(1) {
        let text = fs::read_to_string(&rt, name.as_str())?;
        runs = runs.saturating_add(try_file(&rt, name.as_str(), text.as_str())?);
    }
    println!(rt; "{runs} runs")?;
    Ok(())
}
