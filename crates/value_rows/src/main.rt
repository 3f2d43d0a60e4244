//! Rows of values as data: each row says what is computed, of what, and what comes of it. The words of this program are files of
//! rows. It prints what comes of each row that differs, and then how many rows and lines of values each file has.
#![tactic(auto)]

mod kinds;
mod machine;
mod memcached;
mod packets;
mod row;
mod sizes;
mod spelling;
mod text;
mod words;

use crate::kinds::found_by;
use crate::row::Row;
use anyhow::Result;
use std::{env, fs};

/// Tries a row, and prints what comes of it where that is not what it says.
fn try_row(rt: &(impl AllocGlobal + Print), name: &str, row: &Row) -> Result<()> {
    let words = row.words.as_str();
    let mut found = Vec::new(rt.alloc());
    found_by(rt.alloc(), words, row.given.as_slice(), &mut found)?;
    if found.as_slice() != row.wanted.as_slice() {
        let text = String::from_utf8_lossy(rt.alloc(), found.as_slice())?;
        println!(rt;
            "{name}, the row before line {}: `{words}` gives\n{text}",
            row.line
        )?;
    }
    Ok(())
}

/// Tries the rows of a file, which blank lines part. A line that begins with `#` is for the reader alone.
fn try_file(rt: &(impl AllocGlobal + Print), name: &str, text: &str) -> Result<()> {
    let mut rows = 0u32;
    let mut values = 0u32;
    let mut row = Row::new(rt.alloc(), 0);
    for line in text.lines() {
        row.line = row.line.saturating_add(1);
        if line.is_empty() {
            try_row(rt, name, &row)?;
            row = Row::new(rt.alloc(), row.line);
        } else if line.starts_with('#') {
            continue;
        } else if row.takes(rt.alloc(), line)? {
            rows = rows.saturating_add(u32::from(!line.starts_with(['<', '>'])));
            values = values.saturating_add(u32::from(line.starts_with('<')));
        } else {
            println!(rt; "{name}: line {} is none of a row", row.line)?;
        }
    }
    try_row(rt, name, &row)?;
    println!(rt; "{name}: {rows} rows, {values} lines of values")?;
    Ok(())
}

fn main(rt: HostRuntime) -> Result<()> {
    for name in env::args(&rt)?.skip(1) {
        let text = fs::read_to_string(&rt, name.as_str())?;
        try_file(&rt, name.as_str(), text.as_str())?;
    }
    Ok(())
}
