//! Files of saved items as data: each row has the bytes of a file, and what is read in it. The words of this program are files of rows. It prints what is read
//! where that is not what the row says, and which file that was read to its end is not the same when it is written again; and then how many rows there were.
#![tactic(auto)]

ghost use Rattle.std.specs.Prelude.{◌≡◌, false};

mod copied;
mod row;

use crate::copied::Copied;
use crate::row::Row;
use anyhow::Result;
use host_outside::StdSource;
use saved_items::{Head, SavedFault, SavedPair, SavedReader, SpillFault, read_entries, read_head};
use std::alloc::Global;
use std::{env, fs};

// A fault of memory is none of a file.
fn begin(copied: &mut Copied, head: &Head) -> Result<(), SavedFault> {
    match copied.begin(head) {
        Ok(()) => Ok(()),
        Err(SpillFault::NoMemory) => Err(SavedFault::NoMemory),
        Err(SpillFault::Failed) => Err(SavedFault::Failed),
    }
}

// Reads the file, and copies what it has.
fn copy(alloc: Global, file: &[u8], copied: &mut Copied) -> Result<(), SavedFault> {
    let mut source = StdSource::new(file);
    let mut reader = SavedReader::new(alloc)?;
    let head = read_head(alloc, &mut source, &mut reader)?;
    begin(copied, &head)?;
    let mut pair = SavedPair::new(alloc);
    read_entries(&mut source, &mut reader, head.partitions, &mut pair, copied)
}

// Tries a row, and prints what comes of it where that is not what it says.
fn try_row(rt: &(impl AllocGlobal + Print), row: &Row) -> Result<()> {
    let mut copied = Copied::new(rt.alloc())?;
    let name = row.name.as_str();
    let lines = match copy(rt.alloc(), row.file.as_slice(), &mut copied) {
        Ok(()) => {
            if !copied.is_same(row.file.as_slice())? {
                println!(rt; "{name}: is written otherwise")?;
            }
            copied.ended("end")?
        }
        Err(fault) => copied.ended(format!(in rt.alloc(); "fault {fault}")?.as_str())?,
    };
    if lines.as_str() != row.wanted.as_str() {
        println!(rt; "{name}: is read as\n{lines}")?;
    }
    Ok(())
}

// Tries the rows of a file, which blank lines part. A line that begins with `#` is for the reader alone.
fn try_file(rt: &(impl AllocGlobal + Print), name: &str, text: &str) -> Result<()> {
    let mut rows = 0u32;
    let mut row = Row::new(rt.alloc());
    for line in text.lines() {
        if line.is_empty() && !row.name.is_empty() {
            try_row(rt, &row)?;
            rows = rows.saturating_add(1);
            row = Row::new(rt.alloc());
        } else if !line.is_empty() && !line.starts_with('#') && !row.takes(line)? {
            println!(rt; "{name}: `{line}` is none of a row")?;
        }
    }
    println!(rt; "{name}: {rows} files")?;
    Ok(())
}

fn main(rt: HostRuntime) -> Result<()> {
    for name in env::args(&rt)?.skip(1) {
        let text = fs::read_to_string(&rt, name.as_str())?;
        try_file(&rt, name.as_str(), text.as_str())?;
    }
    Ok(())
}
