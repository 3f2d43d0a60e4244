//! What is read in a file: shown in lines, and written again.
ghost use Rattle.std.specs.Prelude.{⊤};

use named_files::{Beside, MemPlace, Place};
use outside::NoMemory;
use saved_items::{
    Closing, Hashing, Head, Refused, SavedMode, SavedPair, SpillFault, Spiller, TakesEntries,
    close_partition, finish, put_head, put_pair,
};
use std::alloc::Global;

/// The lines of what was read, and a file with the same in memory.
#[derive(Drop)]
pub struct Copied {
    alloc: Global,
    lines: String,
    spiller: Spiller,
    beside: Beside<MemPlace>,
}

// A run of one byte in hexadecimal: of four and more as HHxCOUNT.
fn add_run(alloc: Global, run: &[u8], lines: &mut String) -> Result<(), NoMemory> {
    let Some(byte) = run.first() else {
        return Ok(());
    };
    let digits = format!(in alloc; "{byte:02x}")?;
    if run.len() > 3 {
        let many = run.len();
        lines.push_str(format!(in alloc; "{digits}x{many}")?.as_str())?;
        return Ok(());
    }
    for _ in 0..run.len() {
        lines.push_str(digits.as_str())?;
    }
    Ok(())
}

// The bytes in hexadecimal, run by run; `-` for none.
fn add_bytes(alloc: Global, bytes: &[u8], lines: &mut String) -> Result<(), NoMemory> {
    if bytes.is_empty() {
        lines.push_str(" -")?;
        return Ok(());
    }
    let mut is_first = true;
    for run in bytes.chunk_by(|one, other| one == other) {
        lines.push_str(if is_first { " " } else { "." })?;
        add_run(alloc, run, lines)?;
        is_first = false;
    }
    Ok(())
}

impl Copied {
    /// Nothing was read yet.
    pub fn new(alloc: Global) -> Result<Copied, NoMemory> {
        Ok(Copied {
            alloc,
            lines: String::new(alloc),
            spiller: Spiller::new(alloc)?,
            beside: Beside {
                place: MemPlace::new(alloc, None, true, &[])?,
            },
        })
    }

    /// The head comes first.
    pub fn begin(&mut self, head: &Head) -> Result<(), SpillFault> {
        let hashing = match head.hashing {
            Hashing::Papers => format!(in self.alloc; "papers")?,
            Hashing::Secret(first, second) => { format!(in self.alloc; "secret {first} {second}")? }
        };
        let mode = match head.mode {
            SavedMode::Cache => "cache",
            SavedMode::Store => "store",
        };
        let (second, partitions) = (head.second, head.partitions);
        self.lines.push_str(format!(in self.alloc;
            "head {second} {hashing} {mode} {partitions}\n"
        )?.as_str())?;
        let Ok(spiller) = Spiller::new(self.alloc) else {
            return Err(SpillFault::NoMemory);
        };
        self.spiller = spiller;
        self.beside.place.begin()?;
        put_head(&mut self.beside, &mut self.spiller, head)
    }

    fn add_pair(&mut self, pair: &SavedPair) -> Result<(), NoMemory> {
        self.lines.push_str("pair")?;
        add_bytes(self.alloc, pair.key.as_slice(), &mut self.lines)?;
        add_bytes(self.alloc, pair.value.as_slice(), &mut self.lines)?;
        let place = if pair.is_long { "long" } else { "short" };
        self.lines.push_str(format!(in self.alloc; " {} {place}\n", pair.reads)?.as_str())?;
        Ok(())
    }

    fn add_closing(&mut self, closing: Closing) -> Result<(), NoMemory> {
        let (written, next, until) = (closing.written, closing.next, closing.until);
        self.lines.push_str(format!(in self.alloc; "close {written} {next} {until}\n")?.as_str())?;
        Ok(())
    }

    /// The lines, and the last one, which says how reading ended.
    pub fn ended(mut self, how: &str) -> Result<String, NoMemory> {
        self.lines.push_str(how)?;
        self.lines.push_str("\n")?;
        Ok(self.lines)
    }

    /// Whether what was written again is this file.
    pub fn is_same(&mut self, file: &[u8]) -> Result<bool, SpillFault> {
        finish(&mut self.beside, &mut self.spiller)?;
        Ok(self.beside.place.beside() == file)
    }
}

impl TakesEntries for Copied {
    ghost takes = { λ _ _ _. ⊤ };

    ghost refuses = { λ _ _ _. ⊤ };

    fn pair(&mut self, pair: &SavedPair) -> Result<(), Refused> {
        self.add_pair(pair).map_err(|_| Refused)?;
        put_pair(&mut self.beside, &mut self.spiller, pair).map_err(|_| Refused)
    }

    fn close(&mut self, closing: Closing) -> Result<(), Refused> {
        self.add_closing(closing).map_err(|_| Refused)?;
        close_partition(&mut self.beside, &mut self.spiller, closing).map_err(|_| Refused)
    }
}
