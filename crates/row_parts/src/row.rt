//! The rows of a file.

use crate::entry::Entry;
use crate::spelling::{Ending, Script, spell};
use outside::NoMemory;
use std::alloc::Global;

/// What a line may begin with.
static NAMES: [&str; 30] = [
    "run",
    "ends",
    "or",
    "sink",
    "times",
    "port",
    "gives",
    "sends",
    "bind",
    "meet",
    "calls",
    "in",
    "from",
    "judged",
    "link",
    "source",
    "keeps",
    "connections",
    "says",
    "takes",
    "hears",
    "shows",
    "why",
    "memory",
    "file",
    "reads",
    "free",
    "passes",
    "turned",
    "stops",
];

/// A row: where its lines stand, what they are, and whether they are a row.
#[derive(Drop)]
pub struct Row {
    pub place: String,
    pub entries: Vec<Entry>,
    pub is_whole: bool,
}

impl Row {
    /// A row that says nothing.
    pub fn empty(alloc: Global) -> Row {
        Row {
            place: String::new(alloc),
            entries: Vec::new(alloc),
            is_whole: true,
        }
    }

    fn tells_its_end(&self) -> bool {
        self.find("ends").is_some() || self.find("judged").is_some() || self.find("free").is_some()
    }

    /// The first entry of this name.
    pub fn find(&self, name: &str) -> Option<&Entry> {
        self.entries.iter().find(|entry| entry.is(name))
    }

    /// The number of this place in the first entry of this name, or another one where there is none.
    pub fn number(&self, name: &str, at: usize, otherwise: u32) -> u32 {
        match self.find(name) {
            Some(entry) => entry.number(at),
            None => otherwise,
        }
    }
}

/// The words of a line, spelled out at this turn, or none where it is no line.
fn words_of(alloc: Global, line: &str, turn: u32) -> Result<Vec<String>, NoMemory> {
    let mut spelled = Vec::new(alloc);
    let mut words = Vec::new(alloc);
    if spell(alloc, Script::Letters, line, turn, &mut spelled)? == Ending::Whole {
        if let Ok(line) = str::from_utf8(spelled.as_slice()) {
            for word in line.split(' ') {
                words.push(String::from_str(alloc, word)?)?;
            }
        }
    }
    Ok(words)
}

/// A line of a text, or as many like it as stand before it behind a star: how many, and what. Only those count turns of their own.
fn repeated(line: &str) -> Option<(u32, &str)> {
    let (times, line) = line.strip_prefix('*')?.split_once(' ')?;
    Some((times.parse::<u32>().ok()?, line))
}

/// A row that is being read.
#[derive(Drop)]
struct Reading {
    alloc: Global,
    turn: u32,
    row: Row,
}

impl Reading {
    /// Begins an entry.
    fn take_head(&mut self, line: &str) -> Result<(), NoMemory> {
        let mut entry = Entry {
            words: words_of(self.alloc, line, self.turn)?,
            script: Script::Letters,
            text: Vec::new(self.alloc),
        };
        entry.script = match self.row.entries.last() {
            Some(before) if entry.is("or") => before.script,
            _ => entry.script_of(),
        };
        if !NAMES.iter().any(|name| entry.is(*name)) {
            self.row.is_whole = false;
        }
        self.row.entries.push(entry)?;
        Ok(())
    }

    /// Adds a line of text to the last entry.
    fn add_text(&mut self, line: &str, turn: u32) -> Result<(), NoMemory> {
        let Some(entry) = self.row.entries.last_mut() else {
            self.row.is_whole = false;
            return Ok(());
        };
        match spell(self.alloc, entry.script, line, turn, &mut entry.text)? {
            Ending::Wrong => self.row.is_whole = false,
            Ending::Whole => entry.text.extend_from_slice(entry.script.line_end())?,
            Ending::Open => {}
        }
        Ok(())
    }

    /// A line of the row.
    fn take_line(&mut self, line: &str) -> Result<(), NoMemory> {
        let Some(text) = line.strip_prefix("  ") else {
            return self.take_head(line);
        };
        match repeated(text) {
            Some((times, text)) => {
                for turn in 0..times {
                    self.add_text(text, turn)?;
                }
                Ok(())
            }
            None => self.add_text(text, self.turn),
        }
    }
}

/// The row of these lines at this turn.
fn row_of(alloc: Global, place: &str, lines: &[&str], turn: u32) -> Result<Row, NoMemory> {
    let mut reading = Reading {
        alloc,
        turn,
        row: Row::empty(alloc),
    };
    reading.row.place = String::from_str(alloc, place)?;
    for line in lines {
        reading.take_line(line)?;
    }
    let mut row = reading.row;
    row.is_whole = row.is_whole && row.tells_its_end();
    Ok(row)
}

/// How often a row is tried.
fn times_of(lines: &[&str]) -> u32 {
    for line in lines {
        if let Some(times) = line.strip_prefix("times ") {
            return times.parse::<u32>().unwrap_or(0);
        }
    }
    1
}

/// Adds the row of these lines, as often as it is tried.
fn add_rows(
    alloc: Global,
    rows: &mut Vec<Row>,
    place: &str,
    lines: &[&str],
) -> Result<(), NoMemory> {
    for turn in 0..times_of(lines) {
        rows.push(row_of(alloc, place, lines, turn)?)?;
    }
    Ok(())
}

/// The rows of a text, which blank lines part. A line that begins with `#` is for the reader alone.
pub fn rows_of(alloc: Global, text: &str) -> Result<Vec<Row>, NoMemory> {
    let mut rows = Vec::new(alloc);
    let mut lines = Vec::new(alloc);
    let mut number = 0u32;
    for line in text.lines() {
        number = number.saturating_add(1);
        if line.starts_with('#') {
            continue;
        }
        if !line.is_empty() {
            lines.push(line)?;
        } else if !lines.is_empty() {
            let place = format!(in alloc; "line {number}")?;
            add_rows(alloc, &mut rows, place.as_str(), lines.as_slice())?;
            lines.clear();
        }
    }
    if !lines.is_empty() {
        add_rows(alloc, &mut rows, "the last line", lines.as_slice())?;
    }
    Ok(rows)
}
