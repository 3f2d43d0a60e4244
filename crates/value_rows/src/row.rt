//! A row, as the lines of a file give it.

use crate::spelling::add_text;
use outside::NoMemory;
use std::alloc::Global;

/// What is computed, of what, and what comes of it; and the number of the last line that was read.
#[derive(Drop)]
pub struct Row {
    pub line: u32,
    pub words: String,
    pub given: Vec<u8>,
    pub wanted: Vec<u8>,
}

impl Row {
    /// A row of no lines.
    pub fn new(alloc: Global, line: u32) -> Row {
        Row {
            line,
            words: String::new(alloc),
            given: Vec::new(alloc),
            wanted: Vec::new(alloc),
        }
    }

    /// Whether the line goes on with the row.
    pub fn takes(&mut self, alloc: Global, line: &str) -> Result<bool, NoMemory> {
        if let Some(text) = line.strip_prefix('>') {
            return add_text(alloc, text, &mut self.given);
        }
        if let Some(text) = line.strip_prefix('<') {
            return add_text(alloc, text, &mut self.wanted);
        }
        let is_first = self.words.is_empty();
        self.words.push_str(line)?;
        Ok(is_first)
    }
}
