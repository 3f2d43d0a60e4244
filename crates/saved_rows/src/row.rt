//! A row, as the lines of a file give it.

use outside::NoMemory;
use std::alloc::Global;

/// The bytes of a file, and what is read in it.
#[derive(Drop)]
pub struct Row {
    pub name: String,
    pub file: Vec<u8>,
    pub wanted: String,
}

// A digit that is hexadecimal.
fn digit_of(letter: u8) -> Option<u8> {
    match letter {
        b'0'..=b'9' => Some(letter - b'0'),
        b'a'..=b'f' => Some(letter - b'a' + 10),
        _ => None,
    }
}

// The byte of two digits.
fn byte_of(digits: &[u8]) -> Option<u8> {
    let [high, low] = digits else {
        return None;
    };
    Some(digit_of(*high)? << 4 | digit_of(*low)?)
}

// Whether these are bytes in hexadecimal, which are added then.
fn add_bytes(digits: &[u8], into: &mut Vec<u8>) -> Result<bool, NoMemory> {
    for pair in digits.chunks(2) {
        let Some(byte) = byte_of(pair) else {
            return Ok(false);
        };
        into.push(byte)?;
    }
    Ok(true)
}

// Whether this is a count and a byte, which is added so often then.
fn add_run(words: &str, into: &mut Vec<u8>) -> Result<bool, NoMemory> {
    let Some((count, byte)) = words.split_once(' ') else {
        return Ok(false);
    };
    let Some(byte) = byte_of(byte.as_bytes()) else {
        return Ok(false);
    };
    for _ in 0..count.parse::<u32>().unwrap_or(0) {
        into.push(byte)?;
    }
    Ok(true)
}

impl Row {
    /// A row of no lines.
    pub fn new(alloc: Global) -> Row {
        Row {
            name: String::new(alloc),
            file: Vec::new(alloc),
            wanted: String::new(alloc),
        }
    }

    /// Whether the line goes on with the row.
    pub fn takes(&mut self, line: &str) -> Result<bool, NoMemory> {
        if let Some(name) = line.strip_prefix("file ") {
            self.name.push_str(name)?;
            return Ok(true);
        }
        if let Some(digits) = line.strip_prefix("+ ") {
            return add_bytes(digits.as_bytes(), &mut self.file);
        }
        if let Some(words) = line.strip_prefix("* ") {
            return add_run(words, &mut self.file);
        }
        let Some(text) = line.strip_prefix("> ") else {
            return Ok(false);
        };
        self.wanted.push_str(text)?;
        self.wanted.push_str("\n")?;
        Ok(true)
    }
}
