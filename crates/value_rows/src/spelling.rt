//! How the lines of a row spell bytes: letters as they are, and short forms in braces.

use crate::text::{hex_number, say};
use outside::NoMemory;
use std::alloc::Global;

/// A letter, or two digits that are hexadecimal.
fn byte_of(word: &str) -> Option<u8> {
    match word.as_bytes() {
        [letter] => Some(*letter),
        [_, _] => u8::try_from(hex_number(word)?).ok(),
        _ => None,
    }
}

/// A short form: `HH` a byte, `9*HH` or `9*x` nine of one, `+7` and `#7` the byte and the number 7 and as much more as the turn.
fn add_form(alloc: Global, word: &str, turn: u32, into: &mut Vec<u8>) -> Result<bool, NoMemory> {
    if let Some(first) = word.strip_prefix('+') {
        let number = first.parse::<u32>().unwrap_or(0).wrapping_add(turn);
        into.push((number % 256) as u8)?;
        return Ok(true);
    }
    if let Some(first) = word.strip_prefix('#') {
        let number = first.parse::<u32>().unwrap_or(0).wrapping_add(turn);
        say(into, format!(in alloc; "{number}")?.as_str())?;
        return Ok(true);
    }
    let (times, word) = word.split_once('*').unwrap_or(("1", word));
    let Some(byte) = byte_of(word) else {
        return Ok(false);
    };
    for _ in 0..times.parse::<u32>().unwrap_or(0) {
        into.push(byte)?;
    }
    Ok(true)
}

/// The end of a line. A line feed stands behind it, or behind `\r` both a return and a line feed, and behind `\` nothing.
fn add_end(text: &str, into: &mut Vec<u8>) -> Result<(), NoMemory> {
    if let Some(text) = text.strip_suffix("\\r") {
        say(into, text)?;
        say(into, "\r\n")
    } else if let Some(text) = text.strip_suffix('\\') {
        say(into, text)
    } else {
        say(into, text)?;
        say(into, "\n")
    }
}

/// Whether the line spells bytes at this turn, which are added then.
fn add_line(alloc: Global, text: &str, turn: u32, into: &mut Vec<u8>) -> Result<bool, NoMemory> {
    let mut rest = text;
    for _ in 0..text.len() {
        let Some((letters, tail)) = rest.split_once('{') else {
            break;
        };
        let Some((forms, tail)) = tail.split_once('}') else {
            return Ok(false);
        };
        say(into, letters)?;
        for word in forms.split(' ') {
            if !add_form(alloc, word, turn, into)? {
                return Ok(false);
            }
        }
        rest = tail;
    }
    add_end(rest, into)?;
    Ok(true)
}

/// Whether the line spells bytes, which are added then. It stands as often as a number says before it, behind a star.
pub fn add_text(alloc: Global, text: &str, into: &mut Vec<u8>) -> Result<bool, NoMemory> {
    let text = text.strip_prefix(' ').unwrap_or(text);
    let Some(repeated) = text.strip_prefix('*') else {
        return add_line(alloc, text, 0, into);
    };
    let (times, text) = repeated.split_once(' ').unwrap_or(("1", repeated));
    for turn in 0..times.parse::<u32>().unwrap_or(0) {
        if !add_line(alloc, text, turn, into)? {
            return Ok(false);
        }
    }
    Ok(true)
}
