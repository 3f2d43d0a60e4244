//! The entries of a row: its lines, each with the text that stands below it.

use crate::spelling::Script;

/// The words of a line, and the text below it.
#[derive(Drop)]
pub struct Entry {
    pub(crate) words: Vec<String>,
    pub(crate) script: Script,
    pub(crate) text: Vec<u8>,
}

impl Entry {
    /// The word of this place, from 0 for the name. Behind the last one there are empty ones.
    pub fn word(&self, at: usize) -> &str {
        match self.words.get(at) {
            Some(word) => word.as_str(),
            None => "",
        }
    }

    /// The words behind the name.
    pub fn behind(&self) -> &[String] {
        let words = self.words.as_slice();
        &words[words.len().min(1)..]
    }

    /// Whether it has this name.
    pub fn is(&self, name: &str) -> bool {
        self.word(0) == name
    }

    /// The number of this place, or 0.
    pub fn long(&self, at: usize) -> u64 {
        self.word(at).parse::<u64>().unwrap_or(0)
    }

    /// The same, where it is short.
    pub fn number(&self, at: usize) -> u32 {
        u32::try_from(self.long(at)).unwrap_or(0)
    }

    /// The port of this place, or 0.
    pub fn port(&self, at: usize) -> u16 {
        u16::try_from(self.long(at)).unwrap_or(0)
    }

    /// How often: `N times`, or once.
    pub fn times(&self) -> u32 {
        if self.word(2) == "times" {
            self.number(1)
        } else {
            1
        }
    }

    /// Whether those behind it are of another port.
    pub fn is_place(&self) -> bool {
        self.is("port") || self.is("link") || self.is("connections")
    }

    /// The text, up to where it is cut: `cut N`.
    pub fn text(&self) -> &[u8] {
        let text = self.text.as_slice();
        let last = self.words.len().saturating_sub(1);
        if self.word(last.saturating_sub(1)) == "cut" {
            &text[..text.len().min(self.number(last) as usize)]
        } else {
            text
        }
    }

    /// What its text is written in.
    pub(crate) fn script_of(&self) -> Script {
        if self.is("gives") || self.is("sends") || self.word(1) == "hex" || self.word(2) == "hex" {
            Script::Hex
        } else if self.is("says") || self.is("hears") {
            Script::Returns
        } else {
            Script::Letters
        }
    }
}

/// Whether what was found is the text of the first of these entries, or of one that may stand in its place.
pub fn is_one_of(found: &[u8], wanted: &[Entry]) -> bool {
    let mut is_first = true;
    for entry in wanted {
        if !is_first && !entry.is("or") {
            return false;
        }
        if entry.text() == found {
            return true;
        }
        is_first = false;
    }
    false
}
