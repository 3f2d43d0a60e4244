//! The words of a line.
ghost use Rattle.std.specs.Prelude.{◌≡◌, ◌<◌, ◌∷◌, ◌++◌, [], length, MatchOption};
ghost use Rattle.std.specs.List.{list_all};
ghost use Rattle.memcached_text.specs.Lines.{Lacks, with_word, words_of};
ghost use Rattle.memcached_text.specs.Line.{is_short, is_key};

use crate::limits::MAX_KEY_LEN;
use crate::line::is_key;
use crate::split::{lacks_byte, split_at_byte};
use memchr::memrchr;
use std::marker::Model;

/// Words of a line, of which some may have been taken. Clauses see the list of those that are left.
#[derive(Drop)]
pub struct Words<'a> {
    // The next word, where it has been found.
    found: &'a [u8],
    rest: &'a [u8],
}

impl<'a> Model for Words<'a> {
    ghost use Rattle.std.specs.Prelude.{List, ℕ};
    ghost use Rattle.memcached_text.specs.Lines.{with_word, words_of};

    ghost Value = { List (List ℕ) };

    ghost view = { λ w. with_word w.found.now (words_of w.rest.now) };
}

// What stands before the first space, and the text behind that.
fn first_part(text: &[u8]) -> (&[u8], &[u8])
    requires { 0 < length text.now }
    ensures words { words_of text.now ≡ with_word result.0.now (words_of result.1.now) }
    ensures shorter { length result.1.now < length text.now }
{
    match split_at_byte(text, b' ') {
        Some(parts) => parts,
        None => (text, &text[text.len()..]),
    }
}

// The first word, and the text behind it.
fn first_word(text: &[u8]) -> Option<(&[u8], &[u8])>
    ensures { MatchOption result (words_of text.now ≡ [])
        (λ parts. words_of text.now ≡ parts.0.now ∷ words_of parts.1.now) }
{
    let mut rest = text;
    while !rest.is_empty() {
        let (word, after) = first_part(rest);
        if !word.is_empty() {
            return Some((word, after));
        }
        rest = after;
    }
    None
}

// What stands before and behind the last space.
fn split_at_last_space(text: &[u8]) -> Option<(&[u8], &[u8])>
    ensures { MatchOption result (Lacks 32 text.now) (λ parts. text.now ≡ parts.0.now ++ 32 ∷ parts.1.now) }
{
    let at = memrchr(b' ', text)?;
    Some((&text[..at], &text[at + 1..]))
}

// Whether no word of the text is too long for a key. Of so many bytes that a word of them would be too long, one has to be a
// space.
fn are_short(text: &[u8]) -> bool
    ensures { result ≡ list_all is_short (words_of text.now) }
{
    let mut rest = text;
    while rest.len() > MAX_KEY_LEN {
        let (near, _) = rest.split_at(MAX_KEY_LEN + 1);
        match split_at_last_space(near) {
            Some((front, _)) => rest = &rest[front.len() + 1..],
            None => return false,
        }
    }
    true
}

// Whether each word of the text may be a key.
#[tactic(auto, using(crate::proofs::KeyLaws::keys_apart))]
fn are_keys(text: &[u8]) -> bool
    ensures { result ≡ list_all is_key (words_of text.now) }
{
    lacks_byte(text, 0) && are_short(text)
}

impl<'a> Words<'a> {
    /// The words of a text: what stands between its spaces.
    pub fn of(text: &'a [u8]) -> Words<'a>
        ensures { result ≡ words_of text.now }
    {
        Words {
            found: b"".as_slice(),
            rest: text,
        }
    }

    /// This word alone.
    pub fn one(word: &'a [u8]) -> Words<'a>
        requires { 0 < length word.now }
        ensures { result ≡ word.now ∷ [] }
    {
        Words {
            found: word,
            rest: b"".as_slice(),
        }
    }

    /// The words that are left, to be taken once more.
    pub fn again(&self) -> Words<'a>
        ensures { result ≡ self.now }
    {
        Words {
            found: self.found,
            rest: self.rest,
        }
    }

    /// Takes the next word.
    pub fn next_word(&mut self) -> Option<&'a [u8]>
        ensures { MatchOption result ((self.old ≡ []) × (self.new ≡ []))
            (λ word. self.old ≡ word.now ∷ self.new) }
    {
        if !self.found.is_empty() {
            let word = self.found;
            self.found = b"".as_slice();
            return Some(word);
        }
        let (word, rest) = first_word(self.rest)?;
        self.rest = rest;
        Some(word)
    }

    /// Whether each word may be a key.
    #[tactic(auto, using(crate::proofs::KeyLaws::first_key))]
    pub fn are_keys(&self) -> bool
        ensures { result ≡ list_all is_key self.now }
    {
        is_key(self.found) && are_keys(self.rest)
    }
}
