//! Where bytes are parted.
ghost use Rattle.std.specs.Prelude.{◌≡◌, ◌<◌, ◌∷◌, ◌++◌, ℕ, List, length, MatchOption};
ghost use Rattle.mica_trace.specs.Lines.{lines_of, Lacks};

use memchr::memchr;

/// The bytes before the first such byte and those after it, if there is one.
pub fn split_at_byte(text: &[u8], byte: u8) -> Option<(&[u8], &[u8])>
    ensures { MatchOption result (Lacks byte text.now)
        (λ parts. (text.now ≡ parts.0.now ++ byte ∷ parts.1.now) × Lacks byte parts.0.now) }
{
    let at = memchr(byte, text)?;
    Some((&text[..at], &text[at + 1..]))
}

// The first line without its line feed, and the bytes after that.
pub fn first_line(text: &[u8]) -> (&[u8], &[u8])
    requires { 0 < length text.now }
    ensures lines { lines_of text.now ≡ result.0.now ∷ lines_of result.1.now }
    ensures shorter { length result.1.now < length text.now }
{
    match split_at_byte(text, b'\n') {
        Some(parts) => parts,
        None => (text, &text[text.len()..]),
    }
}

// What follows the word, if the text begins with it.
pub fn after_word<'a>(text: &'a [u8], word: &[u8]) -> Option<&'a [u8]>
    ensures { MatchOption result ((rest : List ℕ) → ¬ (text.now ≡ word.now ++ rest)) (λ rest. text.now ≡ word.now ++ rest.now) }
{
    text.strip_prefix(word)
}
