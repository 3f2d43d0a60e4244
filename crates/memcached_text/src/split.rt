//! Where bytes are parted.
ghost use Rattle.std.specs.Prelude.{◌≡◌, ◌∷◌, ◌++◌, MatchOption};
ghost use Rattle.memcached_text.specs.Lines.{Lacks, lacks};

use memchr::memchr;

// The bytes before the first such byte and those after it, if there is one.
pub fn split_at_byte(text: &[u8], byte: u8) -> Option<(&[u8], &[u8])>
    ensures { MatchOption result (Lacks byte text.now)
        (λ parts. (text.now ≡ parts.0.now ++ byte ∷ parts.1.now) × Lacks byte parts.0.now) }
{
    let at = memchr(byte, text)?;
    Some((&text[..at], &text[at + 1..]))
}

// Whether no byte is this one.
pub fn lacks_byte(text: &[u8], byte: u8) -> bool
    ensures { result ≡ lacks byte text.now }
{
    match split_at_byte(text, byte) {
        Some(_) => false,
        None => true,
    }
}
