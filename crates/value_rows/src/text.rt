//! Words and numbers of texts, and the names of outcomes.

use mica_words::Hashing;
use outside::NoMemory;
use partition_model::{Mode, Op, Options, Outcome};

/// Adds a text.
pub fn say(into: &mut Vec<u8>, text: &str) -> Result<(), NoMemory> {
    into.extend_from_slice(text.as_bytes())?;
    Ok(())
}

/// The text of bytes, where they are one.
pub fn text_of(bytes: &[u8]) -> &str {
    str::from_utf8(bytes).unwrap_or("")
}

/// The number of these hexadecimal digits.
pub fn hex_number(digits: &str) -> Option<u64> {
    let mut number = 0u64;
    for byte in digits.as_bytes() {
        let digit = match byte {
            b'0'..=b'9' => *byte - b'0',
            b'a'..=b'f' => *byte - b'a' + 10,
            _ => return None,
        };
        number = number.checked_mul(16)?.checked_add(u64::from(digit))?;
    }
    Some(number)
}

/// A number in decimal digits, or behind `0x` in hexadecimal ones.
pub fn number(word: &str) -> Option<u64> {
    match word.strip_prefix("0x") {
        Some(digits) => hex_number(digits),
        None => word.parse::<u64>().ok(),
    }
}

/// A number of at most 32 bits.
pub fn small(word: &str) -> Option<u32> {
    word.parse::<u32>().ok()
}

/// A word, and what stands behind the space after it.
pub fn first_word(line: &str) -> (&str, &str) {
    line.split_once(' ').unwrap_or((line, ""))
}

/// The mode that a word names.
pub fn mode_of(word: &str) -> Option<Mode> {
    match word {
        "cache" => Some(Mode::Cache),
        "store" => Some(Mode::Store),
        _ => None,
    }
}

/// The options of one partition: its mode, buckets, spare buckets, words, and the writes that it bears. One try is made of a get.
pub fn options_of(words: &str) -> Option<Options> {
    let (mode, words) = first_word(words);
    let (buckets, words) = first_word(words);
    let (spares, words) = first_word(words);
    let (of_words, words) = first_word(words);
    let options = Options {
        mode: mode_of(mode)?,
        partitions: 1,
        buckets: small(buckets)?,
        spares: small(spares)?,
        words: small(of_words)?,
        readers: 1,
        tries: 1,
        wear: number(first_word(words).0)?,
        hashing: Hashing::Fnv1a,
    };
    Some(options)
}

/// The write that a word names.
pub fn op_of(word: &str) -> Option<Op> {
    match word {
        "put" => Some(Op::Put),
        "add" => Some(Op::Add),
        "touch" => Some(Op::Touch),
        "del" => Some(Op::Del),
        _ => None,
    }
}

/// The name of an outcome.
pub fn outcome_name(outcome: Outcome) -> &'static str {
    match outcome {
        Outcome::Stored => "stored",
        Outcome::Deleted => "deleted",
        Outcome::Absent => "absent",
        Outcome::Touched => "touched",
        Outcome::FullSpare => "full spare",
        Outcome::FullBlock => "full block",
        Outcome::Worn => "worn",
        Outcome::Exists => "exists",
    }
}
