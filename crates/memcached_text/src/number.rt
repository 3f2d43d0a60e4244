//! Numbers as words.
ghost use Rattle.std.specs.Prelude.{◌≡◌, ◌≤◌, IfSome};
ghost use Rattle.memcached_text.specs.Numbers.{number_of};

/// The number that a word writes, where it is at most this.
pub fn number_of(most: u64, word: &[u8]) -> Option<u64>
    ensures reads { result ≡ number_of most word.now }
    ensures small { IfSome result (λ n. n ≤ most) }
{
    if word.is_empty() {
        return None;
    }
    let mut number = 0u64;
    for byte in word {
        if !byte.is_ascii_digit() {
            return None;
        }
        let digit = u64::from(*byte - b'0');
        number = number.checked_mul(10)?.checked_add(digit)?;
    }
    if number <= most { Some(number) } else { None }
}

// The number of a word, of no more than 32 bits.
pub fn short_number_of(most: u32, word: &[u8]) -> Option<u32>
    ensures { result ≡ number_of most word.now }
{
    Some(number_of(u64::from(most), word)? as u32)
}
