//! The secret of the hash of keys, as a word gives it.
ghost use Rattle.std.specs.Prelude.{◌≡◌, ◌≤◌, length};
ghost use Rattle.daemon_words.specs.Secret.{digit_of, number_from, secret_of};

use mica_words::Hashing;

/// A secret has so many hexadecimal digits.
const SECRET_LEN: usize = 32;

// The value of a hexadecimal digit.
fn digit_of(byte: u8) -> Option<u64>
    ensures { result ≡ digit_of byte }
{
    match byte {
        b'0'..=b'9' => Some(u64::from(byte - b'0')),
        b'a'..=b'f' => Some(u64::from(byte - b'a' + 10)),
        b'A'..=b'F' => Some(u64::from(byte - b'A' + 10)),
        _ => None,
    }
}

// The number that hexadecimal digits write.
fn number_of(digits: &[u8]) -> Option<u64>
    requires { length digits.now ≤ 16 }
    ensures { result ≡ number_from 0 digits.now }
{
    let mut number = 0;
    for byte in digits {
        number = number * 16 + digit_of(*byte)?;
    }
    Some(number)
}

/// The hash of keys under the secret that a text writes.
pub fn secret_of(text: &str) -> Option<Hashing>
    ensures { result ≡ secret_of text.now }
{
    let digits = text.as_bytes();
    if digits.len() != SECRET_LEN {
        return None;
    }
    let (first, last) = digits.split_at(SECRET_LEN / 2);
    Some(Hashing::SipHash(number_of(first)?, number_of(last)?))
}
