//! The commands that most clients send, where they are spelled as `command_text` spells them: each byte of their lines is
//! looked at once. All else is read by `front_line`.
ghost use Rattle.std.specs.Prelude.{◌≡◌, ◌<◌, ◌≤◌, ◌++◌, ◌∷◌, [], false, None, length, codes, decimal, slice_index, IfSome, IsTrue};
ghost use Rattle.memcached_text.specs.Lines.{Lacks};
ghost use Rattle.memcached_text.specs.Spelling.{BeginsAs, asking, count_word};

use crate::lifetime::{LAST_SAID, lifetime_at};
use crate::limits::{MAX_KEY_LEN, MAX_TEXT_LEN};
use crate::{Command, Direction, Lifetime, Wants};
use memchr::memchr3;

/// Most keys end within so many bytes, and these are looked through in half the time of more.
const NEAR_LEN: usize = 32;

// What stands before the first space, line feed or byte 0, and the text from there on. None where none is among so many bytes.
#[inline(always)]
fn part_within(text: &[u8], most: usize) -> Option<(&[u8], &[u8])>
    ensures { IfSome result (λ parts. (text.now ≡ parts.0.now ++ parts.1.now) × Lacks 32 parts.0.now × Lacks 10 parts.0.now × Lacks 0 parts.0.now) }
{
    let near = &text[..text.len().min(most)];
    let end = memchr3(b' ', b'\n', 0, near)?;
    Some(text.split_at(end))
}

// The same, where a part may have as many bytes as a key and the end of its line.
#[inline(always)]
fn first_part(text: &[u8]) -> Option<(&[u8], &[u8])>
    ensures { IfSome result (λ parts. (text.now ≡ parts.0.now ++ parts.1.now) × Lacks 32 parts.0.now × Lacks 10 parts.0.now × Lacks 0 parts.0.now) }
{
    match part_within(text, NEAR_LEN) {
        Some(parts) => Some(parts),
        None => part_within(text, MAX_KEY_LEN + 2),
    }
}

// What stands behind this byte, where it is the first.
#[inline]
fn behind_byte(text: &[u8], byte: u8) -> Option<&[u8]>
    ensures { IfSome result (λ rest. text.now ≡ byte ∷ rest.now) }
{
    match text {
        [first, rest @ ..] if *first == byte => Some(rest),
        _ => None,
    }
}

#[inline]
fn behind_get(from: &[u8]) -> Option<&[u8]>
    ensures { IfSome result (λ text. from.now ≡ codes "get " ++ text.now) }
{
    match from {
        [b'g', b'e', b't', b' ', text @ ..] => Some(text),
        _ => None,
    }
}

#[inline]
fn behind_set(from: &[u8]) -> Option<&[u8]>
    ensures { IfSome result (λ text. from.now ≡ codes "set " ++ text.now) }
{
    match from {
        [b's', b'e', b't', b' ', text @ ..] => Some(text),
        _ => None,
    }
}

// The line without the carriage return at its end.
#[inline]
fn before_return(line: &[u8]) -> Option<&[u8]>
    ensures { IfSome result (λ text. line.now ≡ text.now ++ 13 ∷ []) }
{
    line.strip_suffix(b"\r".as_slice())
}

#[inline]
fn is_key_len(len: usize) -> bool
    ensures { IsTrue result → (0 < len) × (len ≤ MAX_KEY_LEN) }
{
    0 < len && len <= MAX_KEY_LEN
}

// The key of a get of one key, and the bytes of its text.
#[inline(always)]
pub fn spelled_get(from: &[u8]) -> Option<(&[u8], usize)>
    ensures { IfSome result (λ found. BeginsAs from.now (Command.Get (found.0.now ∷ []) false None) found.1) }
{
    let text = behind_get(from)?;
    let (line, end) = first_part(text)?;
    let _rest = behind_byte(end, b'\n')?;
    let key = before_return(line)?;
    if !is_key_len(key.len()) {
        return None;
    }
    Some((key, line.len() + 5))
}

// Whether digits are as a number is spelled: some, and no zero before others.
#[inline]
fn is_spelled(digits: &[u8]) -> bool
    ensures { IsTrue result → (0 < length digits.now) × (slice_index digits.now 0 ≡ 48 → length digits.now ≡ 1) }
{
    !digits.is_empty() && (digits.len() == 1 || digits[0] != b'0')
}

// The number at the front of a text, and what stands behind it.
#[inline(always)]
fn leading_number(text: &[u8]) -> Option<(u32, &[u8])>
    ensures { IfSome result (λ found. (found.0 ≤ 4294967295) × (text.now ≡ decimal found.0 ++ found.1.now)) }
{
    let mut number = 0u64;
    let mut len = 0;
    while len < text.len() && text[len].is_ascii_digit() {
        let digit = u64::from(text[len] - b'0');
        number = number * 10 + digit;
        if number > 4_294_967_295 {
            return None;
        }
        len += 1;
    }
    let (digits, rest) = text.split_at(len);
    if !is_spelled(digits) {
        return None;
    }
    Some((number as u32, rest))
}

// The number that leads a text, where a space is behind it, and what stands behind that.
#[inline(always)]
fn number_word(text: &[u8]) -> Option<(u32, &[u8])>
    ensures { IfSome result (λ found. (found.0 ≤ 4294967295) × (text.now ≡ decimal found.0 ++ 32 ∷ found.1.now)) }
{
    let (number, rest) = leading_number(text)?;
    Some((number, behind_byte(rest, b' ')?))
}

// Whether the end of a line asks for no reply, and what stands behind it.
#[inline]
fn line_end(text: &[u8]) -> Option<(bool, &[u8])>
    ensures { IfSome result (λ found. text.now ≡ asking found.0 ++ 13 ∷ 10 ∷ found.1.now) }
{
    if let [b'\r', b'\n', rest @ ..] = text {
        return Some((false, rest));
    }
    let rest = text.strip_prefix(b" noreply\r\n".as_slice())?;
    Some((true, rest))
}

// The value of so many bytes at the front, and what stands behind its end.
#[inline]
fn block_of(text: &[u8], len: usize) -> Option<(&[u8], &[u8])>
    ensures { IfSome result (λ parts. (length parts.0.now ≡ len) × (text.now ≡ parts.0.now ++ 13 ∷ 10 ∷ parts.1.now)) }
{
    if text.len() < len {
        return None;
    }
    let (value, end) = text.split_at(len);
    match end {
        [b'\r', b'\n', more @ ..] => Some((value, more)),
        _ => None,
    }
}

/// A set, and the bytes of its text.
#[derive(Drop)]
pub struct SpelledSet<'a> {
    key: &'a [u8],
    flags: u32,
    lifetime: Lifetime,
    value: &'a [u8],
    quiet: bool,
    pub len: usize,
}

// A set, with its value.
#[inline(always)]
pub fn spelled_set(from: &[u8]) -> Option<SpelledSet>
    ensures { IfSome result (λ set. BeginsAs from.now (Command.Store Wants.Whatever set.key.now set.flags set.lifetime set.value.now set.quiet) set.len) }
{
    let text = behind_set(from)?;
    let (key, numbers) = first_part(text)?;
    let numbers = behind_byte(numbers, b' ')?;
    let (flags, numbers) = number_word(numbers)?;
    let (expiry, numbers) = number_word(numbers)?;
    let (value_len, end) = leading_number(numbers)?;
    let (quiet, block) = line_end(end)?;
    let value_len = value_len as usize;
    if !is_key_len(key.len()) || value_len > MAX_TEXT_LEN || expiry > LAST_SAID {
        return None;
    }
    let (value, more) = block_of(block, value_len)?;
    Some(SpelledSet {
        key,
        flags,
        lifetime: lifetime_at(expiry),
        value,
        quiet,
        len: from.len() - more.len(),
    })
}

/// The key of the command that the bytes begin with, and the bytes of its text, where it is a get of one key or a set. Nothing rests on it: a command is read
/// by `next_command`.
pub fn spelled_key(from: &[u8]) -> Option<(&[u8], usize)> {
    if let Some(found) = spelled_get(from) {
        return Some(found);
    }
    let set = spelled_set(from)?;
    Some((set.key, set.len))
}

impl<'a> SpelledSet<'a> {
    /// The command that stores the item, whatever is there.
    #[inline(always)]
    pub fn command(self) -> Command<'a>
        ensures { result ≡ Command.Store Wants.Whatever self.entry.key.now self.entry.flags self.entry.lifetime self.entry.value.now self.entry.quiet }
    {
        Command::Store {
            wants: Wants::Whatever,
            key: self.key.into(),
            flags: self.flags,
            lifetime: self.lifetime,
            value: self.value.into(),
            quiet: self.quiet,
        }
    }
}

// Whether a count goes up or down, and what stands behind its word.
#[inline]
fn behind_count(from: &[u8]) -> Option<(Direction, &[u8])>
    ensures { IfSome result (λ found. from.now ≡ count_word found.0 ++ 32 ∷ found.1.now) }
{
    match from {
        [b'i', b'n', b'c', b'r', b' ', text @ ..] => Some((Direction::Up, text)),
        [b'd', b'e', b'c', b'r', b' ', text @ ..] => Some((Direction::Down, text)),
        _ => None,
    }
}

/// A count, and the bytes of its text.
#[derive(Drop)]
pub struct SpelledCount<'a> {
    direction: Direction,
    key: &'a [u8],
    delta: u32,
    quiet: bool,
    pub len: usize,
}

// A count by at most 4,294,967,295.
#[inline]
pub fn spelled_count(from: &[u8]) -> Option<SpelledCount>
    ensures { IfSome result (λ count. BeginsAs from.now (Command.Count count.direction count.key.now count.delta count.quiet) count.len) }
{
    let (direction, text) = behind_count(from)?;
    let (key, numbers) = first_part(text)?;
    let numbers = behind_byte(numbers, b' ')?;
    let (delta, end) = leading_number(numbers)?;
    let (quiet, more) = line_end(end)?;
    if !is_key_len(key.len()) {
        return None;
    }
    Some(SpelledCount {
        direction,
        key,
        delta,
        quiet,
        len: from.len() - more.len(),
    })
}

impl<'a> SpelledCount<'a> {
    // The command that counts.
    #[inline]
    pub fn command(self) -> Command<'a>
        ensures { result ≡ Command.Count self.entry.direction self.entry.key.now self.entry.delta self.entry.quiet }
    {
        Command::Count {
            direction: self.direction,
            key: self.key.into(),
            delta: u64::from(self.delta),
            quiet: self.quiet,
        }
    }
}
