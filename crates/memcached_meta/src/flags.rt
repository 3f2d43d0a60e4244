//! The flags of a meta command.
ghost use Rattle.std.specs.Prelude.{◌≡◌, length, option_copied};
ghost use Rattle.memcached_meta.specs.Flags.{argument_of, has_flag, flag_lifetime, flag_number, flag_short, unless_some, is_plain, fault_in, letter_of, flags_fault, last_lifetime, vivified, is_late};
ghost use Rattle.memcached_text.specs.Lifetimes.{lifetime_of};
ghost use Rattle.memcached_text.specs.Numbers.{number_of};

use crate::MetaFault;
use crate::lifetime::lifetime_of;
use memcached_text::{Fault, Lifetime, Words, number_of};

/// The longest opaque, in bytes behind its letter.
pub const MAX_OPAQUE_LEN: usize = 31;

/// What stands behind the letter of a flag, where it is there.
#[tactic(auto, unfolding(crate::specs::Flags::argument_of))]
pub fn argument_of<'a>(letter: &[u8], mut words: Words<'a>) -> Option<&'a [u8]>
    requires { length letter.now ≡ 1 }
    ensures { option_copied result ≡ argument_of letter.now words.entry }
{
    while let Some(word) = words.next_word() {
        if word.starts_with(letter) {
            return Some(&word[1..]);
        }
    }
    None
}

/// Whether a flag is there.
pub fn has_flag(letter: &[u8], words: Words) -> bool
    requires { length letter.now ≡ 1 }
    ensures { result ≡ has_flag letter.now words.entry }
{
    argument_of(letter, words).is_some()
}

// The lifetime of a flag, where it is there.
pub fn flag_lifetime(letter: &[u8], words: Words) -> Option<Lifetime>
    requires { length letter.now ≡ 1 }
    ensures { result ≡ flag_lifetime letter.now words.entry }
{
    lifetime_of(argument_of(letter, words)?)
}

// The number of a flag, where it is there.
pub fn flag_number(letter: &[u8], words: Words) -> Option<u64>
    requires { length letter.now ≡ 1 }
    ensures { result ≡ flag_number letter.now words.entry }
{
    number_of(u64::MAX, argument_of(letter, words)?)
}

// The number of a flag, of 32 bits.
pub fn flag_short(letter: &[u8], words: Words) -> Option<u32>
    requires { length letter.now ≡ 1 }
    ensures { result ≡ flag_short letter.now words.entry }
{
    Some(number_of(u64::from(u32::MAX), argument_of(letter, words)?)? as u32)
}

// A fault, where there is no number.
fn unless_lifetime(word: &[u8]) -> Option<MetaFault>
    ensures { result ≡ unless_some MetaFault.FlagFormat (lifetime_of word.now) }
{
    match lifetime_of(word) {
        Some(_) => None,
        None => Some(MetaFault::FlagFormat),
    }
}

fn unless_number(fault: MetaFault, most: u64, word: &[u8]) -> Option<MetaFault>
    ensures { result ≡ unless_some fault (number_of most word.now) }
{
    match number_of(most, word) {
        Some(_) => None,
        None => Some(fault),
    }
}

// Whether a word is a flag that has no argument, or one of no effect.
fn is_plain(word: &[u8]) -> bool
    ensures { result ≡ is_plain word.now }
{
    match word {
        [
            b'b'
            | b'c'
            | b'f'
            | b'h'
            | b'k'
            | b'l'
            | b'q'
            | b's'
            | b't'
            | b'u'
            | b'v'
            | b'I'
            | b'P'
            | b'L',
            ..
        ] => true,
        _ => false,
    }
}

// Why a word is no flag. None where it is one.
#[tactic(auto, unfolding(crate::specs::Flags::fault_in))]
fn fault_in(word: &[u8]) -> Option<MetaFault>
    ensures { result ≡ fault_in word.now }
{
    if is_plain(word) {
        return None;
    }
    match word {
        [b'O', opaque @ ..] if opaque.len() > MAX_OPAQUE_LEN => Some(MetaFault::LongOpaque),
        [b'O', ..] => None,
        [b'T' | b'N' | b'R', expiry @ ..] => unless_lifetime(expiry),
        [b'C', number @ ..] => unless_number(MetaFault::FlagFormat, u64::MAX, number),
        [b'F', number @ ..] => {
            unless_number(MetaFault::Line(Fault::Format), u64::from(u32::MAX), number)
        }
        [b'J', number @ ..] => unless_number(MetaFault::InitialFormat, u64::MAX, number),
        [b'D', number @ ..] => unless_number(MetaFault::DeltaFormat, u64::MAX, number),
        [b'M', _] => None,
        [b'M', ..] => Some(MetaFault::LongMode),
        _ => Some(MetaFault::UnknownFlag),
    }
}

// The letter of a word, and one that no flag has where it is empty.
fn letter_of(word: &[u8]) -> u8
    ensures { result ≡ letter_of word.now }
{
    match word {
        [letter, ..] => *letter,
        [] => 127,
    }
}

// Why these words are no flags: the first that is none. Each flag stands once.
#[tactic(auto, unfolding(crate::proofs::FlagLaws::fault_marked), using(crate::proofs::FlagLaws::begins))]
pub fn flags_fault(mut words: Words) -> Option<MetaFault>
    ensures { result ≡ flags_fault words.entry }
{
    let mut seen = [0u8; 127];
    while let Some(word) = words.next_word() {
        let letter = letter_of(word);
        if letter >= 127 || seen[letter as usize] == 1 {
            return Some(MetaFault::FlagTwice);
        }
        if let Some(fault) = fault_in(word) {
            return Some(fault);
        }
        seen[letter as usize] = 1;
    }
    None
}

// The last lifetime that an item is given, by `T` or `N`.
#[tactic(auto, unfolding(crate::specs::Flags::last_lifetime))]
fn last_lifetime(mut words: Words) -> Option<Lifetime>
    ensures { result ≡ last_lifetime None words.entry }
{
    let mut last = None;
    while let Some(word) = words.next_word() {
        if let [b'T' | b'N', expiry @ ..] = word {
            last = lifetime_of(expiry);
        }
    }
    last
}

// The lifetime of an item that is made where none is there.
pub fn vivified(words: Words) -> Option<Lifetime>
    ensures { result ≡ vivified words.entry }
{
    if has_flag(b"N".as_slice(), words.again()) {
        last_lifetime(words)
    } else {
        None
    }
}

// Whether `R` stands behind `T`.
#[tactic(auto, unfolding(crate::specs::Flags::is_late))]
pub fn is_late(mut words: Words) -> bool
    ensures { result ≡ is_late words.entry }
{
    while let Some(word) = words.next_word() {
        match word {
            [b'R', ..] => return false,
            [b'T', ..] => return has_flag(b"R".as_slice(), words),
            _ => {}
        }
    }
    false
}
