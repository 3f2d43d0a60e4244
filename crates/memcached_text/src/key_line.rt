//! Lines about keys. Each function is of the words behind a command's name, and gives `None` where they are too few or too
//! many.
ghost use Rattle.std.specs.Prelude.{◌≡◌};
ghost use Rattle.memcached_text.specs.Line.{refused, is_noreply, quiet_tail};
ghost use Rattle.memcached_text.specs.KeyLine.{got, get_line, get_touch_line, deleted, delete_line, counted, count_line, touched, touch_line};

use crate::lifetime::lifetime_of;
use crate::line::{Line, is_key, is_noreply, quiet_tail, refused};
use crate::number::number_of;
use crate::{Command, Direction, Fault, Lifetime, Words};

// Words, of which one may be no key.
fn got(unique: bool, lifetime: Option<Lifetime>, keys: Words) -> Line
    ensures { result ≡ got unique lifetime keys.entry }
{
    if !keys.are_keys() {
        return refused(Fault::Format, false);
    }
    Line::Whole(Command::Get {
        keys,
        unique,
        lifetime,
    })
}

// The line of `get` or `gets`, by the words behind it.
#[tactic(auto, unfolding(crate::specs::KeyLine::get_line))]
pub fn get_line(unique: bool, words: Words) -> Option<Line>
    ensures { result ≡ get_line unique words.entry }
{
    let mut behind = words.again();
    let first = behind.next_word()?;
    if !is_key(first) || !behind.are_keys() {
        return Some(refused(Fault::Format, false));
    }
    Some(Line::Whole(Command::Get {
        keys: words,
        unique,
        lifetime: None,
    }))
}

// The line of `gat` or `gats`, by the words behind it.
#[tactic(auto, unfolding(crate::specs::KeyLine::get_touch_line))]
pub fn get_touch_line(unique: bool, mut words: Words) -> Option<Line>
    ensures { result ≡ get_touch_line unique words.entry }
{
    let expiry = words.next_word()?;
    Some(match lifetime_of(expiry) {
        Some(lifetime) => got(unique, Some(lifetime), words),
        None => refused(Fault::ExpiryFormat, false),
    })
}

// A delete of a word, which may be no key.
#[tactic(auto, unfolding(crate::specs::KeyLine::deleted))]
fn deleted(key: &[u8], quiet: bool) -> Line
    ensures { result ≡ deleted key.now quiet }
{
    if !is_key(key) {
        return refused(Fault::Format, quiet);
    }
    Line::Whole(Command::Delete {
        key: key.into(),
        quiet,
    })
}

// The line of `delete`, by the words behind it.
#[tactic(auto, unfolding(crate::specs::KeyLine::delete_line))]
pub fn delete_line(mut words: Words) -> Option<Line>
    ensures { result ≡ delete_line words.entry }
{
    let key = words.next_word()?;
    let Some(second) = words.next_word() else {
        return Some(deleted(key, false));
    };
    let is_hold = second == b"0".as_slice();
    let Some(third) = words.next_word() else {
        let quiet = is_noreply(second);
        return Some(if is_hold || quiet {
            deleted(key, quiet)
        } else {
            refused(Fault::DeleteUsage, false)
        });
    };
    if words.next_word().is_some() {
        return None;
    }
    let quiet = is_noreply(third);
    Some(if is_hold && quiet {
        deleted(key, true)
    } else {
        refused(Fault::DeleteUsage, quiet)
    })
}

// A count by a word that may be no number, of one that may be no key.
#[tactic(auto, unfolding(crate::specs::KeyLine::counted))]
fn counted<'a>(direction: Direction, key: &'a [u8], delta: &[u8], quiet: bool) -> Line<'a>
    ensures { result ≡ counted direction key.now delta.now quiet }
{
    if !is_key(key) {
        return refused(Fault::Format, quiet);
    }
    match number_of(u64::MAX, delta) {
        Some(delta) => Line::Whole(Command::Count {
            direction,
            key: key.into(),
            delta,
            quiet,
        }),
        None => refused(Fault::DeltaFormat, quiet),
    }
}

// The line of `incr` or `decr`, by the words behind it.
#[tactic(auto, unfolding(crate::specs::KeyLine::count_line))]
pub fn count_line(direction: Direction, mut words: Words) -> Option<Line>
    ensures { result ≡ count_line direction words.entry }
{
    let key = words.next_word()?;
    let delta = words.next_word()?;
    let quiet = quiet_tail(delta, words)?;
    Some(counted(direction, key, delta, quiet))
}

// A touch, whose expiry time may be no number, and its word no key.
#[tactic(auto, unfolding(crate::specs::KeyLine::touched))]
fn touched<'a>(key: &'a [u8], expiry: &[u8], quiet: bool) -> Line<'a>
    ensures { result ≡ touched key.now expiry.now quiet }
{
    if !is_key(key) {
        return refused(Fault::Format, quiet);
    }
    match lifetime_of(expiry) {
        Some(lifetime) => Line::Whole(Command::Touch {
            key: key.into(),
            lifetime,
            quiet,
        }),
        None => refused(Fault::ExpiryFormat, quiet),
    }
}

// The line of `touch`, by the words behind it.
#[tactic(auto, unfolding(crate::specs::KeyLine::touch_line))]
pub fn touch_line(mut words: Words) -> Option<Line>
    ensures { result ≡ touch_line words.entry }
{
    let key = words.next_word()?;
    let expiry = words.next_word()?;
    let quiet = quiet_tail(expiry, words)?;
    Some(touched(key, expiry, quiet))
}
