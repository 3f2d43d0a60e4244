//! What a meta command asks of its key.
ghost use Rattle.std.specs.Prelude.{◌≡◌, ◌≤◌, length};
ghost use Rattle.memcached_text.specs.declared.limits.TheConstants.{MAX_TEXT_LEN};
ghost use Rattle.memcached_commands.specs.Fit.{IsFitAsk};
ghost use Rattle.memcached_meta.specs.Asks.{mode_of, lease_of, unless_zero, wants_of, store_of, delete_of, direction_of, count_of, meta_ask};

use crate::flags::{
    argument_of, flag_lifetime, flag_number, flag_short, has_flag, is_late, vivified,
};
use crate::line::{Meta, Verb};
use memcached_commands::{Ask, Initial, Lease};
use memcached_text::{Direction, Lifetime, Side, Text, Wants, Words};

// The mode that is asked for. Nothing where none is.
fn mode_of<'a>(flags: &Words<'a>) -> &'a [u8]
    ensures { result.now ≡ mode_of flags.now }
{
    argument_of(b"M".as_slice(), flags.again()).unwrap_or(b"".as_slice())
}

fn lease_of(flags: &Words) -> Lease
    ensures { result ≡ lease_of flags.now }
{
    Lease {
        touch: flag_lifetime(b"T".as_slice(), flags.again()),
        vivify: vivified(flags.again()),
        recache: flag_lifetime(b"R".as_slice(), flags.again()),
        is_late: is_late(flags.again()),
    }
}

// A number that is compared: 0 is none.
fn unless_zero(number: Option<u64>) -> Option<u64>
    ensures { result ≡ unless_zero number }
{
    match number {
        Some(0) => None,
        _ => number,
    }
}

// What a store wants to find.
fn wants_of(flags: &Words) -> Wants
    ensures { result ≡ wants_of flags.now }
{
    let mode = mode_of(flags);
    if mode == b"E".as_slice() {
        return Wants::Absent;
    }
    match flag_number(b"C".as_slice(), flags.again()) {
        Some(unique) if has_flag(b"I".as_slice(), flags.again()) => Wants::AtLeast(unique),
        Some(unique) => Wants::Numbered(unique),
        None if mode == b"R".as_slice() => Wants::Present,
        None => Wants::Whatever,
    }
}

fn store_of<'a>(flags: &Words, value: Text<'a>) -> Ask<'a>
    ensures { result ≡ store_of flags.now value.entry }
{
    let mode = mode_of(flags);
    let unique = unless_zero(flag_number(b"C".as_slice(), flags.again()));
    if mode == b"A".as_slice() {
        return Ask::Join {
            side: Side::Back,
            unique,
            more: value,
        };
    }
    if mode == b"P".as_slice() {
        return Ask::Join {
            side: Side::Front,
            unique,
            more: value,
        };
    }
    Ask::Store {
        wants: wants_of(flags),
        flags: flag_short(b"F".as_slice(), flags.again()).unwrap_or(0),
        lifetime: flag_lifetime(b"T".as_slice(), flags.again()).unwrap_or(Lifetime::Forever),
        value,
    }
}

fn delete_of<'a>(flags: &Words) -> Ask<'a>
    ensures { result ≡ delete_of flags.now }
{
    let unique = flag_number(b"C".as_slice(), flags.again());
    if has_flag(b"I".as_slice(), flags.again()) {
        Ask::Mark {
            unique,
            lifetime: flag_lifetime(b"T".as_slice(), flags.again()),
        }
    } else {
        Ask::Delete { unique }
    }
}

fn direction_of(flags: &Words) -> Direction
    ensures { result ≡ direction_of flags.now }
{
    match mode_of(flags) {
        [b'D' | b'-'] => Direction::Down,
        _ => Direction::Up,
    }
}

fn count_of<'a>(flags: &Words) -> Ask<'a>
    ensures { result ≡ count_of flags.now }
{
    let number = flag_number(b"J".as_slice(), flags.again()).unwrap_or(0);
    let initial = match vivified(flags.again()) {
        Some(lifetime) => Some(Initial { number, lifetime }),
        None => None,
    };
    Ask::Count {
        direction: direction_of(flags),
        delta: flag_number(b"D".as_slice(), flags.again()).unwrap_or(1),
        unique: unless_zero(flag_number(b"C".as_slice(), flags.again())),
        lifetime: flag_lifetime(b"T".as_slice(), flags.again()),
        initial,
    }
}

/// What a meta command asks of its key.
#[tactic(auto, using(crate::proofs::AskLaws::ask_fits))]
pub fn meta_ask<'a>(meta: &Meta<'a>) -> Ask<'a>
    ensures asks { result ≡ meta_ask meta.now.verb meta.now.flags meta.now.value }
    ensures fit { length meta.now.value ≤ MAX_TEXT_LEN → IsFitAsk result }
{
    match meta.verb {
        Verb::Get => Ask::Leased(lease_of(&meta.flags)),
        Verb::Store => store_of(&meta.flags, meta.value.bytes().into()),
        Verb::Delete => delete_of(&meta.flags),
        Verb::Count => count_of(&meta.flags),
        Verb::Debug => Ask::Get,
    }
}
