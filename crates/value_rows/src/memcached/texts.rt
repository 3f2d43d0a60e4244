//! The texts of replies, and of items that are stored.

use crate::text::say;
use memcached_text::{Item, put_item, put_number, put_stat, put_value, read_item};
use outside::NoMemory;
use std::alloc::Global;

/// Replies to `get k`, `gets k`, `incr k 1`, and a line of `stats`.
pub fn replies_written(into: &mut Vec<u8>) -> Result<(), NoMemory> {
    put_value(into, b"k", 5, b"a\r\n", None)?;
    put_value(into, b"k", 0, b"", Some(2))?;
    put_number(into, 18_446_744_073_709_551_615)?;
    put_stat(into, b"pid", b"7")
}

/// An item that is read from what is stored, and what is stored of it again.
pub fn stored(alloc: Global, bytes: &[u8], into: &mut Vec<u8>) -> Result<(), NoMemory> {
    let item = read_item(bytes);
    let (flags, expires, unique) = (item.flags, item.expires, item.unique);
    say(
        into,
        format!(in alloc; "{flags} {expires} {unique} ")?.as_str(),
    )?;
    if item.stale {
        say(into, "stale ")?;
    }
    if item.won {
        say(into, "won ")?;
    }
    into.extend_from_slice(item.value.bytes())?;
    say(into, "\n")?;
    put_item(
        into,
        Item {
            flags,
            expires,
            unique,
            stale: item.stale,
            won: item.won,
            value: item.value,
        },
    )
}
