//! The kinds of rows.

use crate::machine::steps;
use crate::memcached::commands::commands;
use crate::memcached::items::items;
use crate::memcached::texts::{replies_written, stored};
use crate::packets;
use crate::sizes::{report, sizes, start, trace};
use crate::text::{first_word, say, text_of};
use crate::words::{functions, hash, packed};
use outside::NoMemory;
use std::alloc::Global;

/// What comes of a row: its first word names its kind, and the others are that kind's.
pub fn found_by(
    alloc: Global,
    words: &str,
    given: &[u8],
    into: &mut Vec<u8>,
) -> Result<(), NoMemory> {
    let (kind, words) = first_word(words);
    match kind {
        "" => Ok(()),
        "functions" => functions(alloc, text_of(given), into),
        "hash" => hash(alloc, words, given, into),
        "packed" => packed(alloc, given, into),
        "sizes" => sizes(alloc, text_of(given), into),
        "start" => start(alloc, words, into),
        "trace" => trace(alloc, given, into),
        "report" => report(alloc, given, into),
        "batch" => packets::batch(alloc, given, into),
        "fronts" => packets::fronts(alloc, given, into),
        "changes" => packets::changes(alloc, given, into),
        "replies" => packets::replies(alloc, given, into),
        "split" => packets::split(alloc, words, into),
        "commands" => commands(alloc, given, into),
        "items" => items(alloc, words, given, into),
        "written" => replies_written(into),
        "stored" => stored(alloc, given, into),
        "machine" => steps(alloc, words, text_of(given), into),
        _ => say(into, "no such row\n"),
    }
}
