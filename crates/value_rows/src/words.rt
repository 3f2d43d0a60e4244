//! Hashes, entries, headers, packed bytes, classes and sizes.

use crate::text::{first_word, number, say};
use mica_words::{
    Hashing, MAX_KEY_LEN, MAX_STORED_LEN, bucket_of, entry_of, entry_offset, entry_tag,
    header_key_len, header_of, header_room, header_value_len, item_size, key_fits, pack,
    partition_of, tag_of, tail_of, unpack, value_fits,
};
use outside::NoMemory;
use partition_model::{has_room, keeps};
use size_classes::{class_of, fine_class_of};
use std::alloc::Global;

/// A byte more than the longest value has.
static ZEROS: [u8; 8193] = [0; 8193];

fn class(words: u64) -> Option<u64> {
    let words = u32::try_from(words).ok()?;
    if words == 0 {
        return None;
    }
    Some(u64::from(class_of(words)))
}

fn fine_class(words: u64) -> Option<u64> {
    let words = u32::try_from(words).ok()?;
    if words < 1024 {
        return None;
    }
    Some(u64::from(fine_class_of(words)))
}

/// What the function of this name makes of a number.
fn of_one(name: &str, x: u64) -> Option<u64> {
    match name {
        "tag_of" => Some(u64::from(tag_of(x))),
        "entry_tag" => Some(u64::from(entry_tag(x))),
        "entry_offset" => Some(entry_offset(x)),
        "header_room" => Some(u64::from(header_room(x))),
        "header_key_len" => Some(u64::from(header_key_len(x))),
        "header_value_len" => Some(u64::from(header_value_len(x))),
        "tail_of" => Some(tail_of(x)),
        "has_room" => Some(u64::from(has_room(x))),
        "class_of" => class(x),
        "fine_class_of" => fine_class(x),
        "key_fits" => Some(u64::from(key_fits(ZEROS.get(..usize::try_from(x).ok()?)?))),
        "value_fits" => Some(u64::from(value_fits(ZEROS.get(..usize::try_from(x).ok()?)?))),
        _ => None,
    }
}

/// Where a hash is among some partitions, or buckets.
fn place_of(name: &str, hash: u64, count: u64) -> Option<u64> {
    let count = u32::try_from(count).ok()?;
    if count == 0 {
        return None;
    }
    match name {
        "partition_of" => Some(u64::from(partition_of(hash, count))),
        "bucket_of" => Some(u64::from(bucket_of(hash, count))),
        _ => None,
    }
}

fn entry(tag: u64, offset: u64) -> Option<u64> {
    let tag = u16::try_from(tag).ok()?;
    if tag == 0 || offset >= 281_474_976_710_656 {
        return None;
    }
    Some(entry_of(tag, offset))
}

fn size(key_len: u64, value_len: u64) -> Option<u64> {
    let key_len = usize::try_from(key_len).ok()?;
    let value_len = usize::try_from(value_len).ok()?;
    if key_len > MAX_KEY_LEN || value_len > MAX_STORED_LEN {
        return None;
    }
    Some(u64::from(item_size(key_len, value_len)))
}

fn kept(size: u64, room: u64) -> Option<u64> {
    let size = u32::try_from(size).ok()?;
    let room = u32::try_from(room).ok()?;
    Some(u64::from(keeps(size, room)))
}

fn header(room: u64, key_len: u64, value_len: u64) -> Option<u64> {
    let room = u32::try_from(room).ok()?;
    let key_len = u32::from(u16::try_from(key_len).ok()?);
    let value_len = u32::try_from(value_len).ok()?;
    if room >= 1 << 24 || key_len + 256 * (room / 65_536) >= 65_536 {
        return None;
    }
    Some(header_of(room, key_len, value_len))
}

/// What the function that a line names first makes of its numbers.
fn result_of(alloc: Global, line: &str) -> Result<Option<u64>, NoMemory> {
    let (name, words) = first_word(line);
    let mut numbers = Vec::new(alloc);
    for word in words.split(' ') {
        if let Some(number) = number(word) {
            numbers.push(number)?;
        }
    }
    Ok(match numbers.as_slice() {
        [x] => of_one(name, *x),
        [x, y] => match name {
            "entry_of" => entry(*x, *y),
            "item_size" => size(*x, *y),
            "keeps" => kept(*x, *y),
            _ => place_of(name, *x, *y),
        },
        [x, y, z] => header(*x, *y, *z),
        _ => None,
    })
}

/// What functions make of numbers, a line for each. What has more than 32 bits is in hexadecimal digits.
pub fn functions(alloc: Global, lines: &str, into: &mut Vec<u8>) -> Result<(), NoMemory> {
    for line in lines.lines() {
        match result_of(alloc, line)? {
            Some(x) if x < 4_294_967_296 => say(into, format!(in alloc; "{x}\n")?.as_str())?,
            Some(x) => say(into, format!(in alloc; "0x{x:016x}\n")?.as_str())?,
            None => say(into, "nothing\n")?,
        }
    }
    Ok(())
}

// How keys are hashed: under the secret whose two words are named, or by FNV-1a where none is.
fn hashing_of(words: &str) -> Option<Hashing> {
    if words.is_empty() {
        return Some(Hashing::Fnv1a);
    }
    let (first, last) = first_word(words);
    Some(Hashing::SipHash(number(first)?, number(last)?))
}

/// The hash of a key, and its partition, bucket and tag where there are 16 of each of the first two.
pub fn hash(alloc: Global, words: &str, key: &[u8], into: &mut Vec<u8>) -> Result<(), NoMemory> {
    let Some(hashing) = hashing_of(words) else {
        return say(into, "no such secret\n");
    };
    let hash = hashing.key_hash(key);
    let (partition, bucket, tag) = (partition_of(hash, 16), bucket_of(hash, 16), tag_of(hash));
    say(
        into,
        format!(in alloc; "0x{hash:016x} {partition} {bucket} {tag}\n")?.as_str(),
    )
}

/// The words that at most 255 bytes are packed into, a line for each, and then what these are unpacked to, with the byte behind it, which
/// was ff.
pub fn packed(alloc: Global, bytes: &[u8], into: &mut Vec<u8>) -> Result<(), NoMemory> {
    if bytes.len() > 255 {
        return say(into, "too long\n");
    }
    let count = bytes.len().div_ceil(8);
    let mut room = [u64::MAX; 32];
    let words = &mut room[..count];
    pack(bytes, words);
    for word in &*words {
        say(into, format!(in alloc; "0x{word:016x}\n")?.as_str())?;
    }
    let mut back = [0xff; 256];
    unpack(words, bytes.len(), &mut back);
    into.extend_from_slice(&back[..=bytes.len()])?;
    say(into, "\n")
}
