//! An index entry: the tag of a key and the offset of its item in one word. An empty slot holds 0, which is no entry,
//! since a tag is at least 1.

ghost use Rattle.std.specs.Prelude.{◌≡◌, ◌≤◌, ◌<◌, ◌^◌};
ghost use Rattle.mica_words.specs.Entry.{entry_of, entry_tag, entry_offset};
ghost use Rattle.mica_words.specs.declared.entry.TheConstants.{OFFSET_BITS};

/// The entries of a bucket.
pub const SLOTS: u32 = 15;

/// The bits of an offset.
pub const OFFSET_BITS: u32 = 48;

/// The entry of an item with this tag, at this offset.
pub fn entry_of(tag: u16, offset: u64) -> u64
    requires tag { 1 ≤ tag }
    requires offset { offset < 2 ^ OFFSET_BITS }
    ensures { result ≡ entry_of tag offset }
{
    u64::from(tag) << 48 | offset
}

/// The tag above the offset.
pub fn entry_tag(entry: u64) -> u16
    ensures { result ≡ entry_tag entry }
{
    (entry >> 48) as u16
}

/// The offset below the tag, in words.
pub fn entry_offset(entry: u64) -> u64
    ensures { result ≡ entry_offset entry }
{
    entry & ((1 << OFFSET_BITS) - 1)
}
