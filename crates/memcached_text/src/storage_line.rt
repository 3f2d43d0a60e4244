//! Lines with a block behind them.
ghost use Rattle.std.specs.Prelude.{◌≡◌};
ghost use Rattle.memcached_text.specs.Line.{refused, quiet_tail};
ghost use Rattle.memcached_text.specs.StorageLine.{block_len, item_of, numbered_item_of, stored, set_line, cas_line, dropped, drop_meta_line, command_of, stale_of};

use crate::lifetime::lifetime_of;
use crate::limits::MAX_BLOCK_LEN;
use crate::line::{Line, is_key, quiet_tail, refused};
use crate::number::{number_of, short_number_of};
use crate::{Command, Fault, Lifetime, Side, Text, Wants, Words};

/// What the value of a block is for.
#[derive(Clone, Copy)]
pub enum Verb {
    Store(Wants),
    Join(Side),
}

/// What a line says of an item, whose value stands in the block behind the line.
#[derive(Drop)]
pub struct ItemLine<'a> {
    pub verb: Verb,
    pub key: Text<'a>,
    /// Of no effect where the value is joined, as is the lifetime.
    pub flags: u32,
    pub lifetime: Lifetime,
}

impl<'a> ItemLine<'a> {
    // The command, with the value of its block.
    pub fn command(self, value: Text<'a>, quiet: bool) -> Command<'a>
        ensures { result ≡ command_of self.entry value.entry quiet }
    {
        match self.verb {
            Verb::Store(wants) => Command::Store {
                wants,
                key: self.key,
                flags: self.flags,
                lifetime: self.lifetime,
                value,
                quiet,
            },
            Verb::Join(side) => Command::Join {
                side,
                key: self.key,
                value,
                quiet,
            },
        }
    }

    // The key whose item must not stay where the value is not taken: that of a set alone.
    pub fn stale(self) -> Option<Text<'a>>
        ensures { result ≡ stale_of self.entry }
    {
        match self.verb {
            Verb::Store(Wants::Whatever) => Some(self.key),
            _ => None,
        }
    }
}

// The bytes of the value in a block, where the word writes so many as a block may have.
fn block_len(word: &[u8]) -> Option<u32>
    ensures { result ≡ block_len word.now }
{
    short_number_of(MAX_BLOCK_LEN, word)
}

// The item of these words, where they are well formed.
#[tactic(auto, unfolding(crate::specs::StorageLine::item_of))]
fn item_of<'a>(verb: Verb, key: &'a [u8], flags: &[u8], expiry: &[u8]) -> Option<ItemLine<'a>>
    ensures { result ≡ item_of verb key.now flags.now expiry.now }
{
    if !is_key(key) {
        return None;
    }
    let flags = short_number_of(u32::MAX, flags)?;
    let lifetime = lifetime_of(expiry)?;
    Some(ItemLine {
        verb,
        key: key.into(),
        flags,
        lifetime,
    })
}

// The item of these words, to be stored in place of the item with a unique number.
#[tactic(auto, unfolding(crate::specs::StorageLine::numbered_item_of))]
fn numbered_item_of<'a>(
    unique: &[u8],
    key: &'a [u8],
    flags: &[u8],
    expiry: &[u8],
) -> Option<ItemLine<'a>>
    ensures { result ≡ numbered_item_of unique.now key.now flags.now expiry.now }
{
    let unique = number_of(u64::MAX, unique)?;
    item_of(Verb::Store(Wants::Numbered(unique)), key, flags, expiry)
}

// A line that stores an item, whose words may be ill formed, with a value of so many bytes, which it may not tell.
#[tactic(auto, unfolding(crate::specs::StorageLine::stored))]
fn stored(item: Option<ItemLine>, len: Option<u32>, quiet: bool) -> Line
    ensures { result ≡ stored item.entry len quiet }
{
    let Some(len) = len else {
        return refused(Fault::Format, quiet);
    };
    match item {
        Some(item) => Line::Storing { item, len, quiet },
        None => Line::Refused {
            fault: Fault::Format,
            quiet,
            block: Some(len),
        },
    }
}

// Each of the functions below is of the words behind a command's name, and gives `None` where they are too few or too
// many.

/// The line of a command that stores an item, by the words behind it.
#[tactic(auto, unfolding(crate::specs::StorageLine::set_line))]
pub fn set_line(verb: Verb, mut words: Words) -> Option<Line>
    ensures { result ≡ set_line verb words.entry }
{
    let key = words.next_word()?;
    let flags = words.next_word()?;
    let expiry = words.next_word()?;
    let len = words.next_word()?;
    let quiet = quiet_tail(len, words)?;
    Some(stored(item_of(verb, key, flags, expiry), block_len(len), quiet))
}

/// The line of `cas`, by the words behind it.
#[tactic(auto, unfolding(crate::specs::StorageLine::cas_line))]
pub fn cas_line(mut words: Words) -> Option<Line>
    ensures { result ≡ cas_line words.entry }
{
    let key = words.next_word()?;
    let flags = words.next_word()?;
    let expiry = words.next_word()?;
    let len = words.next_word()?;
    let unique = words.next_word()?;
    let quiet = quiet_tail(unique, words)?;
    let item = numbered_item_of(unique, key, flags, expiry);
    Some(stored(item, block_len(len), quiet))
}

// A line that is not supported, and has a block. The word may not tell how many bytes that has.
fn dropped<'a>(len: &[u8]) -> Line<'a>
    ensures { result ≡ dropped (block_len len.now) }
{
    match block_len(len) {
        Some(len) => Line::Refused {
            fault: Fault::NotSupported,
            quiet: false,
            block: Some(len),
        },
        None => refused(Fault::Format, false),
    }
}

/// The line of a command whose block is dropped, by the words behind it.
#[tactic(auto, unfolding(crate::specs::StorageLine::drop_meta_line))]
pub fn drop_meta_line<'a>(mut words: Words<'a>) -> Line<'a>
    ensures { result ≡ drop_meta_line words.entry }
{
    if words.next_word().is_none() {
        return refused(Fault::Format, false);
    }
    match words.next_word() {
        Some(len) => dropped(len),
        None => refused(Fault::Format, false),
    }
}
