//! What a line says by itself, and what lines have in common.
ghost use Rattle.std.specs.Prelude.{◌≡◌};
ghost use Rattle.memcached_text.specs.Line.{is_short, is_key, refused, is_noreply, quiet_tail};

use crate::limits::MAX_KEY_LEN;
use crate::split::lacks_byte;
use crate::storage_line::ItemLine;
use crate::{Command, Fault, Words};

/// What a line says by itself.
#[derive(Drop)]
pub enum Line<'a> {
    /// A whole command.
    Whole(Command<'a>),
    /// To store the item whose value of so many bytes stands in the block behind the line.
    Storing {
        item: ItemLine<'a>,
        len: u32,
        quiet: bool,
    },
    /// Nothing that is carried out. Where a block with a value of so many bytes stands behind the line, it is dropped
    /// too.
    Refused {
        fault: Fault,
        quiet: bool,
        block: Option<u32>,
    },
}

// Whether a word is no longer than a key may be.
fn is_short(word: &[u8]) -> bool
    ensures { result ≡ is_short word.now }
{
    word.len() <= MAX_KEY_LEN
}

// Whether a word may be a key.
pub fn is_key(word: &[u8]) -> bool
    ensures { result ≡ is_key word.now }
{
    is_short(word) && lacks_byte(word, 0)
}

// A line that is refused, and has no block.
pub fn refused<'a>(fault: Fault, quiet: bool) -> Line<'a>
    ensures { result ≡ refused fault quiet }
{
    Line::Refused {
        fault,
        quiet,
        block: None,
    }
}

// Whether a word asks for no reply, where it is the last of its line.
pub fn is_noreply(word: &[u8]) -> bool
    ensures { result ≡ is_noreply word.now }
{
    word == b"noreply".as_slice()
}

// Whether a line wants no reply, whose last words these are: one that must stand there, and those behind it.
#[tactic(auto, unfolding(crate::specs::Line::quiet_tail))]
pub fn quiet_tail(word: &[u8], mut words: Words) -> Option<bool>
    ensures { result ≡ quiet_tail word.now words.entry }
{
    let Some(last) = words.next_word() else {
        return Some(is_noreply(word));
    };
    if words.next_word().is_some() {
        return None;
    }
    Some(is_noreply(last))
}
