//! What a client's bytes begin with.
ghost use Rattle.std.specs.Prelude.{◌≡◌, ◌<◌, ◌≤◌, ◌+◌, length, take, min, MatchOption};
ghost use Rattle.memcached_text.specs.Fit.{IsFitNext};
ghost use Rattle.memcached_text.specs.Lines.{Lacks, HasLine, without_return};
ghost use Rattle.memcached_text.specs.Next.{storing_at, says_at, is_binary, is_get, most_line, next_of, IsWithin};

use crate::block::{Block, END_LEN, block_at};
use crate::forms::line_of;
use crate::limits::{MAX_GET_LINE_LEN, MAX_LINE_LEN, MAX_TEXT_LEN, MAX_WAITING_LEN};
use crate::line::Line;
use crate::spelled::{spelled_count, spelled_get, spelled_set};
use crate::split::split_at_byte;
use crate::storage_line::ItemLine;
use crate::{Command, Fault, Text, Words};

/// The byte with which each request of memcached's binary protocol begins.
pub const BINARY: u8 = 128;

/// What a client's bytes begin with.
#[derive(Drop)]
pub enum Next<'a> {
    /// A command, which takes so many bytes.
    Command {
        command: Command<'a>,
        len: usize,
    },
    /// Nothing that is carried out. So many bytes are dropped, of which some may not have come yet. No reply is wanted
    /// where it is quiet. The item of a key that is stale is to go.
    Refused {
        fault: Fault,
        stale: Option<Text<'a>>,
        quiet: bool,
        len: usize,
    },
    /// The beginning of a line, or of its block.
    More,
    /// A line that is too long, so that the connection is to end.
    LongLine,
}

// The line without the one carriage return at its end, if it has one.
fn without_return(line: &[u8]) -> &[u8]
    ensures { result.now ≡ without_return line.now }
{
    match line.strip_suffix(b"\r".as_slice()) {
        Some(text) => text,
        None => line,
    }
}

// What a line of so many bytes is that stores an item, with the bytes behind it.
#[tactic(auto, unfolding(crate::specs::Next::storing_at))]
fn storing_at<'a>(
    item: ItemLine<'a>,
    value_len: u32,
    quiet: bool,
    len: usize,
    rest: &'a [u8],
) -> Next<'a>
    requires { len ≤ MAX_GET_LINE_LEN + 1 }
    ensures { result ≡ storing_at item.entry value_len quiet len rest.now }
{
    let whole_len = len + value_len as usize + END_LEN;
    if value_len as usize > MAX_TEXT_LEN {
        return Next::Refused {
            fault: Fault::TooLarge,
            stale: item.stale(),
            quiet,
            len: whole_len,
        };
    }
    match block_at(value_len, rest) {
        Block::Waiting => Next::More,
        Block::Whole(value) => Next::Command {
            command: item.command(value, quiet),
            len: whole_len,
        },
        Block::Bad => Next::Refused {
            fault: Fault::BadBlock,
            stale: None,
            quiet,
            len: whole_len,
        },
    }
}

// What a line of so many bytes is, with the bytes behind it.
#[tactic(auto, unfolding(crate::specs::Next::says_at))]
fn says_at<'a>(line: Line<'a>, len: usize, rest: &'a [u8]) -> Next<'a>
    requires { len ≤ MAX_GET_LINE_LEN + 1 }
    ensures { result ≡ says_at line.entry len rest.now }
{
    match line {
        Line::Whole(command) => Next::Command { command, len },
        Line::Storing {
            item,
            len: value_len,
            quiet,
        } => storing_at(item, value_len, quiet, len, rest),
        Line::Refused {
            fault,
            quiet,
            block,
        } => {
            let block_len = match block {
                Some(value_len) => value_len as usize + END_LEN,
                None => 0,
            };
            Next::Refused {
                fault,
                stale: None,
                quiet,
                len: len + block_len,
            }
        }
    }
}

// Whether the bytes begin as the line of a get.
#[tactic(auto, unfolding(crate::specs::Next::is_get))]
fn is_get(from: &[u8]) -> bool
    ensures { result ≡ is_get from.now }
{
    from.starts_with(b"get ") || from.starts_with(b"gets ")
}

// How long the line at the front may be.
#[tactic(auto, unfolding(crate::specs::Next::most_line))]
pub fn most_line(from: &[u8]) -> usize
    ensures { result ≡ most_line from.now }
{
    if is_get(from) {
        MAX_GET_LINE_LEN
    } else {
        MAX_LINE_LEN
    }
}

// The line at the front, without its line feed, and the bytes behind that. None where no line ends within as many bytes
// as it may have.
#[tactic(auto, using(crate::proofs::NextLaws::may_be_most))]
fn first_line(from: &[u8]) -> Option<(&[u8], &[u8])>
    ensures { MatchOption result (Lacks 10 (take (min (length from.now) (most_line from.now + 1)) from.now))
        (λ parts. HasLine from.now parts.0.now parts.1.now × (length parts.0.now ≤ most_line parts.0.now)) }
{
    let front = &from[..from.len().min(most_line(from) + 1)];
    let (line, _) = split_at_byte(front, b'\n')?;
    let (_, rest) = from.split_at(line.len() + 1);
    Some((line, rest))
}

// Whether the bytes are a request of the binary protocol.
pub fn is_binary(from: &[u8]) -> bool
    ensures { result ≡ is_binary from.now }
{
    match from {
        [first, ..] => *first == BINARY,
        [] => false,
    }
}

// What the bytes begin with, by the line at their front.
#[tactic(auto, using(crate::proofs::NextLaws::may_be_most))]
fn front_line(from: &[u8]) -> Next
    ensures { result ≡ next_of from.now }
{
    if is_binary(from) {
        return Next::Command {
            command: Command::Quit,
            len: 1,
        };
    }
    match first_line(from) {
        Some((line, rest)) => {
            let says = line_of(Words::of(without_return(line)));
            says_at(says, line.len() + 1, rest)
        }
        None if from.len() > most_line(from) => Next::LongLine,
        None => Next::More,
    }
}

#[inline(always)]
fn front_of(from: &[u8]) -> Next
    ensures { result ≡ next_of from.now }
{
    if from.is_empty() {
        return Next::More;
    }
    if let Some((key, len)) = spelled_get(from) {
        let command = Command::Get {
            keys: Words::one(key),
            unique: false,
            lifetime: None,
        };
        return Next::Command { command, len };
    }
    if let Some(set) = spelled_set(from) {
        let len = set.len;
        let command = set.command();
        return Next::Command { command, len };
    }
    if let Some(count) = spelled_count(from) {
        let len = count.len;
        let command = count.command();
        return Next::Command { command, len };
    }
    front_line(from)
}

/// What the bytes begin with. It stays so whatever bytes follow, unless it is `More`.
#[inline(always)]
pub fn next_command(from: &[u8]) -> Next
    ensures next { result ≡ next_of from.now }
    ensures waits { result ≡ Next.More → length from.now < MAX_WAITING_LEN }
    ensures within { IsWithin (length from.now) result }
    ensures fit { IsFitNext result }
{
    front_of(from)
}
