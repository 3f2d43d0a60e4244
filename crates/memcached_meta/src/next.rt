//! What a client's bytes begin with, where that is the line of a meta command.
ghost use Rattle.std.specs.Prelude.{◌≡◌, ◌≤◌, ◌∷◌, ◌++◌, ◌+◌, IfSome, MatchOption};
ghost use Rattle.memcached_text.specs.declared.limits.TheConstants.{MAX_LINE_LEN};
ghost use Rattle.memcached_text.specs.Lines.{Lacks, without_return};
ghost use Rattle.memcached_meta.specs.Fit.{IsFitMetaNext};
ghost use Rattle.memcached_meta.specs.Next.{begins_meta, replaces_all, stale_of, stored_at, line_next, next_meta};

use crate::MetaFault;
use crate::flags::{argument_of, has_flag};
use crate::line::{Meta, MetaLine, is_base64, line_of, verb_of};
use memcached_commands::Key;
use memcached_text::{Fault, MAX_LINE_LEN, MAX_TEXT_LEN, Words};
use memchr::memchr;

/// What a client's bytes begin with.
#[derive(Drop)]
pub enum MetaNext<'a> {
    /// A command, which takes so many bytes.
    Whole(Meta<'a>, usize),
    /// Nothing that is carried out. So many bytes are dropped, of which some may not have come yet. The item of a key that is
    /// stale is to go.
    Dropped {
        fault: MetaFault,
        stale: Option<Key<'a>>,
        len: usize,
    },
    /// Not all of the block has come.
    More,
}

// The bytes that end a block.
const END_LEN: usize = 2;

// Whether a store takes the place of whatever is there.
fn replaces_all(flags: &Words) -> bool
    ensures { result ≡ replaces_all flags.now }
{
    let is_set = match argument_of(b"M".as_slice(), flags.again()) {
        Some(mode) => mode == b"S".as_slice(),
        None => true,
    };
    is_set && !has_flag(b"C".as_slice(), flags.again())
}

// The key whose item must not stay where the value is too large.
fn stale_of<'a>(meta: Meta<'a>) -> Option<Key<'a>>
    ensures { result ≡ stale_of meta.entry }
{
    if !replaces_all(&meta.flags) {
        return None;
    }
    Some(Key::spelled(meta.word, is_base64(meta.flags)))
}

// A store whose line and block have so many bytes, with what has come behind its line.
#[tactic(auto, unfolding(crate::specs::Next::stored_at, memcached_text::specs::Block::block_at))]
fn stored_at<'a>(meta: Meta<'a>, value_len: u32, len: usize, rest: &'a [u8]) -> MetaNext<'a>
    requires { len ≤ MAX_LINE_LEN + 1 }
    ensures { result ≡ stored_at meta.entry value_len len rest.now }
{
    let value_len = value_len as usize;
    let whole_len = len + value_len + END_LEN;
    if value_len > MAX_TEXT_LEN {
        return MetaNext::Dropped {
            fault: MetaFault::Line(Fault::TooLarge),
            stale: stale_of(meta),
            len: whole_len,
        };
    }
    if rest.len() < value_len + END_LEN {
        return MetaNext::More;
    }
    let (value, end) = rest.split_at(value_len);
    if !end.starts_with(b"\r\n") {
        return MetaNext::Dropped {
            fault: MetaFault::Line(Fault::BadBlock),
            stale: None,
            len: whole_len,
        };
    }
    let meta = Meta {
        verb: meta.verb,
        word: meta.word,
        flags: meta.flags,
        value: value.into(),
    };
    MetaNext::Whole(meta, whole_len)
}

// What a line of so many bytes is, with what has come behind it.
#[tactic(auto, unfolding(crate::specs::Next::line_next))]
fn line_next<'a>(line: MetaLine<'a>, len: usize, rest: &'a [u8]) -> MetaNext<'a>
    requires { len ≤ MAX_LINE_LEN + 1 }
    ensures { result ≡ line_next line.entry len rest.now }
{
    match line {
        MetaLine::Whole(meta) => MetaNext::Whole(meta, len),
        MetaLine::Storing(meta, value_len) => stored_at(meta, value_len, len, rest),
        MetaLine::Refused(fault, block) => {
            let block_len = match block {
                Some(value_len) => value_len as usize + END_LEN,
                None => 0,
            };
            MetaNext::Dropped {
                fault,
                stale: None,
                len: len + block_len,
            }
        }
    }
}

// The line without the one carriage return at its end, if it has one.
fn without_return(line: &[u8]) -> &[u8]
    ensures { result.now ≡ without_return line.now }
{
    match line.strip_suffix(b"\r".as_slice()) {
        Some(text) => text,
        None => line,
    }
}

// The line at the front without its line feed, and the bytes behind that.
fn first_line(from: &[u8]) -> Option<(&[u8], &[u8])>
    ensures { MatchOption result (Lacks 10 from.now)
        (λ parts. (from.now ≡ parts.0.now ++ 10 ∷ parts.1.now) × Lacks 10 parts.0.now) }
{
    let at = memchr(b'\n', from)?;
    Some((&from[..at], &from[at + 1..]))
}

// Whether a line of a meta command may stand at the front: no other byte begins one.
fn begins_meta(from: &[u8]) -> bool
    ensures { result ≡ begins_meta from.now }
{
    match from {
        [b'm' | b' ', ..] => true,
        _ => false,
    }
}

/// What the bytes begin with. None where that is no line of a meta command, or none that has come. It stays so whatever bytes follow, unless it is
/// `More`.
#[tactic(auto, unfolding(crate::specs::Next::next_meta), using(memcached_text::proofs::LineLaws::line_at_fed, memcached_text::proofs::LineLaws::line_at_none))]
pub fn next_meta(from: &[u8]) -> Option<MetaNext>
    ensures next { result ≡ next_meta from.now }
    ensures fit { IfSome result IsFitMetaNext }
{
    if !begins_meta(from) {
        return None;
    }
    let (line, rest) = first_line(from)?;
    if line.len() > MAX_LINE_LEN {
        return None;
    }
    let mut words = Words::of(without_return(line));
    let verb = verb_of(words.next_word()?)?;
    Some(line_next(line_of(verb, words), line.len() + 1, rest))
}
