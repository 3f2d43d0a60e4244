//! What the line of a meta command says by itself.
ghost use Rattle.std.specs.Prelude.{◌≡◌, ◌<◌, ◌∷◌, length, option_copied, []};
ghost use Rattle.memcached_text.specs.Line.{is_key};
ghost use Rattle.memcached_commands.specs.Keys.{spelled};
ghost use Rattle.memcached_meta.specs.Lines.{verb_of, told_fault, told_by, key_fault, is_fit_key, is_store_mode, is_count_mode, mode_fault, meta_fault, is_base64, keyed_line, block_len, storing_line, debug_flags, line_of};

use crate::MetaFault;
use crate::flags::{argument_of, flags_fault, has_flag};
use memcached_commands::{KEY_ROOM, Key};
use memcached_text::{Fault, MAX_KEY_LEN, Text, Words, number_of};

/// What a meta command does, by the second letter of its name.
#[derive(Clone, Copy)]
pub enum Verb {
    /// `mg`.
    Get,
    /// `ms`.
    Store,
    /// `md`.
    Delete,
    /// `ma`.
    Count,
    /// `me`.
    Debug,
}

/// A meta command, whose parts lie in the client's bytes.
#[derive(Drop)]
pub struct Meta<'a> {
    pub verb: Verb,
    /// The key as the client wrote it.
    pub word: Text<'a>,
    pub flags: Words<'a>,
    /// The value of a store's block. Empty where there is none.
    pub value: Text<'a>,
}

/// What a line says by itself.
#[derive(Drop)]
pub enum MetaLine<'a> {
    /// A whole command.
    Whole(Meta<'a>),
    /// One whose value of so many bytes stands in the block behind the line.
    Storing(Meta<'a>, u32),
    /// Nothing that is carried out. Where a block with a value of so many bytes stands behind the line, it is dropped too.
    Refused(MetaFault, Option<u32>),
}

// The verb of a name, where it is a meta command's.
pub fn verb_of(name: &[u8]) -> Option<Verb>
    ensures { result ≡ verb_of name.now }
{
    if name == b"mg".as_slice() {
        Some(Verb::Get)
    } else if name == b"ms".as_slice() {
        Some(Verb::Store)
    } else if name == b"md".as_slice() {
        Some(Verb::Delete)
    } else if name == b"ma".as_slice() {
        Some(Verb::Count)
    } else if name == b"me".as_slice() {
        Some(Verb::Debug)
    } else {
        None
    }
}

// `md` and `ma` tell one fault of all flags but an opaque, and `me` tells one of all.
fn told_fault(verb: Verb, fault: MetaFault) -> MetaFault
    ensures { result ≡ told_fault verb fault }
{
    match (verb, fault) {
        (Verb::Delete | Verb::Count, MetaFault::LongOpaque) => MetaFault::LongOpaque,
        (Verb::Delete | Verb::Count, _) => MetaFault::BadFlag,
        (Verb::Debug, _) => MetaFault::Line(Fault::Format),
        _ => fault,
    }
}

fn is_store_mode(mode: &[u8]) -> bool
    ensures { result ≡ is_store_mode mode.now }
{
    match mode {
        [b'S' | b'E' | b'R' | b'A' | b'P'] => true,
        _ => false,
    }
}

fn is_count_mode(mode: &[u8]) -> bool
    ensures { result ≡ is_count_mode mode.now }
{
    match mode {
        [b'I' | b'+' | b'D' | b'-'] => true,
        _ => false,
    }
}

// A mode that the command does not have.
fn mode_fault(verb: Verb, mode: Option<&[u8]>) -> Option<MetaFault>
    ensures { result ≡ mode_fault verb (option_copied mode.entry) }
{
    let mode = mode?;
    match verb {
        Verb::Store if !is_store_mode(mode) => Some(MetaFault::StoreMode),
        Verb::Count if !is_count_mode(mode) => Some(MetaFault::CountMode),
        _ => None,
    }
}

/// Whether the key is spelled in base64.
pub fn is_base64(flags: Words) -> bool
    ensures { result ≡ is_base64 flags.entry }
{
    has_flag(b"b".as_slice(), flags)
}

// Whether a word may be a key.
fn is_key(word: &[u8]) -> bool
    requires { 0 < length word.now }
    ensures { result ≡ is_key word.now }
{
    Words::one(word).are_keys()
}

// Whether a word spells a key.
fn spells_key(word: &[u8], is_base64: bool) -> bool
    ensures { result ≡ is_fit_key (spelled is_base64 word.now) }
{
    let key = Key::spelled(word.into(), is_base64);
    let mut room = [0; KEY_ROOM];
    let key = key.bytes(&mut room);
    !key.is_empty() && key.len() <= MAX_KEY_LEN
}

// Why a meta command is refused: its key, its flags, its key as base64, its mode, in this order.
#[tactic(auto, unfolding(crate::specs::Lines::meta_fault))]
fn meta_fault(verb: Verb, word: &[u8], flags: &Words) -> Option<MetaFault>
    ensures { result ≡ meta_fault verb word.now flags.now }
{
    if word.is_empty() || !is_key(word) {
        return Some(MetaFault::Line(Fault::Format));
    }
    if let Some(fault) = flags_fault(flags.again()) {
        return Some(told_fault(verb, fault));
    }
    if !spells_key(word, is_base64(flags.again())) {
        return Some(told_fault(verb, MetaFault::KeyFormat));
    }
    mode_fault(verb, argument_of(b"M".as_slice(), flags.again()))
}

fn meta_of<'a>(verb: Verb, word: &'a [u8], flags: Words<'a>) -> Meta<'a>
    ensures { result ≡ record { verb = verb; word = word.now; flags = flags.entry; value = [] } }
{
    Meta {
        verb,
        word: word.into(),
        flags,
        value: b"".as_slice().into(),
    }
}

// The line of a command that has no block.
fn keyed_line<'a>(verb: Verb, word: &'a [u8], flags: Words<'a>) -> MetaLine<'a>
    ensures { result ≡ keyed_line verb word.now flags.entry }
{
    match meta_fault(verb, word, &flags) {
        Some(fault) => MetaLine::Refused(fault, None),
        None => MetaLine::Whole(meta_of(verb, word, flags)),
    }
}

/// The most bytes that a line may say of the value in its block.
const MAX_BLOCK_LEN: u32 = 2_147_483_645;

// The bytes of the value in a block, where the word writes so many as a block may have.
fn block_len(word: &[u8]) -> Option<u32>
    ensures { result ≡ block_len word.now }
{
    Some(number_of(u64::from(MAX_BLOCK_LEN), word)? as u32)
}

// The line of a store, by the words behind its key.
#[tactic(auto, unfolding(crate::specs::Lines::storing_line))]
fn storing_line<'a>(word: &'a [u8], mut words: Words<'a>) -> MetaLine<'a>
    ensures { result ≡ storing_line word.now words.entry }
{
    let Some(len) = words.next_word() else {
        return MetaLine::Refused(MetaFault::Line(Fault::Format), None);
    };
    let Some(len) = block_len(len) else {
        return MetaLine::Refused(MetaFault::Line(Fault::Format), None);
    };
    match meta_fault(Verb::Store, word, &words) {
        Some(fault) => MetaLine::Refused(fault, Some(len)),
        None => MetaLine::Storing(meta_of(Verb::Store, word, words), len),
    }
}

// The flags of `me`: its first one, where that is `b`. All others are of no effect.
fn debug_flags<'a>(mut words: Words<'a>) -> Words<'a>
    ensures { result ≡ debug_flags words.entry }
{
    let Some(word) = words.next_word() else {
        return words;
    };
    if word == b"b".as_slice() {
        Words::one(word)
    } else {
        Words::of(b"".as_slice())
    }
}

// What a line of this verb says, with these words behind its name.
#[tactic(auto, unfolding(crate::specs::Lines::line_of))]
pub fn line_of<'a>(verb: Verb, mut words: Words<'a>) -> MetaLine<'a>
    ensures { result ≡ line_of verb words.entry }
{
    match (verb, words.next_word()) {
        (Verb::Debug, None) => MetaLine::Refused(MetaFault::Line(Fault::Format), None),
        (_, None) => MetaLine::Refused(MetaFault::Line(Fault::Unknown), None),
        (Verb::Store, Some(word)) => storing_line(word, words),
        (Verb::Debug, Some(word)) => keyed_line(verb, word, debug_flags(words)),
        (_, Some(word)) => keyed_line(verb, word, words),
    }
}
