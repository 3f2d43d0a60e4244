//! What a reader reads: the head, the pairs of each partition and what closes it, and the end.
ghost use Rattle.std.specs.Prelude.{◌≡◌, ◌≢◌, ◌≤◌, ◌%◌, ◌^◌, false, IfOk, IfErr, IfSome, IfNone, OnOk, ◌==◌};
ghost use Rattle.std.specs.List.{list_all};
ghost use Rattle.saved_items.specs.Items.{LengthsFit, PairFits, pair_of, entry_of};
ghost use Rattle.saved_items.specs.Causes.{HasCause};
ghost use Rattle.saved_items.specs.Reader.{stream_of};
ghost use Rattle.saved_items.specs.Moves.{Reads, Ends, is_of_outside};
ghost use Rattle.saved_items.specs.Reading.{hashing_in, mode_in, head_in, head_at, lengths_in, closing_in, word_at, texts_at, closing_at, entry_at};

use crate::blocks::CONTENT_LEN;
use crate::items::{Lengths, MAGIC, MAX_PARTITIONS, MAX_SAVED_KEY_LEN};
use crate::stream::read_bytes;
use crate::{Closing, Hashing, Head, SavedFault, SavedMode, SavedPair, SavedReader};
use mica_words::{MAX_STORED_LEN, pack};
use outside::Source;
use std::alloc::Global;

fn hashing_in(kind: u64, k0: u64, k1: u64) -> Option<Hashing>
    ensures { result ≡ hashing_in kind k0 k1 }
{
    if kind == 1 {
        return Some(Hashing::Secret(k0, k1));
    }
    if kind == 0 && k0 == 0 && k1 == 0 {
        return Some(Hashing::Papers);
    }
    None
}

fn mode_in(word: u64) -> Option<SavedMode>
    ensures { result ≡ mode_in word }
{
    match word {
        0 => Some(SavedMode::Cache),
        1 => Some(SavedMode::Store),
        _ => None,
    }
}

// The head in these seven words.
fn head_in(words: &[u64]) -> Result<Head, SavedFault>
    ensures head { result ≡ head_in words.now }
    ensures of_file { IfErr result (λ fault. is_of_outside fault ≡ false) }
{
    let [magic, second, kind, k0, k1, mode, partitions] = words else {
        return Err(SavedFault::Head);
    };
    if *magic % 4_294_967_296 != MAGIC % 4_294_967_296 {
        return Err(SavedFault::Magic);
    }
    if *magic != MAGIC {
        return Err(SavedFault::Version);
    }
    let Some(hashing) = hashing_in(*kind, *k0, *k1) else {
        return Err(SavedFault::Head);
    };
    let Some(mode) = mode_in(*mode) else {
        return Err(SavedFault::Head);
    };
    if *partitions == 0 || *partitions > MAX_PARTITIONS {
        return Err(SavedFault::Head);
    }
    Ok(Head {
        second: *second,
        hashing,
        mode,
        partitions: *partitions,
    })
}

/// The head of the file, which the source is at the beginning of.
pub fn read_head<S: Source>(
    alloc: Global,
    source: &mut S,
    reader: &mut SavedReader,
) -> Result<Head, SavedFault>
    requires open { S.has_ended source.old ≡ false }
    ensures read { Reads (λ head. head) (stream_of (S.left source.old) reader.old) (stream_of (S.left source.new) reader.new) result head_at }
    ensures open { OnOk result (S.has_ended source.new ≡ false) }
    ensures cause { IfErr result (HasCause (S.faults source.old) (S.faults source.new) ⊥) }
    ensures never_fall { S.faults source.old ≤ S.faults source.new }
{
    let mut bytes = Vec::new(alloc);
    read_bytes(source, reader, 56, &mut bytes)?;
    let mut words = [0u64; 7];
    pack(bytes.as_slice(), &mut words);
    head_in(&words)
}

// The lengths and marks in the word of a pair, where it is one.
fn lengths_in(word: u64) -> Option<Lengths>
    ensures lengths { result ≡ lengths_in word }
    ensures fit { word % 2 ^ 8 ≢ 0 → IfSome result LengthsFit }
{
    let key_len = (word % 256) as usize;
    let value_len = (word / 4_294_967_296) as usize;
    if key_len > MAX_SAVED_KEY_LEN || word / 2_048 % 2_097_152 != 0 || value_len > MAX_STORED_LEN {
        return None;
    }
    Some(Lengths {
        key_len,
        value_len,
        reads: (word / 256 % 4) as u8,
        is_long: word / 1_024 % 2 == 1,
    })
}

// The three words behind the one that closes a partition.
fn closing_in(words: &[u64]) -> Result<Closing, SavedFault>
    ensures closing { result ≡ closing_in words.now }
    ensures of_file { IfErr result (λ fault. is_of_outside fault ≡ false) }
{
    let [written, next, until] = words else {
        return Err(SavedFault::Count);
    };
    if *next == 0 || *next >= 4_611_686_018_427_387_904 {
        return Err(SavedFault::Count);
    }
    Ok(Closing {
        written: *written,
        next: *next,
        until: *until,
    })
}

// The next word, by way of this room.
#[tactic(auto, using(crate::proofs::Readers::word_read, crate::proofs::Readers::word_lost))]
fn read_word<S: Source>(
    source: &mut S,
    reader: &mut SavedReader,
    room: &mut Vec<u8>,
) -> Result<u64, SavedFault>
    requires open { S.has_ended source.old ≡ false }
    ensures read { Reads (λ word. word) (stream_of (S.left source.old) reader.old)
        (stream_of (S.left source.new) reader.new) result word_at }
    ensures open { OnOk result (S.has_ended source.new ≡ false) }
    ensures cause { IfErr result (HasCause (S.faults source.old) (S.faults source.new) ⊥) }
    ensures never_fall { S.faults source.old ≤ S.faults source.new }
{
    read_bytes(source, reader, 8, room)?;
    let bytes = room.as_slice();
    Ok(u64::from_le_bytes([
        bytes[0], bytes[1], bytes[2], bytes[3], bytes[4], bytes[5], bytes[6], bytes[7],
    ]))
}

// The key and the value behind the word of a pair.
fn read_texts<S: Source>(
    source: &mut S,
    reader: &mut SavedReader,
    lengths: Option<Lengths>,
    pair: &mut SavedPair,
) -> Result<(), SavedFault>
    requires open { S.has_ended source.old ≡ false }
    requires fit { IfSome lengths LengthsFit }
    ensures read { Reads (λ _. pair_of pair.new) (stream_of (S.left source.old) reader.old) (stream_of (S.left source.new) reader.new) result (texts_at lengths) }
    ensures fits { OnOk result (PairFits (pair_of pair.new)) }
    ensures open { OnOk result (S.has_ended source.new ≡ false) }
    ensures cause { IfErr result (HasCause (S.faults source.old) (S.faults source.new) ⊥) }
    ensures never_fall { S.faults source.old ≤ S.faults source.new }
{
    let Some(lengths) = lengths else {
        return Err(SavedFault::Length);
    };
    read_bytes(source, reader, lengths.key_len, &mut pair.key)?;
    read_bytes(source, reader, lengths.value_len, &mut pair.value)?;
    pair.reads = lengths.reads;
    pair.is_long = lengths.is_long;
    Ok(())
}

// What closes a partition, behind its word, by way of this room.
fn read_closing<S: Source>(
    source: &mut S,
    reader: &mut SavedReader,
    room: &mut Vec<u8>,
) -> Result<Closing, SavedFault>
    requires open { S.has_ended source.old ≡ false }
    ensures read { Reads (λ closing. closing) (stream_of (S.left source.old) reader.old) (stream_of (S.left source.new) reader.new) result closing_at }
    ensures open { OnOk result (S.has_ended source.new ≡ false) }
    ensures cause { IfErr result (HasCause (S.faults source.old) (S.faults source.new) ⊥) }
    ensures never_fall { S.faults source.old ≤ S.faults source.new }
{
    read_bytes(source, reader, 24, room)?;
    let mut words = [0u64; 3];
    pack(room.as_slice(), &mut words);
    closing_in(&words)
}

/// The next pair, in place of the one that `pair` held, or what closes the partition. `close` is 256 times how many pairs of it were read.
pub fn read_entry<S: Source>(
    source: &mut S,
    reader: &mut SavedReader,
    close: u64,
    pair: &mut SavedPair,
) -> Result<Option<Closing>, SavedFault>
    requires open { S.has_ended source.old ≡ false }
    ensures read { Reads (λ closing. entry_of closing (pair_of pair.new)) (stream_of (S.left source.old) reader.old) (stream_of (S.left source.new) reader.new) result (entry_at close) }
    ensures fits { IfOk result (λ closing. IfNone closing (PairFits (pair_of pair.new))) }
    ensures open { OnOk result (S.has_ended source.new ≡ false) }
    ensures cause { IfErr result (HasCause (S.faults source.old) (S.faults source.new) ⊥) }
    ensures never_fall { S.faults source.old ≤ S.faults source.new }
{
    let word = read_word(source, reader, &mut pair.key)?;
    if word % 256 != 0 {
        read_texts(source, reader, lengths_in(word), pair)?;
        return Ok(None);
    }
    if word != close {
        return Err(SavedFault::Count);
    }
    Ok(Some(read_closing(source, reader, &mut pair.key)?))
}

// Nothing is left in the block but zeros.
fn has_zeros_alone(rest: &[u8]) -> bool
    ensures { result ≡ list_all (λ byte. byte == 0) rest.now }
{
    rest.iter().all(|byte| *byte == 0)
}

/// The end behind the last partition: zeros to the end of the block, and nothing behind it.
pub fn read_end<S: Source>(source: &mut S, reader: &mut SavedReader) -> Result<(), SavedFault>
    requires open { S.has_ended source.old ≡ false }
    ensures ends { Ends result (stream_of (S.left source.old) reader.old) }
    ensures cause { IfErr result (HasCause (S.faults source.old) (S.faults source.new) ⊥) }
    ensures never_fall { S.faults source.old ≤ S.faults source.new }
{
    if reader.at == 0 {
        return Err(SavedFault::Trailing);
    }
    if !has_zeros_alone(&reader.block.as_slice()[reader.at..CONTENT_LEN]) {
        return Err(SavedFault::Trailing);
    }
    let mut behind = [0u8];
    if source.read(&mut behind)? > 0 {
        return Err(SavedFault::Trailing);
    }
    Ok(())
}
