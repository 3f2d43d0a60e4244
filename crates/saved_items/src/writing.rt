//! Writes saved items by a stream.
ghost use Rattle.std.specs.Prelude.{◌≡◌, ◌<◌, ◌≤◌, ◌++◌, [], vec_len, length, take, IfOk, IsErrOf, OnOk};
ghost use Rattle.std.specs.Int.{w64, to_le_bytes};
ghost use Rattle.std.specs.Io.KnownBytes.{Appends};
ghost use Rattle.outside.specs.Faults.{Rose};
ghost use Rattle.saved_items.specs.Blocks.{content_sum, block_text};
ghost use Rattle.saved_items.specs.Items.{Keeps, Closes, PairFits, pair_of};
ghost use Rattle.saved_items.specs.Spelling.{words_text, head_words, mode_word, pair_word};
ghost use Rattle.saved_items.specs.Spiller.{IsFresh, HasSaved, PutsBytes, Saves, Finishes};

use crate::blocks::{CONTENT_LEN, CONTENT_WORDS, content_sum};
use crate::items::MAGIC;
use crate::{Closing, Hashing, Head, SavedMode, SavedPair, SpillFault, Spiller};
use outside::{Sink, write_all};

// Writes this content, and behind it its sum.
fn write_summed<K: Sink>(sink: &mut K, content: &mut Vec<u8>, sum: u64) -> Result<(), SpillFault>
    ensures wrote { OnOk result (Appends (K.taken sink.old) (K.taken sink.new) (content.old.items ++ to_le_bytes w64 sum)) }
    ensures cause { IsErrOf result SpillFault.Failed → Rose (K.faults sink.old) (K.faults sink.new) }
    ensures never_fall { K.faults sink.old ≤ K.faults sink.new }
{
    content.extend_from_slice(&sum.to_le_bytes())?;
    write_all(sink, content.as_slice())?;
    Ok(())
}

// Writes a block with this content, and says the sum behind it. Where that fails, the content is gone.
fn write_block<K: Sink>(
    sink: &mut K,
    content: &mut Vec<u8>,
    words: &mut [u64],
    sum: u64,
) -> Result<u64, SpillFault>
    requires full { vec_len content.old ≡ CONTENT_LEN }
    requires words { length words.old ≡ CONTENT_WORDS }
    ensures wrote { OnOk result (Appends (K.taken sink.old) (K.taken sink.new) (block_text sum content.old.items)) }
    ensures sum { IfOk result (λ next. next ≡ content_sum sum content.old.items) }
    ensures empty { content.new.items ≡ [] }
    ensures words { length words.new ≡ CONTENT_WORDS }
    ensures cause { IsErrOf result SpillFault.Failed → Rose (K.faults sink.old) (K.faults sink.new) }
    ensures never_fall { K.faults sink.old ≤ K.faults sink.new }
{
    let next = content_sum(sum, content.as_slice(), words);
    let wrote = write_summed(sink, content, next);
    content.clear();
    wrote?;
    Ok(next)
}

// Puts the front of the bytes, as many as the block has room for, and says how many.
#[tactic(auto, using(crate::proofs::Puts::Puts_held))]
fn put_front<K: Sink>(
    sink: &mut K,
    spiller: &mut Spiller,
    bytes: &[u8],
) -> Result<usize, SpillFault>
    requires some { 0 < length bytes.now }
    ensures some { IfOk result (λ n. 0 < n) }
    ensures fits { IfOk result (λ n. n ≤ length bytes.now) }
    ensures puts { IfOk result (λ n. PutsBytes (K.taken sink.old) (K.taken sink.new) spiller.old spiller.new (take n bytes.now)) }
    ensures close { spiller.new.close ≡ spiller.old.close }
    ensures cause { IsErrOf result SpillFault.Failed → Rose (K.faults sink.old) (K.faults sink.new) }
    ensures never_fall { K.faults sink.old ≤ K.faults sink.new }
{
    let count = (CONTENT_LEN - spiller.held.len()).min(bytes.len());
    spiller.held.extend_from_slice(&bytes[..count])?;
    if spiller.held.len() == CONTENT_LEN {
        spiller.sum = write_block(
            sink,
            &mut spiller.held,
            spiller.words.as_mut_slice(),
            spiller.sum,
        )?;
    }
    Ok(count)
}

// Puts these bytes.
#[tactic(auto, using(crate::proofs::Puts::Puts_none, crate::proofs::Puts::Puts_then))]
pub(crate) fn put_bytes<K: Sink>(
    sink: &mut K,
    spiller: &mut Spiller,
    bytes: &[u8],
) -> Result<(), SpillFault>
    ensures puts { OnOk result (PutsBytes (K.taken sink.old) (K.taken sink.new) spiller.old spiller.new bytes.now) }
    ensures close { spiller.new.close ≡ spiller.old.close }
    ensures cause { IsErrOf result SpillFault.Failed → Rose (K.faults sink.old) (K.faults sink.new) }
    ensures never_fall { K.faults sink.old ≤ K.faults sink.new }
{
    let mut rest = bytes;
    while !rest.is_empty() {
        let count = put_front(sink, spiller, rest)?;
        rest = &rest[count..];
    }
    Ok(())
}

// Puts these words.
#[tactic(auto, using(crate::proofs::Puts::Puts_none))]
fn put_words<K: Sink>(sink: &mut K, spiller: &mut Spiller, words: &[u64]) -> Result<(), SpillFault>
    ensures puts { OnOk result (PutsBytes (K.taken sink.old) (K.taken sink.new) spiller.old spiller.new (words_text words.now)) }
    ensures close { spiller.new.close ≡ spiller.old.close }
    ensures cause { IsErrOf result SpillFault.Failed → Rose (K.faults sink.old) (K.faults sink.new) }
    ensures never_fall { K.faults sink.old ≤ K.faults sink.new }
{
    for word in words {
        put_bytes(sink, spiller, &word.to_le_bytes())?;
    }
    Ok(())
}

fn mode_word(mode: SavedMode) -> u64
    ensures { result ≡ mode_word mode }
{
    match mode {
        SavedMode::Cache => 0,
        SavedMode::Store => 1,
    }
}

// The seven words of the head.
fn head_words(head: &Head) -> [u64; 7]
    ensures { result ≡ head_words head.now }
{
    let mode = mode_word(head.mode);
    match head.hashing {
        Hashing::Papers => [MAGIC, head.second, 0, 0, 0, mode, head.partitions],
        Hashing::Secret(k0, k1) => [MAGIC, head.second, 1, k0, k1, mode, head.partitions],
    }
}

/// Puts the head, which comes first.
pub fn put_head<K: Sink>(sink: &mut K, spiller: &mut Spiller, head: &Head) -> Result<(), SpillFault>
    requires { IsFresh spiller.old }
    ensures saved { OnOk result (HasSaved (K.taken sink.old) (K.taken sink.new) spiller.new head.now []) }
    ensures cause { IsErrOf result SpillFault.Failed → Rose (K.faults sink.old) (K.faults sink.new) }
    ensures never_fall { K.faults sink.old ≤ K.faults sink.new }
{
    let words = head_words(head);
    put_words(sink, spiller, &words)
}

// The word of a pair.
fn pair_word(pair: &SavedPair) -> u64
    requires { PairFits (pair_of pair.now) }
    ensures { result ≡ pair_word (pair_of pair.now) }
{
    let long = if pair.is_long { 1 } else { 0 };
    pair.key.len() as u64
        + 256 * u64::from(pair.reads)
        + 1_024 * long
        + 4_294_967_296 * pair.value.len() as u64
}

/// Puts a pair of the partition at hand.
pub fn put_pair<K: Sink>(
    sink: &mut K,
    spiller: &mut Spiller,
    pair: &SavedPair,
) -> Result<(), SpillFault>
    requires { PairFits (pair_of pair.now) }
    ensures saves { OnOk result (Saves (K.taken sink.old) (K.taken sink.new) spiller.old spiller.new (Keeps (pair_of pair.now))) }
    ensures cause { IsErrOf result SpillFault.Failed → Rose (K.faults sink.old) (K.faults sink.new) }
    ensures never_fall { K.faults sink.old ≤ K.faults sink.new }
{
    let word = pair_word(pair);
    put_bytes(sink, spiller, &word.to_le_bytes())?;
    put_bytes(sink, spiller, pair.key.as_slice())?;
    put_bytes(sink, spiller, pair.value.as_slice())?;
    spiller.close = spiller.close.wrapping_add(256);
    Ok(())
}

/// Closes the partition at hand, and begins the next one.
pub fn close_partition<K: Sink>(
    sink: &mut K,
    spiller: &mut Spiller,
    closing: Closing,
) -> Result<(), SpillFault>
    ensures saves { OnOk result (Saves (K.taken sink.old) (K.taken sink.new) spiller.old spiller.new (Closes closing)) }
    ensures cause { IsErrOf result SpillFault.Failed → Rose (K.faults sink.old) (K.faults sink.new) }
    ensures never_fall { K.faults sink.old ≤ K.faults sink.new }
{
    let words = [spiller.close, closing.written, closing.next, closing.until];
    put_words(sink, spiller, &words)?;
    spiller.close = 0;
    Ok(())
}

/// Puts what is held back, with zeros to the end of its block. The file is whole then.
pub fn finish<K: Sink>(sink: &mut K, spiller: &mut Spiller) -> Result<(), SpillFault>
    ensures finishes { OnOk result (Finishes (K.taken sink.old) (K.taken sink.new) spiller.old) }
    ensures cause { IsErrOf result SpillFault.Failed → Rose (K.faults sink.old) (K.faults sink.new) }
    ensures never_fall { K.faults sink.old ≤ K.faults sink.new }
{
    if spiller.held.is_empty() {
        return Ok(());
    }
    spiller.held.resize(CONTENT_LEN, 0)?;
    spiller.sum = write_block(
        sink,
        &mut spiller.held,
        spiller.words.as_mut_slice(),
        spiller.sum,
    )?;
    Ok(())
}
