//! The content of a file, a block at a time.
ghost use Rattle.std.specs.Prelude.{◌≡◌, ◌<◌, ◌≤◌, ◌++◌, ◌+◌, false, [], vec_len, slice_range, IfErr, OnOk};
ghost use Rattle.saved_items.specs.Causes.{HasCause};
ghost use Rattle.saved_items.specs.Moves.{Yields, Stops, Reads};
ghost use Rattle.saved_items.specs.Reading.{bytes_at};
ghost use Rattle.saved_items.specs.Reader.{rest_of, stream_of};

use crate::blocks::{BLOCK_LEN, CONTENT_LEN, read_block, sum_after};
use crate::{SavedFault, SavedReader};
use outside::{NoMemory, Source};

// The next block takes the place of one that was given whole.
#[tactic(auto, using(crate::proofs::Streams::stops_failed))]
fn load<S: Source>(source: &mut S, reader: &mut SavedReader) -> Result<(), SavedFault>
    requires open { S.has_ended source.old ≡ false }
    requires given { reader.old.at ≡ CONTENT_LEN }
    ensures same { OnOk result (Yields (stream_of (S.left source.old) reader.old) (stream_of (S.left source.new) reader.new) []) }
    ensures begun { OnOk result (reader.new.at ≡ 0) }
    ensures open { OnOk result (S.has_ended source.new ≡ false) }
    ensures stops { IfErr result (λ fault. Stops fault (stream_of (S.left source.old) reader.old)) }
    ensures cause { IfErr result (HasCause (S.faults source.old) (S.faults source.new) ⊥) }
    ensures never_fall { S.faults source.old ≤ S.faults source.new }
{
    let count = read_block(source, reader.block.as_mut_slice())?;
    if count < BLOCK_LEN {
        return Err(SavedFault::Short);
    }
    let Some(sum) = sum_after(
        reader.sum,
        reader.block.as_slice(),
        reader.words.as_mut_slice(),
    ) else {
        return Err(SavedFault::Sum);
    };
    reader.sum = sum;
    reader.at = 0;
    Ok(())
}

// There is a byte to give.
#[tactic(auto, using(crate::proofs::Streams::yields_none))]
fn make_ready<S: Source>(source: &mut S, reader: &mut SavedReader) -> Result<(), SavedFault>
    requires open { S.has_ended source.old ≡ false }
    ensures same { OnOk result (Yields (stream_of (S.left source.old) reader.old) (stream_of (S.left source.new) reader.new) []) }
    ensures ready { OnOk result (reader.new.at < CONTENT_LEN) }
    ensures open { OnOk result (S.has_ended source.new ≡ false) }
    ensures stops { IfErr result (λ fault. Stops fault (stream_of (S.left source.old) reader.old)) }
    ensures cause { IfErr result (HasCause (S.faults source.old) (S.faults source.new) ⊥) }
    ensures never_fall { S.faults source.old ≤ S.faults source.new }
{
    if reader.at < CONTENT_LEN {
        return Ok(());
    }
    load(source, reader)
}

// Up to where at most so many bytes of a block go.
fn place_behind(at: usize, most: usize) -> usize
    requires ready { at < CONTENT_LEN }
    requires some { 0 < most }
    ensures some { at < result }
    ensures within { result ≤ CONTENT_LEN }
    ensures most { result ≤ at + most }
{
    at + most.min(CONTENT_LEN - at)
}

// Gives at most so many bytes of the block.
fn give(reader: &mut SavedReader, most: usize, out: &mut Vec<u8>) -> Result<(), NoMemory>
    requires ready { reader.old.at < CONTENT_LEN }
    requires some { 0 < most }
    ensures out { OnOk result (out.new.items ≡ out.old.items ++ slice_range reader.old.block.items reader.old.at reader.new.at) }
    ensures rest { OnOk result (rest_of reader.old ≡ slice_range reader.old.block.items reader.old.at reader.new.at ++ rest_of reader.new) }
    ensures some { OnOk result (reader.old.at < reader.new.at) }
    ensures most { OnOk result (reader.new.at ≤ reader.old.at + most) }
    ensures len { OnOk result (vec_len out.new + reader.old.at ≡ vec_len out.old + reader.new.at) }
    ensures sum { reader.new.sum ≡ reader.old.sum }
{
    let to = place_behind(reader.at, most);
    out.extend_from_slice(&reader.block.as_slice()[reader.at..to])?;
    reader.at = to;
    Ok(())
}

// So many bytes, in place of those in `out`.
#[tactic(auto, using(crate::proofs::Streams::yields_none, crate::proofs::Streams::yields_reads, crate::proofs::Streams::stops_reads))]
pub(crate) fn read_bytes<S: Source>(
    source: &mut S,
    reader: &mut SavedReader,
    count: usize,
    out: &mut Vec<u8>,
) -> Result<(), SavedFault>
    requires open { S.has_ended source.old ≡ false }
    ensures read { Reads (λ _. out.new.items) (stream_of (S.left source.old) reader.old)
        (stream_of (S.left source.new) reader.new) result (bytes_at count) }
    ensures open { OnOk result (S.has_ended source.new ≡ false) }
    ensures count { OnOk result (vec_len out.new ≡ count) }
    ensures cause { IfErr result (HasCause (S.faults source.old) (S.faults source.new) ⊥) }
    ensures never_fall { S.faults source.old ≤ S.faults source.new }
{
    out.clear();
    while out.len() < count {
        make_ready(source, reader)?;
        give(reader, count - out.len(), out)?;
    }
    Ok(())
}
