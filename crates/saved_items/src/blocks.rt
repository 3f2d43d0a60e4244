//! Blocks of one length: content, and behind it the sum of the words of all content up to there.
ghost use Rattle.std.specs.Prelude.{◌≡◌, ◌<◌, ◌≤◌, ◌==◌, ◌+◌, false, length, take, drop, IfOk, OnErr};
ghost use Rattle.std.specs.Io.KnownBytes.{Consumes, IsAtEnd};
ghost use Rattle.outside.specs.Faults.{Rose};
ghost use Rattle.saved_items.specs.Reading.{sum_after};
ghost use Rattle.saved_items.specs.Blocks.{content_sum};

use mica_words::pack;
use outside::{Failed, Source};
use word_sums::sum_of;

/// The bytes of a block.
pub const BLOCK_LEN: usize = 65_536;

/// The bytes of a block before its sum.
pub const CONTENT_LEN: usize = 65_528;

/// The words of a block before its sum.
pub const CONTENT_WORDS: usize = 8_191;

/// The sum of nothing.
pub const FIRST_SUM: u64 = 0xcbf2_9ce4_8422_2325;

// One read behind the first bytes, so many.
fn read_after<S: Source>(source: &mut S, block: &mut [u8], filled: usize) -> Result<usize, Failed>
    requires room { filled < length block.old }
    requires open { S.has_ended source.old ≡ false }
    ensures fits { IfOk result (λ n. filled + n ≤ length block.new) }
    ensures front { take filled block.new ≡ take filled block.old }
    ensures given { IfOk result (λ n. Consumes (S.left source.old) (S.left source.new) (take n (drop filled block.new))) }
    ensures end { IfOk result (λ n. n ≡ 0 → IsAtEnd (S.left source.new)) }
    ensures ended { IfOk result (λ n. S.has_ended source.new ≡ (n == 0)) }
    ensures cause { OnErr result (Rose (S.faults source.old) (S.faults source.new)) }
    ensures never_fall { S.faults source.old ≤ S.faults source.new }
{
    source.read(&mut block[filled..])
}

// Fills the block with what comes, and says how many bytes that are: fewer only at the end.
pub(crate) fn read_block<S: Source>(source: &mut S, block: &mut [u8]) -> Result<usize, Failed>
    requires open { S.has_ended source.old ≡ false }
    ensures fits { IfOk result (λ n. n ≤ length block.new) }
    ensures given { IfOk result (λ n. Consumes (S.left source.old) (S.left source.new) (take n block.new)) }
    ensures end { IfOk result (λ n. n < length block.new → IsAtEnd (S.left source.new)) }
    ensures open { IfOk result (λ n. length block.new ≤ n → S.has_ended source.new ≡ false) }
    ensures cause { OnErr result (Rose (S.faults source.old) (S.faults source.new)) }
    ensures never_fall { S.faults source.old ≤ S.faults source.new }
{
    let mut filled = 0;
    while filled < block.len() {
        let count = read_after(source, block, filled)?;
        if count == 0 {
            return Ok(filled);
        }
        filled += count;
    }
    Ok(filled)
}

// The sum behind this content.
#[tactic(auto, unfolding(crate::specs::Blocks::content_sum))]
pub(crate) fn content_sum(sum: u64, content: &[u8], words: &mut [u64]) -> u64
    requires content { length content.now ≡ CONTENT_LEN }
    requires words { length words.old ≡ CONTENT_WORDS }
    ensures { result ≡ content_sum sum content.now }
{
    pack(content, words);
    sum_of(sum, words)
}

// The sum behind the block, where it is the one that the block tells.
pub(crate) fn sum_after(sum: u64, block: &[u8], words: &mut [u64]) -> Option<u64>
    requires block { length block.now ≡ BLOCK_LEN }
    requires words { length words.old ≡ CONTENT_WORDS }
    ensures { result ≡ sum_after sum block.now }
{
    let (content, told) = block.split_at(CONTENT_LEN);
    let next = content_sum(sum, content, words);
    let told = u64::from_le_bytes([
        told[0], told[1], told[2], told[3], told[4], told[5], told[6], told[7],
    ]);
    if told == next { Some(next) } else { None }
}
