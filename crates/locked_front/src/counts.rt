//! What is counted where a partition is held, and what is learned there.
ghost use Rattle.std.specs.Prelude.{◌≡◌, ◌*◌, nat_le};
ghost use Rattle.partition_words.specs.OwnerState.{options_in};
ghost use Rattle.partition_words.specs.Joins.{lent};
ghost use Rattle.fronts.specs.Flushes.{AreKept};
ghost use Rattle.locked_front.specs.Counts.{counts_after, when_by};

use fronts::{Flushes, KeptFlushes, When};
use partition_table::{Note, ReaderSeat};
use partition_words::{LendPartition, Partition};

/// The stamp behind a history, how many writes it has, how many of them are in bucket 0, and what its flushes come to, which are all there.
#[derive(Clone, Copy)]
pub struct HistoryCounts {
    pub stamp: u64,
    pub written: u64,
    pub in_first: u64,
    pub flushes: Flushes,
}

impl HistoryCounts {
    /// What is counted of a partition whose flushes are these.
    pub fn of<P: Partition>(part: &P, kept: &KeptFlushes) -> HistoryCounts
        requires { AreKept (P.owner part.now).shape.hashing (P.owner part.now).shape.buckets (P.owner part.now).history kept.now }
        ensures { result ≡ counts_after (options_in (P.owner part.now)) (P.owner part.now).history }
    {
        HistoryCounts {
            stamp: part.stamp(),
            written: part.accepted(),
            in_first: kept.in_first,
            flushes: kept.flushes,
        }
    }

    /// Whether no flush stands behind this history, by the epoch of bucket 0.
    pub fn has_all_flushes(&self, epoch: u64) -> bool
        ensures { result ≡ nat_le epoch (2 * self.now.in_first) }
    {
        epoch <= self.in_first.saturating_mul(2)
    }

    /// When a decision is made that is made of this history.
    pub fn when_at(&self, second: u64) -> When
        ensures { result ≡ when_by second self.now }
    {
        When {
            second,
            written: self.written,
            flushed: self.flushes.flushed_at(second),
            until: self.flushes.waits_at(second),
        }
    }
}

/// What is learned under a hold: what is counted there, and a note that has seen it.
#[derive(Drop)]
pub struct Learned {
    pub counts: HistoryCounts,
    pub note: Note,
}

/// What is learned of a partition whose flushes are these.
pub(crate) fn learn_of<P: LendPartition<Reader = ReaderSeat, Note = Note>>(
    part: &mut P,
    kept: &KeptFlushes,
) -> Learned
    requires { AreKept (P.owner part.old).shape.hashing (P.owner part.old).shape.buckets (P.owner part.old).history kept.now }
    ensures counts { result.counts ≡ counts_after (options_in (P.owner part.old)) (P.owner part.old).history }
    ensures lent { (P.noted result.note ≡ lent (P.owner part.old)) × (P.note_home result.note ≡ P.home part.old) }
    ensures same { P.owner part.new ≡ P.owner part.old }
    ensures home { P.home part.new ≡ P.home part.old }
{
    let counts = HistoryCounts::of(part, kept);
    let note = part.note();
    Learned { counts, note }
}
