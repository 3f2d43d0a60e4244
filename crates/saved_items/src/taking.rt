//! Who takes the entries of a file, one after another, and what is handed on.
ghost use Rattle.std.specs.Prelude.{◌≡◌, ◌<◌, ◌≤◌, ◌+◌, ◌-◌, ◌%◌, ◌^◌, ◌⊎◌, false, if◌then◌else◌, Some, None, OnOk, OnErr, IfOk, IfErr};
ghost use Rattle.saved_items.specs.Items.{Entry, Keeps, Closes, PairFits, pair_of};
ghost use Rattle.saved_items.specs.Reader.{stream_of};
ghost use Rattle.saved_items.specs.Moves.{HandsOn, RefusesOne, TakesOne, TakesNone, is_of_outside};
ghost use Rattle.saved_items.specs.Causes.{HasCause, Refuses, TakesMost};

use crate::reading::{read_end, read_entry};
use crate::{Closing, SavedFault, SavedPair, SavedReader};
use outside::Source;

/// Who takes entries refused one.
#[derive(Clone, Copy, Debug, PartialEq, Eq)]
pub struct Refused;

impl From<Refused> for SavedFault {
    ghost use Rattle.saved_items.specs.declared.fault.SavedFault.TheVariants.{Refused};

    ghost from_gives = { λ _ e. e ≡ Refused };

    fn from(_: Refused) -> Self {
        SavedFault::Refused
    }
}

/// Who takes the entries of a file.
pub trait TakesEntries {
    /// What an entry makes of it.
    ghost takes: { Self → Entry → Self → Type 0 };

    /// What one makes of it that it refuses.
    ghost refuses: { Self → Entry → Self → Type 0 };

    /// A pair of the partition at hand.
    fn pair(&mut self, pair: &SavedPair) -> Result<(), Refused>
        requires { PairFits (pair_of pair.now) }
        ensures takes { OnOk result (takes self.old (Keeps (pair_of pair.now)) self.new) }
        ensures refuses { OnErr result (refuses self.old (Keeps (pair_of pair.now)) self.new) };

    /// The partition at hand has no more pairs.
    fn close(&mut self, closing: Closing) -> Result<(), Refused>
        ensures takes { OnOk result (takes self.old (Closes closing) self.new) }
        ensures refuses { OnErr result (refuses self.old (Closes closing) self.new) };
}

// One entry is read and handed on. Says whether it closed the partition.
#[tactic(auto, using(crate::proofs::Takes::took_none, crate::proofs::Takes::refused))]
fn take_entry<S: Source, T: TakesEntries>(
    source: &mut S,
    reader: &mut SavedReader,
    close: u64,
    pair: &mut SavedPair,
    taker: &mut T,
) -> Result<bool, SavedFault>
    requires open { S.has_ended source.old ≡ false }
    ensures takes { IfOk result (λ closed. TakesOne T.takes taker.old taker.new close closed (stream_of (S.left source.old) reader.old) (stream_of (S.left source.new) reader.new)) }
    ensures fault { IfErr result (λ fault. is_of_outside fault ≡ false → TakesNone taker.old taker.new close (stream_of (S.left source.old) reader.old) fault) }
    ensures cause { IfErr result (HasCause (S.faults source.old) (S.faults source.new)
        (RefusesOne T.refuses taker.old taker.new close (stream_of (S.left source.old) reader.old) (stream_of (S.left source.new) reader.new))) }
    ensures never_fall { S.faults source.old ≤ S.faults source.new }
    ensures open { OnOk result (S.has_ended source.new ≡ false) }
{
    match read_entry(source, reader, close, pair)? {
        None => {
            taker.pair(pair)?;
            Ok(false)
        }
        Some(closing) => {
            taker.close(closing)?;
            Ok(true)
        }
    }
}

// How many partitions are still to be closed, behind an entry that closed one or did not.
fn left_behind(left: u64, closed: bool) -> u64
    requires { 0 < left }
    ensures { result ≡ (if closed then left - 1 else left) }
{
    if closed { left - 1 } else { left }
}

// What closes the pairs of the partition at hand, behind such an entry.
fn close_behind(close: u64, closed: bool) -> u64
    ensures { result ≡ (if closed then 0 else (close + 256) % 2 ^ 64) }
{
    if closed { 0 } else { close.wrapping_add(256) }
}

/// Hands on what stands behind the head, entry by entry, to its end. `pair` is room that is used again. Of entries that can't be counted the first beyond is refused.
#[tactic(auto, using(crate::proofs::Takes::taken_none))]
pub fn read_entries<S: Source, T: TakesEntries>(
    source: &mut S,
    reader: &mut SavedReader,
    partitions: u64,
    pair: &mut SavedPair,
    taker: &mut T,
) -> Result<(), SavedFault>
    requires open { S.has_ended source.old ≡ false }
    ensures all { OnOk result (HandsOn T.takes taker.old taker.new partitions 0 (stream_of (S.left source.old) reader.old) None) }
    ensures fault { IfErr result (λ fault. is_of_outside fault ≡ false → HandsOn T.takes taker.old taker.new partitions 0 (stream_of (S.left source.old) reader.old) (Some fault)) }
    ensures cause { IfErr result (HasCause (S.faults source.old) (S.faults source.new)
        (Refuses T.takes T.refuses taker.old taker.new partitions 0 (stream_of (S.left source.old) reader.old) ⊎ TakesMost T.takes taker.old taker.new)) }
    ensures never_fall { S.faults source.old ≤ S.faults source.new }
{
    let mut left = partitions;
    let mut close = 0u64;
    for _turn in 0..u64::MAX {
        if left == 0 {
            return read_end(source, reader);
        }
        let closed = take_entry(source, reader, close, pair, taker)?;
        left = left_behind(left, closed);
        close = close_behind(close, closed);
    }
    Err(SavedFault::Refused)
}
