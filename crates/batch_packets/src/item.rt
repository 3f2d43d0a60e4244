//! Requests and replies as items behind a header, which are read alike.
ghost use Rattle.std.specs.Prelude.{◌≡◌, ◌^◌, ◌<◌, ◌≤◌, ◌++◌, ℕ, List, None, length, drop, All, IsTrue, IfOk, OnOk};
ghost use Rattle.batch_packets.specs.Faults.{AnswersExactly};
ghost use Rattle.batch_packets.specs.declared.header.TheConstants.{MAX_ITEMS};
ghost use Rattle.batch_packets.specs.Datagram.{DatagramKind, SpellsItems, is_version, max_datagram_len, header_text, item_fault, items_fault, first_fault};

use crate::BatchFault;
use crate::header::{Header, read_header};

/// What a datagram has several of: requests in a batch, or replies. Its texts lie in the bytes that it is read from.
pub trait Item<'a>: Drop {
    ghost kind: { DatagramKind };

    ghost text: { Self → List ℕ };

    /// What a version may have.
    ghost is_item: { ℕ → Self → Type 0 };

    /// Its numbers are below the limits of their types.
    ghost is_in_range: { Self → Type 0 };

    fn magic() -> [u8; 4]
        ensures { result ≡ kind.magic };

    /// The item of a version at the front, and the bytes after it.
    fn read(version: u8, from: &'a [u8]) -> Result<(Self, &'a [u8]), BatchFault>
        requires { IsTrue (is_version version) }
        ensures text { IfOk result (λ x. from.now ≡ text x.0 ++ x.1.now) }
        ensures lawful { IfOk result (λ x. is_item version x.0) }
        ensures in_range { IfOk result (λ x. is_in_range x.0) }
        ensures rest { IfOk result (λ x. drop (kind.size from.now) from.now ≡ x.1.now) }
        ensures fault { AnswersExactly (item_fault kind version from.now) result };
}

/// Judges bytes as so many items of a version, after which nothing follows.
fn check_items<'a, T: Item<'a>>(version: u8, count: u8, from: &'a [u8]) -> Result<(), BatchFault>
    requires { IsTrue (is_version version) }
    ensures items { OnOk result ((items : List T) × (length items ≡ count)
        × SpellsItems T.text T.is_item T.is_in_range version from.now items) }
    ensures fault { AnswersExactly (items_fault T.kind version count from.now) result }
{
    let mut rest = from;
    for _ in 0..count {
        let (_, after) = T::read(version, rest)?;
        rest = after;
    }
    if !rest.is_empty() {
        return Err(BatchFault::Trailing);
    }
    Ok(())
}

/// Judges bytes as a datagram. It gives the header and the bytes behind it.
#[tactic(auto, unfolding(crate::specs::Datagram::first_fault))]
pub fn check_datagram<'a, T: Item<'a>>(from: &'a [u8]) -> Result<(Header, &'a [u8]), BatchFault>
    ensures text { IfOk result (λ x. from.now ≡ header_text T.kind.magic x.0.version x.0.count x.0.number ++ x.1.now) }
    ensures version { IfOk result (λ x. IsTrue (is_version x.0.version)) }
    ensures some { IfOk result (λ x. 0 < x.0.count) }
    ensures few { IfOk result (λ x. x.0.count ≤ MAX_ITEMS) }
    ensures number { IfOk result (λ x. x.0.number < 2 ^ 32) }
    ensures short { IfOk result (λ x. length from.now ≤ max_datagram_len x.0.version) }
    ensures items { IfOk result (λ x. (items : List T) × (length items ≡ x.0.count)
        × SpellsItems T.text T.is_item T.is_in_range x.0.version x.1.now items) }
    ensures fault { AnswersExactly (first_fault T.kind from.now) result }
{
    let (header, rest) = read_header(T::magic(), from)?;
    check_items::<T>(header.version, header.count, rest)?;
    Ok((header, rest))
}

/// The item at the front of bytes that were judged, and the bytes after it.
pub fn next_item<'a, T: Item<'a>>(version: u8, from: &'a [u8]) -> (T, &'a [u8])
    requires version { IsTrue (is_version version) }
    requires judged { item_fault T.kind version from.now ≡ None }
    ensures text { from.now ≡ T.text result.0 ++ result.1.now }
    ensures lawful { T.is_item version result.0 }
    ensures in_range { T.is_in_range result.0 }
{
    let Ok(item) = T::read(version, from) else {
        unreachable!();
    };
    item
}
