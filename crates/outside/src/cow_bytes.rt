//! Bytes that are borrowed or owned.
ghost use Rattle.std.specs.Prelude.{◌≡◌, []};

use crate::Bytes;
use std::alloc::Global;
use std::borrow::CowSlice;
use std::marker::Model;

/// Bytes that are borrowed, or owned: what Rust's `Cow<[u8]>` is. Clauses see the list of them.
#[derive(Drop)]
pub struct CowBytes<'a> {
    items: CowSlice<'a, u8, Global>,
}

impl<'a> Model for CowBytes<'a> {
    ghost use Rattle.std.specs.Prelude.{List, ℕ};
    ghost use Rattle.std.specs.Cow.{cow_slice_items};

    ghost Value = { List ℕ };

    ghost view = { λ b. cow_slice_items b.items };
}

impl<'a> CowBytes<'a> {
    /// No bytes.
    pub fn empty() -> CowBytes<'a>
        ensures { result ≡ [] }
    {
        b"".as_slice().into()
    }

    /// The bytes as a slice, whether they are lent or owned.
    pub fn bytes(&self) -> &[u8]
        ensures { result.now ≡ self.now }
    {
        self.items.as_slice()
    }
}

impl<'a> From<&'a [u8]> for CowBytes<'a> {
    ghost from_gives = { λ items bytes. bytes ≡ items.now };

    fn from(items: &'a [u8]) -> CowBytes<'a> {
        CowBytes {
            items: CowSlice::Borrowed(items),
        }
    }
}

impl<'a> From<Bytes> for CowBytes<'a> {
    ghost from_gives = { λ from bytes. bytes ≡ from };

    /// Takes the bytes as they are, with no copy.
    fn from(from: Bytes) -> CowBytes<'a> {
        CowBytes {
            items: CowSlice::Owned(from.into_vec()),
        }
    }
}
