//! What is loaded of a file.
ghost use Rattle.std.specs.Prelude.{◌≡◌, OnOk};
ghost use Rattle.kept_items.specs.Loaded.{lasts, next_after, PassesOn, RefusesWhatLasts};

use memcached_text::read_item;
use saved_items::{Closing, Refused, SavedPair, TakesEntries};

/// Whether the time of what is stored has not come at a second.
pub fn lasts(second: u64, stored: &[u8]) -> bool
    ensures { result ≡ lasts second stored.now }
{
    let item = read_item(stored);
    item.expires == 0 || second < u64::from(item.expires)
}

/// Hands on to `taker` what is not over at a start, and each closing, and keeps the greatest of the next unique numbers.
#[derive(Drop)]
pub struct Lasting<T> {
    pub taker: T,
    /// The server's second at the start.
    pub second: u64,
    /// No item that was handed on has this unique number, nor one above it.
    pub next: u64,
}

impl<T: TakesEntries> TakesEntries for Lasting<T> {
    ghost takes = { λ old entry new. (new.second ≡ old.second) × (new.next ≡ next_after old.next entry) × PassesOn T.takes old.second old.taker entry new.taker };

    ghost refuses = { λ old entry new. (new.second ≡ old.second) × (new.next ≡ old.next) × RefusesWhatLasts T.refuses old.second old.taker entry new.taker };

    fn pair(&mut self, pair: &SavedPair) -> Result<(), Refused> {
        if lasts(self.second, pair.value.as_slice()) {
            return self.taker.pair(pair);
        }
        Ok(())
    }

    fn close(&mut self, closing: Closing) -> Result<(), Refused> {
        self.taker.close(closing)?;
        self.next = self.next.max(closing.next);
        Ok(())
    }
}
