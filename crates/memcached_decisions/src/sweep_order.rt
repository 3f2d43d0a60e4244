//! A sweep, as a decision.
ghost use Rattle.std.specs.Prelude.{◌≡◌, ℕ, true};
ghost use Rattle.memcached_decisions.specs.Over.{is_over, sweeping};

use crate::order::moment_at;
use fronts::{Decide, When};
use memcached_commands::is_there;
use memcached_text::read_item;
use partition_model::{Change, ItemBuf};
use std::marker::Model;

/// Takes away what is over, where the first value that its partition accepts has this unique number.
#[derive(Drop)]
pub struct SweepOrder {
    base: u64,
}

impl Model for SweepOrder {
    ghost Value = { ℕ };

    ghost view = { λ order. order.base };
}

impl SweepOrder {
    /// A sweep of partitions whose unique numbers begin at the base.
    pub fn new(base: u64) -> SweepOrder
        ensures { result ≡ base }
    {
        SweepOrder { base }
    }
}

/// Whether what is stored was stored here and is not there any more.
pub fn is_over(base: u64, when: When, stored: &[u8]) -> bool
    ensures { result ≡ is_over base when stored.now }
{
    let item = read_item(stored);
    let at = moment_at(base, when);
    !is_there(&at, &item) && base <= item.unique && item.unique < at.unique
}

impl Decide for SweepOrder {
    ghost becoming = { sweeping };

    ghost needs = { λ _. true };

    fn looks(&self) -> bool {
        true
    }

    fn decide(&self, when: When, found: Option<&[u8]>, _next: &mut ItemBuf) -> Change {
        match found {
            Some(stored) if is_over(self.base, when, stored) => Change::Go,
            _ => Change::Stay,
        }
    }
}
