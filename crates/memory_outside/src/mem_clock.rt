//! A clock in memory.
ghost use Rattle.std.specs.Prelude.{◌≡◌, Some};

use outside::{Clock, second_after};

/// A clock that shows what its script says: a second, or nothing where it can't be read. Behind its end it can't.
#[derive(Drop)]
pub struct MemClock<'a> {
    script: &'a [Option<u64>],
    last: u64,
}

impl<'a> MemClock<'a> {
    /// A clock that shows these seconds one after another, and can't be read where there is none.
    pub fn new(script: &'a [Option<u64>]) -> MemClock<'a>
        ensures script { result.script.now ≡ script.now }
        ensures last { result.last ≡ 0 }
    {
        MemClock { script, last: 0 }
    }
}

impl<'a> Clock for MemClock<'a> {
    ghost view = { λ clock. record { last = clock.last; shows = Some clock.script.now } };

    fn second(&mut self) -> u64 {
        if let Some((shown, later)) = self.script.split_first() {
            self.last = second_after(self.last, *shown);
            self.script = later;
        }
        self.last
    }

    fn present(&self) -> u64 {
        second_after(self.last, self.script.first().copied().flatten())
    }
}
