//! What tells seconds.
ghost use Rattle.std.specs.Prelude.{◌≡◌};
ghost use Rattle.outside.specs.Seconds.{ClockView, IsReading, once_read, second_after};

/// What tells seconds, from the beginning of 1970 on.
pub trait Clock {
    /// The last second that it told, and at first one that it will not fall below; and what it shows from now on, where it tells that.
    ghost view: { Self → ClockView };

    /// The present second.
    fn second(&mut self) -> u64
        ensures told { IsReading (view self.old) result }
        ensures once { view self.new ≡ once_read result (view self.old) };

    /// The present second where nothing is decided by it: it is shown, and does not count as told.
    fn present(&self) -> u64
        ensures { IsReading (view self.now) result };
}

// The second that is told where the clock shows this.
pub fn second_after(last: u64, shown: Option<u64>) -> u64
    ensures { result ≡ second_after last shown }
{
    match shown {
        Some(second) => last.max(second),
        None => last,
    }
}
