//! A clock of this machine.
ghost use Rattle.std.specs.Prelude.{None};

use libc::types::timespec;
use outside::{Clock, second_after};
use std::time;
use std::time::{Duration, SystemTime, UNIX_EPOCH};

/// The system's clock that goes on while the machine is suspended, and that nobody sets: `CLOCK_BOOTTIME`.
const BOOT_CLOCK: i32 = 7;

/// A clock that begins at the time of day and goes on by a clock that nobody sets, also while the machine is suspended. So a step of the time of day changes
/// nothing of it. Its copies tell the same seconds.
#[derive(Clone, Copy)]
pub struct StdClock {
    start: Duration,
    /// What the other clock showed at the start, where it can be read.
    boot_at_start: Option<Duration>,
    last: u64,
}

// The time that the machine is up, where it can be read.
fn since_boot() -> Option<Duration> {
    let mut time = timespec {
        tv_sec: 0,
        tv_nsec: 0,
    };
    if libc::clock_gettime(BOOT_CLOCK, &mut time) != 0 {
        return None;
    }
    let seconds = u64::try_from(time.tv_sec).ok()?;
    let nanos = Duration::from_nanos(time.tv_nsec.unsigned_abs());
    Some(Duration::from_secs(seconds).saturating_add(nanos))
}

// The time of day, where it can be read.
fn time_of_day(rt: &impl time::Clock) -> Option<Duration> {
    SystemTime::now(rt).ok()?.duration_since(UNIX_EPOCH).ok()
}

impl StdClock {
    /// A clock that begins at the present time of day.
    pub fn new(rt: &impl time::Clock) -> StdClock {
        let start = time_of_day(rt).unwrap_or(Duration::ZERO);
        StdClock {
            start,
            boot_at_start: since_boot(),
            last: start.as_secs(),
        }
    }

    // What it shows.
    fn shown(&self) -> Option<u64> {
        let passed = since_boot()?.saturating_sub(self.boot_at_start?);
        Some(self.start.saturating_add(passed).as_secs())
    }
}

impl Clock for StdClock {
    ghost view = { λ clock. record { last = clock.last; shows = None } };

    fn second(&mut self) -> u64 {
        self.last = second_after(self.last, self.shown());
        self.last
    }

    fn present(&self) -> u64 {
        second_after(self.last, self.shown())
    }
}
