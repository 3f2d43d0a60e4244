//! What a run of fronts comes to.
ghost use Rattle.std.specs.Prelude.{◌≡◌};

use outside::{Failed, NoMemory};
use std::alloc::AllocError;
use std::error::Error;
use std::fmt;

/// How many datagrams were received, how many requests stood in those that were batches, and how many were none.
#[derive(Clone, Copy, PartialEq, Eq)]
pub struct Totals {
    pub batches: u64,
    pub requests: u64,
    pub bad: u64,
}

/// Why the fronts were not served to their ends.
#[derive(Clone, Copy, Debug, PartialEq, Eq)]
pub enum ServeFault {
    /// A bind failed, or a front could not receive or send.
    Net,
    NoMemory,
}

impl fmt::Display for ServeFault {
    fn fmt<W: fmt::Write>(&self, f: &mut fmt::Formatter<W>) -> fmt::Result {
        match self {
            ServeFault::Net => f.write_str("a call of the net failed"),
            ServeFault::NoMemory => fmt::Display::fmt(&NoMemory, f),
        }
    }
}

impl Error for ServeFault {}

impl Totals {
    ghost use Rattle.std.specs.Prelude.{◌≡◌, ◌<◌, ◌+◌, ◌*◌};
    ghost use Rattle.server_words.specs.declared.limits.TheConstants.{MAX_BATCHES};
    ghost use Rattle.fronts.specs.Totals.{added, counted, none_counted};

    /// Nothing was counted yet.
    pub fn none() -> Totals
        ensures { result ≡ none_counted }
    {
        Totals {
            batches: 0,
            requests: 0,
            bad: 0,
        }
    }

    /// Counts what another front counted.
    pub fn add(&mut self, other: Totals)
        requires batches { self.old.batches + other.batches < 18446744073709551616 }
        requires requests { self.old.requests + other.requests < 18446744073709551616 }
        requires bad { self.old.bad + other.bad < 18446744073709551616 }
        ensures { self.new ≡ added self.old other }
    {
        self.batches += other.batches;
        self.requests += other.requests;
        self.bad += other.bad;
    }

    /// Counts one more datagram, of so many requests.
    pub fn count(&mut self, requests: u32)
        requires batches { self.old.batches < MAX_BATCHES }
        requires requests { self.old.requests < 255 * MAX_BATCHES }
        requires bad { self.old.bad < MAX_BATCHES }
        ensures { self.new ≡ counted requests self.old }
    {
        self.batches += 1;
        self.requests += u64::from(requests);
        if requests == 0 {
            self.bad += 1;
        }
    }
}

impl From<NoMemory> for ServeFault {
    ghost use Rattle.fronts.specs.declared.totals.ServeFault.TheVariants.{NoMemory};

    ghost from_gives = { λ _ e. e ≡ NoMemory };

    fn from(_: NoMemory) -> Self {
        ServeFault::NoMemory
    }
}

impl From<AllocError> for ServeFault {
    ghost use Rattle.fronts.specs.declared.totals.ServeFault.TheVariants.{NoMemory};

    ghost from_gives = { λ _ e. e ≡ NoMemory };

    fn from(_: AllocError) -> Self {
        ServeFault::NoMemory
    }
}

impl From<Failed> for ServeFault {
    ghost use Rattle.fronts.specs.declared.totals.ServeFault.TheVariants.{Net};

    ghost from_gives = { λ _ e. e ≡ Net };

    fn from(_: Failed) -> Self {
        ServeFault::Net
    }
}
