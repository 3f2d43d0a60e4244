//! What goes wrong at the doors of a place, for whoever looks.

use std::io;
use std::sync::atomic::{AtomicU64, Ordering};

/// What went wrong at the doors of a place since the start. All may look.
#[derive(Drop)]
pub struct DoorTroubles {
    turned_away: AtomicU64,
    refusals: AtomicU64,
    /// The system's number of the last refusal.
    last_error: AtomicU64,
}

impl DoorTroubles {
    /// Nothing did.
    pub fn new() -> DoorTroubles {
        DoorTroubles {
            turned_away: AtomicU64::new(0),
            refusals: AtomicU64::new(0),
            last_error: AtomicU64::new(0),
        }
    }

    /// How many connections were turned away, since there were as many as may be.
    pub fn turned_away(&self) -> u64 {
        self.turned_away.load(Ordering::Relaxed)
    }

    /// How often the system gave no connection, though one waited.
    pub fn refusals(&self) -> u64 {
        self.refusals.load(Ordering::Relaxed)
    }

    /// Why it gave none the last time.
    pub fn last_refusal(&self) -> io::Error {
        let number = self.last_error.load(Ordering::Relaxed);
        io::Error::from_raw_os_error(i32::try_from(number).unwrap_or(0))
    }

    pub(crate) fn count_turned_away(&self) {
        self.turned_away.fetch_add(1, Ordering::SeqCst);
    }

    pub(crate) fn count_refusal(&self, error: &io::Error) {
        let number = error.raw_os_error().unwrap_or(0);
        self.last_error
            .store(u64::from(number.unsigned_abs()), Ordering::Relaxed);
        self.refusals.fetch_add(1, Ordering::SeqCst);
    }
}
