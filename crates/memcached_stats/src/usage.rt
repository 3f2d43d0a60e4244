//! How much processors worked for the process.

use std::sync::atomic::{AtomicU64, Ordering};

/// How much processors worked for the process, as was seen last: by its own code, and by the system's, in hundredths of a second.
#[derive(Drop)]
pub struct Usage {
    user: AtomicU64,
    system: AtomicU64,
}

impl Usage {
    /// Nothing was seen.
    pub fn new() -> Usage {
        Usage {
            user: AtomicU64::new(0),
            system: AtomicU64::new(0),
        }
    }

    /// So much was seen.
    pub fn show(&self, user: u64, system: u64) {
        self.user.store(user, Ordering::Relaxed);
        self.system.store(system, Ordering::Relaxed);
    }

    /// By its own code.
    pub fn user(&self) -> u64 {
        self.user.load(Ordering::Relaxed)
    }

    /// By the system's.
    pub fn system(&self) -> u64 {
        self.system.load(Ordering::Relaxed)
    }
}
