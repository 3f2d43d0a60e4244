//! The gate of a row.

use crate::row::Row;
use outside::Gate;
use std::hint::spin_loop;
use std::sync::atomic::{AtomicBool, AtomicU64, Ordering};

/// A gate that counts its calls, and at which two workers meet, where the row says so: they come at their calls of number 1, and the first is
/// held at a call of its own until the second came, and the second where it comes until the first came.
#[derive(Drop)]
pub struct RowGate {
    /// The first worker, the call at which it is held, and the second worker.
    meeting: Option<(u32, u32, u32)>,
    first_came: AtomicBool,
    second_came: AtomicBool,
    missed: AtomicBool,
    /// The calls of each of the first four workers in 16 bits of its own: digit `call` of these says how often it called with that number, and the
    /// last digit with any behind.
    counts: AtomicU64,
}

/// How often the gate must be called, where the row says so.
fn counts_of(row: &Row) -> Option<u64> {
    let mut counts = None;
    for entry in &row.entries {
        if entry.is("calls") {
            let mut sum = 0u64;
            for call in 0..4u32 {
                sum |= (entry.long(2 + call as usize) & 0xf) << (4 * call);
            }
            counts = Some(counts.unwrap_or(0) | sum << (16 * entry.number(1).min(3)));
        }
    }
    counts
}

impl RowGate {
    /// The gate of a row.
    pub fn new(row: &Row) -> RowGate {
        RowGate {
            meeting: row.find("meet").map(|entry| (
                entry.number(1),
                entry.number(2),
                entry.number(3),
            )),
            first_came: AtomicBool::new(false),
            second_came: AtomicBool::new(false),
            missed: AtomicBool::new(false),
            counts: AtomicU64::new(0),
        }
    }

    /// Whether it was called as the row says, and nobody was held in vain.
    pub fn was_called(&self, row: &Row) -> bool {
        let counts = self.counts.load(Ordering::SeqCst);
        !self.missed.load(Ordering::SeqCst) && counts_of(row).unwrap_or(counts) == counts
    }

    fn wait_for(&self, other: &AtomicBool) {
        for _ in 0..100_000_000u32 {
            if other.load(Ordering::SeqCst) {
                return;
            }
            spin_loop();
        }
        self.missed.store(true, Ordering::SeqCst);
    }

    fn meet(&self, first: u32, held_at: u32, second: u32, worker: u32, call: u32) {
        if worker == first {
            if call == 1 {
                self.first_came.store(true, Ordering::SeqCst);
            }
            if call == held_at {
                self.wait_for(&self.second_came);
            }
        } else if worker == second && call == 1 {
            self.second_came.store(true, Ordering::SeqCst);
            self.wait_for(&self.first_came);
        }
    }
}

impl Gate for RowGate {
    fn turn(&self, worker: u32, call: u32) {
        let place = 16 * worker.min(3) + 4 * call.min(3);
        self.counts.fetch_add(1 << place, Ordering::SeqCst);
        if let Some((first, held_at, second)) = self.meeting {
            self.meet(first, held_at, second, worker, call);
        }
    }
}
