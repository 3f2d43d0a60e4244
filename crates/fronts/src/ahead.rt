//! Loads ahead of keys: they miss the caches beside each other, where those of gets and writes miss one after another.

use crate::front::Front;

/// At most so many keys are loaded ahead at a time.
pub const MOST_AHEAD: usize = 255;

/// Loads what is found by these hashes, at most `MOST_AHEAD` of them: all buckets, then all items. If each were searched for before the next, their misses would wait for each other.
pub fn load_all<F: Front>(front: &F, hashes: &[u64]) {
    for hash in hashes.iter() {
        front.load_bucket(*hash);
    }
    let mut entries = [0; MOST_AHEAD];
    for (entry, hash) in entries.iter_mut().zip(hashes.iter()) {
        *entry = front.entry_of(*hash);
    }
    for (entry, hash) in entries.iter().zip(hashes.iter()) {
        front.load_item(*hash, *entry);
    }
}
