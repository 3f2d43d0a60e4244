//! Loads ahead of commands: they miss the caches beside each other, where those of the commands miss one after another.

use fronts::{Front, MOST_AHEAD, load_all};
use memcached_text::spelled_key;

/// Fewer bytes than these hold a few commands at most. That is not worth a look.
const LEAST_AHEAD: usize = 96;

// Whether another command may follow the one that the bytes begin with.
fn has_more(bytes: &[u8]) -> bool {
    match spelled_key(bytes) {
        Some((_, len)) => len < bytes.len(),
        None => false,
    }
}

/// Loads what the commands that the bytes begin with will look at, at most `MOST_AHEAD` of them, where the front's tables are larger than the caches. One alone has none to miss beside.
pub fn load_ahead<F: Front>(front: &F, bytes: &[u8]) {
    if bytes.len() < LEAST_AHEAD || !front.loads_ahead() || !has_more(bytes) {
        return;
    }
    let hashing = front.hashing();
    let mut hashes = [0; MOST_AHEAD];
    let mut many = 0;
    let mut rest = bytes;
    while many < MOST_AHEAD {
        let Some((key, len)) = spelled_key(rest) else {
            break;
        };
        if len > rest.len() {
            break;
        }
        hashes[many] = hashing.key_hash(key);
        many += 1;
        rest = &rest[len..];
    }
    load_all(front, &hashes[..many]);
}
