//! What time an item is left, and who is to store a newer one.
ghost use Rattle.std.specs.Prelude.{◌≡◌};
ghost use Rattle.memcached_commands.specs.Decide.{end_by, left_of, left_until, left_over, limit_of, ends_before, wants_newer, wins};

use crate::{Lease, Left, Moment, end_of, ended_by};
use memcached_text::{Item, Lifetime};

// For how many seconds an item that ends then is left. None where it is left for ever.
fn left_of(at: &Moment, expires: u32) -> Option<u64>
    ensures { result ≡ left_of at.now expires }
{
    let end = ended_by(at.until, expires);
    if end == 0 {
        None
    } else {
        Some(u64::from(end).saturating_sub(at.second))
    }
}

// The same of an item that is kept until then, or gone at once.
fn left_until(at: &Moment, end: Option<u32>) -> Option<u64>
    ensures { result ≡ left_until at.now end }
{
    match end {
        Some(end) => left_of(at, end),
        None => Some(0),
    }
}

// For how many seconds an item that ended then is left before a command, and behind one that sets its end.
pub fn left_over(at: &Moment, before: u32, after: Option<u32>) -> Left
    ensures { result ≡ left_over at.now before after }
{
    Left {
        before: left_of(at, before),
        after: left_until(at, after),
    }
}

// The end of an item where a lifetime is asked for, and else as it was.
pub fn end_by(at: &Moment, lifetime: Option<Lifetime>, item: &Item) -> Option<u32>
    ensures { result ≡ end_by at.now lifetime item.now }
{
    match lifetime {
        Some(lifetime) => end_of(at.second, lifetime),
        None => Some(item.expires),
    }
}

// Whether an item that ends does so before this.
fn ends_before(limit: Option<u32>, end: Option<u32>) -> bool
    ensures { result ≡ ends_before limit end }
{
    match (limit, end) {
        (Some(limit), Some(end)) => 0 < end && end < limit,
        _ => false,
    }
}

fn limit_of(at: &Moment, recache: Option<Lifetime>) -> Option<u32>
    ensures { result ≡ limit_of at.now recache }
{
    end_of(at.second, recache?)
}

fn wants_newer(at: &Moment, lease: &Lease, item: &Item) -> bool
    ensures { result ≡ wants_newer at.now lease.now item.now }
{
    let end = if lease.is_late {
        end_by(at, lease.touch, item)
    } else {
        Some(item.expires)
    };
    ends_before(limit_of(at, lease.recache), end)
}

// Whether a client is told to store a newer item.
pub fn wins(at: &Moment, lease: &Lease, item: &Item) -> bool
    ensures { result ≡ wins at.now lease.now item.now }
{
    !item.won && (item.stale || wants_newer(at, lease, item))
}
