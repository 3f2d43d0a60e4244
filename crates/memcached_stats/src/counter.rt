//! What a front counts.
ghost use Rattle.std.specs.Prelude.{◌≡◌, option_copied};
ghost use Rattle.memcached_stats.specs.Counted.{counter_by, counter_of, counter_of_store, counter_of_swap, counter_of_get, counter_of_touch, counter_of_lease, counter_of_count, counter_of_delete, counter_beside, counter_of_gone, counter_of_stored, counter_of_refusal};

use memcached_commands::{Ask, Moment, Says, is_there};
use memcached_requests::{Next, Request};
use memcached_text::{Direction, Fault, Item, Lifetime, Reply, Wants, read_item};

/// What a front counts.
#[derive(Clone, Copy)]
pub enum Counter {
    /// Stores and joins that found room. A store that wants an item's number counts as one of the three below where it found this number, no item, or another number.
    Sets,
    CasHits,
    CasMisses,
    CasBadval,
    GetHits,
    GetMisses,
    TouchHits,
    TouchMisses,
    DeleteHits,
    DeleteMisses,
    IncrHits,
    IncrMisses,
    DecrHits,
    DecrMisses,
    Flushes,
    /// Stores and joins of a value that is too long.
    StoresTooLarge,
    /// Those that found no room.
    StoresRefused,
    /// Items that were stored.
    Items,
    /// Keys that were looked for and not found, whose item was over by its own end.
    Expired,
    /// Those whose item was flushed.
    Flushed,
    /// Connections that came.
    Opened,
    /// Those of them that are closed.
    Closed,
    /// Those that were closed at once, since there was no memory for them.
    Rejected,
    /// Those that were closed later since the server was out of memory.
    Lacked,
    /// The most places for connections that a front ever had.
    Structures,
    /// Visits at which more of a connection was left to do.
    Yields,
    /// Bytes that were received.
    Received,
    /// Bytes that were sent.
    Sent,
}

/// How many counters there are.
pub const COUNTERS: usize = 28;

// By a get.
fn get_counter(says: &Says) -> Option<Counter>
    ensures { result ≡ counter_of_get says.now }
{
    match says {
        Says::Shows(_) | Says::Leases { .. } => Some(Counter::GetHits),
        Says::Nothing => Some(Counter::GetMisses),
        _ => None,
    }
}

// By a touch, and by a get that touches.
fn touch_counter(says: &Says) -> Option<Counter>
    ensures { result ≡ counter_of_touch says.now }
{
    match says {
        Says::Shows(_) | Says::Leases { .. } | Says::Line(Reply::Touched) => {
            Some(Counter::TouchHits)
        }
        Says::Nothing | Says::Line(Reply::NotFound) => Some(Counter::TouchMisses),
        _ => None,
    }
}

// By a get that may lead to a newer item.
fn lease_counter(touch: Option<Lifetime>, says: &Says) -> Option<Counter>
    ensures { result ≡ counter_of_lease touch says.now }
{
    match touch {
        Some(_) => touch_counter(says),
        None => get_counter(says),
    }
}

fn delete_counter(says: &Says) -> Option<Counter>
    ensures { result ≡ counter_of_delete says.now }
{
    match says {
        Says::Line(Reply::Deleted) => Some(Counter::DeleteHits),
        Says::Line(Reply::NotFound) => Some(Counter::DeleteMisses),
        _ => None,
    }
}

// By a store or a join.
fn store_counter(says: &Says) -> Option<Counter>
    ensures { result ≡ counter_of_store says.now }
{
    match says {
        Says::Line(Reply::NoRoom) => Some(Counter::StoresRefused),
        _ => Some(Counter::Sets),
    }
}

// By a store that means an item's number.
fn swap_counter(says: &Says) -> Option<Counter>
    ensures { result ≡ counter_of_swap says.now }
{
    match says {
        Says::Stores(_) => Some(Counter::CasHits),
        Says::Line(Reply::NotFound) => Some(Counter::CasMisses),
        Says::Line(Reply::Exists) => Some(Counter::CasBadval),
        _ => store_counter(says),
    }
}

fn count_counter(direction: Direction, says: &Says) -> Option<Counter>
    ensures { result ≡ counter_of_count direction says.now }
{
    let (hits, misses) = match direction {
        Direction::Up => (Counter::IncrHits, Counter::IncrMisses),
        Direction::Down => (Counter::DecrHits, Counter::DecrMisses),
    };
    match says {
        Says::Number { made: false, .. } => Some(hits),
        Says::Line(Reply::NotFound) => Some(misses),
        _ => None,
    }
}

/// Which counter is raised by what a key was asked and what was said of it, if any.
#[inline(always)]
pub fn counter_of(ask: &Ask, says: &Says) -> Option<Counter>
    ensures { result ≡ counter_of ask.now says.now }
{
    match ask {
        Ask::Get => get_counter(says),
        Ask::GetTouch(_) | Ask::Touch(_) => touch_counter(says),
        Ask::Leased(lease) => lease_counter(lease.touch, says),
        Ask::Delete { .. } => delete_counter(says),
        Ask::Store {
            wants: Wants::Numbered(_) | Wants::AtLeast(_),
            ..
        } => swap_counter(says),
        Ask::Store { .. } | Ask::Join { .. } => store_counter(says),
        Ask::Count { direction, .. } => count_counter(*direction, says),
        Ask::Mark { .. } if matches!(says, Says::Line(Reply::NotFound)) => {
            Some(Counter::DeleteMisses)
        }
        Ask::Mark { .. } => None,
        Ask::Spoil => Some(Counter::StoresTooLarge),
    }
}

// By an item that may not be there any more.
fn gone_counter(at: &Moment, item: &Item) -> Option<Counter>
    ensures { result ≡ counter_of_gone at.now item.now }
{
    if is_there(at, item) {
        return None;
    }
    Some(if at.flushed <= item.unique {
        Counter::Expired
    } else {
        Counter::Flushed
    })
}

/// Which counter is raised beside that by what was said of a key, and by what is stored of one that was not found, if any.
#[inline(always)]
pub fn counter_beside(says: &Says, at: &Moment, stored: Option<&[u8]>) -> Option<Counter>
    ensures { result ≡ counter_beside says.now (counter_of_stored at.now (option_copied stored.entry)) }
{
    match says {
        Says::Stores(_) | Says::Number { made: true, .. } => Some(Counter::Items),
        Says::Nothing | Says::Line(Reply::NotFound) | Says::Line(Reply::NotStored) => {
            gone_counter(at, &read_item(stored?))
        }
        _ => None,
    }
}

// By what is refused of a line or a frame.
fn refusal_counter(fault: Fault) -> Option<Counter>
    ensures { result ≡ counter_of_refusal fault }
{
    match fault {
        Fault::BadBlock => Some(Counter::Sets),
        Fault::TooLarge => Some(Counter::StoresTooLarge),
        _ => None,
    }
}

/// Which counter is raised by what a client wants, whatever came of it, if any.
pub fn counter_by(next: &Next) -> Option<Counter>
    ensures { result ≡ counter_by next.now }
{
    match next {
        Next::Whole {
            request: Request::Flush(_),
            ..
        } => Some(Counter::Flushes),
        Next::Whole {
            request: Request::Said(Says::Refusal(fault)),
            ..
        } => refusal_counter(*fault),
        _ => None,
    }
}
