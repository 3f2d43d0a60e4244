//! The place of connections that words name, and how much is kept of what waits there.
ghost use Rattle.std.specs.Prelude.{◌≡◌, IfOk};
ghost use Rattle.daemon.specs.Daemon.{place_at, places_of, buffers_of};

use connection_loop::{MOST_UNSENT, ROOM_LEN};
use connections::Place;
use daemon_words::StreamOptions;
use mica_words::MAX_STORED_LEN;
use outside::NoMemory;
use std::alloc::Global;
use std::net::Ipv4Addr;

/// The room that each thread of connections has for itself: for what it looks at, for replies, and for six values.
pub const THREAD_LEN: usize = ROOM_LEN + MOST_UNSENT + 6 * MAX_STORED_LEN;

// The place of an address and a port. Where its first address is none of IPv4, its port is 0: it has no door but those that an adapter is told apart.
fn place_at(address: Option<Ipv4Addr>, port: u16) -> Place
    ensures { result ≡ place_at address port }
{
    match address {
        Some(address) => Place { address, port },
        None => Place {
            address: Ipv4Addr::UNSPECIFIED,
            port: 0,
        },
    }
}

/// The place of connections, where there are fronts of these.
pub(crate) fn places_of(alloc: Global, streams: &StreamOptions) -> Result<Vec<Place>, NoMemory>
    ensures { IfOk result (λ places. places.items ≡ places_of streams.now) }
{
    let mut places = Vec::with_capacity(alloc, 1)?;
    if streams.ports.fronts > 0 {
        places.push_reserved(place_at(streams.address, streams.ports.port));
    }
    Ok(places)
}

/// How much each thread may keep of what waits at its connections: an equal part, less its own room.
pub(crate) fn buffers_of(streams: &StreamOptions) -> usize
    ensures { result ≡ buffers_of streams.now }
{
    let threads = u64::from(streams.ports.fronts.max(1));
    ((streams.buffers / threads) as usize).saturating_sub(THREAD_LEN)
}
