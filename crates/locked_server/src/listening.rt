//! The place of connections, listened at, and its shares let go.
ghost use Rattle.std.specs.Prelude.{◌≡◌, ◌<◌, ◌≤◌, [], map, vec_len, vec_capacity, OnOk, OnErr};
ghost use Rattle.outside.specs.Faults.{Rose};
ghost use Rattle.locked_server.specs.Streams.{AreNewShares, HasPlace, KeepsListeners, ReleasesStreams, listen_facts, stream_facts};

use connections::Listeners;
use outside::Failed;

/// Listens at the first place, where there are fronts of connections: each gets a share.
pub(crate) fn listen_all<L: Listeners>(
    listeners: &mut L,
    places: u32,
    connections: &mut Vec<L::Port>,
) -> Result<(), Failed>
    requires places { HasPlace places (L.places listeners.old) }
    requires none { connections.old.items ≡ [] }
    requires room { places ≤ vec_capacity connections.old }
    ensures new { AreNewShares (L.waits listeners.old) (L.given listeners.old) (map (stream_facts L.Port.Connections) connections.new.items) }
    ensures all { OnOk result (vec_len connections.new ≡ places) }
    ensures few { vec_len connections.new ≤ places }
    ensures kept { KeepsListeners (vec_len connections.new) places (listen_facts L.Listeners listeners.old) (listen_facts L.Listeners listeners.new) }
    ensures unreleased { L.released listeners.new ≡ L.released listeners.old }
    ensures steady { OnOk result (L.faults listeners.new ≡ L.faults listeners.old) }
    ensures cause { OnErr result (Rose (L.faults listeners.old) (L.faults listeners.new)) }
    ensures lacks { OnErr result (0 < places) }
    ensures none { OnErr result (connections.new.items ≡ []) }
{
    if places == 0 {
        return Ok(());
    }
    listeners.listen(0, places, connections)?;
    Ok(())
}

/// Lets all shares go, in order.
pub(crate) fn release_streams<L: Listeners>(listeners: &mut L, connections: Vec<L::Port>)
    ensures { ReleasesStreams (map (stream_facts L.Port.Connections) connections.items)
        (listen_facts L.Listeners listeners.old) (listen_facts L.Listeners listeners.new) }
{
    for share in connections {
        listeners.release(share);
    }
}
