//! What a server tells once it listens at its ports.
ghost use Rattle.std.specs.Prelude.{◌≡◌, ℕ, map, length, OnOk, OnErr};
ghost use Rattle.server_words.specs.declared.ports.PortOptions.{PortOptions};
ghost use Rattle.served.specs.Ends.{AreNewEnds, end_facts};
ghost use Rattle.locked_server.specs.Streams.{AreUnserved, stream_facts};

use crate::stop::Untold;
use connections::Connections;
use outside::Datagrams;
use server_words::PortOptions;

/// What a server tells once it has all its ports, and before it receives anything.
pub trait Announce {
    /// What telling it makes of this.
    ghost says: { PortOptions → ℕ → Self → Self → Type 0 };

    /// What it leaves where it could not be told.
    ghost fails: { PortOptions → ℕ → Self → Self → Type 0 };

    /// There is an end bound at each port of datagrams, and each place of connections is listened at. Nothing was received.
    fn ready<D: Datagrams, C: Connections>(
        &mut self,
        ports: &PortOptions,
        places: u32,
        ends: &[D],
        connections: &[C],
    ) -> Result<(), Untold>
        requires bound { length ends.now ≡ ports.now.fronts }
        requires new { AreNewEnds ports.now.port (map (end_facts D.Datagrams) ends.now) }
        requires listens { length connections.now ≡ places }
        requires fresh { AreUnserved (map (stream_facts C.Connections) connections.now) }
        ensures said { OnOk result (says ports.now places self.old self.new) }
        ensures failed { OnErr result (fails ports.now places self.old self.new) };
}
