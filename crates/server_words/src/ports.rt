//! The options of a server's ports of datagrams.
ghost use Rattle.std.specs.Prelude.{◌↔◌, IsTrue};

use crate::MAX_BATCHES;

/// The first port, how many fronts there are, one behind each port from there on, and how many datagrams a front takes.
#[derive(Clone, Copy, PartialEq, Eq)]
pub struct PortOptions {
    pub port: u16,
    pub fronts: u32,
    pub batches: u64,
}

impl PortOptions {
    ghost use Rattle.server_words.specs.PortOptions.{IsValidPorts};

    /// Whether each number is in its range.
    pub fn is_valid(&self) -> bool
        ensures { IsTrue result ↔ IsValidPorts self.now }
    {
        (1_024..=65_000).contains(&self.port)
            && (1..=16).contains(&self.fronts)
            && (1..=MAX_BATCHES).contains(&self.batches)
    }
}
