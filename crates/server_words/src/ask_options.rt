//! The options of a client.
ghost use Rattle.std.specs.Prelude.{◌↔◌, IsTrue};

/// Where the fronts of a server are, and how it is asked. Partition p is asked at `port + p % fronts`.
#[derive(Clone, Copy, PartialEq, Eq)]
pub struct AskOptions {
    /// The port of the first front, from 1,024 to 65,000; each other has the next one.
    pub port: u16,
    /// The partitions of the server, from 1 to 16.
    pub partitions: u32,
    /// The fronts of the server, from 1 to 16.
    pub fronts: u32,
    /// The most requests of a batch, from 1 to 255.
    pub per: u32,
    /// The seconds of silence after which the link ends, from 1 to 3,600.
    pub wait: u32,
}

impl AskOptions {
    ghost use Rattle.server_words.specs.AskOptions.{IsValidAsk};

    /// Whether each number is in its range.
    pub fn is_valid(&self) -> bool
        ensures { IsTrue result ↔ IsValidAsk self.now }
    {
        (1_024..=65_000).contains(&self.port)
            && (1..=16).contains(&self.partitions)
            && (1..=16).contains(&self.fronts)
            && (1..=255).contains(&self.per)
            && (1..=3_600).contains(&self.wait)
    }
}
