//! Connections in memory, in a box.
use crate::MemConnections;
use connections::{Broken, Connections, Event, Input};
use outside::Failed;

/// Connections in memory that were listened at. They lie in a box, so that a seat for each number of a port takes little.
#[derive(Drop)]
pub struct BoxedConnections<'a> {
    pub(crate) connections: Box<MemConnections<'a>>,
}

impl<'a> Connections for BoxedConnections<'a> {
    ghost share = { λ b. ⟦<MemConnections<'a> as Connections>⟧.share b.connections.value };

    ghost log = { λ b. ⟦<MemConnections<'a> as Connections>⟧.log b.connections.value };

    ghost faults = { λ b. ⟦<MemConnections<'a> as Connections>⟧.faults b.connections.value };

    ghost has_ended = { λ b. ⟦<MemConnections<'a> as Connections>⟧.has_ended b.connections.value };

    ghost reports = { λ b. ⟦<MemConnections<'a> as Connections>⟧.reports b.connections.value };

    ghost last = { λ b. ⟦<MemConnections<'a> as Connections>⟧.last b.connections.value };

    fn next(&mut self) -> Result<Option<Event>, Failed> {
        self.connections.next()
    }

    fn second(&self) -> u64 {
        self.connections.second()
    }

    fn read(&mut self, number: u32, out: &mut [u8]) -> Result<Input, Broken> {
        self.connections.read(number, out)
    }

    fn write(&mut self, number: u32, piece: &[u8]) -> Result<usize, Broken> {
        self.connections.write(number, piece)
    }

    fn again(&mut self, number: u32) {
        self.connections.again(number);
    }

    fn close(&mut self, number: u32) {
        self.connections.close(number);
    }
}
