//! Connections in memory at ports.
ghost use Rattle.std.specs.Prelude.{◌≡◌, ◌+◌, ◌≤◌, length, is_some, None, Some, option_map, IfOk, IfSome, IfNone};
ghost use Rattle.connections.specs.Shares.{are_awaited};
ghost use Rattle.memory_connections.specs.MemoryPorts.{with_seat, seating_in, taken_in, logs_at};

use crate::MemConnections;
use outside::NoMemory;
use std::alloc::Global;
use std::mem;

/// Connections at ports. Each number of a port has a seat, so that none needs memory to be taken.
#[derive(Drop)]
pub struct MemPorts<'a> {
    pub(crate) seats: Vec<Option<Box<MemConnections<'a>>>>,
    pub(crate) taken: usize,
    pub(crate) ghost whole: { length seats.items ≡ 65536 },
    pub(crate) ghost counted: { taken ≡ taken_in seats.items },
}

impl<'a> MemPorts<'a> {
    /// Nothing at any port.
    #[tactic(auto, using(crate::proofs::Seats::none_seated, crate::proofs::Seats::free_more))]
    pub fn new(alloc: Global) -> Result<Self, NoMemory>
        ensures none { IfOk result (λ p. seating_in p.seats.items ≡ (λ port. None)) }
        ensures taken { IfOk result (λ p. p.taken ≡ 0) }
    {
        let mut seats = Vec::with_capacity(alloc, 65_536)?;
        for _ in 0..65_536usize {
            seats.push_reserved(None);
        }
        Ok(MemPorts { seats, taken: 0 })
    }

    /// Puts connections at a port, in place of those that were there.
    #[tactic(auto, using(crate::proofs::Seats::put_there, crate::proofs::Seats::taken_more, crate::proofs::Seats::taken_same, crate::proofs::Seats::taken_few))]
    pub fn put(&mut self, port: u16, connections: Box<MemConnections<'a>>)
        ensures at { seating_in self.new.seats.items ≡ with_seat port (Some connections.entry.value) (seating_in self.old.seats.items) }
        ensures taken { self.new.taken ≤ self.old.taken + 1 }
    {
        let before = mem::replace(&mut self.seats[port as usize], Some(connections));
        match before {
            Some(_) => {}
            None => self.taken += 1,
        }
    }

    /// Takes the connections from a port, where there are some.
    #[tactic(auto, using(crate::proofs::Seats::put_there, crate::proofs::Seats::was_there, crate::proofs::Seats::same_set, crate::proofs::Seats::taken_fewer))]
    pub fn take(&mut self, port: u16) -> Option<Box<MemConnections<'a>>>
        ensures taken { option_map (λ c. c.value) result ≡ seating_in self.old.seats.items port }
        ensures at { seating_in self.new.seats.items ≡ with_seat port None (seating_in self.old.seats.items) }
        ensures fewer { IfSome result (λ _. self.new.taken + 1 ≡ self.old.taken) }
        ensures same { IfNone result (self.new.seats.items ≡ self.old.seats.items) }
        ensures same_taken { IfNone result (self.new.taken ≡ self.old.taken) }
    {
        match self.seats[port as usize].take() {
            Some(connections) => {
                self.taken -= 1;
                Some(connections)
            }
            None => None,
        }
    }

    /// The connections at a port, where there are some.
    #[tactic(auto, using(crate::proofs::Seats::was_there))]
    pub fn get(&self, port: u16) -> Option<&MemConnections<'a>>
        ensures { option_map (λ c. c.now) result ≡ seating_in self.now.seats.items port }
    {
        match &self.seats[port as usize] {
            Some(connections) => Some(&**connections),
            None => None,
        }
    }

    /// Whether there are some at a port of this number.
    #[tactic(auto, using(crate::proofs::Seats::was_there))]
    fn is_taken(&self, port: usize) -> bool
        ensures { result ≡ is_some (seating_in self.now.seats.items port) }
    {
        match self.seats.get(port) {
            Some(seat) => seat.is_some(),
            None => false,
        }
    }

    /// Whether there are some at each of so many ports from the first on.
    pub fn are_taken(&self, first: u32, count: u32) -> bool
        ensures { result ≡ are_awaited first count (logs_at (seating_in self.now.seats.items)) }
    {
        for k in 0..count {
            if !self.is_taken(first as usize + k as usize) {
                return false;
            }
        }
        true
    }

    /// At how many ports there are some.
    pub fn taken(&self) -> usize
        ensures { result ≡ self.now.taken }
    {
        self.taken
    }
}
