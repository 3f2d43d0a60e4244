//! Places of connections in memory, and what is heard there, in the order in which it comes to pass.
ghost use Rattle.std.specs.Prelude.{◌≡◌, ◌+◌, ◌<◌, ◌≤◌, ◌++◌, [], None, IfSome, map, vec_len, vec_capacity};
ghost use Rattle.connections.specs.Shares.{IsNewShare, GivesShares};
ghost use Rattle.server_rows.specs.Heard.{facts_of};

use connections::{Broken, Connections, Event, Input, Listeners, Place, Step};
use memory_connections::MemConnections;
use outside::Failed;
use row_parts::at_least_one;
use std::alloc::Global;

/// A share of a port of connections: how many bytes a read or a write moves, and what happens there.
#[derive(Drop)]
pub struct Port {
    pub number: u16,
    pub piece: u32,
    pub schedule: Vec<Step>,
}

/// What became of the connections of a share: a line as `0: STORED` for what was sent under the number 0, and `0: closed`.
#[derive(Drop)]
pub struct Overheard {
    pub bytes: Vec<u8>,
}

/// Connections in memory, of which is heard.
#[derive(Drop)]
pub struct OverheardConnections<'a> {
    connections: MemConnections<'a>,
    heard: Overheard,
}

// Writes down what came to pass under a number from 0 to 9. What there is no memory for is left out.
fn note(heard: &mut Overheard, number: u32, what: &[u8]) {
    let digit = b'0' + (number % 10) as u8;
    let _ = heard.bytes.extend_from_slice(&[digit, b':', b' ']);
    let _ = heard.bytes.extend_from_slice(what);
}

impl<'a> Connections for OverheardConnections<'a> {
    ghost share = { λ c. ⟦<MemConnections<'a> as Connections>⟧.share c.connections };

    ghost log = { λ c. ⟦<MemConnections<'a> as Connections>⟧.log c.connections };

    ghost faults = { λ c. ⟦<MemConnections<'a> as Connections>⟧.faults c.connections };

    ghost has_ended = { λ c. ⟦<MemConnections<'a> as Connections>⟧.has_ended c.connections };

    ghost reports = { λ c. ⟦<MemConnections<'a> as Connections>⟧.reports c.connections };

    ghost last = { λ c. ⟦<MemConnections<'a> as Connections>⟧.last c.connections };

    fn next(&mut self) -> Result<Option<Event>, Failed> {
        self.connections.next()
    }

    fn second(&self) -> u64 {
        self.connections.second()
    }

    fn read(&mut self, number: u32, out: &mut [u8]) -> Result<Input, Broken> {
        self.connections.read(number, out)
    }

    fn write(&mut self, number: u32, piece: &[u8]) -> Result<usize, Broken> {
        let count = self.connections.write(number, piece)?;
        note(&mut self.heard, number, &piece[..count]);
        Ok(count)
    }

    fn again(&mut self, number: u32) {
        self.connections.again(number);
    }

    fn close(&mut self, number: u32) {
        note(&mut self.heard, number, b"closed\r\n");
        self.connections.close(number);
    }
}

/// Places in memory, at the ports of a row, of which is heard once their shares are let go. What waits there they don't tell.
#[derive(Drop)]
pub struct OverheardListeners<'a> {
    alloc: Global,
    ports: &'a [Port],
    places: Vec<Place>,
    most: u32,
    listened: Vec<u32>,
    given: u32,
    faults: u64,
    heard: Vec<Overheard>,
}

impl<'a> OverheardListeners<'a> {
    /// No places yet, of these ports.
    pub fn new(alloc: Global, ports: &'a [Port]) -> OverheardListeners<'a> {
        OverheardListeners {
            alloc,
            ports,
            places: Vec::new(alloc),
            most: 0,
            listened: Vec::new(alloc),
            given: 0,
            faults: 0,
            heard: Vec::new(alloc),
        }
    }

    /// What was heard at each share that was let go.
    pub fn into_overheard(self) -> Vec<Overheard> {
        self.heard
    }

    // The connections of a port that are so many behind the first, with which nothing was done, as the share of this number.
    fn connections_at(
        &self,
        number: u16,
        behind: u32,
        share: u32,
    ) -> Option<OverheardConnections<'a>>
        ensures { IfSome result (λ c. IsNewShare None share (facts_of c)) }
    {
        let port = self.ports.get(behind as usize)?;
        if port.number != number {
            return None;
        }
        let piece = at_least_one(port.piece);
        let schedule = port.schedule.as_slice();
        let share = u16::try_from(share).ok()?;
        let connections = MemConnections::new(self.alloc, share, schedule, piece, &[]).ok()?;
        let heard = Overheard {
            bytes: Vec::new(self.alloc),
        };
        Some(OverheardConnections { connections, heard })
    }

    // So many shares of a port, where all are had.
    fn shares_at(&self, number: u16, shares: u32) -> Option<Vec<OverheardConnections<'a>>>
        requires { self.now.given + shares < 4294967296 }
        ensures { IfSome result (λ all. GivesShares None self.now.given shares [] (map facts_of all.items)) }
    {
        let mut all = Vec::with_capacity(self.alloc, shares as usize).ok()?;
        for behind in 0..shares {
            let Some(connections) = self.connections_at(number, behind, self.given + behind) else {
                return None;
            };
            all.push_reserved(connections);
        }
        Some(all)
    }
}

// Puts shares behind the others.
fn put_all<'a>(all: Vec<OverheardConnections<'a>>, out: &mut Vec<OverheardConnections<'a>>)
    requires room { vec_len out.old + vec_len all ≤ vec_capacity out.old }
    ensures items { out.new.items ≡ out.old.items ++ all.entry.items }
    ensures room { vec_capacity out.new ≡ vec_capacity out.old }
{
    for connections in all {
        out.push_reserved(connections);
    }
}

impl<'a> Listeners for OverheardListeners<'a> {
    type Port = OverheardConnections<'a>;

    ghost faults = { λ l. l.faults };

    ghost waits = { λ _. None };

    ghost released = { λ _. None };

    ghost places = { λ l. l.places.items };

    ghost most = { λ l. l.most };

    ghost heard = { λ l. l.listened.items };

    ghost given = { λ l. l.given };

    fn set_places(&mut self, named: Vec<Place>, limit: u32) {
        self.places = named;
        self.listened.clear();
        self.most = limit;
    }

    #[tactic(auto, using(crate::proofs::Shares::gives_behind))]
    fn listen(
        &mut self,
        place: u32,
        shares: u32,
        out: &mut Vec<OverheardConnections<'a>>,
    ) -> Result<(), Failed> {
        let number = self.places[place as usize].port;
        if let Some(given) = self.given.checked_add(shares) {
            if let Some(all) = self.shares_at(number, shares) {
                if self.listened.push(place).is_ok() {
                    put_all(all, out);
                    self.given = given;
                    return Ok(());
                }
            }
        }
        self.faults = self.faults.saturating_add(1);
        Err(Failed)
    }

    fn release(&mut self, connections: OverheardConnections<'a>) {
        let _ = self.heard.push(connections.heard);
    }
}
