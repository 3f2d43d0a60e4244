//! Places in memory.
ghost use Rattle.std.specs.Prelude.{◌≡◌, ◌+◌, ◌<◌, ◌≤◌, [], true, None, Some, map, option_map, vec_len, vec_capacity, IfOk, IfSome, OnOk, OnErr};
ghost use Rattle.connections.specs.Log.{new_log};
ghost use Rattle.connections.specs.Shares.{GivesShares, are_awaited, with_share, without_shares};
ghost use Rattle.memory_connections.specs.MemoryConnections.{log_of};
ghost use Rattle.memory_connections.specs.MemoryPorts.{AreNew, facts_of, logs_at, seating_in};
ghost use Rattle.std.proofs.Props.{props};

use crate::memory_ports::MemPorts;
use crate::{BoxedConnections, MemConnections};
use connections::{Listeners, Place, Step};
use outside::{Failed, NoMemory};
use std::alloc::Global;

/// Places in memory, which tell all. A place can be listened at where connections wait at each of its shares, and what was left where a share was let go can be
/// looked at. To listen and to let go take no memory.
#[derive(Drop)]
pub struct MemListeners<'a> {
    waiting: MemPorts<'a>,
    released: MemPorts<'a>,
    places: Vec<Place>,
    most: u32,
    heard: Vec<u32>,
    given: u32,
    faults: u64,
    ghost unused: { AreNew (seating_in waiting.seats.items) } by { Prim.hlevel props },
    ghost room: { vec_len heard + waiting.taken ≤ vec_capacity heard },
}

/// Takes so many shares from the first on, and puts them behind the others. Something waits at each.
fn give_all<'a>(
    waiting: &mut MemPorts<'a>,
    first: u32,
    shares: u32,
    out: &mut Vec<BoxedConnections<'a>>,
)
    requires awaited { are_awaited first shares (logs_at (seating_in waiting.old.seats.items)) ≡ true }
    requires within { first + shares ≤ 65536 }
    requires unused { AreNew (seating_in waiting.old.seats.items) }
    requires room { vec_len out.old + shares ≤ vec_capacity out.old }
    ensures all { GivesShares (Some (logs_at (seating_in waiting.old.seats.items))) first shares
        (map facts_of out.old.items) (map facts_of out.new.items) }
    ensures taken { logs_at (seating_in waiting.new.seats.items) ≡ without_shares first shares (logs_at (seating_in waiting.old.seats.items)) }
    ensures unused { AreNew (seating_in waiting.new.seats.items) }
    ensures fewer { waiting.new.taken + shares ≡ waiting.old.taken }
    ensures room { vec_capacity out.new ≡ vec_capacity out.old }
{
    for k in 0..shares {
        let Some(connections) = waiting.take((first + k) as u16) else {
            unreachable!()
        };
        out.push_reserved(BoxedConnections { connections });
    }
}

impl<'a> MemListeners<'a> {
    /// No places yet, and nothing waits at any share.
    #[tactic(auto, using(crate::proofs::Seats::none_logged))]
    pub fn new(alloc: Global) -> Result<Self, NoMemory>
        ensures waits { IfOk result (λ l. ⟦<MemListeners<'a> as Listeners>⟧.waits l ≡ Some (λ share. None)) }
        ensures released { IfOk result (λ l. ⟦<MemListeners<'a> as Listeners>⟧.released l ≡ Some (λ share. None)) }
        ensures places { IfOk result (λ l. ⟦<MemListeners<'a> as Listeners>⟧.places l ≡ []) }
        ensures heard { IfOk result (λ l. ⟦<MemListeners<'a> as Listeners>⟧.heard l ≡ []) }
        ensures given { IfOk result (λ l. ⟦<MemListeners<'a> as Listeners>⟧.given l ≡ 0) }
        ensures faults { IfOk result (λ l. ⟦<MemListeners<'a> as Listeners>⟧.faults l ≡ 0) }
    {
        Ok(MemListeners {
            waiting: MemPorts::new(alloc)?,
            released: MemPorts::new(alloc)?,
            places: Vec::new(alloc),
            most: 0,
            heard: Vec::new(alloc),
            given: 0,
            faults: 0,
        })
    }

    /// From now on connections wait at this share, in place of those that waited there. Their reads and writes move at most so many bytes each, and the calls of
    /// `next` that are to fail are listed by their numbers from 1.
    pub fn add_share(
        &mut self,
        alloc: Global,
        share: u16,
        schedule: &'a [Step],
        piece: u32,
        fails: &[u32],
    ) -> Result<(), NoMemory>
        requires { 0 < piece }
        ensures ok { OnOk result (⟦<MemListeners<'a> as Listeners>⟧.waits self.new ≡ option_map
            (with_share share (Some (new_log schedule.entry.now (record { fails = fails.now; calls = 0; piece = piece }))))
            (⟦<MemListeners<'a> as Listeners>⟧.waits self.old)) }
        ensures err { OnErr result (⟦<MemListeners<'a> as Listeners>⟧.waits self.new ≡ ⟦<MemListeners<'a> as Listeners>⟧.waits self.old) }
        ensures released { ⟦<MemListeners<'a> as Listeners>⟧.released self.new ≡ ⟦<MemListeners<'a> as Listeners>⟧.released self.old }
        ensures places { ⟦<MemListeners<'a> as Listeners>⟧.places self.new ≡ ⟦<MemListeners<'a> as Listeners>⟧.places self.old }
        ensures heard { ⟦<MemListeners<'a> as Listeners>⟧.heard self.new ≡ ⟦<MemListeners<'a> as Listeners>⟧.heard self.old }
        ensures given { ⟦<MemListeners<'a> as Listeners>⟧.given self.new ≡ ⟦<MemListeners<'a> as Listeners>⟧.given self.old }
        ensures faults { ⟦<MemListeners<'a> as Listeners>⟧.faults self.new ≡ ⟦<MemListeners<'a> as Listeners>⟧.faults self.old }
    {
        let connections = MemConnections::new(alloc, share, schedule, piece, fails)?;
        let connections = Box::new(alloc, connections)?;
        self.heard.reserve(self.waiting.taken() + 1)?;
        self.waiting.put(share, connections);
        Ok(())
    }

    /// What was left of a share when it was let go, where it was. Of several times the last one counts.
    pub fn released(&self, share: u16) -> Option<&MemConnections<'a>>
        ensures { IfSome (⟦<MemListeners<'a> as Listeners>⟧.released self.now)
            (λ all. option_map (λ c. log_of c.now) result ≡ all share) }
    {
        self.released.get(share)
    }
}

impl<'a> Listeners for MemListeners<'a> {
    ghost use Rattle.memory_connections.specs.MemoryPorts.{logs_at};

    type Port = BoxedConnections<'a>;

    ghost faults = { λ l. l.faults };

    ghost waits = { λ l. Some (logs_at (seating_in l.waiting.seats.items)) };

    ghost released = { λ l. Some (logs_at (seating_in l.released.seats.items)) };

    ghost places = { λ l. l.places.items };

    ghost most = { λ l. l.most };

    ghost heard = { λ l. l.heard.items };

    ghost given = { λ l. l.given };

    fn set_places(&mut self, named: Vec<Place>, limit: u32) {
        self.places = named;
        self.most = limit;
        self.heard.clear();
    }

    #[tactic(auto, using(crate::proofs::Seats::awaited_within))]
    fn listen(
        &mut self,
        place: u32,
        shares: u32,
        out: &mut Vec<BoxedConnections<'a>>,
    ) -> Result<(), Failed> {
        if !self.waiting.are_taken(self.given, shares) {
            self.faults = self.faults.saturating_add(1);
            return Err(Failed);
        }
        give_all(&mut self.waiting, self.given, shares, out);
        self.given += shares;
        self.heard.push_reserved(place);
        Ok(())
    }

    fn release(&mut self, connections: BoxedConnections<'a>) {
        let connections = connections.connections;
        self.released.put(connections.share, connections);
    }
}
