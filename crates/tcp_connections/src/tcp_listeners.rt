//! The places of this machine, each with its doors.
ghost use Rattle.std.specs.Prelude.{◌≡◌, ◌+◌, ◌<◌, ◌≤◌, [], true, None, IfOk, length, map, vec_len, vec_capacity};
ghost use Rattle.connections.specs.Shares.{GivesShares};
ghost use Rattle.tcp_connections.specs.Facts.{facts_of};
ghost use Rattle.outside.specs.Faults.{Rose, faults_after};

use crate::TcpConnections;
use crate::door::{Door, Listener, Refused, listen_at};
use crate::door_troubles::DoorTroubles;
use crate::hall::{Dealer, Entrance, Hall, MOST_DEALT, Seat};
use crate::tcp_port::{Limits, TcpPort};
use connections::{Listeners, Place};
use mio::Poll;
use outside::{Clock, Failed, NoMemory};
use rtrb::RingBuffer;
use std::alloc::Global;
use std::fs::Files;
use std::net::{Net as Sockets, SocketAddr};
use std::sync::atomic::AtomicBool;
use std::sync::{Arc, Wait};
use std::{io, mem};

/// The places of this machine: a place has its address, where its port is not 0, and the doors that it was told beside that. They tell nothing of content. All shares fail together: once one has failed, which `has_failed` tells, each other one fails when it
/// is next waited for, and at the latest a second later. All have this clock, and stop once `stopping` is set.
#[derive(Drop)]
pub struct TcpListeners<'a, R, K> {
    rt: &'a R,
    alloc: Global,
    places: Vec<Place>,
    /// Those beside the address of the place that is listened at next.
    doors: Vec<Door>,
    /// The door that could not be had.
    refused: Option<Refused>,
    /// For how many seconds a connection may be silent, where that is not 0.
    idle: u32,
    /// Where it is counted what goes wrong at the doors, where somebody looks.
    troubles: Option<&'a DoorTroubles>,
    most: u32,
    heard: Vec<u32>,
    given: u32,
    clock: K,
    has_failed: &'a AtomicBool,
    stopping: &'a AtomicBool,
    faults: u64,
}

impl<'a, R: Files + Sockets + Wait + Sync, K: Clock + Copy + Drop + Send> TcpListeners<'a, R, K> {
    /// No places yet.
    pub fn new(
        rt: &'a R,
        alloc: Global,
        clock: K,
        has_failed: &'a AtomicBool,
        stopping: &'a AtomicBool,
    ) -> TcpListeners<'a, R, K>
        ensures places { ⟦<TcpListeners<'a, R, K> as Listeners>⟧.places result ≡ [] }
        ensures heard { ⟦<TcpListeners<'a, R, K> as Listeners>⟧.heard result ≡ [] }
        ensures given { ⟦<TcpListeners<'a, R, K> as Listeners>⟧.given result ≡ 0 }
        ensures faults { ⟦<TcpListeners<'a, R, K> as Listeners>⟧.faults result ≡ 0 }
    {
        TcpListeners {
            rt,
            alloc,
            places: Vec::new(alloc),
            doors: Vec::new(alloc),
            refused: None,
            idle: 0,
            troubles: None,
            most: 0,
            heard: Vec::new(alloc),
            given: 0,
            clock,
            has_failed,
            stopping,
            faults: 0,
        }
    }

    /// The place that is listened at next has these doors beside its address, and its connections end once nothing came or went there for so many seconds, where that is not 0.
    pub fn set_doors(&mut self, doors: Vec<Door>, idle: u32)
        ensures places { ⟦<TcpListeners<'a, R, K> as Listeners>⟧.places self.new ≡ ⟦<TcpListeners<'a, R, K> as Listeners>⟧.places self.old }
        ensures heard { ⟦<TcpListeners<'a, R, K> as Listeners>⟧.heard self.new ≡ ⟦<TcpListeners<'a, R, K> as Listeners>⟧.heard self.old }
        ensures given { ⟦<TcpListeners<'a, R, K> as Listeners>⟧.given self.new ≡ ⟦<TcpListeners<'a, R, K> as Listeners>⟧.given self.old }
        ensures faults { ⟦<TcpListeners<'a, R, K> as Listeners>⟧.faults self.new ≡ ⟦<TcpListeners<'a, R, K> as Listeners>⟧.faults self.old }
    {
        self.doors = doors;
        self.idle = idle;
    }

    /// What goes wrong at the doors that are listened at next is counted here.
    pub fn count_troubles(&mut self, troubles: &'a DoorTroubles)
        ensures places { ⟦<TcpListeners<'a, R, K> as Listeners>⟧.places self.new ≡ ⟦<TcpListeners<'a, R, K> as Listeners>⟧.places self.old }
        ensures heard { ⟦<TcpListeners<'a, R, K> as Listeners>⟧.heard self.new ≡ ⟦<TcpListeners<'a, R, K> as Listeners>⟧.heard self.old }
        ensures given { ⟦<TcpListeners<'a, R, K> as Listeners>⟧.given self.new ≡ ⟦<TcpListeners<'a, R, K> as Listeners>⟧.given self.old }
        ensures faults { ⟦<TcpListeners<'a, R, K> as Listeners>⟧.faults self.new ≡ ⟦<TcpListeners<'a, R, K> as Listeners>⟧.faults self.old }
    {
        self.troubles = Some(troubles);
    }

    /// The door that could not be had, where there is one.
    pub fn refused(&self) -> Option<&Refused> {
        self.refused.as_ref()
    }
}

/// Listens at all of these doors, or at none. Those of paths come last, so that none is left behind where an address can't be had.
fn listen_at_all<R: Files + Sockets>(
    rt: &R,
    alloc: Global,
    doors: Vec<Door>,
    refused: &mut Option<Refused>,
) -> io::Result<Vec<Listener>> {
    let mut listeners = Vec::with_capacity(alloc, doors.len())?;
    for door in doors {
        match listen_at(rt, &door) {
            Ok(listener) => listeners.push(listener)?,
            Err(error) => {
                *refused = Some(Refused { door, error });
                return Err(io::ErrorKind::Other.into());
            }
        }
    }
    Ok(listeners)
}

/// The shares of a place: all that it takes is had before it is listened at, and the first share does.
fn open_shares<'a, R: Files + Sockets>(
    rt: &R,
    alloc: Global,
    doors: Vec<Door>,
    refused: &mut Option<Refused>,
    shares: usize,
    limits: Limits<'a>,
) -> io::Result<Vec<TcpPort<'a>>>
    ensures { IfOk result (λ ports. length ports.items ≡ shares) }
{
    let mut polls = Vec::with_capacity(alloc, shares)?;
    let mut seats = Vec::with_capacity(alloc, shares)?;
    let mut inboxes = Vec::with_capacity(alloc, shares)?;
    let mut entrances = Vec::with_capacity(alloc, shares)?;
    for seat in 0..shares {
        let poll = Poll::new(rt)?;
        seats.push(Seat::new(&poll)?)?;
        polls.push(poll)?;
        if seat > 0 {
            let (inbox, entrance) = RingBuffer::new(alloc, MOST_DEALT)?;
            inboxes.push(inbox)?;
            entrances.push(Entrance::Inbox(entrance))?;
        }
    }
    let hall = Arc::new(alloc, Hall::new(seats))?;
    let mut ports = Vec::with_capacity(alloc, shares)?;
    let listeners = listen_at_all(rt, alloc, doors, refused)?;
    let mut first = Some(Entrance::Doors(Dealer::new(listeners, inboxes)));
    let mut others = entrances.into_iter();
    let mut rest = polls.into_iter();
    for seat in 0..shares {
        let Some(poll) = rest.next() else {
            return Err(io::ErrorKind::Other.into());
        };
        let hall = Arc::try_clone(&hall)?;
        let entrance = match first.take() {
            Some(entrance) => entrance,
            None => match others.next() {
                Some(entrance) => entrance,
                None => return Err(io::ErrorKind::Other.into()),
            },
        };
        ports.push(TcpPort::open(alloc, poll, entrance, hall, seat, limits)?)?;
    }
    Ok(ports)
}

/// What each share is given beside its sockets.
#[derive(Clone, Copy)]
struct Hands<'a, R, K> {
    rt: &'a R,
    clock: K,
    stopping: &'a AtomicBool,
}

/// Puts so many shares behind the others, numbered from the first on. Each has its sockets.
fn give_all<'a, R: Wait, K: Clock + Copy + Drop>(
    hands: Hands<'a, R, K>,
    first: u32,
    shares: u32,
    ports: Vec<TcpPort<'a>>,
    out: &mut Vec<TcpConnections<'a, R, K>>,
)
    requires many { length ports.items ≡ shares }
    requires within { first + shares < 4294967296 }
    requires room { vec_len out.old + shares ≤ vec_capacity out.old }
    ensures all { GivesShares None first shares (map facts_of out.old.items) (map facts_of out.new.items) }
    ensures room { vec_capacity out.new ≡ vec_capacity out.old }
{
    let mut left = ports.into_iter();
    for k in 0..shares {
        let Some(sockets) = left.next() else {
            unreachable!()
        };
        out.push_reserved(TcpConnections::new(
            hands.rt,
            first + k,
            sockets,
            hands.clock,
            hands.stopping,
        ));
    }
}

/// The doors of a place: its address first, where its port is not 0, and those beside it.
fn doors_of(alloc: Global, place: Place, beside: Vec<Door>) -> Result<Vec<Door>, NoMemory> {
    let mut doors = Vec::with_capacity(alloc, beside.len().saturating_add(1))?;
    if place.port > 0 {
        doors.push(Door::Address(SocketAddr::from((place.address, place.port))))?;
    }
    for door in beside {
        doors.push(door)?;
    }
    Ok(doors)
}

/// Counts a fault.
fn fails(faults: &mut u64) -> Failed
    ensures counted { faults.new ≡ faults_after true faults.old }
    ensures cause { Rose faults.old faults.new }
    ensures never_fall { faults.old ≤ faults.new }
{
    *faults = faults.saturating_add(1);
    Failed
}

impl<'a, R: Files + Sockets + Wait + Sync, K: Clock + Copy + Drop + Send> Listeners
    for TcpListeners<'a, R, K> {
    type Port = TcpConnections<'a, R, K>;

    ghost faults = { λ l. l.faults };

    ghost waits = { λ _. None };

    ghost released = { λ _. None };

    ghost places = { λ l. l.places.items };

    ghost most = { λ l. l.most };

    ghost heard = { λ l. l.heard.items };

    ghost given = { λ l. l.given };

    fn set_places(&mut self, named: Vec<Place>, limit: u32) {
        self.places = named;
        self.most = limit;
        self.heard.clear();
    }

    fn listen(
        &mut self,
        place: u32,
        shares: u32,
        out: &mut Vec<TcpConnections<'a, R, K>>,
    ) -> Result<(), Failed> {
        let Some(given) = self.given.checked_add(shares) else {
            return Err(fails(&mut self.faults));
        };
        let at = self.places[place as usize];
        let beside = mem::replace(&mut self.doors, Vec::new(self.alloc));
        let Ok(doors) = doors_of(self.alloc, at, beside) else {
            return Err(fails(&mut self.faults));
        };
        let limits = Limits {
            most: self.most as usize,
            idle: u64::from(self.idle),
            has_failed: self.has_failed,
            troubles: self.troubles,
        };
        let opened = open_shares(
            self.rt,
            self.alloc,
            doors,
            &mut self.refused,
            shares as usize,
            limits,
        );
        let Ok(ports) = opened else {
            return Err(fails(&mut self.faults));
        };
        if self.heard.push(place).is_err() {
            return Err(fails(&mut self.faults));
        }
        let hands = Hands {
            rt: self.rt,
            clock: self.clock,
            stopping: self.stopping,
        };
        give_all(hands, self.given, shares, ports, out);
        self.given = given;
        Ok(())
    }

    fn release(&mut self, _connections: TcpConnections<'a, R, K>) {}
}
