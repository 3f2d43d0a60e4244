//! The doors of this machine and their connections, over epoll. Nothing here waits but for one look at what is ready, with a time that may be set.
ghost use Rattle.std.specs.Prelude.{◌<◌, ◌≤◌, length, IfOk};
ghost use Rattle.connections.specs.Calls.{FitsRoom};

use crate::door_troubles::DoorTroubles;
use crate::hall::{Dealt, Entrance, Hall, MOST_DEALT};
use crate::patience::Patience;
use crate::slot::{Slot, drop_unread, new_slot, read_from, turn_away, write_to};
use crate::stream::Stream;
use connections::{Broken, Event, Input};
use mio::event::Events;
use mio::{Poll, Token};
use slab::Slab;
use std::alloc::Global;
use std::io::{self, ErrorKind};
use std::mem;
use std::sync::Arc;
use std::sync::atomic::{AtomicBool, Ordering};
use std::time::Duration;

/// The token of all doors, which no connection has.
const DOORS: Token = Token(usize::MAX);

/// The most events that one wait gives.
const MOST_EVENTS: usize = 1_024;

/// How long to wait before the system is asked again for a connection that it refused.
const PAUSE_MILLIS: u64 = 100;

/// How long a port waits before it looks whether another one has failed, or whether it is to stop.
const LOOK_SECONDS: u64 = 1;

/// Whether a connection may wait to be accepted.
#[derive(Clone, Copy, PartialEq, Eq)]
enum Accepting {
    Idle,
    Ready,
    /// The system refused one: it was out of descriptors or memory.
    Refused,
}

/// A share of a place, and its connections. All shares of the place have at most so many at a time: more are turned away.
#[derive(Drop)]
pub(crate) struct TcpPort<'a> {
    most: usize,
    /// For how many seconds a connection may be silent, where that is not 0.
    idle: u64,
    /// The second that was told last, where connections may be silent for so long only.
    second: u64,
    /// Whether a port has failed: all fail together.
    has_failed: &'a AtomicBool,
    /// Where it is counted what goes wrong at the doors, where somebody looks.
    troubles: Option<&'a DoorTroubles>,
    poll: Poll,
    events: Events,
    entrance: Entrance,
    hall: Arc<Hall, Global>,
    /// Which share of the place it is, from 0.
    seat: usize,
    accepting: Accepting,
    slots: Slab<Slot>,
    /// The connections to be reported in the next round, each once. There is room for all.
    queue: Vec<u32>,
    /// Those of this round that were not reported yet, by number.
    round: Vec<u32>,
    /// How many connections may still be taken in or dealt before the next round.
    may_open: usize,
    patience: Patience,
}

/// Puts a connection among those to be reported, once. There is room for it.
fn put(slots: &mut Slab<Slot>, queue: &mut Vec<u32>, number: usize) {
    if let Some(slot) = slots.get_mut(number) {
        if !slot.queued {
            if let Ok(short) = u32::try_from(number) {
                slot.queued = queue.push(short).is_ok();
            }
        }
    }
}

/// Ends each connection at which nothing came or went for more than so many seconds: it is reported, and is broken.
fn end_idle(slots: &mut Slab<Slot>, queue: &mut Vec<u32>, second: u64, idle: u64) {
    for number in 0..slots.capacity() {
        let is_over = match slots.get_mut(number) {
            Some(slot) => {
                slot.is_over = slot.is_over || second.saturating_sub(slot.heard) > idle;
                slot.is_over
            }
            None => false,
        };
        if is_over {
            put(slots, queue, number);
        }
    }
}

/// Puts each connection of the events among those to be reported, and says whether a door was among them.
fn put_events(events: &Events, slots: &mut Slab<Slot>, queue: &mut Vec<u32>) -> bool {
    let mut listens = false;
    for event in events {
        let token = event.token();
        if token == DOORS {
            listens = true;
        } else {
            let ended = event.is_read_closed() || event.is_error();
            if let Some(slot) = slots.get_mut(token.0) {
                slot.half_closed = slot.half_closed || ended;
                slot.may_read = slot.may_read || event.is_readable() || ended;
            }
            put(slots, queue, token.0);
        }
    }
    listens
}

/// What all shares of a place look at.
#[derive(Clone, Copy)]
pub(crate) struct Limits<'a> {
    pub(crate) most: usize,
    pub(crate) idle: u64,
    pub(crate) has_failed: &'a AtomicBool,
    pub(crate) troubles: Option<&'a DoorTroubles>,
}

impl<'a> TcpPort<'a> {
    /// The share of this seat, whose waker is at the poll.
    pub(crate) fn open(
        alloc: Global,
        poll: Poll,
        entrance: Entrance,
        hall: Arc<Hall, Global>,
        seat: usize,
        limits: Limits<'a>,
    ) -> io::Result<TcpPort<'a>> {
        let events = Events::with_capacity(alloc, MOST_EVENTS)?;
        let mut entrance = entrance;
        if let Entrance::Doors(dealer) = &mut entrance {
            dealer.register(poll.registry(), DOORS)?;
        }
        Ok(TcpPort {
            most: limits.most,
            idle: limits.idle,
            second: 0,
            has_failed: limits.has_failed,
            troubles: limits.troubles,
            poll,
            events,
            entrance,
            hall,
            seat,
            accepting: Accepting::Ready,
            slots: Slab::new(alloc),
            queue: Vec::new(alloc),
            round: Vec::new(alloc),
            may_open: 0,
            patience: Patience::new(),
        })
    }

    /// Takes a connection in, and says its number. Where there is no memory for it, it is let go.
    fn take_in(&mut self, stream: Stream) -> Option<u32> {
        stream.begin();
        // Each that is open once, and each that was closed since the last round.
        let room = self.slots.len().saturating_add(1).saturating_mul(2);
        self.queue
            .reserve(room.saturating_sub(self.queue.len()))
            .ok()?;
        self.round
            .reserve(room.saturating_sub(self.round.len()))
            .ok()?;
        let number = self.slots.insert(new_slot(stream, self.second)).ok()?;
        let slot = self.slots.get_mut(number)?;
        let registry = self.poll.registry();
        if slot.stream.register(registry, Token(number)).is_err() {
            let _gone = self.slots.try_remove(number);
            return None;
        }
        u32::try_from(number).ok()
    }

    /// The next connection that waits, where there is one.
    fn next_stream(&mut self) -> Option<Stream> {
        match &mut self.entrance {
            Entrance::Inbox(inbox) => match inbox.pop() {
                Ok(stream) => return Some(stream),
                Err(_) => self.accepting = Accepting::Idle,
            },
            Entrance::Doors(dealer) => match dealer.accept() {
                Ok(stream) => return Some(stream),
                Err(error) => match error.kind() {
                    ErrorKind::WouldBlock => self.accepting = Accepting::Idle,
                    ErrorKind::Interrupted | ErrorKind::ConnectionAborted => {}
                    _ => {
                        self.accepting = Accepting::Refused;
                        if let Some(troubles) = self.troubles {
                            troubles.count_refusal(&error);
                        }
                    }
                },
            },
        }
        None
    }

    /// Takes in a connection that is counted here.
    fn take_own(&mut self, stream: Stream) -> Option<Event> {
        let way = stream.way();
        let number = self.take_in(stream);
        if number.is_none() {
            self.hall.goes(self.seat, way);
        }
        Some(Event::Opened(number?))
    }

    /// Takes in the next connection that waits, or deals it to another share, or turns it away.
    fn open_next(&mut self) -> Option<Event> {
        let stream = self.next_stream()?;
        let dealt = match &mut self.entrance {
            Entrance::Inbox(_) => Dealt::Own(stream),
            Entrance::Doors(dealer) => dealer.deal(&self.hall, self.most, stream),
        };
        match dealt {
            Dealt::Own(stream) => self.take_own(stream),
            Dealt::Away => None,
            Dealt::TooMany(stream) => {
                turn_away(stream);
                if let Some(troubles) = self.troubles {
                    troubles.count_turned_away();
                }
                Some(Event::TurnedAway)
            }
        }
    }

    /// How long to wait: not at all where something is to be reported or accepted, and never for long.
    fn timeout(&self) -> Duration {
        if !self.queue.is_empty() || self.accepting == Accepting::Ready {
            Duration::ZERO
        } else if self.accepting == Accepting::Refused {
            Duration::from_millis(PAUSE_MILLIS)
        } else {
            Duration::from_secs(LOOK_SECONDS)
        }
    }

    /// Looks for what is ready at once, a few times over, and says whether something is.
    fn finds_some(&mut self) -> io::Result<bool> {
        for _ in 0..self.patience.looks() {
            self.poll.poll(&mut self.events, Some(Duration::ZERO))?;
            if !self.events.is_empty() {
                self.patience.has_paid();
                return Ok(true);
            }
        }
        self.patience.has_slept();
        Ok(false)
    }

    /// Waits until something is ready. Where it may sleep, it looks for more first.
    fn wait(&mut self) -> io::Result<()> {
        let timeout = self.timeout();
        if timeout != Duration::ZERO && self.finds_some()? {
            return Ok(());
        }
        self.poll.poll(&mut self.events, Some(timeout))
    }

    /// Asks the system what is ready. All of it is one round of reports, by number: connections that were opened together stand together there, and a thread of a client that has several of them wakes
    /// once for all.
    fn ask(&mut self) -> io::Result<()> {
        if self.has_failed.load(Ordering::Relaxed) {
            return Err(ErrorKind::Other.into());
        }
        self.wait()?;
        let listens = put_events(&self.events, &mut self.slots, &mut self.queue);
        if listens || self.accepting == Accepting::Refused || self.entrance.is_inbox() {
            self.accepting = Accepting::Ready;
        }
        mem::swap(&mut self.queue, &mut self.round);
        self.round.sort_unstable();
        Ok(())
    }

    /// The next connection to be reported in this round, where it was not closed since.
    fn take_ready(&mut self) -> Option<u32> {
        let number = self.round.pop()?;
        let slot = self.slots.get_mut(number as usize)?;
        slot.queued = false;
        Some(number)
    }

    /// The next report of those at hand: of this round, and of the next one as far as it is known.
    pub(crate) fn at_hand(&mut self) -> Option<Event> {
        let most = self.round.len().saturating_add(self.queue.len());
        for _ in 0..most {
            if self.round.is_empty() {
                mem::swap(&mut self.queue, &mut self.round);
            }
            if let Some(number) = self.take_ready() {
                return Some(Event::Ready(number));
            }
        }
        None
    }

    /// The next report, if there is one at hand or comes with one look: those of a round, and after each round a few connections that wait to be accepted.
    pub(crate) fn step(&mut self) -> io::Result<Option<Event>> {
        if !self.round.is_empty() {
            return Ok(match self.take_ready() {
                Some(number) => Some(Event::Ready(number)),
                None => None,
            });
        }
        if self.may_open > 0 && self.accepting == Accepting::Ready {
            self.may_open -= 1;
            return Ok(self.open_next());
        }
        self.ask()?;
        self.may_open = MOST_DEALT;
        Ok(None)
    }

    /// Whether connections end that are silent for too long.
    pub(crate) fn ends_idle(&self) -> bool {
        self.idle > 0
    }

    /// It is this second: once a second those end that were silent for too long.
    pub(crate) fn tell_second(&mut self, second: u64) {
        if second != self.second {
            self.second = second;
            end_idle(&mut self.slots, &mut self.queue, second, self.idle);
        }
    }

    /// The connections there have failed: so those of the other shares fail, and need not wait for it.
    pub(crate) fn tell_failure(&self) {
        self.has_failed.store(true, Ordering::Relaxed);
        self.hall.call_all();
    }

    /// Reads from a connection, where there may be more.
    pub(crate) fn read(&mut self, number: u32, out: &mut [u8]) -> Result<Input, Broken>
        requires room { 0 < length out.old }
        ensures fits { IfOk result (FitsRoom (length out.old)) }
    {
        match self.slots.get_mut(number as usize) {
            Some(slot) if slot.is_over => Err(Broken),
            Some(slot) if slot.may_read => {
                slot.heard = self.second;
                read_from(slot, out)
            }
            Some(_) => Ok(Input::Later),
            None => Err(Broken),
        }
    }

    /// Writes to a connection.
    pub(crate) fn write(&mut self, number: u32, piece: &[u8]) -> Result<usize, Broken>
        ensures { IfOk result (λ n. n ≤ length piece.now) }
    {
        match self.slots.get_mut(number as usize) {
            Some(slot) if slot.is_over => Err(Broken),
            Some(slot) => {
                let taken = write_to(&slot.stream, piece)?;
                if taken > 0 {
                    slot.heard = self.second;
                }
                Ok(taken)
            }
            None => Err(Broken),
        }
    }

    /// Has a connection reported in the next round.
    pub(crate) fn again(&mut self, number: u32) {
        put(&mut self.slots, &mut self.queue, number as usize);
    }

    /// Closes a connection.
    pub(crate) fn close(&mut self, number: u32) {
        if let Some(slot) = self.slots.get_mut(number as usize) {
            if slot.may_read {
                drop_unread(slot);
            }
        }
        if let Some(slot) = self.slots.try_remove(number as usize) {
            self.hall.goes(self.seat, slot.stream.way());
        }
        if self.accepting == Accepting::Refused {
            self.accepting = Accepting::Ready;
        }
    }
}
