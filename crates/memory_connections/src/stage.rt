//! A schedule that is played in memory.
ghost use Rattle.std.specs.Prelude.{◌≡◌, ◌+◌, ◌*◌, ◌<◌, ◌≤◌, ◌∷◌, [], true, false, Some, length, take, min, slice_get, is_some, IfOk, IfSome, IfNone};
ghost use Rattle.std.specs.List.{sum_by};
ghost use Rattle.connections.specs.State.{held, now_after, asked, closed};
ghost use Rattle.connections.specs.Log.{after_meeting_one, second_of, sent_of, timed_entries};
ghost use Rattle.connections.specs.Calls.{IsNext, entry_of, FitsRoom, IsGiven, IsTaken, gave, took};
ghost use Rattle.memory_connections.specs.MemoryConnection.{cost_of};
ghost use Rattle.memory_connections.specs.Stage.{played_state, played_connections};

use crate::memory_connection::MemConnection;
use crate::memory_list::{ask_at, change_at, close_at, free_number, narrow_at, place_of, take_at};
use crate::memory_log::{MemLog, Note};
use connections::{Broken, Change, Event, Input, Step};
use outside::NoMemory;
use std::alloc::Global;
use std::marker::Model;

/// A schedule, the connections that it made so far, and what calls did. All the memory that it may need was taken beforehand.
#[derive(Drop)]
pub struct Stage<'a> {
    schedule: &'a [Step],
    at: usize,
    /// The connections whose reports are owed behind the schedule, of which so many were made.
    owed: Vec<u32>,
    paid: usize,
    all: Vec<MemConnection<'a>>,
    log: MemLog<'a>,
    /// Which second it is, and which was told last.
    present: u64,
    told: u64,
}

impl<'a> Model for Stage<'a> {
    ghost use Rattle.std.specs.Prelude.{◌+◌, ◌≤◌, vec_len, vec_capacity};
    ghost use Rattle.memory_connections.specs.Stage.{Played, IsStage, IsTimed};

    ghost Value = { Played };

    ghost view = { λ s. record { schedule = s.schedule.now; entries = s.log.entries; room = s.log.room } };

    ghost invariant = { λ s. IsStage s.schedule.now s.at s.owed.items s.paid s.all.items s.log.entries s.log.room
        × (vec_len s.owed + s.log.room ≤ vec_capacity s.owed)
        × (vec_len s.all + s.log.room ≤ vec_capacity s.all)
        × IsTimed s.schedule.now s.log.entries s.log.room s.present s.told };
}

/// How much a change may add to what its connection needs.
fn weight(change: Change) -> u64
    ensures weight { result ≡ 8 * change.comes + change.takes }
    ensures small { result < 68719476736 }
{
    8 * u64::from(change.comes) + u64::from(change.takes)
}

/// What a step costs at most, in entries.
fn cost(step: &Step) -> u64
    ensures { result ≡ cost_of step.now }
{
    match step {
        Step::Opens(window, _) => u64::from(*window) + 3,
        Step::TurnsAway => 2,
        Step::Reports(_, change) => weight(*change) + 2,
        Step::Happens(_, change) => weight(*change) + 3,
    }
}

/// What a schedule costs at most, in entries.
#[tactic(auto, using(crate::proofs::Pending::costs_on))]
fn cost_of_all(schedule: &[Step]) -> Option<u32>
    ensures { IfSome result (λ n. n ≡ sum_by cost_of schedule.now) }
{
    let mut total: u32 = 0;
    for step in schedule {
        total = total.checked_add(u32::try_from(cost(step)).ok()?)?;
    }
    Some(total)
}

/// Puts bytes at the front.
fn put(out: &mut [u8], bytes: &[u8])
    requires { length bytes.now ≤ length out.old }
    ensures { take (length bytes.now) out.new ≡ bytes.now }
{
    out[..bytes.len()].copy_from_slice(bytes);
}

impl<'a> Stage<'a> {
    /// A stage on which nothing has happened.
    #[tactic(auto, using(crate::proofs::Stages::stage_new, crate::proofs::Timing::timed_new))]
    pub fn new(alloc: Global, schedule: &'a [Step]) -> Result<Self, NoMemory>
        ensures schedule { IfOk result (λ s. s.schedule ≡ schedule.entry.now) }
        ensures entries { IfOk result (λ s. s.entries ≡ []) }
    {
        let room = cost_of_all(schedule).ok_or(NoMemory)? as usize;
        Ok(Stage {
            schedule,
            at: 0,
            owed: Vec::with_capacity(alloc, room)?,
            paid: 0,
            all: Vec::with_capacity(alloc, room)?,
            log: MemLog::new(alloc, room)?,
            present: 0,
            told: 0,
        })
    }

    /// Reports the next step, or the next report that is owed.
    #[tactic(auto, using(crate::proofs::Timing::told_rises))]
    pub fn next(&mut self) -> Option<Event>
        ensures next { IfSome result (λ event. IsNext event (played_connections self.old) (played_state self.old).later) }
        ensures entries { IfSome result (λ event. self.new.entries ≡ timed_entries self.old.schedule (entry_of event ∷ self.old.entries)) }
        ensures over { IfNone result (((played_state self.old).later ≡ []) × (self.new.entries ≡ self.old.entries)) }
        ensures rises { second_of self.old.entries ≤ second_of self.new.entries }
        ensures room { IfSome result (λ _. self.new.room < self.old.room) }
        ensures schedule { self.new.schedule ≡ self.old.schedule }
    {
        let schedule = self.schedule;
        match schedule.get(self.at) {
            Some(Step::Opens(window, bytes)) => {
                let number = free_number(self.all.as_slice());
                self.at += 1;
                self.all
                    .push_reserved(MemConnection::new(number, *window, bytes.bytes()));
                self.told = self.present;
                self.log.note_at(Note::Opened(number), self.present);
                Some(Event::Opened(number))
            }
            Some(Step::TurnsAway) => {
                self.at += 1;
                self.told = self.present;
                self.log.note_at(Note::TurnedAway, self.present);
                Some(Event::TurnedAway)
            }
            Some(Step::Reports(place, change)) => {
                let number = change_at(&mut self.all, *place, change);
                self.at += 1;
                self.present += u64::from(change.passes);
                self.told = self.present;
                self.log.note_at(Note::Reported(number), self.present);
                Some(Event::Ready(number))
            }
            Some(Step::Happens(place, change)) => {
                let number = change_at(&mut self.all, *place, change);
                self.at += 1;
                self.present += u64::from(change.passes);
                self.told = self.present;
                self.log.note_at(Note::Reported(number), self.present);
                Some(Event::Ready(number))
            }
            None => {
                let place = *self.owed.get(self.paid)?;
                let number = change_at(&mut self.all, place, &Change::NOTHING);
                self.paid += 1;
                self.told = self.present;
                self.log.note_at(Note::Reported(number), self.present);
                Some(Event::Ready(number))
            }
        }
    }

    /// Which second was told last.
    pub fn second(&self) -> u64
        ensures { result ≡ second_of self.now.entries }
    {
        self.told
    }

    /// Takes the next step where it may come in the midst of calls.
    pub fn meet(&mut self)
        ensures entries { self.new.entries ≡ after_meeting_one (played_state self.old).later self.old.entries }
        ensures places { length (played_connections self.new) ≡ length (played_connections self.old) }
        ensures room { self.new.room ≤ self.old.room }
        ensures schedule { self.new.schedule ≡ self.old.schedule }
    {
        let schedule = self.schedule;
        match schedule.get(self.at) {
            Some(Step::Happens(place, change)) => {
                let _number = change_at(&mut self.all, *place, change);
                self.at += 1;
                self.owed.push_reserved(*place);
                self.log.note(Note::Met);
                self.present += u64::from(change.passes);
            }
            Some(Step::Opens(_, _)) => {}
            Some(Step::TurnsAway) => {}
            Some(Step::Reports(_, _)) => {}
            None => {}
        }
    }

    /// Where the connection under a number is.
    pub fn place(&self, number: u32) -> usize
        requires { is_some (held number (played_connections self.now)) ≡ true }
        ensures at { held number (played_connections self.now) ≡ Some result }
        ensures there { result < length (played_connections self.now) }
    {
        match place_of(self.all.as_slice(), number) {
            Some(place) => place,
            None => unreachable!(),
        }
    }

    /// Reads at a place, up to so many bytes.
    #[tactic(auto, using(crate::proofs::Timing::told_rises))]
    pub fn read(&mut self, place: usize, most: usize, out: &mut [u8]) -> Result<Input, Broken>
        requires there { place < length (played_connections self.old) }
        requires some { 0 < most }
        requires fits { most ≤ length out.old }
        ensures gives { IfSome (slice_get (played_connections self.old) place) (λ c. IsGiven c most out.new result) }
        ensures entries { IfSome (slice_get (played_connections self.old) place)
            (λ c. self.new.entries ≡ gave (now_after self.old.schedule self.old.entries) place c result self.old.entries) }
        ensures rises { second_of self.old.entries ≤ second_of self.new.entries }
        ensures fits { IfOk result (FitsRoom (length out.old)) }
        ensures room { self.new.room ≤ self.old.room }
        ensures schedule { self.new.schedule ≡ self.old.schedule }
    {
        let connection = &self.all[place];
        if connection.waiting() == 0 {
            return connection.silence();
        }
        let is_emptied = connection.is_emptied(most);
        let given = take_at(&mut self.all, place, most);
        put(out, given);
        self.log.note_at(Note::Received(place, given), self.present);
        self.told = self.present;
        if is_emptied {
            return Ok(Input::All(given.len()));
        }
        Ok(Input::Bytes(given.len()))
    }

    /// Writes at a place, up to so many bytes.
    pub fn write(&mut self, place: usize, most: usize, piece: &[u8]) -> Result<usize, Broken>
        requires there { place < length (played_connections self.old) }
        ensures takes { IfSome (slice_get (played_connections self.old) place) (λ c. IsTaken c most piece.now result) }
        ensures entries { self.new.entries ≡ took place piece.now result self.old.entries }
        ensures fits { IfOk result (λ n. n ≤ length piece.now) }
        ensures room { self.new.room ≤ self.old.room }
        ensures schedule { self.new.schedule ≡ self.old.schedule }
    {
        let connection = &self.all[place];
        if connection.is_broken() {
            return Err(Broken);
        }
        let count = piece.len().min(connection.window().min(most));
        if count == 0 {
            return Ok(0);
        }
        narrow_at(&mut self.all, place, count);
        self.log.send(place, &piece[..count]);
        Ok(count)
    }

    /// The connection at a place is to be reported again.
    pub fn ask(&mut self, place: usize)
        requires there { place < length (played_connections self.old) }
        requires some { IfSome (slice_get (played_connections self.old) place) (λ c. 0 < c.asks) }
        ensures entries { self.new.entries ≡ asked place ∷ self.old.entries }
        ensures room { self.new.room ≤ self.old.room }
        ensures schedule { self.new.schedule ≡ self.old.schedule }
    {
        ask_at(&mut self.all, place);
        self.owed.push_reserved(place as u32);
        self.log.note(Note::Asked(place));
    }

    /// Closes the connection at a place.
    pub fn close(&mut self, place: usize)
        requires there { place < length (played_connections self.old) }
        requires open { IfSome (slice_get (played_connections self.old) place) (λ c. c.is_closed ≡ false) }
        ensures entries { self.new.entries ≡ closed place ∷ self.old.entries }
        ensures room { self.new.room ≤ self.old.room }
        ensures schedule { self.new.schedule ≡ self.old.schedule }
    {
        close_at(&mut self.all, place);
        self.log.note(Note::Closed(place));
    }

    /// All bytes that were sent for the connection at a place.
    pub fn sent(&self, alloc: Global, place: usize) -> Result<Vec<u8>, NoMemory>
        ensures { IfOk result (λ all. all.items ≡ sent_of place self.now.entries) }
    {
        self.log.sent(alloc, place)
    }
}
