//! What calls did, in room that was taken beforehand.
ghost use Rattle.std.specs.Prelude.{◌≡◌, ◌-◌, ◌<◌, ◌≤◌, ◌∷◌, [], All, length, IfOk};
ghost use Rattle.connections.specs.State.{second, sent};
ghost use Rattle.connections.specs.Log.{sent_of};
ghost use Rattle.memory_connections.specs.MemoryLog.{noted, entry_in, entries_in, IsWithin};

use outside::NoMemory;
use std::alloc::Global;
use std::marker::Model;

/// What a call did that keeps no bytes of its own.
#[derive(Clone, Copy)]
pub enum Note<'a> {
    Opened(u32),
    Reported(u32),
    TurnedAway,
    Met,
    Second(u64),
    Received(usize, &'a [u8]),
    Asked(usize),
    Closed(usize),
}

/// What a call did: what it sent lies between two places of the bytes that were sent.
#[derive(Clone, Copy)]
pub enum Mark<'a> {
    Noted(Note<'a>),
    Sent(usize, usize, usize),
}

/// What calls did, with room for so much more.
#[derive(Drop)]
pub struct MemLog<'a> {
    marks: Vec<Mark<'a>>,
    bytes: Vec<u8>,
    room: usize,
}

impl<'a> Model for MemLog<'a> {
    ghost use Rattle.std.specs.Prelude.{◌+◌, ◌≤◌, All, length, vec_len, vec_capacity};
    ghost use Rattle.memory_connections.specs.MemoryLog.{LogRoom, entries_in, IsWithin};

    ghost Value = { LogRoom };

    ghost view = { λ l. record { entries = entries_in l.bytes.items l.marks.items; room = l.room } };

    ghost invariant = { λ l. (vec_len l.bytes + l.room ≤ vec_capacity l.bytes)
        × (vec_len l.marks + l.room ≤ vec_capacity l.marks)
        × All (IsWithin (length l.bytes.items)) l.marks.items };
}

// What a mark keeps of the bytes that were sent for the connection of a place.
#[tactic(auto, using(crate::proofs::Marks::none_noted))]
fn sent_by<'b>(bytes: &'b [u8], mark: &Mark<'_>, place: usize) -> &'b [u8]
    requires { IsWithin (length bytes.now) mark.now }
    ensures { result.now ≡ sent_of place (entry_in bytes.now mark.now ∷ []) }
{
    match mark {
        Mark::Noted(_) => &[],
        Mark::Sent(connection, from, to) => {
            if *connection == place {
                &bytes[*from..*to]
            } else {
                &[]
            }
        }
    }
}

// All bytes that were sent for the connection of a place, by these marks.
#[tactic(auto, using(crate::proofs::Marks::sent_on))]
fn sent_in(
    alloc: Global,
    bytes: &[u8],
    marks: &[Mark<'_>],
    place: usize,
) -> Result<Vec<u8>, NoMemory>
    requires { All (IsWithin (length bytes.now)) marks.now }
    ensures { IfOk result (λ all. all.items ≡ sent_of place (entries_in bytes.now marks.now)) }
{
    let mut all = Vec::new(alloc);
    for mark in marks {
        all.extend_from_slice(sent_by(bytes, mark, place))?;
    }
    Ok(all)
}

impl<'a> MemLog<'a> {
    /// An entry takes a place of the room, or one for each byte that was sent.
    pub fn new(alloc: Global, room: usize) -> Result<Self, NoMemory>
        ensures entries { IfOk result (λ l. l.entries ≡ []) }
        ensures room { IfOk result (λ l. l.room ≡ room) }
    {
        Ok(MemLog {
            marks: Vec::with_capacity(alloc, room)?,
            bytes: Vec::with_capacity(alloc, room)?,
            room,
        })
    }

    /// Notes one entry more.
    pub fn note(&mut self, note: Note<'a>)
        requires { 0 < self.old.room }
        ensures entries { self.new.entries ≡ noted note.entry ∷ self.old.entries }
        ensures room { self.new.room ≡ self.old.room - 1 }
    {
        self.marks.push_reserved(Mark::Noted(note));
        self.room -= 1;
    }

    /// Notes one entry more, and behind it which second it is.
    pub fn note_at(&mut self, note: Note<'a>, at: u64)
        requires { 1 < self.old.room }
        ensures entries { self.new.entries ≡ second at ∷ noted note.entry ∷ self.old.entries }
        ensures room { self.new.room ≡ self.old.room - 2 }
    {
        self.note(note);
        self.note(Note::Second(at));
    }

    /// Bytes were sent for a connection.
    pub fn send(&mut self, place: usize, bytes: &[u8])
        requires some { 0 < length bytes.now }
        requires fits { length bytes.now ≤ self.old.room }
        ensures entries { self.new.entries ≡ sent place bytes.now ∷ self.old.entries }
        ensures room { self.new.room ≡ self.old.room - length bytes.now }
    {
        let from = self.bytes.len();
        if self.bytes.extend_from_slice(bytes).is_err() {
            unreachable!();
        }
        let to = self.bytes.len();
        self.marks.push_reserved(Mark::Sent(place, from, to));
        self.room -= bytes.len();
    }

    /// All bytes that were sent for the connection of a place.
    pub fn sent(&self, alloc: Global, place: usize) -> Result<Vec<u8>, NoMemory>
        ensures { IfOk result (λ all. all.items ≡ sent_of place self.now.entries) }
    {
        sent_in(alloc, self.bytes.as_slice(), self.marks.as_slice(), place)
    }
}
