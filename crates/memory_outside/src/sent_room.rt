//! Replies in a room that was taken beforehand.
ghost use Rattle.std.specs.Prelude.{◌≡◌, ◌+◌, ◌-◌, ◌<◌, ◌≤◌, ◌++◌, ◌∷◌, [], length, IfOk, option_map, slice_get};

use outside::NoMemory;
use std::alloc::Global;
use std::marker::Model;

/// Where the bytes of a reply lie, and how many datagrams had been received before it.
#[derive(Clone, Copy)]
pub struct Mark {
    pub from: usize,
    pub to: usize,
    pub after: usize,
}

/// The replies of an end, one after another in a room that was taken beforehand.
#[derive(Drop)]
pub struct SentRoom {
    bytes: Vec<u8>,
    marks: Vec<Mark>,
    room: usize,
}

impl Model for SentRoom {
    ghost use Rattle.std.specs.Prelude.{◌+◌, ◌≤◌, All, length, vec_len, vec_capacity};
    ghost use Rattle.memory_outside.specs.SentRoom.{SentRoom as SentIn, sent_in, IsWithin};

    ghost Value = { SentIn };

    ghost view = { λ r. record { sent = sent_in r.bytes.items r.marks.items; room = r.room } };

    ghost invariant = { λ r. (vec_len r.bytes + r.room ≤ vec_capacity r.bytes)
        × (vec_len r.marks + r.room ≤ vec_capacity r.marks)
        × All (IsWithin (length r.bytes.items)) r.marks.items };
}

impl SentRoom {
    /// Each reply has a byte at least, so there are no more of them than bytes: a mark is kept free for each.
    pub fn new(alloc: Global, room: u32) -> Result<Self, NoMemory>
        ensures sent { IfOk result (λ r. r.sent ≡ []) }
        ensures room { IfOk result (λ r. r.room ≡ room) }
    {
        Ok(SentRoom {
            bytes: Vec::with_capacity(alloc, room as usize)?,
            marks: Vec::with_capacity(alloc, room as usize)?,
            room: room as usize,
        })
    }

    /// How many bytes more may be kept.
    pub fn room(&self) -> usize
        ensures { result ≡ self.now.room }
    {
        self.room
    }

    /// Keeps a reply. It takes no memory.
    pub fn push(&mut self, reply: &[u8], after: usize)
        requires some { 0 < length reply.now }
        requires fits { length reply.now ≤ self.old.room }
        ensures sent { self.new.sent ≡ self.old.sent ++ record { bytes = reply.now; after = after } ∷ [] }
        ensures room { self.new.room ≡ self.old.room - length reply.now }
    {
        let from = self.bytes.len();
        if self.bytes.extend_from_slice(reply).is_err() {
            unreachable!();
        }
        let to = self.bytes.len();
        self.marks.push_reserved(Mark { from, to, after });
        self.room -= reply.len();
    }

    /// The reply of this number, from 0.
    pub fn get(&self, number: usize) -> Option<&[u8]>
        ensures { option_map (λ r. r.now) result ≡ option_map (λ s. s.bytes) (slice_get self.now.sent number) }
    {
        let mark = self.marks.get(number)?;
        Some(&self.bytes[mark.from..mark.to])
    }
}
