//! A sink in memory.
ghost use Rattle.std.specs.Prelude.{◌≡◌, ◌≤◌, ◌<◌, ◌-◌, Some, [], vec_len, vec_capacity, IfOk};
ghost use Rattle.outside.specs.Script.{Script};

use outside::{Failed, NoMemory, Sink};
use std::alloc::Global;

/// A sink over memory of a fixed room, which fails at the listed writes and where no room is left.
#[derive(Drop)]
pub struct MemSink {
    bytes: Vec<u8>,
    room: usize,
    piece: u32,
    fails: Vec<u32>,
    calls: u32,
    faults: u64,
    ghost in_room: { vec_len bytes ≤ room },
    ghost reserved: { room ≤ vec_capacity bytes },
    ghost some: { 0 < piece },
}

impl MemSink {
    /// Takes at most `piece` bytes at each write. `fails` lists the writes that fail, by their
    /// numbers from 1.
    pub fn new(alloc: Global, room: u32, piece: u32, fails: &[u32]) -> Result<Self, NoMemory>
        requires { 0 < piece }
        ensures taken { IfOk result (λ sink. ⟦<MemSink as Sink>⟧.taken sink ≡ Some []) }
        ensures script { IfOk result (λ sink. ⟦<MemSink as Sink>⟧.script sink
            ≡ Some (record { fails = fails.now; calls = 0; piece = piece })) }
        ensures room { IfOk result (λ sink. ⟦<MemSink as Sink>⟧.room sink ≡ Some room) }
        ensures faults { IfOk result (λ sink. ⟦<MemSink as Sink>⟧.faults sink ≡ 0) }
    {
        Ok(MemSink {
            bytes: Vec::with_capacity(alloc, room as usize)?,
            room: room as usize,
            piece,
            fails: Vec::from_slice(alloc, fails)?,
            calls: 0,
            faults: 0,
        })
    }

    /// All that was written.
    pub fn taken(&self) -> &[u8]
        ensures { ⟦<MemSink as Sink>⟧.taken self.now ≡ Some result.now }
    {
        self.bytes.as_slice()
    }
}

impl Sink for MemSink {
    ghost taken = { λ s. Some s.bytes.items };

    ghost faults = { λ s. s.faults };

    ghost script = { λ s.
        Some (record { fails = s.fails.items; calls = s.calls; piece = s.piece }) };

    ghost room = { λ s. Some (s.room - vec_len s.bytes) };

    fn write(&mut self, piece: &[u8]) -> Result<usize, Failed> {
        self.calls = self.calls.saturating_add(1);
        let left = self.room - self.bytes.len();
        if left == 0 || self.fails.contains(&self.calls) {
            self.faults = self.faults.saturating_add(1);
            return Err(Failed);
        }
        let count = left.min(piece.len()).min(self.piece as usize);
        if self.bytes.extend_from_slice(&piece[..count]).is_err() {
            unreachable!();
        }
        Ok(count)
    }
}
