//! A source in memory.
ghost use Rattle.std.specs.Prelude.{◌≡◌, ◌≤◌, ◌<◌, false, Some, vec_len, drop, IfOk};
ghost use Rattle.outside.specs.Script.{Script};

use outside::{Failed, NoMemory, Source};
use std::alloc::Global;

/// A source over bytes in memory, which fails at the listed reads.
#[derive(Drop)]
pub struct MemSource {
    bytes: Vec<u8>,
    at: usize,
    piece: u32,
    fails: Vec<u32>,
    calls: u32,
    faults: u64,
    ended: bool,
    ghost in_range: { at ≤ vec_len bytes },
    ghost some: { 0 < piece },
}

impl MemSource {
    /// Gives at most `piece` bytes at each read. `fails` lists the reads that fail, by their
    /// numbers from 1.
    pub fn new(alloc: Global, from: &[u8], piece: u32, fails: &[u32]) -> Result<Self, NoMemory>
        requires { 0 < piece }
        ensures left { IfOk result (λ source. ⟦<MemSource as Source>⟧.left source ≡ Some from.now) }
        ensures script { IfOk result (λ source. ⟦<MemSource as Source>⟧.script source
            ≡ Some (record { fails = fails.now; calls = 0; piece = piece })) }
        ensures given { IfOk result (λ source. ⟦<MemSource as Source>⟧.given source ≡ 0) }
        ensures faults { IfOk result (λ source. ⟦<MemSource as Source>⟧.faults source ≡ 0) }
        ensures open { IfOk result (λ source. ⟦<MemSource as Source>⟧.has_ended source ≡ false) }
    {
        Ok(MemSource {
            bytes: Vec::from_slice(alloc, from)?,
            at: 0,
            piece,
            fails: Vec::from_slice(alloc, fails)?,
            calls: 0,
            faults: 0,
            ended: false,
        })
    }
}

impl Source for MemSource {
    ghost left = { λ s. Some (drop s.at s.bytes.items) };

    ghost given = { λ s. s.at };

    ghost faults = { λ s. s.faults };

    ghost has_ended = { λ s. s.ended };

    ghost script = { λ s.
        Some (record { fails = s.fails.items; calls = s.calls; piece = s.piece }) };

    fn read(&mut self, out: &mut [u8]) -> Result<usize, Failed> {
        self.calls = self.calls.saturating_add(1);
        if self.fails.contains(&self.calls) {
            self.faults = self.faults.saturating_add(1);
            return Err(Failed);
        }
        let left = self.bytes.len() - self.at;
        let count = left.min(out.len()).min(self.piece as usize);
        out[..count].copy_from_slice(&self.bytes[self.at..self.at + count]);
        self.at += count;
        self.ended = count == 0;
        Ok(count)
    }
}
