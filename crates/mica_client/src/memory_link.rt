//! A link over memory.
ghost use Rattle.std.specs.Prelude.{◌≡◌, ◌≤◌, ◌+◌, ◌-◌, [], false, Some, vec_len, vec_capacity, length, drop, All, IfOk, OnOk, OnErr, option_map, slice_get, IfSome};
ghost use Rattle.mica_client.specs.Talk.{sent_in};
ghost use Rattle.mica_client.specs.MemoryLink.{passed_in, LiesWithin, with_datagram};

use crate::Link;
use outside::{Bytes, Failed, NoMemory};
use std::alloc::Global;

/// A datagram that passed: where its bytes lie among those that were sent, and its port; or its number among those that were
/// received. Both have the count of faults before it.
#[derive(Clone, Copy)]
pub enum Pass {
    Sent {
        port: u16,
        from: usize,
        to: usize,
        faults: u64,
    },
    Received {
        number: usize,
        faults: u64,
    },
}

/// A link over memory, for tests: it gives the datagrams that were added, keeps those that are sent, and fails at the listed calls
/// and where a datagram has no room left.
#[derive(Drop)]
pub struct MemLink {
    datagrams: Vec<Bytes>,
    at: usize,
    bytes: Vec<u8>,
    passes: Vec<Pass>,
    room: usize,
    send_fails: Vec<u32>,
    sends: u32,
    recv_fails: Vec<u32>,
    recvs: u32,
    ended: bool,
    silence: u32,
    faults: u64,
    ghost in_range: { at ≤ vec_len datagrams },
    ghost bytes_room: { vec_len bytes + room ≤ vec_capacity bytes },
    ghost passes_room: { vec_len passes + room + (vec_len datagrams - at) ≤ vec_capacity passes },
    ghost within: { All (LiesWithin (length bytes.items) (length datagrams.items)) passes.items },
}

impl MemLink {
    /// A link with no datagrams, and room for so many bytes in those that are sent. `send_fails` and `recv_fails` list the calls
    /// that fail, by their numbers from 1.
    pub fn new(
        alloc: Global,
        room: u32,
        send_fails: &[u32],
        recv_fails: &[u32],
    ) -> Result<Self, NoMemory>
        ensures talk { IfOk result (λ l. ⟦<MemLink as Link>⟧.talk l ≡ Some (record { left = []; passed = [] })) }
        ensures script { IfOk result (λ l. ⟦<MemLink as Link>⟧.script l ≡ Some
            (record { recv_fails = recv_fails.now; recvs = 0; reply_fails = send_fails.now; replies = 0; room = room })) }
        ensures faults { IfOk result (λ l. ⟦<MemLink as Link>⟧.faults l ≡ 0) }
        ensures open { IfOk result (λ l. ⟦<MemLink as Link>⟧.has_ended l ≡ false) }
    {
        Ok(MemLink {
            datagrams: Vec::new(alloc),
            at: 0,
            bytes: Vec::with_capacity(alloc, room as usize)?,
            passes: Vec::with_capacity(alloc, room as usize)?,
            room: room as usize,
            send_fails: Vec::from_slice(alloc, send_fails)?,
            sends: 0,
            recv_fails: Vec::from_slice(alloc, recv_fails)?,
            recvs: 0,
            ended: false,
            silence: 0,
            faults: 0,
        })
    }

    /// Adds a datagram at the end of those that the link has left.
    pub fn add(&mut self, alloc: Global, from: &[u8]) -> Result<(), NoMemory>
        ensures ok { OnOk result (⟦<MemLink as Link>⟧.talk self.new ≡ option_map (with_datagram from.now) (⟦<MemLink as Link>⟧.talk self.old)) }
        ensures err { OnErr result (⟦<MemLink as Link>⟧.talk self.new ≡ ⟦<MemLink as Link>⟧.talk self.old) }
        ensures script { ⟦<MemLink as Link>⟧.script self.new ≡ ⟦<MemLink as Link>⟧.script self.old }
        ensures faults { ⟦<MemLink as Link>⟧.faults self.new ≡ ⟦<MemLink as Link>⟧.faults self.old }
        ensures ended { ⟦<MemLink as Link>⟧.has_ended self.new ≡ ⟦<MemLink as Link>⟧.has_ended self.old }
    {
        let datagram = Bytes::copy(alloc, from)?;
        self.passes
            .reserve(self.room + (self.datagrams.len() - self.at) + 1)?;
        self.datagrams.push(datagram)?;
        Ok(())
    }

    /// The datagram of this number, from 0, that was sent, and its port.
    pub fn sent(&self, number: u32) -> Option<(u16, &[u8])>
        ensures { IfSome (⟦<MemLink as Link>⟧.talk self.now)
            (λ t. option_map (λ r. (r.0, r.1.now)) result ≡ slice_get (sent_in t.passed) number) }
    {
        let mut before = number;
        for pass in &self.passes {
            if let Pass::Sent { port, from, to, .. } = pass {
                if before == 0 {
                    return Some((*port, &self.bytes[*from..*to]));
                }
                before -= 1;
            }
        }
        None
    }
}

impl Link for MemLink {
    ghost talk = { λ l. Some (record {
      left = drop l.at l.datagrams.items;
      passed = passed_in l.bytes.items l.datagrams.items l.passes.items;
    }) };

    ghost faults = { λ l. l.faults };

    ghost has_ended = { λ l. l.ended };

    ghost script = { λ l. Some (record {
      recv_fails = l.recv_fails.items;
      recvs = l.recvs;
      reply_fails = l.send_fails.items;
      replies = l.sends;
      room = l.room;
    }) };

    ghost silence = { λ l. l.silence };

    fn set_silence(&mut self, seconds: u32) {
        self.silence = seconds;
    }

    fn send(&mut self, port: u16, piece: &[u8]) -> Result<(), Failed> {
        self.sends = self.sends.saturating_add(1);
        if self.send_fails.contains(&self.sends) || self.room < piece.len() {
            self.faults = self.faults.saturating_add(1);
            return Err(Failed);
        }
        let from = self.bytes.len();
        if self.bytes.extend_from_slice(piece).is_err() {
            unreachable!();
        }
        self.passes.push_reserved(Pass::Sent {
            port,
            from,
            to: from + piece.len(),
            faults: self.faults,
        });
        self.room -= piece.len();
        Ok(())
    }

    fn recv(&mut self, out: &mut [u8]) -> Result<Option<usize>, Failed> {
        self.recvs = self.recvs.saturating_add(1);
        if self.recv_fails.contains(&self.recvs) {
            self.faults = self.faults.saturating_add(1);
            return Err(Failed);
        }
        let Some(datagram) = self.datagrams.get(self.at) else {
            self.ended = true;
            return Ok(None);
        };
        let bytes = datagram.bytes();
        let count = bytes.len().min(out.len());
        out[..count].copy_from_slice(&bytes[..count]);
        self.passes.push_reserved(Pass::Received {
            number: self.at,
            faults: self.faults,
        });
        self.at += 1;
        Ok(Some(count))
    }
}
