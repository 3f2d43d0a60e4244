//! An end over memory.
ghost use Rattle.std.specs.Prelude.{◌≤◌, Some, vec_len, take, drop, nat_lt};
ghost use Rattle.outside.specs.Traffic.{Traffic, EndScript};

use crate::sent_room::SentRoom;
use outside::{Bytes, Datagrams, Failed};

/// An end over memory, which fails at the listed calls and where a reply has no room left.
#[derive(Drop)]
pub struct MemEnd {
    pub(crate) port: u16,
    pub(crate) datagrams: Vec<Bytes>,
    pub(crate) at: usize,
    pub(crate) sent: SentRoom,
    pub(crate) recv_fails: Vec<u32>,
    pub(crate) recvs: u32,
    pub(crate) reply_fails: Vec<u32>,
    pub(crate) replies: u32,
    pub(crate) ended: bool,
    pub(crate) faults: u64,
    pub(crate) ghost in_range: { at ≤ vec_len datagrams },
}

impl Datagrams for MemEnd {
    ghost port = { λ e. e.port };

    ghost traffic = { λ e. Some (record {
      left = drop e.at e.datagrams.items;
      received = take e.at e.datagrams.items;
      sent = e.sent.sent;
    }) };

    ghost faults = { λ e. e.faults };

    ghost has_ended = { λ e. e.ended };

    ghost has_received = { λ e. nat_lt 0 e.at };

    ghost script = { λ e. Some (record {
      recv_fails = e.recv_fails.items;
      recvs = e.recvs;
      reply_fails = e.reply_fails.items;
      replies = e.replies;
      room = e.sent.room;
    }) };

    fn recv(&mut self, out: &mut [u8]) -> Result<Option<usize>, Failed> {
        self.recvs = self.recvs.saturating_add(1);
        if self.recv_fails.contains(&self.recvs) {
            self.faults = self.faults.saturating_add(1);
            return Err(Failed);
        }
        let Some(datagram) = self.datagrams.get(self.at) else {
            self.ended = true;
            return Ok(None);
        };
        let bytes = datagram.bytes();
        let count = bytes.len().min(out.len());
        out[..count].copy_from_slice(&bytes[..count]);
        self.at += 1;
        Ok(Some(count))
    }

    fn reply(&mut self, piece: &[u8]) -> Result<(), Failed> {
        self.replies = self.replies.saturating_add(1);
        if self.reply_fails.contains(&self.replies) || self.sent.room() < piece.len() {
            self.faults = self.faults.saturating_add(1);
            return Err(Failed);
        }
        self.sent.push(piece, self.at);
        Ok(())
    }
}
