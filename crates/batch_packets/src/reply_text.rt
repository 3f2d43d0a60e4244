//! Replies that are written straight into the datagrams that they split into.
ghost use Rattle.std.specs.Prelude.{◌≡◌, ◌<◌, ◌≤◌, ◌+◌, ◌⊎◌, ◌∷◌, ◌++◌, [], false, List, length, slice_set, vec_len, vec_capacity, IsTrue, IsOk, IfOk, OnOk, OnErr};
ghost use Rattle.batch_packets.specs.declared.header.TheConstants.{HEADER_LEN, MAX_ITEMS};
ghost use Rattle.batch_packets.specs.declared.replies.Reply.{Reply};
ghost use Rattle.batch_packets.specs.Datagram.{is_version, max_datagram_len, count_at};
ghost use Rattle.batch_packets.specs.ReplyGrammar.{IsReply, reply_text, replies_datagram};
ghost use Rattle.batch_packets.specs.Splitting.{SplitsInto};
ghost use Rattle.batch_packets.specs.Filling.{HasReplies, Adds};

use crate::header::{COUNT_AT, Header, MAX_ITEMS, max_datagram_len, put_header};
use crate::item::Item;
use crate::replies::ReplyRef;
use crate::{Datagram, Status};
use outside::{Bytes, NoMemory};
use std::alloc::Global;
use std::marker::Model;
use std::mem;

/// The bytes of a reply but for its value.
const FIXED_LEN: usize = 16;

/// The replies to one batch, in the datagrams that they split into. Each datagram is a buffer of its own,
/// for which memory is taken once, when it is begun.
#[derive(Drop)]
pub struct ReplyText {
    alloc: Global,
    version: u8,
    number: u32,
    closed: Vec<Datagram>,
    /// The datagram that is being filled. Its count rises with each reply.
    begun: Vec<u8>,
}

impl Model for ReplyText {
    ghost use Rattle.std.specs.Prelude.{◌≤◌, vec_len, vec_capacity, IsTrue};
    ghost use Rattle.batch_packets.specs.declared.header.TheConstants.{HEADER_LEN};
    ghost use Rattle.batch_packets.specs.Datagram.{is_version, max_datagram_len};
    ghost use Rattle.batch_packets.specs.Filling.{Filling};

    ghost Value = { Filling };

    ghost view = { λ t. record { version = t.version; number = t.number; closed = t.closed.items; begun = t.begun.items } };

    ghost invariant = { λ t. IsTrue (is_version t.version) × (HEADER_LEN ≤ vec_len t.begun)
        × (vec_len t.begun ≤ max_datagram_len t.version)
        × (max_datagram_len t.version ≤ vec_capacity t.begun) };
}

/// A datagram with no reply yet, and with room for as many bytes as it may have.
#[tactic(auto, unfolding(crate::specs::ReplyGrammar::replies_datagram))]
fn begin(alloc: Global, version: u8, number: u32) -> Result<Vec<u8>, NoMemory>
    requires { IsTrue (is_version version) }
    ensures text { IfOk result (λ text. text.items ≡ replies_datagram version number []) }
    ensures len { IfOk result (λ text. vec_len text ≡ HEADER_LEN) }
    ensures room { IfOk result (λ text. max_datagram_len version ≤ vec_capacity text) }
{
    let mut text = Vec::with_capacity(alloc, max_datagram_len(version))?;
    let header = Header {
        version,
        count: 0,
        number,
    };
    put_header(&mut text, ReplyRef::magic(), header)?;
    Ok(text)
}

/// Appends the text of a reply, which has room.
#[tactic(auto, unfolding(crate::specs::ReplyGrammar::reply_text))]
fn put_reply(out: &mut Vec<u8>, status: Status, ticket: u32, stamp: u64, value: &[u8])
    requires value { length value.now < 65536 }
    requires room { vec_len out.old + FIXED_LEN + length value.now ≤ vec_capacity out.old }
    ensures text { out.new.items ≡ out.old.items ++ reply_text (record { status = status; ticket = ticket; stamp = stamp; value = value.now }) }
    ensures len { vec_len out.new ≡ vec_len out.old + FIXED_LEN + length value.now }
    ensures room { vec_capacity out.old ≤ vec_capacity out.new }
{
    let [v0, v1] = (value.len() as u16).to_le_bytes();
    let [t0, t1, t2, t3] = ticket.to_le_bytes();
    let [s0, s1, s2, s3, s4, s5, s6, s7] = stamp.to_le_bytes();
    let fixed = [
        status.byte(),
        0,
        v0,
        v1,
        t0,
        t1,
        t2,
        t3,
        s0,
        s1,
        s2,
        s3,
        s4,
        s5,
        s6,
        s7,
    ];
    if out.extend_from_slice(&fixed).is_err() || out.extend_from_slice(value).is_err() {
        unreachable!();
    }
}

impl ReplyText {
    /// The text of no replies, of this version and number.
    pub fn new(alloc: Global, version: u8, number: u32) -> Result<Self, NoMemory>
        requires { IsTrue (is_version version) }
        ensures version { IfOk result (λ text. text.version ≡ version) }
        ensures number { IfOk result (λ text. text.number ≡ number) }
        ensures none { IfOk result (λ text. HasReplies text []) }
    {
        Ok(ReplyText {
            alloc,
            version,
            number,
            closed: Vec::new(alloc),
            begun: begin(alloc, version, number)?,
        })
    }

    /// How many replies are in the datagram that is being filled.
    fn count(&self) -> u8
        ensures { result ≡ count_at self.now.begun }
    {
        self.begun[COUNT_AT]
    }

    /// Whether the datagram that is being filled has room for a reply of this value.
    fn has_room(&self, value: &[u8]) -> bool
        ensures few { count_at self.now.begun ≤ MAX_ITEMS }
        ensures short { length self.now.begun ≤ max_datagram_len self.now.version }
        ensures room { IsTrue result → (count_at self.now.begun < MAX_ITEMS)
            × (length self.now.begun + FIXED_LEN + length value.now ≤ max_datagram_len self.now.version) }
        ensures full { result ≡ false → (count_at self.now.begun ≡ MAX_ITEMS)
            ⊎ (max_datagram_len self.now.version < length self.now.begun + FIXED_LEN + length value.now) }
    {
        let len = self.begun.len() + FIXED_LEN + value.len();
        usize::from(self.count()) < MAX_ITEMS && len <= max_datagram_len(self.version)
    }

    /// Closes the datagram that is being filled, and begins the next one.
    fn close(&mut self) -> Result<(), NoMemory>
        ensures closed { OnOk result (self.new ≡ record self.old {
          closed = self.old.closed ++ self.old.begun ∷ [];
          begun = replies_datagram self.old.version self.old.number [];
        }) }
        ensures err { OnErr result (self.new ≡ self.old) }
    {
        let next = begin(self.alloc, self.version, self.number)?;
        self.closed.reserve(1)?;
        let full = mem::replace(&mut self.begun, next);
        self.closed.push_reserved(Bytes::from(full));
        Ok(())
    }

    /// Adds a reply to the datagram that is being filled, which has room.
    fn put(&mut self, status: Status, ticket: u32, stamp: u64, value: &[u8])
        requires few { count_at self.old.begun < MAX_ITEMS }
        requires short { length self.old.begun + FIXED_LEN + length value.now ≤ max_datagram_len self.old.version }
        ensures { self.new ≡ record self.old {
          begun = slice_set self.old.begun COUNT_AT (count_at self.old.begun + 1)
              ++ reply_text (record { status = status; ticket = ticket; stamp = stamp; value = value.now });
        } }
    {
        self.begun[COUNT_AT] += 1;
        put_reply(&mut self.begun, status, ticket, stamp, value);
    }

    /// Adds a reply, where it does not fit as the first one of the next datagram.
    pub fn add(
        &mut self,
        status: Status,
        ticket: u32,
        stamp: u64,
        value: &[u8],
    ) -> Result<(), NoMemory>
        requires { IsReply self.old.version (record { status = status; ticket = ticket; stamp = stamp; value = value.now }) }
        ensures added { OnOk result (Adds self.old (record { status = status; ticket = ticket; stamp = stamp; value = value.now } ∷ []) self.new) }
        ensures err { OnErr result (self.new ≡ self.old) }
    {
        if !self.has_room(value) {
            self.close()?;
        }
        self.put(status, ticket, stamp, value);
        Ok(())
    }

    /// The datagrams that the replies split into.
    pub fn finish(self) -> Result<Vec<Datagram>, NoMemory>
        ensures { IfOk result (λ datagrams. (replies : List Reply) → HasReplies self replies
            → SplitsInto self.version self.number replies datagrams.items) }
    {
        let count = self.count();
        let ReplyText {
            mut closed,
            begun,
            ..
        } = self;
        if count > 0 {
            closed.push(Bytes::from(begun))?;
        }
        Ok(closed)
    }
}
