//! Batches that are judged, and taken request by request, where they lie.
ghost use Rattle.std.specs.Prelude.{◌≡◌, ◌≤◌, ◌↔◌, ◌+◌, ◌∷◌, ◌++◌, ℕ, List, length, IsTrue, IsOk, IfOk, OnOk};
ghost use Rattle.batch_packets.specs.declared.header.TheConstants.{HEADER_LEN, MAX_DATAGRAM_LEN_V2};
ghost use Rattle.batch_packets.specs.declared.batch.Request.{Request};
ghost use Rattle.batch_packets.specs.declared.batch.Batch.{Batch};
ghost use Rattle.batch_packets.specs.Faults.{AnswersExactly};
ghost use Rattle.batch_packets.specs.Datagram.{is_version, max_datagram_len, first_fault};
ghost use Rattle.batch_packets.specs.BatchGrammar.{IsRequest, SpellsBatch, batch_kind, request_text};
ghost use Rattle.batch_packets.specs.Remaining.{HasLeft};

use crate::batch::Want;
use crate::header::Header;
use crate::item::{Item, check_datagram, next_item};
use crate::{BatchFault, Request};
use mica_words::key_fits;
use outside::{Bytes, NoMemory};
use std::alloc::Global;
use std::marker::Model;

/// A request whose texts lie in the bytes of its batch. Clauses see it as the request.
#[derive(Drop)]
pub struct RequestRef<'a> {
    want: Want,
    ticket: u32,
    key: &'a [u8],
    value: &'a [u8],
}

impl<'a> Model for RequestRef<'a> {
    ghost use Rattle.batch_packets.specs.declared.batch.Request.{Request};

    ghost Value = { Request };

    ghost view = { λ r. record { want = r.want; ticket = r.ticket; key = r.key.now; value = r.value.now } };
}

impl<'a> RequestRef<'a> {
    /// A request that lends its key and its value.
    pub fn new(want: Want, ticket: u32, key: &'a [u8], value: &'a [u8]) -> RequestRef<'a>
        ensures { result ≡ record { want = want; ticket = ticket; key = key.now; value = value.now } }
    {
        RequestRef {
            want,
            ticket,
            key,
            value,
        }
    }

    /// What is asked for.
    pub fn want(&self) -> Want
        ensures { result ≡ self.now.want }
    {
        self.want
    }

    /// The ticket that the reply repeats.
    pub fn ticket(&self) -> u32
        ensures { result ≡ self.now.ticket }
    {
        self.ticket
    }

    /// The key, which the batch's bytes lend.
    pub fn key(&self) -> &'a [u8]
        ensures { result.now ≡ self.now.key }
    {
        self.key
    }

    /// The value, which is empty where none is sent.
    pub fn value(&self) -> &'a [u8]
        ensures { result.now ≡ self.now.value }
    {
        self.value
    }

    /// The request with texts of its own.
    pub fn to_request(&self, alloc: Global) -> Result<Request, NoMemory>
        ensures { IfOk result (λ request. request ≡ self.now) }
    {
        Ok(Request {
            want: self.want,
            ticket: self.ticket,
            key: Bytes::copy(alloc, self.key)?,
            value: Bytes::copy(alloc, self.value)?,
        })
    }

    /// Whether a batch of this version may have it.
    pub fn is_of(&self, version: u8) -> bool
        ensures { IsTrue result ↔ IsRequest version self.now }
    {
        self.want.is_of(version)
            && key_fits(self.key)
            && self.value.len() <= self.want.longest_value(version)
    }

    /// How many bytes its text has. One request always fits a datagram.
    #[tactic(auto, unfolding(crate::specs::BatchGrammar::request_text))]
    pub fn text_len(&self) -> usize
        requires { (version : ℕ) × IsRequest version self.now }
        ensures size { result ≡ length (request_text self.now) }
        ensures fits { (version : ℕ) → IsTrue (is_version version) → IsRequest version self.now
            → HEADER_LEN + result ≤ max_datagram_len version }
        ensures short { HEADER_LEN + result ≤ MAX_DATAGRAM_LEN_V2 }
    {
        8 + self.key.len() + self.value.len()
    }

    /// Appends its text.
    #[tactic(auto, unfolding(crate::specs::BatchGrammar::request_text))]
    pub(crate) fn put(&self, out: &mut Vec<u8>) -> Result<(), NoMemory>
        requires { (version : ℕ) × IsRequest version self.now }
        ensures { OnOk result (out.new.items ≡ out.old.items ++ request_text self.now) }
    {
        let [v0, v1] = (self.value.len() as u16).to_le_bytes();
        let [t0, t1, t2, t3] = self.ticket.to_le_bytes();
        let operation = self.want.byte();
        let key_len = self.key.len() as u8;
        out.extend_from_slice(&[operation, key_len, v0, v1, t0, t1, t2, t3])?;
        out.extend_from_slice(self.key)?;
        out.extend_from_slice(self.value)?;
        Ok(())
    }
}

impl<'a> Item<'a> for RequestRef<'a> {
    ghost use Rattle.batch_packets.specs.BatchGrammar.{IsRequest, IsInRange, request_text, batch_magic, batch_kind};

    ghost kind = { batch_kind };

    ghost text = { request_text };

    ghost is_item = { IsRequest };

    ghost is_in_range = { IsInRange };

    fn magic() -> [u8; 4]
        ensures { result ≡ batch_magic }
    {
        *b"MICA"
    }

    #[tactic(auto, unfolding(crate::specs::BatchGrammar::request_text))]
    fn read(version: u8, from: &'a [u8]) -> Result<(RequestRef<'a>, &'a [u8]), BatchFault> {
        let [operation, key_len, v0, v1, t0, t1, t2, t3, texts @ ..] = from else {
            return Err(BatchFault::Short);
        };
        let Some(want) = Want::of(version, *operation) else {
            return Err(BatchFault::Op);
        };
        let key_len = usize::from(*key_len);
        let value_len = usize::from(u16::from_le_bytes([*v0, *v1]));
        if key_len == 0 || value_len > want.longest_value(version) {
            return Err(BatchFault::Length);
        }
        if texts.len() < key_len + value_len {
            return Err(BatchFault::Short);
        }
        let (key, after_key) = texts.split_at(key_len);
        let (value, rest) = after_key.split_at(value_len);
        let request = RequestRef {
            want,
            ticket: u32::from_le_bytes([*t0, *t1, *t2, *t3]),
            key,
            value,
        };
        Ok((request, rest))
    }
}

/// The requests of a batch that was judged, of which some may have been taken.
#[derive(Drop)]
pub struct Requests<'a> {
    version: u8,
    rest: &'a [u8],
}

impl<'a> Model for Requests<'a> {
    ghost use Rattle.std.specs.Prelude.{IsTrue};
    ghost use Rattle.batch_packets.specs.Datagram.{is_version};
    ghost use Rattle.batch_packets.specs.Remaining.{Remaining};

    ghost Value = { Remaining };

    ghost view = { λ r. record { version = r.version; bytes = r.rest.now } };

    ghost invariant = { λ r. IsTrue (is_version r.version) };
}

impl<'a> Requests<'a> {
    /// These requests, to be taken once more.
    pub fn again(&self) -> Requests<'a>
        ensures { result ≡ self.now }
    {
        Requests {
            version: self.version,
            rest: self.rest,
        }
    }

    /// Takes the next request.
    pub fn next_request(&mut self) -> RequestRef<'a>
        requires some { (request : Request) × (later : List Request) × HasLeft self.old (request ∷ later) }
        ensures version { self.new.version ≡ self.old.version }
        ensures taken { (request : Request) (later : List Request) → HasLeft self.old (request ∷ later)
            → (result ≡ request) × HasLeft self.new later }
    {
        let (request, rest) = next_item(self.version, self.rest);
        self.rest = rest;
        request
    }
}

/// Judges bytes as a batch, and gives its header and its requests. It takes no memory.
pub fn check_batch(from: &[u8]) -> Result<(Header, Requests), BatchFault>
    ensures batch { IfOk result (λ x. (requests : List Request)
        × SpellsBatch from.now (record { version = x.0.version; number = x.0.number; requests = requests })
        × (length requests ≡ x.0.count) × (x.1.version ≡ x.0.version) × HasLeft x.1 requests) }
    ensures fault { AnswersExactly (first_fault batch_kind from.now) result }
    // The text of a batch is one.
    ensures only { (batch : Batch) → SpellsBatch from.now batch → IsOk result }
{
    let (header, rest) = check_datagram::<RequestRef>(from)?;
    let requests = Requests {
        version: header.version,
        rest,
    };
    Ok((header, requests))
}
