//! Batches of requests, read from bytes and written.
ghost use Rattle.std.specs.Prelude.{◌≡◌, ◌<◌, ◌≤◌, ◌↔◌, ◌+◌, ◌^◌, ◌++◌, ℕ, false, length, All, IsTrue, IfOk, OnOk, IfSome, IfNone, IsOkUnless};
ghost use Rattle.std.specs.List.{flat_map};
ghost use Rattle.batch_packets.specs.Faults.{AgreesWith};
ghost use Rattle.batch_packets.specs.declared.header.TheConstants.{HEADER_LEN};
ghost use Rattle.batch_packets.specs.Datagram.{is_version, max_datagram_len, first_fault};

use crate::checking::{RequestRef, check_batch};
use crate::header::{
    HEADER_LEN, Header, MAX_ITEMS, is_version, max_datagram_len, max_value_len, put_header,
};
use crate::item::Item;
use crate::{BatchFault, Datagram};
use mica_words::key_fits;
use outside::{Bytes, NoMemory};
use std::alloc::Global;
use std::marker::Model;

/// What a request asks for.
#[derive(Clone, Copy, PartialEq, Eq)]
pub enum Want {
    Get,
    Put,
    Del,
    /// Of version 2.
    Add,
    /// Of version 2.
    Touch,
}

/// A request of a client. Its reply repeats the ticket. The value is empty unless it is a put or an add.
#[derive(Drop)]
pub struct Request {
    pub want: Want,
    pub ticket: u32,
    pub key: Bytes,
    pub value: Bytes,
}

/// A list of requests.
#[derive(Drop)]
pub struct RequestList {
    requests: Vec<Request>,
}

impl Model for RequestList {
    ghost use Rattle.std.specs.Prelude.{List};
    ghost use Rattle.batch_packets.specs.declared.batch.Request.{Request};

    ghost Value = { List Request };

    ghost view = { λ l. l.requests.items };
}

impl RequestList {
    /// The requests in order.
    pub fn as_slice(&self) -> &[Request]
        ensures { result.now ≡ self.now }
    {
        self.requests.as_slice()
    }

    /// The requests, which the batch gives up.
    pub fn into_vec(self) -> Vec<Request>
        ensures { result.items ≡ self }
    {
        self.requests
    }
}

impl From<Vec<Request>> for RequestList {
    ghost from_gives = { λ requests list. list ≡ requests.items };

    fn from(requests: Vec<Request>) -> Self {
        RequestList { requests }
    }
}

/// The requests of one datagram. The replies have its version and repeat its number.
#[derive(Drop)]
pub struct Batch {
    pub version: u8,
    pub number: u32,
    pub requests: RequestList,
}

impl Want {
    ghost use Rattle.batch_packets.specs.BatchGrammar.{operation_of, is_operation, longest_value};

    #[tactic(auto, unfolding(crate::specs::BatchGrammar::operation_of))]
    pub(crate) fn of(version: u8, byte: u8) -> Option<Want>
        ensures known { IfSome result (λ want. byte ≡ operation_of want) }
        ensures has { IfSome result (λ want. IsTrue (is_operation version byte)) }
        ensures unknown { IfNone result (is_operation version byte ≡ false) }
    {
        match byte {
            0 => Some(Want::Get),
            1 => Some(Want::Put),
            2 => Some(Want::Del),
            3 if version == 2 => Some(Want::Add),
            4 if version == 2 => Some(Want::Touch),
            _ => None,
        }
    }

    /// Whether a version has this operation.
    #[tactic(auto, unfolding(crate::specs::BatchGrammar::operation_of))]
    pub(crate) fn is_of(self, version: u8) -> bool
        ensures { result ≡ is_operation version (operation_of self) }
    {
        match self {
            Want::Get | Want::Put | Want::Del => true,
            Want::Add | Want::Touch => version == 2,
        }
    }

    #[tactic(auto, unfolding(crate::specs::BatchGrammar::operation_of))]
    pub(crate) fn byte(self) -> u8
        ensures { result ≡ operation_of self }
    {
        match self {
            Want::Get => 0,
            Want::Put => 1,
            Want::Del => 2,
            Want::Add => 3,
            Want::Touch => 4,
        }
    }

    #[tactic(auto, unfolding(crate::specs::BatchGrammar::operation_of))]
    pub(crate) fn longest_value(self, version: u8) -> usize
        ensures { result ≡ longest_value version (operation_of self) }
    {
        match self {
            Want::Put | Want::Add => max_value_len(version),
            Want::Get | Want::Del | Want::Touch => 0,
        }
    }
}

ghost use Rattle.batch_packets.specs.declared.batch.Batch.{Batch};
ghost use Rattle.batch_packets.specs.BatchGrammar.{IsRequest, IsBatch, SpellsBatch, request_text, batch_text, batch_kind};

/// The batch whose text the bytes are.
#[tactic(auto, unfolding(crate::specs::BatchGrammar::batch_text))]
pub fn read_batch(alloc: Global, from: &[u8]) -> Result<Batch, BatchFault>
    ensures batch { IfOk result (SpellsBatch from.now) }
    ensures fault { AgreesWith (first_fault batch_kind from.now) result }
    // The text of a batch is read, unless memory runs out.
    ensures only { (batch : Batch) → SpellsBatch from.now batch
        → IsOkUnless result BatchFault.NoMemory }
{
    let (header, mut requests) = check_batch(from)?;
    let mut list = Vec::with_capacity(alloc, usize::from(header.count))?;
    for _ in 0..header.count {
        list.push_reserved(requests.next_request().to_request(alloc)?);
    }
    Ok(Batch {
        version: header.version,
        number: header.number,
        requests: RequestList::from(list),
    })
}

/// A batch of requests whose texts lie elsewhere, to be written. Clauses see it as the batch.
#[derive(Drop)]
pub struct BatchRef<'a> {
    version: u8,
    number: u32,
    requests: Vec<RequestRef<'a>>,
}

impl<'a> Model for BatchRef<'a> {
    ghost use Rattle.batch_packets.specs.declared.batch.Batch.{Batch};

    ghost Value = { Batch };

    ghost view = { λ b. record { version = b.version; number = b.number; requests = b.requests.items } };
}

impl Request {
    /// The request, whose texts lie here.
    fn lend(&self) -> RequestRef<'_>
        ensures { result ≡ self.now }
    {
        RequestRef::new(self.want, self.ticket, self.key.bytes(), self.value.bytes())
    }
}

impl Batch {
    /// The batch, whose texts lie here.
    pub fn lend(&self, alloc: Global) -> Result<BatchRef<'_>, NoMemory>
        ensures { IfOk result (λ lent. lent ≡ self.now) }
    {
        let requests = self.requests.as_slice();
        let mut lent = Vec::with_capacity(alloc, requests.len())?;
        for request in requests {
            lent.push_reserved(request.lend());
        }
        Ok(BatchRef::new(self.version, self.number, lent))
    }
}

impl<'a> BatchRef<'a> {
    /// A batch of lent requests, to be written.
    pub fn new(version: u8, number: u32, requests: Vec<RequestRef<'a>>) -> BatchRef<'a>
        ensures { result ≡ record { version = version; number = number; requests = requests.entry.items } }
    {
        BatchRef {
            version,
            number,
            requests,
        }
    }

    /// The number that the replies repeat.
    pub fn number(&self) -> u32
        ensures { result ≡ self.now.number }
    {
        self.number
    }

    /// The requests in order.
    pub fn requests(&self) -> &[RequestRef<'a>]
        ensures { result.now ≡ self.now.requests }
    {
        self.requests.as_slice()
    }

    /// Whether it has a text, so that it may be written.
    #[tactic(auto, unfolding(crate::specs::BatchGrammar::batch_text))]
    pub fn is_batch(&self) -> bool
        ensures { IsTrue result ↔ IsBatch self.now }
    {
        let version = self.version;
        let requests = self.requests.as_slice();
        is_version(version)
            && !requests.is_empty()
            && requests.len() <= MAX_ITEMS
            && requests.iter().all(|request| request.is_of(version))
            && HEADER_LEN + len_of(requests) <= max_datagram_len(version)
    }

    /// How many bytes its text has.
    #[tactic(auto, unfolding(crate::specs::BatchGrammar::batch_text))]
    pub fn text_len(&self) -> usize
        requires lawful { All (IsRequest self.now.version) self.now.requests }
        requires few { length self.now.requests ≤ MAX_ITEMS }
        ensures { result ≡ length (batch_text self.now) }
    {
        HEADER_LEN + len_of(self.requests.as_slice())
    }

    /// Puts its text in place of what `out` has.
    pub fn write(&self, out: &mut Vec<u8>) -> Result<(), NoMemory>
        requires { IsBatch self.now }
        ensures { OnOk result (out.new.items ≡ batch_text self.now) }
    {
        let header = Header {
            version: self.version,
            count: self.requests.len() as u8,
            number: self.number,
        };
        put_batch(header, self.requests.as_slice(), out)
    }
}

/// How many bytes the texts of these requests have.
fn len_of(requests: &[RequestRef]) -> usize
    requires lawful { (version : ℕ) × All (IsRequest version) requests.now }
    requires few { length requests.now ≤ MAX_ITEMS }
    ensures len { result ≡ length (flat_map request_text requests.now) }
    ensures small { result < 2 ^ 32 }
{
    let mut len = 0;
    for request in requests {
        len += request.text_len();
    }
    len
}

/// Puts the text of the batch under this header in place of what `out` has.
#[tactic(auto, unfolding(crate::specs::BatchGrammar::batch_text))]
fn put_batch(header: Header, requests: &[RequestRef], out: &mut Vec<u8>) -> Result<(), NoMemory>
    requires count { header.count ≡ length requests.now }
    requires batch { IsBatch (record { version = header.version; number = header.number; requests = requests.now }) }
    ensures { OnOk result (out.new.items ≡ batch_text (record { version = header.version; number = header.number; requests = requests.now })) }
{
    out.clear();
    put_header(out, RequestRef::magic(), header)?;
    for request in requests {
        request.put(out)?;
    }
    Ok(())
}

/// The text of a batch.
pub fn write_batch(alloc: Global, batch: &Batch) -> Result<Datagram, NoMemory>
    requires { IsBatch batch.now }
    ensures { IfOk result (λ text. text ≡ batch_text batch.now) }
{
    let lent = batch.lend(alloc)?;
    let mut text = Vec::with_capacity(alloc, lent.text_len())?;
    lent.write(&mut text)?;
    Ok(Datagram::from(text))
}
