//! A partition's requests in a round, cut into batches as they come.
ghost use Rattle.std.specs.Prelude.{◌≡◌, ◌≤◌, ◌∷◌, ◌++◌, [], true, ℕ, List, OnOk};
ghost use Rattle.batch_packets.specs.declared.header.TheConstants.{MAX_DATAGRAM_LEN_V2};
ghost use Rattle.batch_packets.specs.declared.batch.Request.{Request};
ghost use Rattle.batch_packets.specs.BatchGrammar.{IsRequest};
ghost use Rattle.mica_client.specs.declared.options.TheConstants.{VERSION};
ghost use Rattle.mica_client.specs.Batches.{text_len, joins, batches_with};

use crate::request::Group;
use batch_packets::{HEADER_LEN, MAX_DATAGRAM_LEN_V2, RequestRef};
use outside::NoMemory;
use std::alloc::Global;
use std::mem;

/// The batches of a partition in a round: those that are full, and behind them the one that takes requests.
#[derive(Drop)]
pub struct Share<'a> {
    port: u16,
    full: Vec<Group<'a>>,
    last: Vec<RequestRef<'a>>,
    /// How many bytes the text of the last batch has.
    len: usize,
    ghost len_is: { len ≡ text_len last.items },
    ghost short: { len ≤ MAX_DATAGRAM_LEN_V2 },
}

impl<'a> Share<'a> {
    /// No requests yet. The batches go to this port.
    pub fn new(alloc: Global, port: u16) -> Share<'a>
        ensures port { result.port ≡ port }
        ensures full { result.full.items ≡ [] }
        ensures last { result.last.items ≡ [] }
    {
        Share {
            port,
            full: Vec::new(alloc),
            last: Vec::new(alloc),
            len: HEADER_LEN,
        }
    }

    /// Whether the last batch takes one more request.
    fn joins(&self, per: u32, request: &RequestRef<'a>) -> bool
        requires { IsRequest VERSION request.now }
        ensures { result ≡ joins per self.now.last.items request.now }
    {
        self.last.len() < per as usize && self.len + request.text_len() <= MAX_DATAGRAM_LEN_V2
    }

    /// Ends the last batch, and begins the next one.
    fn close(&mut self, alloc: Global) -> Result<(), NoMemory>
        ensures port { self.new.port ≡ self.old.port }
        ensures full { OnOk result (self.new.full.items
            ≡ self.old.full.items ++ record { port = self.old.port; requests = self.old.last.items } ∷ []) }
        ensures last { OnOk result (self.new.last.items ≡ []) }
    {
        self.full.reserve(1)?;
        let requests = mem::replace(&mut self.last, Vec::new(alloc));
        self.len = HEADER_LEN;
        self.full.push_reserved(Group::new(self.port, requests));
        Ok(())
    }

    /// Ends the last batch, where the request does not join it.
    fn make_room(
        &mut self,
        alloc: Global,
        per: u32,
        request: &RequestRef<'a>,
    ) -> Result<(), NoMemory>
        requires some { 1 ≤ per }
        requires lawful { IsRequest VERSION request.now }
        ensures joins { OnOk result (joins per self.new.last.items request.now ≡ true) }
        ensures same { OnOk result ((later : List Request)
            → batches_with per self.new.port self.new.full.items self.new.last.items (request.now ∷ later)
            ≡ batches_with per self.old.port self.old.full.items self.old.last.items (request.now ∷ later)) }
    {
        if self.joins(per, request) {
            return Ok(());
        }
        self.close(alloc)?;
        Ok(())
    }

    /// Adds the next request.
    pub fn put(&mut self, alloc: Global, per: u32, request: RequestRef<'a>) -> Result<(), NoMemory>
        requires some { 1 ≤ per }
        requires lawful { IsRequest VERSION request }
        ensures { OnOk result ((later : List Request)
            → batches_with per self.new.port self.new.full.items self.new.last.items later
            ≡ batches_with per self.old.port self.old.full.items self.old.last.items (request.entry ∷ later)) }
    {
        self.make_room(alloc, per, &request)?;
        let size = request.text_len();
        self.last.push(request)?;
        self.len += size;
        Ok(())
    }

    /// Adds its batches to those of the rounds before.
    pub fn finish(self, groups: &mut Vec<Group<'a>>) -> Result<(), NoMemory>
        ensures { OnOk result ((per : ℕ) → groups.new.items
            ≡ groups.old.items ++ batches_with per self.entry.port self.entry.full.items self.entry.last.items []) }
    {
        let Share {
            port,
            mut full,
            last,
            ..
        } = self;
        groups.append(&mut full)?;
        if last.is_empty() {
            return Ok(());
        }
        groups.push(Group::new(port, last))?;
        Ok(())
    }
}
