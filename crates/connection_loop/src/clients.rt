//! The connections that a front holds.
ghost use Rattle.std.specs.Prelude.{◌≡◌, ◌≢◌, ◌<◌, ◌≤◌, ℕ, true, [], length, Some, None, IfSome, OnOk, IfOk, vec_len};
ghost use Rattle.connection_loop.specs.Clients.{at};
ghost use Rattle.connection_loop.specs.Counted.{AreCounted, IsCounted, over};

use crate::budget::Budget;
use crate::client::Client;
use outside::NoMemory;
use std::alloc::Global;

/// What a front holds of each of its connections, by their numbers, and how much of that is counted.
#[derive(Drop)]
pub struct Clients {
    pub held: Vec<Option<Client>>,
    pub budget: Budget,
}

impl Clients {
    /// No clients, of whom so many bytes may be kept in all.
    pub fn new(alloc: Global, most: usize) -> Clients
        ensures none { result.held.items ≡ [] }
        ensures counted { AreCounted result }
        ensures most { result.budget.most ≡ most }
    {
        Clients {
            held: Vec::new(alloc),
            budget: Budget::new(alloc, most),
        }
    }

    /// Takes out what is held of a connection. Nothing is counted for it then.
    #[tactic(auto, using(crate::proofs::Holding::at_set, crate::proofs::Holding::at_others))]
    pub fn take(&mut self, number: u32) -> Option<Client>
        requires { AreCounted self.old }
        ensures taken { result ≡ at self.old.held.items number }
        ensures there { IfSome result (λ _. number < vec_len self.new.held) }
        ensures gone { at self.new.held.items number ≡ None }
        ensures others { (n : ℕ) → n ≢ number → at self.new.held.items n ≡ at self.old.held.items n }
        ensures counted { AreCounted self.new }
        ensures most { self.new.budget.most ≡ self.old.budget.most }
    {
        let place = self.held.get_mut(number as usize)?;
        let client = place.take();
        self.budget.count(number, 0);
        client
    }

    /// Makes room for a connection under this number.
    #[tactic(auto, using(crate::proofs::Holding::at_pushed))]
    pub fn make_room(&mut self, number: u32) -> Result<(), NoMemory>
        requires { AreCounted self.old }
        ensures same { (n : ℕ) → at self.new.held.items n ≡ at self.old.held.items n }
        ensures room { OnOk result (number < vec_len self.new.held) }
        ensures counted { AreCounted self.new }
        ensures most { self.new.budget.most ≡ self.old.budget.most }
    {
        self.budget.make_room(number)?;
        let mut len = self.held.len();
        while len <= number as usize {
            self.held.push(None)?;
            len += 1;
        }
        Ok(())
    }

    /// Counts what is kept of a client that was taken out. Where that is more than may be kept in all, memory lacks.
    pub fn count(&mut self, number: u32, client: &Client) -> Result<(), NoMemory>
        requires counted { AreCounted self.old }
        requires place { number < vec_len self.old.held }
        requires taken { at self.old.held.items number ≡ None }
        ensures held { self.new.held ≡ self.old.held }
        ensures counted { AreCounted self.new }
        ensures most { self.new.budget.most ≡ self.old.budget.most }
        ensures here { IfOk result (λ _. IsCounted self.new.budget.counted.items number (over (length client.now.kept) (length client.now.unsent))) }
    {
        if self.budget.count(number, client.over()) {
            Ok(())
        } else {
            Err(NoMemory)
        }
    }

    /// Holds a connection, in the place of whatever was held under its number.
    #[tactic(auto, using(crate::proofs::Holding::at_set, crate::proofs::Holding::at_others))]
    pub fn put(&mut self, number: u32, client: Client)
        requires counted { AreCounted self.old }
        requires place { number < vec_len self.old.held }
        requires here { IsCounted self.old.budget.counted.items number (over (length client.kept) (length client.unsent)) }
        ensures here { at self.new.held.items number ≡ Some client }
        ensures others { (n : ℕ) → n ≢ number → at self.new.held.items n ≡ at self.old.held.items n }
        ensures counted { AreCounted self.new }
        ensures most { self.new.budget.most ≡ self.old.budget.most }
    {
        self.held[number as usize] = Some(client);
    }
}
