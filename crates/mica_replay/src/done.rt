//! What an owner replied to the writes of a round.
ghost use Rattle.std.specs.Prelude.{◌≡◌, ◌<◌, ◌-◌, ◌+◌, ◌∷◌, ◌++◌, [], length, slice_get, IfOk, vec_len, vec_capacity};
ghost use Rattle.mica_replay.specs.Replies.{replies_with};

use outside::NoMemory;
use partition_model::Outcome;
use std::alloc::Global;
use std::marker::Model;

/// Outcomes with the stamps after them, and how many more there is room for.
#[derive(Drop)]
pub struct Done {
    pairs: Vec<(Outcome, u64)>,
    spare: u32,
}

impl Model for Done {
    ghost use Rattle.std.specs.Prelude.{◌+◌, ◌≤◌, ◌<◌, ◌^◌, vec_len, vec_capacity};
    ghost use Rattle.mica_replay.specs.Replies.{Replies, replies_with};

    ghost Value = { Replies };

    ghost view = { λ d. replies_with d.pairs.items d.spare };

    ghost invariant = { λ d.
        (vec_len d.pairs + d.spare ≤ vec_capacity d.pairs) × (vec_len d.pairs + d.spare < 2 ^ 32) };
}

impl Done {
    /// No replies, with room for so many.
    pub fn new(alloc: Global, room: u32) -> Result<Self, NoMemory>
        ensures { IfOk result (λ d. d ≡ replies_with [] room) }
    {
        Ok(Done {
            pairs: Vec::with_capacity(alloc, room as usize)?,
            spare: room,
        })
    }

    pub(crate) fn push(&mut self, outcome: Outcome, stamp: u64)
        requires { 0 < self.old.spare }
        ensures { self.new ≡ replies_with (self.old.list ++ (outcome, stamp) ∷ []) (self.old.spare - 1) }
    {
        self.pairs.push_reserved((outcome, stamp));
        self.spare -= 1;
    }

    /// How many more there is room for.
    pub(crate) fn spare(&self) -> u32
        ensures { result ≡ self.now.spare }
    {
        self.spare
    }

    /// How many replies there are.
    pub fn len(&self) -> u32
        ensures { result ≡ length self.now.list }
    {
        self.pairs.len() as u32
    }

    /// The outcome and the stamp of this number, from 0.
    pub fn pair(&self, number: u32) -> Option<(Outcome, u64)>
        ensures { result ≡ slice_get self.now.list number }
    {
        self.pairs.get(number as usize).copied()
    }
}
