//! An acknowledgement.
ghost use Rattle.owner_queue.specs.Acked.{IsAcked};
ghost use Rattle.partition_table.specs.Seats.{note_state};

use crate::cow_write::CowWrite;
use partition_model::Outcome;
use partition_table::Note;
use ruled_queue::{Queued, Terms};
use std::marker::Brand;

/// What an owner replied to a job, with the job's write moved back, and a note that has seen it.
#[derive(Drop)]
pub struct Ack {
    pub ticket: u64,
    pub write: CowWrite<'static>,
    pub outcome: Outcome,
    pub stamp: u64,
    pub note: Note,
    pub ghost acked: { ∥ IsAcked (note_state note) write outcome stamp ∥₁ },
}

// The terms of a queue of acknowledgements are a note of the table that all their notes are of.
impl Queued<Note> for Ack {
    ghost use Rattle.owner_queue.specs.AckOrder.{only_sender, AckMayFollowAt, no_note};

    ghost sender = { only_sender };

    ghost follows = { AckMayFollowAt };

    ghost unset = { no_note };
}

impl Terms<Ack, Note> for Brand {
    ghost use Rattle.owner_queue.specs.AckOrder.{no_note};

    ghost terms = { no_note };
}
