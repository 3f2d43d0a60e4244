//! What goes through a queue of jobs.
ghost use Rattle.std.specs.Prelude.{◌≡◌, ℕ};
ghost use Rattle.owner_queue.specs.Messages.{sender_of};

use crate::cow_write::CowWrite;
use ruled_queue::{Queued, Terms};
use std::marker::{Brand, PhantomData};

/// A write for an owner, from one sender. The tickets of a sender's jobs rise.
#[derive(Drop)]
pub struct Job<'a> {
    pub sender: u32,
    pub ticket: u64,
    pub write: CowWrite<'a>,
}

/// A job, or the end of the sender that it names.
#[derive(Drop)]
pub enum Message<'a> {
    Job(Job<'a>),
    End(u32),
}

impl<'a> Message<'a> {
    /// The number of the sender.
    pub fn sender(&self) -> u32
        ensures { result ≡ sender_of self.now }
    {
        match self {
            Message::Job(job) => job.sender,
            Message::End(sender) => *sender,
        }
    }
}

impl<'a> Queued<u64> for Message<'a> {
    ghost use Rattle.owner_queue.specs.Messages.{sender_of, MayFollow};

    ghost sender = { sender_of };

    ghost follows = { MayFollow };

    ghost unset = { 0 };
}

/// How many jobs each sender of a queue may send. Whoever makes the queue picks it.
pub(crate) trait MostJobs {
    ghost jobs: { ℕ };
}

impl MostJobs for Brand {
    ghost jobs = { 0 };
}

// The terms of a queue of jobs are how many jobs a sender may send.
pub(crate) struct JobTerms<M>(PhantomData<M>);

impl<'a, M: MostJobs> Terms<Message<'a>, u64> for JobTerms<M> {
    ghost terms = { M.jobs };
}
