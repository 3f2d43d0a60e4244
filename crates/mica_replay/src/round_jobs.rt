//! The jobs of a round, made before it begins.
ghost use Rattle.std.specs.Prelude.{◌≡◌, ◌≢◌, ◌<◌, ◌++◌, ◌∷◌, [], ◌^◌, ◌+◌, ℕ, Some, IfOk, OnOk, length};
ghost use Rattle.partition_model.specs.Write.{IsWrite};
ghost use Rattle.mica_trace.specs.Rounds.{op_of};
ghost use Rattle.mica_replay.specs.Feeds.{writes_for};
ghost use Rattle.mica_replay.specs.LineNumbers.{write_at, IsWriteOp};

use crate::feeder::Feed;
use mica_trace::{TraceLine, TraceOp};
use outside::NoMemory;
use owner_queue::{CowWrite, Job};
use partition_model::Op;
use std::alloc::Global;
use std::marker::Model;

/// Writes for the queues of owners, in order, as jobs: the tickets of a queue count from 0. Contracts see how many queues
/// there are, and the jobs.
#[derive(Drop)]
pub(crate) struct RoundJobs<'a> {
    pub(crate) feeds: Vec<Feed<'a>>,
    /// How many jobs each queue has.
    pub(crate) counts: Vec<u32>,
}

impl<'a> Model for RoundJobs<'a> {
    ghost use Rattle.mica_replay.specs.RoundJobs.{Queued, queued, AreNumbered};

    ghost Value = { Queued };

    ghost view = { λ j. queued j.feeds.items j.counts.items };

    ghost invariant = { λ j. AreNumbered j.feeds.items j.counts.items };
}

impl<'a> RoundJobs<'a> {
    /// No jobs yet, and room for some.
    pub(crate) fn new(alloc: Global, queues: u32, room: usize) -> Result<Self, NoMemory>
        ensures queues { IfOk result (λ jobs. jobs.queues ≡ queues) }
        ensures none { IfOk result (λ jobs. jobs.feeds ≡ []) }
    {
        let feeds = Vec::with_capacity(alloc, room)?;
        let counts = vec![in alloc; 0u32; queues as usize]?;
        Ok(RoundJobs { feeds, counts })
    }

    /// Adds the job of a write, behind those of its queue.
    pub(crate) fn push(&mut self, queue: u32, write: CowWrite<'a>) -> Result<(), NoMemory>
        requires queue { queue < self.old.queues }
        requires write { IsWrite write }
        requires few { length (writes_for queue self.old.feeds) + 1 < 2 ^ 32 }
        ensures queues { self.new.queues ≡ self.old.queues }
        ensures own { OnOk result (writes_for queue self.new.feeds ≡ writes_for queue self.old.feeds ++ write.entry ∷ []) }
        ensures others { OnOk result ((p : ℕ) → queue ≢ p → writes_for p self.new.feeds ≡ writes_for p self.old.feeds) }
    {
        let count = self.counts[queue as usize];
        self.feeds.push(Feed {
            queue,
            job: Job {
                sender: 0,
                ticket: u64::from(count),
                write,
            },
        })?;
        self.counts[queue as usize] = count + 1;
        Ok(())
    }
}

/// The operation of a write.
pub(crate) fn write_op(op: TraceOp) -> Op
    requires { IsWriteOp op }
    ensures { op_of op ≡ Some result }
{
    match op.write_op() {
        Some(does) => does,
        None => unreachable!(),
    }
}

/// The write that a line is, which lends its key and value.
pub(crate) fn write_of_line<'a>(line: &'a TraceLine) -> CowWrite<'a>
    requires { IsWriteOp line.now.op }
    ensures { write_at line.now ≡ Some result }
{
    CowWrite {
        op: write_op(line.op),
        key: line.key.bytes().into(),
        value: line.value.bytes().into(),
    }
}
