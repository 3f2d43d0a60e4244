//! The lines of a round, shared out to owners and readers.
ghost use Rattle.std.specs.Prelude.{◌≡◌, ◌<◌, ◌≤◌, ◌+◌, ◌-◌, ◌^◌, ℕ, IfOk, OnOk, map, length, take, drop};
ghost use Rattle.partition_model.specs.Options.{IsValid};
ghost use Rattle.mica_trace.specs.Rounds.{writes_of};
ghost use Rattle.mica_trace.specs.RoundReport.{gets_in};
ghost use Rattle.mica_replay.specs.Each.{Each};
ghost use Rattle.mica_replay.specs.Feeds.{writes_for};
ghost use Rattle.mica_replay.specs.LineNumbers.{homes_of};
ghost use Rattle.mica_replay.specs.RoundRun.{reader_part};
ghost use Rattle.mica_replay.specs.Shares.{HasNoGets, HasGets};

use crate::round_jobs::{RoundJobs, write_of_line};
use crate::worker::ReaderWork;
use mica_trace::{Trace, TraceOp};
use mica_words::partition_of;
use outside::NoMemory;
use partition_model::Options;
use partition_words::ReaderWords;
use std::alloc::Global;

/// What of a round is shared out, beside the gets that its readers have.
#[derive(Drop)]
pub(crate) struct Shared<'a> {
    /// The number of gets up to the round's end.
    pub gets: u32,
    /// The partition of each line's write.
    pub homes: Vec<u32>,
    /// The writes, for the queues of their partitions.
    pub jobs: RoundJobs<'a>,
}

fn clear_readers<R: ReaderWords>(readers: &mut Vec<ReaderWork<R>>)
    ensures { Each (λ _. HasNoGets) (map (λ r. reader_part R.reader R.home r) readers.old.items)
        (map (λ r. reader_part R.reader R.home r) readers.new.items) }
{
    for q in 0..readers.len() {
        let reader = &mut readers[q];
        reader.gets.clear();
    }
}

/// Each line of a round goes to the worker that has it: a get to its reader, and a write to the queue of its partition.
pub(crate) fn split_round<'a, R: ReaderWords>(
    alloc: Global,
    options: &Options,
    trace: &'a Trace,
    from: u32,
    to: u32,
    first: u32,
    readers: &mut Vec<ReaderWork<R>>,
) -> Result<Shared<'a>, NoMemory>
    requires valid { IsValid options.now }
    requires bounds { (from ≤ to) × (to ≤ length trace.now) }
    requires count { first + (to - from) < 2 ^ 32 }
    requires many { length readers.old.items ≡ options.now.readers }
    ensures gets { IfOk result (λ shared. shared.gets ≡ first + gets_in (take (to - from) (drop from trace.now))) }
    ensures homes { IfOk result (λ shared. shared.homes.items ≡ homes_of options.now (take (to - from) (drop from trace.now))) }
    ensures queues { IfOk result (λ shared. shared.jobs.queues ≡ options.now.partitions) }
    ensures writes { IfOk result (λ shared. (p : ℕ) → writes_for p shared.jobs.feeds ≡ writes_of options.now p (take (to - from) (drop from trace.now))) }
    ensures readers { OnOk result (Each (HasGets options.now trace.now first (take (to - from) (drop from trace.now)))
        (map (λ r. reader_part R.reader R.home r) readers.old.items) (map (λ r. reader_part R.reader R.home r) readers.new.items)) }
{
    clear_readers(readers);
    let lines = trace.lines();
    let room = (to - from) as usize;
    let mut gets = first;
    let mut homes = Vec::with_capacity(alloc, room)?;
    let mut jobs = RoundJobs::new(alloc, options.partitions, room)?;
    for number in from..to {
        let line = &lines[number as usize];
        let home = match line.op {
            TraceOp::Get => {
                let reader = &mut readers[(gets % options.readers) as usize];
                reader.gets.push(number)?;
                gets += 1;
                0
            }
            TraceOp::Put | TraceOp::Add | TraceOp::Del | TraceOp::Touch => {
                let partition = partition_of(
                    options.hashing.key_hash(line.key.bytes()),
                    options.partitions,
                );
                jobs.push(partition, write_of_line(line))?;
                partition
            }
            TraceOp::Sync => 0,
        };
        homes.push(home)?;
    }
    Ok(Shared { gets, homes, jobs })
}
