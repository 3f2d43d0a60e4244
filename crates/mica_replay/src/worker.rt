//! The workers of a round: each owner and each reader with its part of the round, handed to the crew and taken back.
ghost use Rattle.std.specs.Prelude.{◌≡◌, All, length};
ghost use Rattle.partition_model.specs.Options.{IsValid};
ghost use Rattle.partition_table.specs.Seats.{reader_state, reader_home};
ghost use Rattle.mica_replay.specs.Workers.{IsReadyReader, ReaderRan, ReadersRan, IsFedOwner, OwnerFed, OwnersFed};
ghost use Rattle.mica_replay.specs.Feeds.{IsReadyFeeder, HasFed};
ghost use Rattle.mica_replay.specs.Crew.{IsCrew};

use crate::crew::Crew;
use crate::done::Done;
use crate::feeder::Feeder;
use crate::owner::run_owner;
use crate::reader::{Found, run_reader};
use mica_trace::Trace;
use outside::Gate;
use owner_queue::JobReceiver;
use partition_model::Options;
use partition_table::{Note, ReaderSeat};
use partition_words::{LendPartition, Partition, ReaderWords};
use std::alloc::Global;
use std::sync::Wait;
use std::thread::Threads;
use work_desk::{hand_all, take_all_back};

/// An owner with its part of a round.
#[derive(Drop)]
pub struct OwnerWork<'a, P> {
    pub part: P,
    pub worker: u32,
    pub jobs: JobReceiver<'a>,
    pub done: Done,
}

impl<'a, P: Partition> OwnerWork<'a, P> {
    pub(crate) fn run<W: Wait, G: Gate>(&mut self, rt: &W, gate: &G)
        requires { IsFedOwner self.old }
        ensures { OwnerFed P.owner P.home self.old self.new }
    {
        run_owner(
            rt,
            &mut self.part,
            &mut self.jobs,
            &mut self.done,
            gate,
            self.worker,
        );
    }
}

/// A reader with its part of a round. Nothing is found where there was no memory.
#[derive(Drop)]
pub struct ReaderWork<R> {
    pub seats: Vec<R>,
    pub worker: u32,
    pub gets: Vec<u32>,
    pub found: Option<Found>,
}

impl<R: ReaderWords> ReaderWork<R> {
    pub(crate) fn run<W: Threads + Wait + Sync, G: Gate>(
        &mut self,
        rt: &W,
        alloc: Global,
        trace: &Trace,
        options: &Options,
        gate: &G,
    )
        requires valid { IsValid options.now }
        requires ready { IsReadyReader R.reader trace.now options.now self.old }
        ensures { ReaderRan R.reader R.home trace.now options.now self.old self.new }
    {
        self.found = run_reader(
            rt,
            alloc,
            &mut self.seats,
            trace,
            self.gets.as_slice(),
            options,
            gate,
            self.worker,
        )
        .ok();
    }
}

/// Hands all readers and owners of a round to the crew, feeds the owners' queues, and takes all back. Each runs in
/// a thread of its own. It takes no memory.
pub(crate) fn run_all<'a, W: Wait, P: LendPartition<Reader = ReaderSeat, Note = Note> + Drop>(
    rt: &W,
    trace: &Trace,
    options: &Options,
    crew: &mut Crew<'a, P>,
    feeder: &mut Feeder<'a>,
    owners: &mut Vec<OwnerWork<'a, P>>,
    readers: &mut Vec<ReaderWork<ReaderSeat>>,
)
    requires owners { All IsFedOwner owners.old.items }
    requires readers { All (IsReadyReader reader_state trace.now options.now) readers.old.items }
    requires feeder { IsReadyFeeder feeder.old }
    requires crew { IsCrew (length owners.old.items) (length readers.old.items) trace.now options.now crew.old }
    ensures owners { OwnersFed P.owner P.home owners.old.items owners.new.items }
    ensures readers { ReadersRan reader_state reader_home trace.now options.now readers.old.items readers.new.items }
    ensures fed { HasFed feeder.old feeder.new.senders.items }
    ensures crew { crew.new ≡ crew.old }
{
    let _trace = trace;
    let _options = options;
    hand_all(&mut crew.readers, readers);
    hand_all(&mut crew.owners, owners);
    feeder.run(rt);
    take_all_back(rt, &mut crew.owners, owners);
    take_all_back(rt, &mut crew.readers, readers);
}
