//! The fronts of datagrams side by side, each in a thread of its own, and those of connections beside them.
ghost use Rattle.std.specs.Prelude.{◌≡◌, ◌+◌, ◌<◌, ◌≤◌, true, [], length, map, vec_len, vec_capacity};
ghost use Rattle.mica_words.specs.Mark.{has_marks};
ghost use Rattle.std.specs.Thread.{IsSync};
ghost use Rattle.served.specs.Ends.{end_facts};
ghost use Rattle.locked_server.specs.Service.{IsLockedPlan};
ghost use Rattle.locked_server.specs.Streams.{stream_facts};
ghost use Rattle.locked_server.specs.Running.{IsReadyTask, TaskRan, AreReadyTasks, TasksRan, AreReadyStreams, StreamsRan};

use crate::service::Shared;
use crate::streams::{StreamTask, run_streams};
use connections::Connections;
use datagram_answers::serve_end;
use fronts::{ServeFault, Totals};
use locked_front::{LockedFront, LockedPart, PartitionLocks, ServerPlan};
use outside::{Datagrams, Gate};
use partition_table::{Note, ReaderSeat};
use partition_words::HearPartition;
use std::mem;
use std::sync::Wait;
use std::sync::atomic::Ordering;
use std::thread::{Threads, for_each_mut, join_mut};

/// What a front has in hand, and the end of its port of datagrams.
#[derive(Drop)]
pub struct FrontTask<D> {
    pub parts: Vec<LockedPart>,
    pub end: D,
    pub answer: Result<Totals, ServeFault>,
}

impl<D: Datagrams> FrontTask<D> {
    // Serves the end, as the front of this number.
    fn run<
        W: Threads + Wait + Sync,
        J: ServerPlan,
        P: HearPartition<Reader = ReaderSeat, Note = Note> + Drop,
        G: Gate,
    >(&mut self, shared: &Shared<W, G>, locks: &PartitionLocks<J, P>, number: u32)
        requires plan { IsLockedPlan shared.now.service J.plan locks.now }
        requires low { number < J.plan.fronts }
        requires ready { IsReadyTask J.plan shared.now.service.ports.batches (end_facts D.Datagrams) number self.old }
        ensures { TaskRan J.plan shared.now.service.ports.batches (end_facts D.Datagrams) number self.old self.new }
    {
        let options = &shared.service.options;
        let parts = mem::replace(&mut self.parts, Vec::new(shared.alloc));
        let mut front = LockedFront::new(shared.rt, options, locks, number, parts, shared.ended);
        self.answer = serve_end(
            shared.alloc,
            &mut front,
            &mut self.end,
            shared.service.ports.batches,
            shared.gate,
            options.partitions + number,
        );
        shared.ended.store(true, Ordering::Relaxed);
        self.parts = front.into_parts();
    }
}

/// Runs the fronts of datagrams side by side, each in a thread of its own. They have the numbers from the first one on.
fn run_fronts<
    W: Threads + Wait + Sync,
    J: ServerPlan + Send + Sync,
    P: HearPartition<Reader = ReaderSeat, Note = Note> + Drop + Send,
    D: Datagrams + Drop + Send,
    G: Gate,
>(shared: &Shared<W, G>, locks: &PartitionLocks<J, P>, first: u32, fronts: &mut Vec<FrontTask<D>>)
    requires plan { IsLockedPlan shared.now.service J.plan locks.now }
    requires many { first + length fronts.old.items ≡ J.plan.fronts }
    requires ready { AreReadyTasks J.plan shared.now.service.ports.batches (end_facts D.Datagrams) first fronts.old.items }
    ensures { TasksRan J.plan shared.now.service.ports.batches (end_facts D.Datagrams) first fronts.old.items fronts.new.items }
{
    let threads = fronts.len().max(1);
    for_each_mut(
        shared.rt,
        fronts.as_mut_slice(),
        threads,
        &|at, front|
            requires { (first + at < J.plan.fronts) × IsLockedPlan shared.now.service J.plan locks.now
                × IsReadyTask J.plan shared.now.service.ports.batches (end_facts D.Datagrams) (first + at) front.now }
            ensures { TaskRan J.plan shared.entry.now.service.ports.batches (end_facts D.Datagrams) (first + at) front.entry.now front.exit.now }
        { front.run(shared, locks, first + at as u32) },
    );
}

/// Runs all fronts side by side. Those of datagrams have the numbers from the first one on.
pub(crate) fn run_workers<
    W: Threads + Wait + Sync,
    J: ServerPlan + Send + Sync,
    P: HearPartition<Reader = ReaderSeat, Note = Note> + Drop + Send,
    D: Datagrams + Drop + Send,
    C: Connections + Send,
    G: Gate,
>(
    shared: &Shared<W, G>,
    locks: &PartitionLocks<J, P>,
    first: u32,
    streams: &mut Vec<StreamTask<C>>,
    fronts: &mut Vec<FrontTask<D>>,
)
    requires plan { IsLockedPlan shared.now.service J.plan locks.now }
    requires first { length streams.old.items ≤ first }
    requires many { first + length fronts.old.items ≡ J.plan.fronts }
    requires marks { 0 < length streams.old.items → has_marks shared.now.service.options.hashing ≡ true }
    requires ready_streams { AreReadyStreams J.plan (stream_facts C.Connections) streams.old.items }
    requires ready { AreReadyTasks J.plan shared.now.service.ports.batches (end_facts D.Datagrams) first fronts.old.items }
    ensures streams { StreamsRan J.plan (stream_facts C.Connections) shared.now.service.base shared.now.service.buffers streams.old.items streams.new.items }
    ensures fronts { TasksRan J.plan shared.now.service.ports.batches (end_facts D.Datagrams) first fronts.old.items fronts.new.items }
{
    join_mut(
        shared.rt,
        &mut ||
            requires { IsSync W.row × IsSync J.row × IsSync G.row × IsLockedPlan shared.now.service J.plan locks.now
                × (length streams.now.items ≤ J.plan.fronts) × (0 < length streams.now.items → has_marks shared.now.service.options.hashing ≡ true)
                × AreReadyStreams J.plan (stream_facts C.Connections) streams.now.items }
        { run_streams(shared, locks, streams) },
        &mut ||
            requires { IsSync W.row × IsSync J.row × IsSync G.row × IsLockedPlan shared.now.service J.plan locks.now
                × (first + length fronts.now.items ≡ J.plan.fronts) × AreReadyTasks J.plan shared.now.service.ports.batches (end_facts D.Datagrams) first fronts.now.items }
        { run_fronts(shared, locks, first, fronts) },
    );
}

/// The fronts of datagrams with the ends of their places.
pub(crate) fn pair_up<D: Drop>(
    hands: Vec<Vec<LockedPart>>,
    ends: Vec<D>,
    tasks: &mut Vec<FrontTask<D>>,
)
    requires none { tasks.old.items ≡ [] }
    requires many { length hands.items ≡ length ends.items }
    requires room { vec_len ends ≤ vec_capacity tasks.old }
    ensures hands { map (λ t. t.parts) tasks.new.items ≡ hands.items }
    ensures ends { map (λ t. t.end) tasks.new.items ≡ ends.items }
{
    let mut left = hands.into_iter();
    for end in ends {
        let Some(parts) = left.next() else {
            unreachable!()
        };
        tasks.push_reserved(FrontTask {
            parts,
            end,
            answer: Err(ServeFault::NoMemory),
        });
    }
}

/// The ends, the hands and the answers of the fronts, in order.
pub(crate) fn part_fronts<D: Drop>(
    fronts: Vec<FrontTask<D>>,
    ends: &mut Vec<D>,
    hands: &mut Vec<Vec<LockedPart>>,
    answers: &mut Vec<Result<Totals, ServeFault>>,
)
    requires none { (ends.old.items ≡ []) × (hands.old.items ≡ []) × (answers.old.items ≡ []) }
    requires ends { vec_len fronts ≤ vec_capacity ends.old }
    requires hands { vec_len fronts ≤ vec_capacity hands.old }
    requires answers { vec_len fronts ≤ vec_capacity answers.old }
    ensures ends { ends.new.items ≡ map (λ t. t.end) fronts.items }
    ensures hands { hands.new.items ≡ map (λ t. t.parts) fronts.items }
    ensures answers { answers.new.items ≡ map (λ t. t.answer) fronts.items }
{
    for front in fronts {
        ends.push_reserved(front.end);
        hands.push_reserved(front.parts);
        answers.push_reserved(front.answer);
    }
}
