//! The fronts of connections side by side, each in a thread of its own.
ghost use Rattle.std.specs.Prelude.{◌≡◌, ◌<◌, ◌≤◌, true, [], length, map, vec_len, vec_capacity};
ghost use Rattle.mica_words.specs.Mark.{has_marks};
ghost use Rattle.locked_server.specs.Service.{IsLockedPlan};
ghost use Rattle.locked_server.specs.Streams.{counted_by_all, stream_facts};
ghost use Rattle.locked_server.specs.Running.{IsReadyStream, StreamRan, AreReadyStreams, StreamsRan};

use crate::service::Shared;
use command_answers::Numbering;
use connection_loop::{Hand, serve_connections};
use connections::Connections;
use fronts::ServeFault;
use locked_front::{LockedFront, LockedPart, PartitionLocks, ServerPlan};
use outside::Gate;
use partition_table::{Note, ReaderSeat};
use partition_words::HearPartition;
use std::mem;
use std::sync::Wait;
use std::sync::atomic::Ordering;
use std::thread::{Threads, for_each_mut};

/// What a front has in hand, and its share of connections.
#[derive(Drop)]
pub struct StreamTask<C> {
    pub parts: Vec<LockedPart>,
    pub share: C,
    /// How many connections there was no memory for.
    pub lacked: u64,
    pub answer: Result<(), ServeFault>,
}

impl<C: Connections> StreamTask<C> {
    // Serves the share, as the front of this number, which has taken no turn, and counts from 0.
    fn run<
        W: Threads + Wait + Sync,
        J: ServerPlan,
        P: HearPartition<Reader = ReaderSeat, Note = Note> + Drop,
        G: Gate,
    >(&mut self, shared: &Shared<W, G>, locks: &PartitionLocks<J, P>, number: u32)
        requires plan { IsLockedPlan shared.now.service J.plan locks.now }
        requires low { number < J.plan.fronts }
        requires marks { has_marks shared.now.service.options.hashing ≡ true }
        requires ready { IsReadyStream J.plan (stream_facts C.Connections) number self.old }
        ensures { StreamRan J.plan (stream_facts C.Connections) shared.now.service.base shared.now.service.buffers number self.old self.new }
    {
        let options = &shared.service.options;
        let parts = mem::replace(&mut self.parts, Vec::new(shared.alloc));
        let mut hand = Hand {
            alloc: shared.alloc,
            front: LockedFront::new(shared.rt, options, locks, number, parts, shared.ended),
            numbering: Numbering {
                partitions: options.partitions,
                base: shared.service.base,
            },
            second: 0,
        };
        self.lacked = 0;
        self.answer = serve_connections(
            &mut hand,
            shared.board,
            number,
            &mut self.share,
            &mut self.lacked,
            shared.service.buffers,
        );
        shared.ended.store(true, Ordering::Relaxed);
        let Hand { front, .. } = hand;
        self.parts = front.into_parts();
    }
}

/// Runs the fronts of connections side by side, each in a thread of its own.
pub(crate) fn run_streams<
    W: Threads + Wait + Sync,
    J: ServerPlan + Send + Sync,
    P: HearPartition<Reader = ReaderSeat, Note = Note> + Drop + Send,
    C: Connections + Send,
    G: Gate,
>(shared: &Shared<W, G>, locks: &PartitionLocks<J, P>, streams: &mut Vec<StreamTask<C>>)
    requires plan { IsLockedPlan shared.now.service J.plan locks.now }
    requires many { length streams.old.items ≤ J.plan.fronts }
    requires marks { 0 < length streams.old.items → has_marks shared.now.service.options.hashing ≡ true }
    requires ready { AreReadyStreams J.plan (stream_facts C.Connections) streams.old.items }
    ensures { StreamsRan J.plan (stream_facts C.Connections) shared.now.service.base shared.now.service.buffers streams.old.items streams.new.items }
{
    let threads = streams.len().max(1);
    for_each_mut(
        shared.rt,
        streams.as_mut_slice(),
        threads,
        &|number, stream|
            requires { (number < J.plan.fronts) × IsLockedPlan shared.now.service J.plan locks.now
                × (has_marks shared.now.service.options.hashing ≡ true) × IsReadyStream J.plan (stream_facts C.Connections) number stream.now }
            ensures { StreamRan J.plan (stream_facts C.Connections) shared.entry.now.service.base shared.entry.now.service.buffers number stream.entry.now stream.exit.now }
        { stream.run(shared, locks, number as u32) },
    );
}

/// The fronts of connections with their shares.
pub(crate) fn pair_streams<C: Drop>(
    hands: Vec<Vec<LockedPart>>,
    shares: Vec<C>,
    tasks: &mut Vec<StreamTask<C>>,
)
    requires none { tasks.old.items ≡ [] }
    requires hands { length hands.items ≡ length shares.items }
    requires room { vec_len shares ≤ vec_capacity tasks.old }
    ensures hands { map (λ t. t.parts) tasks.new.items ≡ hands.items }
    ensures shares { map (λ t. t.share) tasks.new.items ≡ shares.items }
{
    let mut left = hands.into_iter();
    for share in shares {
        let Some(parts) = left.next() else {
            unreachable!()
        };
        tasks.push_reserved(StreamTask {
            parts,
            share,
            lacked: 0,
            answer: Err(ServeFault::NoMemory),
        });
    }
}

/// The shares, the hands and the answers of the fronts, in order; and for how many connections there was no memory.
#[tactic(auto, using(crate::proofs::Counted::counted_next))]
pub(crate) fn part_streams<C: Drop>(
    streams: Vec<StreamTask<C>>,
    shares: &mut Vec<C>,
    hands: &mut Vec<Vec<LockedPart>>,
    answers: &mut Vec<Result<(), ServeFault>>,
) -> u64
    requires none { (shares.old.items ≡ []) × (hands.old.items ≡ []) × (answers.old.items ≡ []) }
    requires shares { vec_len streams ≤ vec_capacity shares.old }
    requires hands { vec_len streams ≤ vec_capacity hands.old }
    requires answers { vec_len streams ≤ vec_capacity answers.old }
    ensures shares { shares.new.items ≡ map (λ t. t.share) streams.items }
    ensures hands { hands.new.items ≡ map (λ t. t.parts) streams.items }
    ensures answers { answers.new.items ≡ map (λ t. t.answer) streams.items }
    ensures lacked { result ≡ counted_by_all (map (λ t. t.lacked) streams.items) }
{
    let mut lacked = 0u64;
    for stream in streams {
        shares.push_reserved(stream.share);
        hands.push_reserved(stream.parts);
        answers.push_reserved(stream.answer);
        lacked = lacked.saturating_add(stream.lacked);
    }
    lacked
}
