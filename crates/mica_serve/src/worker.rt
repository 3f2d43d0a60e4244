//! The workers of a server: each owner and each front, in a thread of its own.
ghost use Rattle.std.specs.Thread.{IsSync};
ghost use Rattle.std.specs.Prelude.{◌≡◌, ◌≤◌, [], All, length, map, vec_len, vec_capacity, Some};
ghost use Rattle.partition_table.specs.declared.reader.Note.{Note};
ghost use Rattle.partition_table.specs.Seats.{note_state, note_home};
ghost use Rattle.mica_serve.specs.Hands.{IsReadyOwner, RanOwner};
ghost use Rattle.mica_serve.specs.Tasks.{owner_end, IsReadyTask, TaskRan, OwnersRan, IsReadyFront, FrontRan, FrontsRan};
ghost use Rattle.served.specs.Ends.{end_facts};

use datagram_answers::serve_end;
use fronts::{ServeFault, Totals};
use outside::{Datagrams, Gate};
use owner_queue::{AckSender, JobReceiver};
use partition_table::{Note, ReaderSeat};
use partition_words::LendPartition;
use queue_front::{FrontPart, QueueFront, WaitingFront, serve_owner};
use std::alloc::Global;
use std::sync::Wait;
use std::thread::{Threads, for_each_mut, join_mut};

/// An owner with its queue, and its end of a queue of answers to each front.
#[derive(Drop)]
pub struct OwnerTask<P> {
    pub part: P,
    pub worker: u32,
    pub jobs: JobReceiver<'static>,
    pub acks: Vec<AckSender>,
}

/// A front with the end of its port.
#[derive(Drop)]
pub struct FrontTask<D> {
    /// Nothing once it was served.
    pub front: Option<QueueFront>,
    pub end: D,
    pub worker: u32,
    pub answer: Result<Totals, ServeFault>,
    /// What the front had in hand when it ended.
    pub parts: Vec<FrontPart>,
}

impl<P: LendPartition<Reader = ReaderSeat, Note = Note>> OwnerTask<P> {
    fn run<W: Wait, G: Gate>(&mut self, rt: &W, gate: &G)
        requires notes { (n : Note) → (P.noted n ≡ note_state n) × (P.note_home n ≡ note_home n) }
        requires ready { IsReadyOwner (owner_end P.owner P.home self.old) }
        ensures { RanOwner (owner_end P.owner P.home self.old) (owner_end P.owner P.home self.new) }
    {
        serve_owner(
            rt,
            &mut self.part,
            &mut self.jobs,
            &mut self.acks,
            gate,
            self.worker,
        );
    }
}

impl<D: Datagrams> FrontTask<D> {
    // Serves the end of its port. Whatever happened, then each owner is sent that the front has ended.
    fn run<W: Wait, G: Gate>(&mut self, rt: &W, alloc: Global, batches: u64, gate: &G)
        requires { IsReadyFront batches (end_facts D.Datagrams) self.old }
        ensures { FrontRan batches (end_facts D.Datagrams) self.old self.new }
    {
        let Some(front) = self.front.take() else {
            unreachable!()
        };
        let mut front = WaitingFront::new(rt, front);
        self.answer = serve_end(alloc, &mut front, &mut self.end, batches, gate, self.worker);
        self.parts = front.end();
    }
}

// Runs the owners side by side, each in a thread of its own.
fn run_owners<
    W: Threads + Wait + Sync,
    P: LendPartition<Reader = ReaderSeat, Note = Note> + Drop + Send,
    G: Gate,
>(rt: &W, gate: &G, owners: &mut Vec<OwnerTask<P>>)
    requires notes { (n : Note) → (P.noted n ≡ note_state n) × (P.note_home n ≡ note_home n) }
    requires ready { All (IsReadyTask P.owner P.home) owners.old.items }
    ensures { OwnersRan P.owner P.home owners.old.items owners.new.items }
{
    let threads = owners.len().max(1);
    for_each_mut(
        rt,
        owners.as_mut_slice(),
        threads,
        &|_, owner|
            requires { ((n : Note) → (P.noted n ≡ note_state n) × (P.note_home n ≡ note_home n)) × IsReadyTask P.owner P.home owner.now }
            ensures { TaskRan P.owner P.home owner.entry.now owner.exit.now }
        { owner.run(rt, gate) },
    );
}

// Runs the fronts side by side, each in a thread of its own.
fn run_fronts<W: Threads + Wait + Sync, D: Datagrams + Drop + Send, G: Gate>(
    rt: &W,
    alloc: Global,
    batches: u64,
    gate: &G,
    fronts: &mut Vec<FrontTask<D>>,
)
    requires { All (IsReadyFront batches (end_facts D.Datagrams)) fronts.old.items }
    ensures { FrontsRan batches (end_facts D.Datagrams) fronts.old.items fronts.new.items }
{
    let threads = fronts.len().max(1);
    for_each_mut(
        rt,
        fronts.as_mut_slice(),
        threads,
        &|_, front|
            requires { IsReadyFront batches (end_facts D.Datagrams) front.now }
            ensures { FrontRan batches (end_facts D.Datagrams) front.entry.now front.exit.now }
        { front.run(rt, alloc, batches, gate) },
    );
}

/// Runs all owners and all fronts side by side.
pub(crate) fn run_workers<
    W: Threads + Wait + Sync,
    P: LendPartition<Reader = ReaderSeat, Note = Note> + Drop + Send,
    D: Datagrams + Drop + Send,
    G: Gate,
>(
    rt: &W,
    alloc: Global,
    batches: u64,
    gate: &G,
    owners: &mut Vec<OwnerTask<P>>,
    fronts: &mut Vec<FrontTask<D>>,
)
    requires notes { (n : Note) → (P.noted n ≡ note_state n) × (P.note_home n ≡ note_home n) }
    requires owners { All (IsReadyTask P.owner P.home) owners.old.items }
    requires fronts { All (IsReadyFront batches (end_facts D.Datagrams)) fronts.old.items }
    ensures owners { OwnersRan P.owner P.home owners.old.items owners.new.items }
    ensures fronts { FrontsRan batches (end_facts D.Datagrams) fronts.old.items fronts.new.items }
{
    join_mut(
        rt,
        &mut ||
            requires { IsSync W.row × IsSync G.row × ((n : Note) → (P.noted n ≡ note_state n) × (P.note_home n ≡ note_home n)) × All (IsReadyTask P.owner P.home) owners.now.items }
        { run_owners(rt, gate, owners) },
        &mut ||
            requires { IsSync W.row × IsSync G.row × All (IsReadyFront batches (end_facts D.Datagrams)) fronts.now.items }
        { run_fronts(rt, alloc, batches, gate, fronts) },
    );
}

// The fronts with the ends of their places.
pub(crate) fn pair_up<D: Drop>(
    alloc: Global,
    fronts: Vec<QueueFront>,
    ends: Vec<D>,
    first_worker: u32,
    tasks: &mut Vec<FrontTask<D>>,
)
    requires none { tasks.old.items ≡ [] }
    requires many { length fronts.items ≡ length ends.items }
    requires room { vec_len ends ≤ vec_capacity tasks.old }
    requires workers { first_worker ≤ 16 }
    requires few { vec_len ends ≤ 16 }
    ensures fronts { map (λ t. t.front) tasks.new.items ≡ map Some fronts.items }
    ensures ends { map (λ t. t.end) tasks.new.items ≡ ends.items }
{
    let mut left = fronts.into_iter();
    let mut worker = first_worker;
    for end in ends {
        let Some(front) = left.next() else {
            unreachable!()
        };
        tasks.push_reserved(FrontTask {
            front: Some(front),
            end,
            worker,
            answer: Err(ServeFault::NoMemory),
            parts: Vec::new(alloc),
        });
        worker += 1;
    }
}

// The ends, the hands and the answers of the fronts, in order.
pub(crate) fn part_fronts<D: Drop>(
    fronts: Vec<FrontTask<D>>,
    ends: &mut Vec<D>,
    hands: &mut Vec<Vec<FrontPart>>,
    answers: &mut Vec<Result<Totals, ServeFault>>,
)
    requires none { (ends.old.items ≡ []) × (hands.old.items ≡ []) × (answers.old.items ≡ []) }
    requires ends { vec_len fronts ≤ vec_capacity ends.old }
    requires hands { vec_len fronts ≤ vec_capacity hands.old }
    requires answers { vec_len fronts ≤ vec_capacity answers.old }
    ensures ends { ends.new.items ≡ map (λ t. t.end) fronts.items }
    ensures hands { hands.new.items ≡ map (λ t. t.parts) fronts.items }
    ensures answers { answers.new.items ≡ map (λ t. t.answer) fronts.items }
{
    for front in fronts {
        ends.push_reserved(front.end);
        hands.push_reserved(front.parts);
        answers.push_reserved(front.answer);
    }
}
