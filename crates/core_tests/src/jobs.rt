//! Two threads that send jobs to one queue, and a third that takes them.
ghost use Rattle.std.specs.Prelude.{◌≡◌, ◌<◌, ℕ, [], true, IfOk};
ghost use Rattle.partition_model.specs.Write.{IsWrite};
ghost use Rattle.owner_queue.specs.Messages.{has_end, sender_of};
ghost use Rattle.owner_queue.specs.JobEnds.{outbox, inbox};

use outside::CowBytes;
use owner_queue::{CowWrite, Job, JobReceiver, JobSender, Message, job_queue};
use partition_model::Op;
use std::alloc::Global;
use std::sync::Wait;
use std::thread::{Threads, join};

const JOBS: u64 = 100;

// Sends the jobs, with tickets from 0, and then the end.
fn send_jobs<W: Wait>(rt: &W, sender: JobSender<'static>, number: u32) -> JobSender<'static>
    requires { sender ≡ outbox sender.queue number 100 [] }
    ensures { (result.queue ≡ sender.entry.queue) × (result.number ≡ number) }
{
    let mut sender = sender;
    for ticket in 0..JOBS {
        sender.send(
            rt,
            Message::Job(Job {
                sender: number,
                ticket,
                write: deletion(),
            }),
        );
    }
    sender.send(rt, Message::End(number));
    sender
}

fn deletion() -> CowWrite<'static>
    ensures { IsWrite result }
{
    CowWrite {
        op: Op::Del,
        key: b"k".as_slice().into(),
        value: CowBytes::empty(),
    }
}

// Whether the message is the next of its sender, whose next ticket is told for the message after it.
fn is_in_turn(next: &mut [u64; 2], message: &Message) -> bool
    requires { sender_of message.now < 2 }
{
    let Message::Job(Job { sender, ticket, .. }) = message else {
        return true;
    };
    let from = *sender as usize;
    let is_next = next[from] == *ticket;
    next[from] = ticket.saturating_add(1);
    is_next
}

// Takes all messages of two senders, and tells whether all jobs came, each in its turn.
fn take_jobs<W: Wait>(rt: &W, receiver: JobReceiver<'static>) -> (JobReceiver<'static>, bool)
    requires { receiver ≡ inbox receiver.queue 2 100 [] }
    ensures queue { result.0.queue ≡ receiver.entry.queue }
    ensures ended { (p : ℕ) → p < 2 → has_end p result.0.taken ≡ true }
{
    let mut receiver = receiver;
    let mut next = [0; 2];
    let mut in_turn = true;
    for _ in rt.forever() {
        let Some(message) = receiver.recv(rt) else {
            break;
        };
        in_turn = is_in_turn(&mut next, &message) && in_turn;
    }
    (receiver, in_turn && next == [JOBS, JOBS])
}

// Each end of the queue in a thread of its own, and then both senders taken in.
fn exchange<W: Threads + Wait + Sync>(
    rt: &W,
    first: JobSender<'static>,
    second: JobSender<'static>,
    receiver: JobReceiver<'static>,
) -> bool
    requires first { first ≡ outbox receiver.queue 0 100 [] }
    requires second { second ≡ outbox receiver.queue 1 100 [] }
    requires receiver { receiver ≡ inbox receiver.queue 2 100 [] }
{
    let ((first, second), (receiver, came)) = join(
        rt,
        || -> (JobSender, JobSender)
            requires { (first ≡ outbox first.queue 0 100 []) × (second ≡ outbox second.queue 1 100 []) }
            ensures { ((result.0.queue ≡ first.entry.queue) × (result.0.number ≡ 0))
                × (result.1.queue ≡ second.entry.queue) × (result.1.number ≡ 1) }
        { send_both(rt, first, second) },
        || take_jobs(rt, receiver),
    );
    let mut receiver = receiver;
    receiver.take_in(first);
    receiver.take_in(second);
    came
}

fn send_both<W: Threads + Wait + Sync>(
    rt: &W,
    first: JobSender<'static>,
    second: JobSender<'static>,
) -> (JobSender<'static>, JobSender<'static>)
    requires first { first ≡ outbox first.queue 0 100 [] }
    requires second { second ≡ outbox second.queue 1 100 [] }
    ensures first { (result.0.queue ≡ first.entry.queue) × (result.0.number ≡ 0) }
    ensures second { (result.1.queue ≡ second.entry.queue) × (result.1.number ≡ 1) }
{
    join(rt, || send_jobs(rt, first, 0), || send_jobs(rt, second, 1))
}

// Whether the jobs of two senders come, each in its turn.
fn is_exchanged<W: Threads + Wait + Sync>(rt: &W, alloc: Global) -> bool {
    let Ok((mut senders, receiver)) = job_queue(alloc, 2, 100) else {
        return false;
    };
    let Some(second) = senders.list.pop() else {
        return false;
    };
    let Some(first) = senders.list.pop() else {
        return false;
    };
    exchange(rt, first, second, receiver)
}

#[test]
fn jobs_of_two_threads_come_each_in_their_order(rt: HostRuntime) {
    assert!(rt; is_exchanged(&rt, rt.alloc()));
}
