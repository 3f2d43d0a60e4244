//! Queues of jobs: any number of senders up to 16, and one receiver.
ghost use Rattle.std.specs.Prelude.{◌≡◌, ◌<◌, ◌≤◌, ◌*◌, ℕ, true, false, List, [], ◌∷◌, ◌++◌, length, slice_get, Some, IfOk, IfSome, IsNone, IsTrue, ◌↔◌, vec_len};
ghost use Rattle.owner_queue.specs.Messages.{sender_of, sent_by, has_end, MayFollow};
ghost use Rattle.owner_queue.specs.JobEnds.{outbox, inbox};

use crate::message::{JobTerms, Message, MostJobs};
use crossbeam_channel::{Pass, RuledReceiver, RuledSender, bounded_with};
use outside::NoMemory;
use ruled_queue::{CAPACITY, InOrder, NewSender, PassView, TakenIn, Terms, Whole, put, take};
use std::alloc::Global;
use std::marker::{Brand, Model};
use std::sync::Wait;

/// One sender of a queue. Contracts see its queue, its number, how many jobs it may send and what it sent.
#[derive(Drop)]
pub struct JobSender<'a> {
    end: RuledSender<Message<'a>, PassView<Message<'a>, u64>, InOrder>,
    pass: Pass<Message<'a>, PassView<Message<'a>, u64>>,
}

impl<'a> Model for JobSender<'a> {
    ghost use Rattle.std.specs.Prelude.{◌≡◌};
    ghost use Rattle.crossbeam_channel.specs.Claims.{IsSeatAt};
    ghost use Rattle.crossbeam_channel.specs.Ends.{sends_on, ruled_capacity};
    ghost use Rattle.ruled_queue.specs.Delivery.{sender};
    ghost use Rattle.ruled_queue.specs.Ends.{capacity, queue_of, known};
    ghost use Rattle.owner_queue.specs.JobEnds.{Outbox, outbox};

    ghost Value = { Outbox };

    ghost view = { λ s. outbox (queue_of s.pass) (known s.pass).number (known s.pass).terms (known s.pass).sent };

    ghost invariant = { λ s. IsSeatAt (sends_on s.end) s.pass
        × (known s.pass ≡ sender (known s.pass).number (known s.pass).terms (known s.pass).sent)
        × (ruled_capacity (sends_on s.end) ≡ capacity) };
}

impl<'a> JobSender<'a> {
    /// Waits until the message is in the queue.
    pub fn send<R: Wait>(&mut self, rt: &R, message: Message<'a>)
        requires own { sender_of message ≡ self.old.number }
        requires order { MayFollow self.old.jobs self.old.sent message }
        ensures { self.new ≡ outbox self.old.queue self.old.number self.old.jobs (self.old.sent ++ message.entry ∷ []) }
    {
        put(rt, 0, &self.end, &mut self.pass, message);
    }
}

/// The senders of a queue. Contracts see the list.
#[derive(Drop)]
pub struct JobSenders<'a> {
    pub list: Vec<JobSender<'a>>,
}

/// The one receiver of a queue. Contracts see its queue, how many senders it was made with, how many jobs each
/// may send, and the messages that were taken, in order.
#[derive(Drop)]
pub struct JobReceiver<'a> {
    end: RuledReceiver<Message<'a>, PassView<Message<'a>, u64>, InOrder>,
    pass: Pass<Message<'a>, PassView<Message<'a>, u64>>,
    senders: u32,
    // Which senders' ends were taken.
    ended: [bool; 16],
}

impl<'a> Model for JobReceiver<'a> {
    ghost use Rattle.std.specs.Prelude.{◌≡◌, ◌≤◌, true, false};
    ghost use Rattle.crossbeam_channel.specs.Claims.{IsSeatAt};
    ghost use Rattle.crossbeam_channel.specs.Ends.{receives_on, ruled_capacity};
    ghost use Rattle.ruled_queue.specs.Ends.{capacity, queue_of, known};
    ghost use Rattle.owner_queue.specs.JobEnds.{Inbox, inbox, HasFlags};

    ghost Value = { Inbox };

    ghost view = { λ r. inbox (queue_of r.pass) r.senders (known r.pass).terms (known r.pass).taken };

    ghost invariant = { λ r. IsSeatAt (receives_on r.end) r.pass
        × ((known r.pass).takes ≡ true) × ((known r.pass).sends ≡ false)
        × ((known r.pass).number ≡ r.senders) × (r.senders ≤ 16) × HasFlags r.ended (known r.pass).taken
        × (ruled_capacity (receives_on r.end) ≡ capacity) };
}

impl<'a> JobReceiver<'a> {
    /// Waits for a message and takes the front. `None` comes without waiting, exactly where an end of every
    /// sender was taken.
    pub fn recv<R: Wait>(&mut self, rt: &R) -> Option<Message<'a>>
        ensures some { IfSome result (λ m. self.new
            ≡ inbox self.old.queue self.old.senders self.old.jobs (self.old.taken ++ m ∷ [])) }
        ensures sender { IfSome result (λ m. sender_of m < self.old.senders) }
        ensures order { IfSome result (λ m. MayFollow self.old.jobs (sent_by (sender_of m) self.old.taken) m) }
        ensures none { IsNone result → self.new ≡ self.old }
        ensures ended { IsNone result
            ↔ ((p : ℕ) → p < self.old.senders → has_end p self.old.taken ≡ true) }
    {
        if all_true(&self.ended, self.senders) {
            return None;
        }
        let message = take(rt, 0, &self.end, &mut self.pass);
        if let Message::End(sender) = &message {
            self.ended[*sender as usize] = true;
        }
        Some(message)
    }

    /// Ends a sender whose end was taken. What was taken of it is all that it sent.
    pub fn take_in(&mut self, sender: JobSender<'a>)
        requires queue { sender.queue ≡ self.old.queue }
        requires ended { has_end sender.number self.old.taken ≡ true }
        ensures same { self.new ≡ self.old }
        ensures whole { sent_by sender.entry.number self.old.taken ≡ sender.entry.sent }
    {
        let JobSender { end, pass } = sender;
        end.absorb::<TakenIn>(&mut self.pass, pass);
        end.learn_as::<Whole>(&mut self.pass);
    }
}

fn all_true(flags: &[bool; 16], below: u32) -> bool
    requires { below ≤ 16 }
    ensures { IsTrue result ↔ ((p : ℕ) → p < below → slice_get flags.now p ≡ Some true) }
{
    for p in 0..below as usize {
        if !flags[p] {
            return false;
        }
    }
    true
}

/// A queue of capacity 64 with one sender for each number below `senders`. A sender sends tickets below `jobs`.
pub fn job_queue<'a>(
    alloc: Global,
    senders: u32,
    jobs: u64,
) -> Result<(JobSenders<'a>, JobReceiver<'a>), NoMemory>
    requires { (1 ≤ senders) × (senders ≤ 16) }
    ensures receiver { IfOk result (λ r. r.1 ≡ inbox r.1.queue senders jobs []) }
    ensures count { IfOk result (λ r. vec_len r.0.list ≡ senders) }
    ensures each { IfOk result (λ r. (p : ℕ) → p < senders
        → slice_get r.0.list.items p ≡ Some (outbox r.1.queue p jobs [])) }
{
    with_most::<Brand>(alloc, senders, jobs)
}

fn with_most<'a, M: MostJobs>(
    alloc: Global,
    senders: u32,
    jobs: u64,
) -> Result<(JobSenders<'a>, JobReceiver<'a>), NoMemory>
    requires senders { (1 ≤ senders) × (senders ≤ 16) }
    requires jobs { jobs ≡ M.jobs }
    ensures receiver { IfOk result (λ r. r.1 ≡ inbox r.1.queue senders jobs []) }
    ensures count { IfOk result (λ r. vec_len r.0.list ≡ senders) }
    ensures each { IfOk result (λ r. (p : ℕ) → p < senders
        → slice_get r.0.list.items p ≡ Some (outbox r.1.queue p jobs [])) }
{
    make::<JobTerms<M>>(alloc, senders, jobs)
}

fn make<'a, J: Terms<Message<'a>, u64>>(
    alloc: Global,
    senders: u32,
    jobs: u64,
) -> Result<(JobSenders<'a>, JobReceiver<'a>), NoMemory>
    requires senders { (1 ≤ senders) × (senders ≤ 16) }
    requires jobs { jobs ≡ J.terms }
    ensures receiver { IfOk result (λ r. r.1 ≡ inbox r.1.queue senders jobs []) }
    ensures count { IfOk result (λ r. vec_len r.0.list ≡ senders) }
    ensures each { IfOk result (λ r. (p : ℕ) → p < senders
        → slice_get r.0.list.items p ≡ Some (outbox r.1.queue p jobs [])) }
{
    let (first, end, mut pass) = bounded_with::<
        Message<'a>,
        PassView<Message<'a>, u64>,
        InOrder,
        Global,
    >(alloc, CAPACITY)?;
    let mut list = Vec::with_capacity(alloc, senders as usize)?;
    for _made in 0..senders {
        let own = first.try_clone()?;
        let seat = first.another::<NewSender<J>>(&mut pass);
        list.push(JobSender {
            end: own,
            pass: seat,
        })?;
    }
    let receiver = JobReceiver {
        end,
        pass,
        senders,
        ended: [false; 16],
    };
    Ok((JobSenders { list }, receiver))
}
