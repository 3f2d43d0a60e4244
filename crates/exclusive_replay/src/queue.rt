//! The queue of an owner: one sender and one receiver.
ghost use Rattle.std.specs.Prelude.{◌≡◌, [], ◌∷◌, ◌++◌, true, IfOk};
ghost use Rattle.exclusive_replay.specs.Sent.{MayFollow, has_end};
ghost use Rattle.exclusive_replay.specs.LineEnds.{line_box};

use crossbeam_channel::{Pass, RuledReceiver, RuledSender, bounded_with};
use outside::NoMemory;
use ruled_queue::{InOrder, NewSender, PassView, Queued, TakenIn, Terms, Whole, put, take};
use std::alloc::Global;
use std::marker::{Brand, Model};
use std::sync::Wait;

// How many lines may wait in a queue.
const CAPACITY: usize = 1_024;

// How often an end that has to wait gives its core to others before it sleeps.
const YIELDS: u32 = 1;

/// A line of the trace by its number, or the end of all.
#[derive(Clone, Copy)]
pub(crate) enum Sent {
    Line(u32),
    End,
}

// The terms of a queue are how many lines there are.
impl Queued<u64> for Sent {
    ghost use Rattle.exclusive_replay.specs.Sent.{only_sender, MayFollow};

    ghost sender = { only_sender };

    ghost follows = { MayFollow };

    ghost unset = { 0 };
}

impl Terms<Sent, u64> for Brand {
    ghost terms = { 0 };
}

/// The one sender. Contracts see its queue, how many lines there are, and what it sent.
#[derive(Drop)]
pub(crate) struct LineSender {
    end: RuledSender<Sent, PassView<Sent, u64>, InOrder>,
    pass: Pass<Sent, PassView<Sent, u64>>,
}

impl Model for LineSender {
    ghost use Rattle.std.specs.Prelude.{◌≡◌};
    ghost use Rattle.crossbeam_channel.specs.Claims.{IsSeatAt};
    ghost use Rattle.crossbeam_channel.specs.Ends.{sends_on};
    ghost use Rattle.ruled_queue.specs.Delivery.{sender};
    ghost use Rattle.ruled_queue.specs.Ends.{queue_of, known};
    ghost use Rattle.exclusive_replay.specs.LineEnds.{LineBox, line_box};

    ghost Value = { LineBox };

    ghost view = { λ s. line_box (queue_of s.pass) (known s.pass).terms (known s.pass).sent };

    ghost invariant = { λ s. IsSeatAt (sends_on s.end) s.pass
        × (known s.pass ≡ sender 0 (known s.pass).terms (known s.pass).sent) };
}

/// The one receiver. Contracts see its queue, how many lines there are, and what was taken.
#[derive(Drop)]
pub(crate) struct LineReceiver {
    end: RuledReceiver<Sent, PassView<Sent, u64>, InOrder>,
    pass: Pass<Sent, PassView<Sent, u64>>,
}

impl Model for LineReceiver {
    ghost use Rattle.std.specs.Prelude.{◌≡◌, true, false};
    ghost use Rattle.crossbeam_channel.specs.Claims.{IsSeatAt};
    ghost use Rattle.crossbeam_channel.specs.Ends.{receives_on};
    ghost use Rattle.ruled_queue.specs.Ends.{queue_of, known};
    ghost use Rattle.exclusive_replay.specs.LineEnds.{LineBox, line_box};

    ghost Value = { LineBox };

    ghost view = { λ r. line_box (queue_of r.pass) (known r.pass).terms (known r.pass).taken };

    ghost invariant = { λ r. IsSeatAt (receives_on r.end) r.pass
        × ((known r.pass).takes ≡ true) × ((known r.pass).sends ≡ false) };
}

impl LineSender {
    /// Waits until the message is in the queue.
    pub(crate) fn send<R: Wait>(&mut self, rt: &R, sent: Sent)
        requires { MayFollow self.old.lines self.old.list sent }
        ensures { self.new ≡ line_box self.old.queue self.old.lines (self.old.list ++ sent ∷ []) }
    {
        put(rt, YIELDS, &self.end, &mut self.pass, sent);
    }
}

impl LineReceiver {
    /// Waits for a message and takes the front.
    pub(crate) fn recv<R: Wait>(&mut self, rt: &R) -> Sent
        ensures taken { self.new ≡ line_box self.old.queue self.old.lines (self.old.list ++ result ∷ []) }
        ensures order { MayFollow self.old.lines self.old.list result }
    {
        take(rt, YIELDS, &self.end, &mut self.pass)
    }

    /// Ends the sender whose end was taken. What was taken is all that it sent.
    pub(crate) fn take_in(&mut self, sender: LineSender)
        requires queue { sender.queue ≡ self.old.queue }
        requires ended { has_end self.old.list ≡ true }
        ensures same { self.new ≡ self.old }
        ensures whole { self.old.list ≡ sender.list }
    {
        let LineSender { end, pass } = sender;
        end.absorb::<TakenIn>(&mut self.pass, pass);
        end.learn_as::<Whole>(&mut self.pass);
    }
}

/// A queue for the numbers of so many lines.
pub(crate) fn line_queue(alloc: Global, lines: u32) -> Result<(LineSender, LineReceiver), NoMemory>
    ensures sender { IfOk result (λ r. r.0 ≡ line_box r.1.queue lines []) }
    ensures receiver { IfOk result (λ r. r.1 ≡ line_box r.1.queue lines []) }
{
    make::<Brand>(alloc, lines)
}

fn make<J: Terms<Sent, u64>>(
    alloc: Global,
    lines: u32,
) -> Result<(LineSender, LineReceiver), NoMemory>
    requires { lines ≡ J.terms }
    ensures sender { IfOk result (λ r. r.0 ≡ line_box r.1.queue lines []) }
    ensures receiver { IfOk result (λ r. r.1 ≡ line_box r.1.queue lines []) }
{
    let (from, to, mut pass) = bounded_with::<Sent, PassView<Sent, u64>, InOrder, Global>(
        alloc, CAPACITY,
    )?;
    let seat = from.another::<NewSender<J>>(&mut pass);
    Ok((
        LineSender {
            end: from,
            pass: seat,
        },
        LineReceiver { end: to, pass },
    ))
}
