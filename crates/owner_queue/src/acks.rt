//! Queues of acknowledgements: one sender and one receiver.
ghost use Rattle.std.specs.Prelude.{◌≡◌, [], ◌∷◌, ◌++◌, IfOk};
ghost use Rattle.owner_queue.specs.Acked.{IsAcked};
ghost use Rattle.partition_table.specs.Seats.{note_state, note_home, reader_state, reader_home};
ghost use Rattle.owner_queue.specs.AckOrder.{AckMayFollow};
ghost use Rattle.owner_queue.specs.AckEnds.{ack_box, BeginsAcks};

use crate::ack::Ack;
use crossbeam_channel::{Pass, RuledReceiver, RuledSender, bounded_with};
use outside::NoMemory;
use partition_table::{Note, ReaderSeat};
use ruled_queue::{CAPACITY, InOrder, NewSender, PassView, TakenIn, Terms, Whole, put, take};
use std::alloc::Global;
use std::marker::{Brand, Model};
use std::sync::Wait;

/// The one sender. Contracts see its queue, the table of its notes with its shape, and what it sent.
#[derive(Drop)]
pub struct AckSender {
    end: RuledSender<Ack, PassView<Ack, Note>, InOrder>,
    pass: Pass<Ack, PassView<Ack, Note>>,
}

impl Model for AckSender {
    ghost use Rattle.std.specs.Prelude.{◌≡◌};
    ghost use Rattle.crossbeam_channel.specs.Claims.{IsSeatAt};
    ghost use Rattle.crossbeam_channel.specs.Ends.{sends_on, ruled_capacity};
    ghost use Rattle.ruled_queue.specs.Delivery.{sender};
    ghost use Rattle.ruled_queue.specs.Ends.{capacity, queue_of, known};
    ghost use Rattle.partition_table.specs.Seats.{note_state, note_home};
    ghost use Rattle.owner_queue.specs.AckEnds.{AckBox, ack_box};

    ghost Value = { AckBox };

    ghost view = { λ s. ack_box (queue_of s.pass) (note_home (known s.pass).terms) (note_state (known s.pass).terms).shape (known s.pass).sent };

    ghost invariant = { λ s. IsSeatAt (sends_on s.end) s.pass
        × (known s.pass ≡ sender (known s.pass).number (known s.pass).terms (known s.pass).sent)
        × ((known s.pass).number ≡ 0)
        × (ruled_capacity (sends_on s.end) ≡ capacity) };
}

/// The one receiver. Contracts see its queue, the table of its notes with its shape, and what it took.
#[derive(Drop)]
pub struct AckReceiver {
    end: RuledReceiver<Ack, PassView<Ack, Note>, InOrder>,
    pass: Pass<Ack, PassView<Ack, Note>>,
}

impl Model for AckReceiver {
    ghost use Rattle.std.specs.Prelude.{◌≡◌, true, false};
    ghost use Rattle.crossbeam_channel.specs.Claims.{IsSeatAt};
    ghost use Rattle.crossbeam_channel.specs.Ends.{receives_on, ruled_capacity};
    ghost use Rattle.ruled_queue.specs.Ends.{capacity, queue_of, known};
    ghost use Rattle.partition_table.specs.Seats.{note_state, note_home};
    ghost use Rattle.owner_queue.specs.AckEnds.{AckBox, ack_box};

    ghost Value = { AckBox };

    ghost view = { λ r. ack_box (queue_of r.pass) (note_home (known r.pass).terms) (note_state (known r.pass).terms).shape (known r.pass).taken };

    ghost invariant = { λ r. IsSeatAt (receives_on r.end) r.pass
        × ((known r.pass).takes ≡ true) × ((known r.pass).sends ≡ false)
        × (ruled_capacity (receives_on r.end) ≡ capacity) };
}

impl AckSender {
    /// Waits until the acknowledgement is in the queue.
    pub fn send<R: Wait>(&mut self, rt: &R, ack: Ack)
        requires { AckMayFollow self.old.table self.old.shape self.old.list ack }
        ensures { self.new ≡ ack_box self.old.queue self.old.table self.old.shape (self.old.list ++ ack ∷ []) }
    {
        put(rt, 0, &self.end, &mut self.pass, ack);
    }
}

impl AckReceiver {
    /// Waits for an acknowledgement and takes the front.
    pub fn recv<R: Wait>(&mut self, rt: &R) -> Ack
        ensures taken { self.new ≡ ack_box self.old.queue self.old.table self.old.shape (self.old.list ++ result ∷ []) }
        ensures order { AckMayFollow self.old.table self.old.shape self.old.list result }
        ensures acked { IsAcked (note_state result.note) result.write result.outcome result.stamp }
    {
        take(rt, 0, &self.end, &mut self.pass)
    }

    /// Ends the sender. What was taken begins what it sent.
    pub fn take_in(&mut self, sender: AckSender)
        requires { sender.queue ≡ self.old.queue }
        ensures same { self.new ≡ self.old }
        ensures begins { BeginsAcks self.old.list sender.list }
    {
        let AckSender { end, pass } = sender;
        end.absorb::<TakenIn>(&mut self.pass, pass);
        end.learn_as::<Whole>(&mut self.pass);
    }
}

/// A queue of capacity 64 for one sender and one receiver, for notes of the seat's table.
pub fn ack_queue(alloc: Global, of: &ReaderSeat) -> Result<(AckSender, AckReceiver), NoMemory>
    ensures sender { IfOk result (λ r. r.0 ≡ ack_box r.1.queue (reader_home of.now) (reader_state of.now).shape []) }
    ensures receiver { IfOk result (λ r. r.1 ≡ ack_box r.1.queue (reader_home of.now) (reader_state of.now).shape []) }
{
    make::<Brand>(alloc, of)
}

fn make<J: Terms<Ack, Note>>(
    alloc: Global,
    _of: &ReaderSeat,
) -> Result<(AckSender, AckReceiver), NoMemory>
    requires home { note_home J.terms ≡ reader_home _of.now }
    requires shape { (note_state J.terms).shape ≡ (reader_state _of.now).shape }
    ensures sender { IfOk result (λ r. r.0 ≡ ack_box r.1.queue (reader_home _of.now) (reader_state _of.now).shape []) }
    ensures receiver { IfOk result (λ r. r.1 ≡ ack_box r.1.queue (reader_home _of.now) (reader_state _of.now).shape []) }
{
    let (from, to, mut pass) = bounded_with::<Ack, PassView<Ack, Note>, InOrder, Global>(
        alloc, CAPACITY,
    )?;
    let seat = from.another::<NewSender<J>>(&mut pass);
    Ok((
        AckSender {
            end: from,
            pass: seat,
        },
        AckReceiver { end: to, pass },
    ))
}
