//! The worker of an owner: it does the jobs of the fronts, and acknowledges each.
ghost use Rattle.std.specs.Prelude.{◌≡◌, ◌<◌, ℕ, true, [], All, vec_len};
ghost use Rattle.partition_model.specs.Write.{IsWrite};
ghost use Rattle.partition_table.specs.declared.reader.Note.{Note};
ghost use Rattle.partition_table.specs.Seats.{note_state, note_home};
ghost use Rattle.owner_queue.specs.Messages.{has_end};
ghost use Rattle.queue_front.specs.OwnerWork.{IsAckBoxOf, IsNewAckBox, HasDone, HasAnsweredJobs};

use outside::Gate;
use owner_queue::{Ack, AckSender, Job, JobReceiver, Message, apply_write};
use partition_table::{Note, ReaderSeat};
use partition_words::LendPartition;
use std::sync::Wait;

/// Does a job, and acknowledges it with a note that has seen its write.
fn serve_job<W: Wait, P: LendPartition<Reader = ReaderSeat, Note = Note>>(
    rt: &W,
    part: &mut P,
    acks: &mut AckSender,
    job: Job<'static>,
)
    requires notes { (n : Note) → (P.noted n ≡ note_state n) × (P.note_home n ≡ note_home n) }
    requires write { IsWrite job.write }
    requires acks { IsAckBoxOf (P.home part.old) (P.owner part.old) acks.old }
    requires ticket { All (λ a. a.ticket < job.ticket) acks.old.list }
    ensures { HasDone (P.home part.old) (P.home part.new) (P.owner part.old) (P.owner part.new) job.entry acks.old acks.new }
{
    let outcome = apply_write(part, &job.write);
    let ack = Ack {
        ticket: job.ticket,
        write: job.write,
        outcome,
        stamp: part.stamp(),
        note: part.note(),
    };
    acks.send(rt, ack);
}

/// Takes jobs until the end of each front was taken, and acknowledges each to its front. It takes no memory.
pub fn serve_owner<W: Wait, P: LendPartition<Reader = ReaderSeat, Note = Note>, G: Gate>(
    rt: &W,
    part: &mut P,
    jobs: &mut JobReceiver<'static>,
    acks: &mut Vec<AckSender>,
    gate: &G,
    worker: u32,
)
    requires notes { (n : Note) → (P.noted n ≡ note_state n) × (P.note_home n ≡ note_home n) }
    requires fresh { jobs.old.taken ≡ [] }
    requires fronts { vec_len acks.old ≡ jobs.old.senders }
    requires acks { All (IsNewAckBox (P.home part.old) (P.owner part.old)) acks.old.items }
    ensures served { HasAnsweredJobs (P.owner part.old) (P.owner part.new) jobs.old jobs.new acks.old.items acks.new.items }
    ensures ended { (p : ℕ) → p < jobs.old.senders → has_end p jobs.new.taken ≡ true }
    ensures home { P.home part.new ≡ P.home part.old }
{
    let mut call: u32 = 0;
    for _ in rt.forever() {
        match jobs.recv(rt) {
            Some(Message::Job(job)) => {
                gate.turn(worker, call);
                let front = job.sender as usize;
                serve_job(rt, part, &mut acks[front], job);
                call = call.saturating_add(1);
            }
            Some(Message::End(_)) => {}
            None => break,
        }
    }
}
