//! What an owner does in a round: the jobs of its queue, to the end.
ghost use Rattle.std.specs.Prelude.{◌≡◌, ◌≤◌, ◌<◌, ◌*◌, ℕ, true};
ghost use Rattle.owner_queue.specs.Messages.{has_end};
ghost use Rattle.mica_replay.specs.JobReplies.{RepliesToJobs};

use crate::done::Done;
use outside::Gate;
use owner_queue::{JobReceiver, Message, apply_write};
use partition_words::Partition;
use std::sync::Wait;

/// Takes jobs until the queue's end, and adds the outcome and the stamp of each at the end of `out`. It takes no
/// memory.
pub fn run_owner<W: Wait, P: Partition, G: Gate>(
    rt: &W,
    part: &mut P,
    jobs: &mut JobReceiver,
    out: &mut Done,
    gate: &G,
    worker: u32,
)
    requires room { jobs.old.senders * jobs.old.jobs ≤ out.old.spare }
    ensures replies { RepliesToJobs (P.owner part.old) (P.owner part.new) jobs.old jobs.new out.old out.new }
    ensures ended { (p : ℕ) → p < jobs.old.senders → has_end p jobs.new.taken ≡ true }
    ensures home { P.home part.new ≡ P.home part.old }
{
    let most = out.spare();
    let mut call = 0;
    for _ in rt.forever() {
        match jobs.recv(rt) {
            Some(Message::Job(job)) => {
                gate.turn(worker, call);
                let outcome = apply_write(part, &job.write);
                out.push(outcome, part.stamp());
                call += 1;
            }
            Some(Message::End(_)) => {}
            None => break,
        }
    }
    gate.turn(worker, call);
}
