//! The queues of a round: one for each owner, with one sender.
ghost use Rattle.std.specs.Prelude.{◌≡◌, IfOk, length};
ghost use Rattle.mica_replay.specs.Queues.{HaveQueues, MayTakeIn, HaveTakenIn};

use crate::done::Done;
use crate::worker::OwnerWork;
use outside::NoMemory;
use owner_queue::{JobSender, job_queue};
use std::alloc::Global;
use std::mem;

/// Gives each owner a fresh queue for that many jobs, and room for as many replies. Gives the queues' senders, in order.
pub(crate) fn open_queues<'a, P: Drop>(
    alloc: Global,
    counts: &[u32],
    owners: &mut Vec<OwnerWork<'a, P>>,
) -> Result<Vec<JobSender<'a>>, NoMemory>
    requires { length counts.now ≡ length owners.old.items }
    ensures { IfOk result (λ senders. HaveQueues counts.now owners.old.items owners.new.items senders.items) }
{
    let mut senders = Vec::with_capacity(alloc, owners.len())?;
    for p in 0..owners.len() {
        let count = counts[p];
        let owner = &mut owners[p];
        let (mut own, receiver) = job_queue(alloc, 1, u64::from(count))?;
        let Some(sender) = own.list.pop() else {
            unreachable!()
        };
        senders.push(sender)?;
        let _spent = mem::replace(&mut owner.jobs, receiver);
        let done = Done::new(alloc, count)?;
        owner.done = done;
    }
    Ok(senders)
}

/// Each owner's queue takes in its sender, whose end was taken.
pub(crate) fn take_senders_in<'a, P: Drop>(
    owners: &mut Vec<OwnerWork<'a, P>>,
    senders: Vec<JobSender<'a>>,
)
    requires { MayTakeIn owners.old.items senders.items }
    ensures { HaveTakenIn owners.old.items owners.new.items senders.entry.items }
{
    let mut at = 0;
    for sender in senders {
        let owner = &mut owners[at];
        owner.jobs.take_in(sender);
        at += 1;
    }
}
