//! Owners and fronts as made, with their queues and seats, before any of them starts.
ghost use Rattle.std.specs.Prelude.{◌≡◌, ◌*◌, ◌<◌, ◌≤◌, [], IfOk, OnOk, map, length, vec_len};
ghost use Rattle.partition_model.specs.Options.{IsValid};
ghost use Rattle.partition_words.specs.OwnerState.{as_made};
ghost use Rattle.partition_words.specs.Shape.{shape_of};
ghost use Rattle.server_words.specs.PortOptions.{IsValidPorts};
ghost use Rattle.mica_serve.specs.Hands.{LendsPart, AreSendersOf, LendsEach, AreLent, LendsOneMore, AreFrontsOf};
ghost use Rattle.mica_serve.specs.Tasks.{owner_end};

use crate::worker::OwnerTask;
use any_partition::OnTable;
use outside::NoMemory;
use owner_queue::{JobSender, ack_queue, job_queue};
use partition_model::Options;
use partition_table::{Note, ReaderSeat, zeros_for};
use partition_words::{LendPartition, Shape};
use queue_front::{FrontPart, QueueFront};
use server_words::PortOptions;
use std::alloc::Global;

impl<P: LendPartition<Reader = ReaderSeat, Note = Note>> OwnerTask<P> {
    // Lends one more front a part: a seat, its sender to the owner, and an end of a queue of answers from there.
    fn lend(&mut self, alloc: Global, sender: JobSender<'static>) -> Result<FrontPart, NoMemory>
        ensures { IfOk result (LendsPart sender.entry (owner_end P.owner P.home self.old) (owner_end P.owner P.home self.new)) }
    {
        let seat = self.part.lend()?;
        let (answers, answered) = ack_queue(alloc, &seat)?;
        self.acks.push(answers)?;
        Ok(FrontPart {
            seat,
            jobs: sender,
            acks: answered,
            last: 0,
        })
    }
}

// Lends each front a part, with its sender.
fn lend_all<P: LendPartition<Reader = ReaderSeat, Note = Note>>(
    alloc: Global,
    owner: &mut OwnerTask<P>,
    senders: Vec<JobSender<'static>>,
    hands: &mut Vec<Vec<FrontPart>>,
) -> Result<(), NoMemory>
    requires none { owner.old.acks.items ≡ [] }
    requires senders { AreSendersOf (owner_end P.owner P.home owner.old) senders.items }
    requires many { length senders.items ≡ length hands.old.items }
    requires few { vec_len hands.old ≤ 16 }
    ensures { OnOk result (LendsEach (owner_end P.owner P.home owner.old) (owner_end P.owner P.home owner.new)
        (map (λ own. own.items) hands.old.items) (map (λ own. own.items) hands.new.items)) }
{
    let mut at = 0;
    for sender in senders {
        let part = owner.lend(alloc, sender)?;
        let hand = &mut hands[at];
        hand.push(part)?;
        at += 1;
    }
    Ok(())
}

// Makes the owner of one more partition, which lends each front a part.
fn open_owner<P: OnTable + LendPartition<Reader = ReaderSeat, Note = Note>>(
    alloc: Global,
    options: &Options,
    zeros: &[u64],
    most: u64,
    worker: u32,
    hands: &mut Vec<Vec<FrontPart>>,
) -> Result<OwnerTask<P>, NoMemory>
    requires valid { IsValid options.now }
    requires mode { options.now.mode ≡ P.mode }
    requires same { (p : P) → P.state p ≡ P.owner p }
    requires zeros { zeros.now ≡ (as_made (shape_of options.now)).words }
    requires some { (1 ≤ vec_len hands.old) × (vec_len hands.old ≤ 16) }
    ensures { IfOk result (λ task. LendsOneMore options.now most (owner_end P.owner P.home task)
        (map (λ own. own.items) hands.old.items) (map (λ own. own.items) hands.new.items)) }
{
    let part = P::from_zeros(alloc, options, zeros)?;
    let (senders, jobs) = job_queue(alloc, hands.len() as u32, most)?;
    let acks = Vec::with_capacity(alloc, hands.len())?;
    let mut owner = OwnerTask {
        part,
        worker,
        jobs,
        acks,
    };
    lend_all(alloc, &mut owner, senders.list, hands)?;
    Ok(owner)
}

// The owners of all partitions, and in each front's hands a part of each.
fn open_owners<P: OnTable + LendPartition<Reader = ReaderSeat, Note = Note>>(
    alloc: Global,
    options: &Options,
    ports: &PortOptions,
    hands: &mut Vec<Vec<FrontPart>>,
) -> Result<Vec<OwnerTask<P>>, NoMemory>
    requires valid { IsValid options.now }
    requires mode { options.now.mode ≡ P.mode }
    requires same { (p : P) → P.state p ≡ P.owner p }
    requires ports { IsValidPorts ports.now }
    requires none { hands.old.items ≡ [] }
    ensures lent { IfOk result (λ owners. AreLent options.now ports.now.fronts (255 * ports.now.batches)
        (map (λ task. owner_end P.owner P.home task) owners.items) (map (λ own. own.items) hands.new.items)) }
    ensures many { IfOk result (λ owners. length owners.items ≡ options.now.partitions) }
{
    for _ in 0..ports.fronts {
        hands.push(Vec::with_capacity(alloc, options.partitions as usize)?)?;
    }
    let zeros = zeros_for(alloc, &Shape::of(options))?;
    let zeros = zeros.as_slice();
    let mut owners = Vec::with_capacity(alloc, options.partitions as usize)?;
    for p in 0..options.partitions {
        let owner = open_owner(alloc, options, zeros, 255 * ports.batches, p, hands)?;
        owners.push(owner)?;
    }
    Ok(owners)
}

/// The owners of all partitions, and a front for each port before them.
pub(crate) fn open_all<P: OnTable + LendPartition<Reader = ReaderSeat, Note = Note>>(
    alloc: Global,
    options: &Options,
    ports: &PortOptions,
    fronts: &mut Vec<QueueFront>,
) -> Result<Vec<OwnerTask<P>>, NoMemory>
    requires valid { IsValid options.now }
    requires mode { options.now.mode ≡ P.mode }
    requires same { (p : P) → P.state p ≡ P.owner p }
    requires ports { IsValidPorts ports.now }
    requires none { fronts.old.items ≡ [] }
    ensures { IfOk result (λ owners. AreFrontsOf options.now ports.now.fronts (255 * ports.now.batches)
        (map (λ task. owner_end P.owner P.home task) owners.items) fronts.new.items) }
{
    let mut hands = Vec::with_capacity(alloc, ports.fronts as usize)?;
    let owners = open_owners(alloc, options, ports, &mut hands)?;
    let mut number = 0;
    for hand in hands {
        fronts.push(QueueFront::new(options, number, 255 * ports.batches, hand))?;
        number += 1;
    }
    Ok(owners)
}
