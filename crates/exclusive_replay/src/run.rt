//! A trace whose owners read as well as write: one owner for each partition, each fed by a queue.
ghost use Rattle.std.specs.Prelude.{◌≡◌, ◌<◌, [], ◌∷◌, true, Some, IfOk, length};
ghost use Rattle.std.specs.Vec.Iter.{into_iter_items};
ghost use Rattle.partition_model.specs.Options.{IsValid};
ghost use Rattle.mica_trace.specs.ExactReport.{ExactReport};
ghost use Rattle.exclusive_replay.specs.Sent.{has_end};
ghost use Rattle.exclusive_replay.specs.Run.{AreMade, HaveRun};

use crate::feeder::Feeder;
use crate::merging::merge;
use crate::owner::Owner;
use crate::queue::{LineSender, line_queue};
use crate::worker::run_workers;
use any_partition::PlainPartition;
use mica_trace::{Line, Report, Trace};
use outside::{Gate, NoMemory, rehearse};
use partition_model::{ItemBuf, Options};
use std::alloc::Global;
use std::sync::Wait;
use std::thread::Threads;
use std::vec::IntoIter;

// One owner for each partition, and the sender of each one's queue.
fn make_owners(
    alloc: Global,
    options: &Options,
    trace: &Trace,
) -> Result<(Vec<Owner>, Vec<LineSender>), NoMemory>
    requires { IsValid options.now }
    ensures { IfOk result (λ made. AreMade options.now trace.now made.0.items made.1.items) }
{
    let mut owners = Vec::with_capacity(alloc, options.partitions as usize)?;
    let mut senders = Vec::with_capacity(alloc, options.partitions as usize)?;
    let room = (trace.len() as usize).div_ceil(options.partitions as usize);
    for p in 0..options.partitions {
        let (sender, queue) = line_queue(alloc, trace.len())?;
        let owner = Owner {
            part: PlainPartition::new(alloc, options)?,
            queue,
            worker: p,
            value: ItemBuf::new(alloc)?,
            printed: Some(Vec::with_capacity(alloc, room)?),
        };
        owners.push(owner)?;
        senders.push(sender)?;
    }
    Ok((owners, senders))
}

// The next of the senders.
fn next_sender(senders: &mut IntoIter<LineSender, Global>) -> LineSender
    requires { 0 < length (into_iter_items senders.old) }
    ensures { into_iter_items senders.old ≡ result ∷ into_iter_items senders.new }
{
    match senders.next() {
        Some(sender) => sender,
        None => unreachable!(),
    }
}

// What an owner printed. Its queue takes in its sender.
fn printed_by(owner: Owner, sender: LineSender) -> Result<Vec<Line>, NoMemory>
    requires queue { sender.queue ≡ owner.queue.queue }
    requires ended { has_end owner.queue.list ≡ true }
    ensures whole { owner.queue.list ≡ sender.list }
    ensures printed { IfOk result (λ lines. owner.printed ≡ Some lines) }
{
    let mut owner = owner;
    owner.queue.take_in(sender);
    match owner.printed.take() {
        Some(lines) => Ok(lines),
        None => Err(NoMemory),
    }
}

// The exact report, by what the owners printed. It has room for all lines.
fn report_by(
    alloc: Global,
    options: &Options,
    trace: &Trace,
    owners: Vec<Owner>,
    senders: Vec<LineSender>,
    report: Report,
) -> Result<Report, NoMemory>
    requires valid { IsValid options.now }
    requires none { report ≡ [] }
    requires many { length owners.items ≡ options.now.partitions }
    requires ran { HaveRun options.now trace.now 0 owners.items senders.items }
    ensures { IfOk result (ExactReport options.now trace.now) }
{
    let mut printed = Vec::with_capacity(alloc, owners.len())?;
    let mut senders = senders.into_iter();
    for owner in owners {
        let lines = printed_by(owner, next_sender(&mut senders))?;
        printed.push(lines.into_iter())?;
    }
    merge(options, trace, printed.as_mut_slice(), report)
}

/// The exact report of a trace. Each partition has an owner in a thread of its own, which answers the lines of its keys in
/// trace order. Owner p is worker p of the gate, which it passes before each line, and once more at its queue's end.
pub fn run_exclusive<W: Threads + Wait + Sync, G: Gate>(
    rt: &W,
    alloc: Global,
    options: &Options,
    trace: &Trace,
    gate: &G,
) -> Result<Report, NoMemory>
    requires { IsValid options.now }
    ensures { IfOk result (ExactReport options.now trace.now) }
{
    let report = Report::with_capacity(alloc, trace.len())?;
    let (mut owners, senders) = make_owners(alloc, options, trace)?;
    rehearse(rt, alloc, options.partitions + 1)?;
    let mut feeder = Feeder { senders };
    run_workers(rt, alloc, options, trace, gate, &mut feeder, &mut owners);
    report_by(alloc, options, trace, owners, feeder.senders, report)
}
