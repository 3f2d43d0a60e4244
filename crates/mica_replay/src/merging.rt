//! What is printed for a round.
ghost use Rattle.std.specs.Prelude.{◌≡◌, ◌<◌, ◌+◌, ◌∷◌, ◌^◌, IfOk, OnOk, Some, map, length, slice_get};
ghost use Rattle.std.specs.Vec.Iter.{into_iter_items};
ghost use Rattle.partition_model.specs.Options.{IsValid};
ghost use Rattle.mica_replay.specs.Lending.{owner_part};
ghost use Rattle.mica_replay.specs.LineNumbers.{homes_of};
ghost use Rattle.mica_replay.specs.RoundRun.{reader_part, replies_of, found_of};
ghost use Rattle.mica_replay.specs.Each.{Each};
ghost use Rattle.mica_replay.specs.Shares.{KeepsGets};
ghost use Rattle.mica_replay.specs.Merged.{AreEnough, HasMerged};

use crate::done::Done;
use crate::round_jobs::write_op;
use crate::worker::{OwnerWork, ReaderWork};
use mica_trace::{Line, Report, TraceLine, TraceOp};
use outside::NoMemory;
use partition_model::{Options, Outcome};
use partition_words::{Partition, ReaderWords};
use std::alloc::Global;
use std::vec::IntoIter;

// The lines that each reader found, where none of them lacked memory.
pub(crate) fn collect<R: ReaderWords>(
    alloc: Global,
    readers: &mut Vec<ReaderWork<R>>,
) -> Result<Vec<IntoIter<Line, Global>>, NoMemory>
    ensures found { IfOk result (λ found. map found_of (map (λ r. reader_part R.reader R.home r) readers.old.items)
        ≡ map (λ it. Some (into_iter_items it)) found.items) }
    ensures kept { OnOk result (Each (λ _. KeepsGets) (map (λ r. reader_part R.reader R.home r) readers.old.items)
        (map (λ r. reader_part R.reader R.home r) readers.new.items)) }
{
    let mut found = Vec::with_capacity(alloc, readers.len())?;
    for q in 0..readers.len() {
        let reader = &mut readers[q];
        match reader.found.take() {
            Some(lines) => found.push(lines.into_lines())?,
            None => return Err(NoMemory),
        }
    }
    Ok(found)
}

// The next of an owner's replies.
fn next_reply(done: &Done, replied: &mut u32) -> (Outcome, u64)
    requires some { replied.old < length done.now.list }
    requires few { replied.old < 4294967295 }
    ensures reply { slice_get done.now.list replied.old ≡ Some result }
    ensures more { replied.new ≡ replied.old + 1 }
{
    let number = *replied;
    *replied += 1;
    match done.pair(number) {
        Some(pair) => pair,
        None => unreachable!(),
    }
}

// The next of a reader's lines.
fn next_line(lines: &mut IntoIter<Line, Global>) -> Line
    requires { 0 < length (into_iter_items lines.old) }
    ensures { into_iter_items lines.old ≡ result ∷ into_iter_items lines.new }
{
    match lines.next() {
        Some(line) => line,
        None => unreachable!(),
    }
}

// Adds a line for each line of the round.
pub(crate) fn print_round<P: Partition>(
    alloc: Global,
    options: &Options,
    lines: &[TraceLine],
    homes: &[u32],
    first: u32,
    owners: &[OwnerWork<P>],
    found: &mut [IntoIter<Line, Global>],
    report: &mut Report,
) -> Result<(), NoMemory>
    requires valid { IsValid options.now }
    requires homes { homes.now ≡ homes_of options.now lines.now }
    requires enough { AreEnough options.now first lines.now (map replies_of (map (λ w. owner_part P.owner P.home w) owners.now)) (map (λ it. into_iter_items it) found.old) }
    requires count { (first + length lines.now < 2 ^ 32) × (length report.old + length lines.now < 2 ^ 32) }
    ensures { OnOk result (HasMerged options.now first lines.now report.old report.new
        (map replies_of (map (λ w. owner_part P.owner P.home w) owners.now)) (map (λ it. into_iter_items it) found.old)) }
{
    let mut replied = vec![in alloc; 0u32; owners.len()]?;
    let mut gets = first;
    for number in 0..lines.len() {
        let line = &lines[number];
        let printed = match line.op {
            TraceOp::Put | TraceOp::Add | TraceOp::Del | TraceOp::Touch => {
                let partition = homes[number] as usize;
                let (outcome, stamp) = next_reply(&owners[partition].done, &mut replied[partition]);
                Line::Wrote {
                    op: write_op(line.op),
                    outcome,
                    stamp,
                }
            }
            TraceOp::Get => {
                let printed = next_line(&mut found[(gets % options.readers) as usize]);
                gets += 1;
                printed
            }
            TraceOp::Sync => Line::Sync,
        };
        report.push(printed)?;
    }
    Ok(())
}
