//! A round from the lending of its seats to the last meeting.
ghost use Rattle.std.specs.Prelude.{◌≡◌, OnOk, map, length};
ghost use Rattle.partition_table.specs.Seats.{reader_state, reader_home};
ghost use Rattle.mica_replay.specs.Lending.{owner_part};
ghost use Rattle.mica_replay.specs.Feeds.{writes_for};
ghost use Rattle.mica_replay.specs.Crew.{IsCrew};
ghost use Rattle.mica_replay.specs.RoundRun.{reader_part, AreReady, HasRunRound};

use crate::crew::Crew;
use crate::feeding::run_fed;
use crate::lending::{lend_all, meet_all};
use crate::round_jobs::RoundJobs;
use crate::worker::{OwnerWork, ReaderWork};
use mica_trace::Trace;
use outside::NoMemory;
use partition_model::Options;
use partition_table::{Note, ReaderSeat};
use partition_words::LendPartition;
use std::alloc::Global;
use std::sync::Wait;

/// Lends each reader a seat of each partition, runs owners and readers side by side, and gives the seats back.
pub(crate) fn run_round<'a, W: Wait, P: LendPartition<Reader = ReaderSeat, Note = Note> + Drop>(
    rt: &W,
    alloc: Global,
    trace: &Trace,
    options: &Options,
    crew: &mut Crew<'a, P>,
    jobs: RoundJobs<'a>,
    owners: &mut Vec<OwnerWork<'a, P>>,
    readers: &mut Vec<ReaderWork<ReaderSeat>>,
) -> Result<(), NoMemory>
    requires ready { AreReady trace.now options.now
        (map (λ w. owner_part P.owner P.home w) owners.old.items)
        (map (λ r. reader_part reader_state reader_home r) readers.old.items) }
    requires queues { jobs.queues ≡ length owners.old.items }
    requires crew { IsCrew (length owners.old.items) (length readers.old.items) trace.now options.now crew.old }
    ensures ran { OnOk result (HasRunRound trace.now options.now (λ p. writes_for p jobs.entry.feeds)
        (map (λ w. owner_part P.owner P.home w) owners.old.items)
        (map (λ w. owner_part P.owner P.home w) owners.new.items)
        (map (λ r. reader_part reader_state reader_home r) readers.old.items)
        (map (λ r. reader_part reader_state reader_home r) readers.new.items)) }
    ensures crew { crew.new ≡ crew.old }
{
    for q in 0..readers.len() {
        let reader = &mut readers[q];
        lend_all(owners, &mut reader.seats)?;
    }
    run_fed(rt, alloc, trace, options, crew, jobs, owners, readers)?;
    for q in 0..readers.len() {
        let reader = &mut readers[q];
        meet_all(owners, &mut reader.seats);
    }
    Ok(())
}
