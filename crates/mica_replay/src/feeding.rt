//! The owners of a round, each fed by its queue, beside the readers.
ghost use Rattle.std.specs.Prelude.{◌≡◌, OnOk, All, length, map};
ghost use Rattle.partition_table.specs.Seats.{reader_state, reader_home};
ghost use Rattle.mica_replay.specs.Lending.{owner_part};
ghost use Rattle.mica_replay.specs.Each.{Each};
ghost use Rattle.mica_replay.specs.Feeds.{writes_for};
ghost use Rattle.mica_replay.specs.Crew.{IsCrew};
ghost use Rattle.mica_replay.specs.RoundRun.{HasRunWrites};
ghost use Rattle.mica_replay.specs.Workers.{IsReadyReader, ReadersRan};

use crate::crew::Crew;
use crate::feeder::Feeder;
use crate::queues::{open_queues, take_senders_in};
use crate::round_jobs::RoundJobs;
use crate::worker::{OwnerWork, ReaderWork, run_all};
use mica_trace::Trace;
use outside::NoMemory;
use partition_model::Options;
use partition_table::{Note, ReaderSeat};
use partition_words::LendPartition;
use std::alloc::Global;
use std::sync::Wait;

/// Runs the owners and the readers of a round side by side. One worker more sends the owners their jobs.
pub(crate) fn run_fed<'a, W: Wait, P: LendPartition<Reader = ReaderSeat, Note = Note> + Drop>(
    rt: &W,
    alloc: Global,
    trace: &Trace,
    options: &Options,
    crew: &mut Crew<'a, P>,
    jobs: RoundJobs<'a>,
    owners: &mut Vec<OwnerWork<'a, P>>,
    readers: &mut Vec<ReaderWork<ReaderSeat>>,
) -> Result<(), NoMemory>
    requires queues { jobs.queues ≡ length owners.old.items }
    requires readers { All (IsReadyReader reader_state trace.now options.now) readers.old.items }
    requires crew { IsCrew (length owners.old.items) (length readers.old.items) trace.now options.now crew.old }
    ensures owners { OnOk result (Each (λ p. HasRunWrites (writes_for p jobs.entry.feeds)) (map (λ w. owner_part P.owner P.home w) owners.old.items)
        (map (λ w. owner_part P.owner P.home w) owners.new.items)) }
    ensures readers { OnOk result (ReadersRan reader_state reader_home trace.now options.now
        readers.old.items readers.new.items) }
    ensures crew { crew.new ≡ crew.old }
{
    let RoundJobs { feeds, counts } = jobs;
    let senders = open_queues(alloc, counts.as_slice(), owners)?;
    let mut feeder = Feeder {
        senders,
        feeds: feeds.into_iter(),
    };
    run_all(rt, trace, options, crew, &mut feeder, owners, readers);
    take_senders_in(owners, feeder.senders);
    Ok(())
}
