//! All rounds of a trace.
ghost use Rattle.std.specs.Prelude.{◌≡◌, ◌<◌, ◌≤◌, ◌-◌, [], IfOk, OnOk, MatchOption, map, length, take, drop};
ghost use Rattle.partition_model.specs.Options.{IsValid};
ghost use Rattle.mica_trace.specs.RoundReport.{EndsRound, IsOneRound, gets_in};
ghost use Rattle.mica_replay.specs.Lending.{owner_part};
ghost use Rattle.partition_table.specs.Seats.{reader_state, reader_home};
ghost use Rattle.mica_replay.specs.Crew.{IsCrew};
ghost use Rattle.mica_replay.specs.RoundRun.{reader_part, state_of_owner, AreFree, AreMade, IsRoundTo};
ghost use Rattle.mica_replay.specs.Between.{IsReplaying};

use crate::crew::Crew;
use crate::merging::{collect, print_round};
use crate::round::run_round;
use crate::sharing::split_round;
use crate::worker::{OwnerWork, ReaderWork};
use mica_trace::{Report, Trace, TraceLine};
use outside::NoMemory;
use partition_model::Options;
use partition_table::{Note, ReaderSeat};
use partition_words::LendPartition;
use std::alloc::Global;
use std::sync::Wait;

// The number of the next line that ends a round, from this one on.
fn next_sync(lines: &[TraceLine], from: usize) -> Option<usize>
    requires { from ≤ length lines.now }
    ensures { MatchOption result (IsOneRound (drop from lines.now)) (IsRoundTo lines.now from) }
{
    for number in from..lines.len() {
        if lines[number].is_sync() {
            return Some(number);
        }
    }
    None
}

// Runs one round and prints it. Gives the number of gets up to its end.
fn run_one<'a, W: Wait, P: LendPartition<Reader = ReaderSeat, Note = Note> + Drop>(
    rt: &W,
    alloc: Global,
    options: &Options,
    trace: &'a Trace,
    crew: &mut Crew<'a, P>,
    from: u32,
    to: u32,
    gets: u32,
    owners: &mut Vec<OwnerWork<'a, P>>,
    readers: &mut Vec<ReaderWork<ReaderSeat>>,
    report: &mut Report,
) -> Result<u32, NoMemory>
    requires valid { IsValid options.now }
    requires bounds { (from ≤ to) × (to ≤ length trace.now) }
    requires gets { gets ≡ gets_in (take from trace.now) }
    requires ended { EndsRound (take from trace.now) }
    requires one { IsOneRound (take (to - from) (drop from trace.now)) }
    requires so_far { IsReplaying options.now (take from trace.now) report.old
        (map state_of_owner (map (λ w. owner_part P.owner P.home w) owners.old.items)) }
    requires readers { AreFree options.now (map (λ r. reader_part reader_state reader_home r) readers.old.items) }
    requires crew { IsCrew options.now.partitions options.now.readers trace.now options.now crew.old }
    ensures gets { IfOk result (λ g. g ≡ gets_in (take to trace.now)) }
    ensures so_far { OnOk result (IsReplaying options.now (take to trace.now) report.new
        (map state_of_owner (map (λ w. owner_part P.owner P.home w) owners.new.items))) }
    ensures readers { OnOk result (AreFree options.now (map (λ r. reader_part reader_state reader_home r) readers.new.items)) }
    ensures crew { crew.new ≡ crew.old }
{
    let shared = split_round(alloc, options, trace, from, to, gets, readers)?;
    run_round(
        rt,
        alloc,
        trace,
        options,
        crew,
        shared.jobs,
        owners,
        readers,
    )?;
    let mut found = collect(alloc, readers)?;
    print_round(
        alloc,
        options,
        &trace.lines()[from as usize..to as usize],
        shared.homes.as_slice(),
        gets,
        owners.as_slice(),
        found.as_mut_slice(),
        report,
    )?;
    Ok(shared.gets)
}

/// Runs a trace round by round, with owners as made and readers without seats.
pub(crate) fn run_rounds<'a, W: Wait, P: LendPartition<Reader = ReaderSeat, Note = Note> + Drop>(
    rt: &W,
    alloc: Global,
    options: &Options,
    trace: &'a Trace,
    crew: &mut Crew<'a, P>,
    owners: &mut Vec<OwnerWork<'a, P>>,
    readers: &mut Vec<ReaderWork<ReaderSeat>>,
) -> Result<Report, NoMemory>
    requires valid { IsValid options.now }
    requires made { AreMade options.now (map (λ w. owner_part P.owner P.home w) owners.old.items) }
    requires free { AreFree options.now (map (λ r. reader_part reader_state reader_home r) readers.old.items) }
    requires crew { IsCrew options.now.partitions options.now.readers trace.now options.now crew.old }
    ensures report { IfOk result (λ report. IsReplaying options.now trace.now report
        (map state_of_owner (map (λ w. owner_part P.owner P.home w) owners.new.items))) }
    ensures crew { crew.new ≡ crew.old }
{
    let mut report = Report::with_capacity(alloc, trace.len())?;
    let mut from = 0;
    let mut gets = 0;
    while let Some(sync) = next_sync(trace.lines(), from) {
        let next = sync + 1;
        gets = run_one(
            rt,
            alloc,
            options,
            trace,
            crew,
            from as u32,
            next as u32,
            gets,
            owners,
            readers,
            &mut report,
        )?;
        from = next;
    }
    // The last round ends with the trace.
    let end = trace.len();
    run_one(
        rt,
        alloc,
        options,
        trace,
        crew,
        from as u32,
        end,
        gets,
        owners,
        readers,
        &mut report,
    )?;
    Ok(report)
}
