//! A trace from its owners' making to the keeping of their seats.
ghost use Rattle.std.specs.Thread.{IsSync};
ghost use Rattle.std.specs.Prelude.{None, ◌≡◌, ◌≤◌, ◌+◌, ◌++◌, [], ℕ, Some, All, IfOk, IfSome, OnErr, map, length, slice_get};
ghost use Rattle.partition_model.specs.Options.{IsValid};
ghost use Rattle.partition_words.specs.declared.state.Phase.TheVariants.{Idle};
ghost use Rattle.partition_words.specs.Shape.{shape_of};
ghost use Rattle.partition_words.specs.OwnerState.{as_made};
ghost use Rattle.mica_replay.specs.Lending.{OwnerPart, owner_part};
ghost use Rattle.mica_replay.specs.RoundRun.{reader_part, AreMade, AreFree, kept_of};
ghost use Rattle.partition_model.specs.declared.options.Mode.TheVariants.{Cache, Store};
ghost use Rattle.work_desk.specs.Desk.{doer};
ghost use Rattle.mica_replay.specs.Crew.{read_terms, IsCrew, IsDismissed};
ghost use Rattle.mica_replay.specs.Replayed.{IsReplayed};

use crate::crew::{Crew, Hands, make_crew, work_as_owner, work_as_reader};
use crate::done::Done;
use crate::duties::ReadTerms;
use crate::rounds::run_rounds;
use crate::worker::{OwnerWork, ReaderWork};
use any_partition::OnTable;
use cache_partition::CachePartition;
use mica_trace::{Report, Trace};
use outside::{Gate, NoMemory, rehearse};
use owner_queue::job_queue;
use partition_model::{Mode, Options};
use partition_table::{Note, OwnerSeat, ReaderSeat, Tables, zeros_for};
use partition_words::{LendPartition, Partition, ReaderWords, Shape};
use std::alloc::Global;
use std::sync::Wait;
use std::thread::{Threads, for_each_mut, join, join_mut};
use store_partition::StorePartition;
use work_desk::Doer;

// The partitions, each made in a thread of its own: None in the place of one for which there was no memory.
fn make_parts<W: Threads + Wait + Sync, P: OnTable + Partition + Send>(
    rt: &W,
    alloc: Global,
    options: &Options,
) -> Result<Vec<Option<P>>, NoMemory>
    requires valid { IsValid options.now }
    requires mode { options.now.mode ≡ P.mode }
    ensures many { IfOk result (λ parts. length parts.items ≡ options.now.partitions) }
    ensures made { IfOk result (λ parts. All (λ part. IfSome part (λ p. P.state p ≡ as_made (shape_of options.now))) parts.items) }
{
    let threads = options.partitions as usize;
    let zeros = zeros_for(alloc, &Shape::of(options))?;
    let zeros = zeros.as_slice();
    let mut parts = Vec::with_capacity(alloc, threads)?;
    for _ in 0..threads {
        parts.push_reserved(None);
    }
    for_each_mut(
        rt,
        parts.as_mut_slice(),
        threads,
        &|_, part|
            requires { IsValid options.now × (options.now.mode ≡ P.mode) × (zeros.now ≡ (as_made (shape_of options.now)).words) }
            ensures { IfSome part.exit.now (λ p. P.state p ≡ as_made (shape_of options.entry.now)) }
        {
            *part = P::from_zeros(alloc, options, zeros).ok();
        },
    );
    Ok(parts)
}

// One owner for each partition.
fn make_owners<'a, W: Threads + Wait + Sync, P: OnTable + Partition + Send>(
    rt: &W,
    alloc: Global,
    options: &Options,
) -> Result<Vec<OwnerWork<'a, P>>, NoMemory>
    requires valid { IsValid options.now }
    requires mode { options.now.mode ≡ P.mode }
    requires same { (p : P) → P.state p ≡ P.owner p }
    ensures { IfOk result (λ owners. AreMade options.now (map (λ w. owner_part P.owner P.home w) owners.items)) }
{
    let mut owners = Vec::with_capacity(alloc, options.partitions as usize)?;
    for made in make_parts::<W, P>(rt, alloc, options)? {
        let Some(part) = made else {
            return Err(NoMemory);
        };
        let (_, jobs) = job_queue(alloc, 1, 0)?;
        owners.push(OwnerWork {
            part,
            worker: options.readers + owners.len() as u32,
            jobs,
            done: Done::new(alloc, 0)?,
        })?;
    }
    Ok(owners)
}

// As many readers as the options say, without seats.
fn make_readers<R: ReaderWords>(
    alloc: Global,
    options: &Options,
) -> Result<Vec<ReaderWork<R>>, NoMemory>
    requires valid { IsValid options.now }
    ensures { IfOk result (λ readers. AreFree options.now (map (λ r. reader_part R.reader R.home r) readers.items)) }
{
    let mut readers = Vec::with_capacity(alloc, options.readers as usize)?;
    for q in 0..options.readers {
        readers.push(ReaderWork {
            seats: Vec::new(alloc),
            worker: q,
            gets: Vec::new(alloc),
            found: None,
        })?;
    }
    Ok(readers)
}

// Keeps the seats of all owners, in order.
fn keep_all<P: OnTable + Partition>(owners: Vec<OwnerWork<P>>, tables: &mut Tables)
    requires same { (p : P) → P.state p ≡ P.owner p }
    requires room { length tables.old + length owners.items ≤ 16 }
    requires idle { (p : ℕ) (w : OwnerPart) → slice_get (map (λ w. owner_part P.owner P.home w) owners.items) p ≡ Some w → w.state.phase ≡ Idle }
    ensures { tables.new ≡ tables.old ++ map kept_of (map (λ w. owner_part P.owner P.home w) owners.entry.items) }
{
    let mut left = owners.into_iter();
    while let Some(owner) = left.next() {
        tables.keep(owner.part.into_seat());
    }
}

// The report of a trace, by one owner for each partition and readers beside them.
fn run_on<
    'a,
    W: Threads + Wait + Sync,
    P: OnTable + LendPartition<Reader = ReaderSeat, Note = Note> + Send,
>(
    rt: &W,
    alloc: Global,
    options: &Options,
    trace: &'a Trace,
    crew: &mut Crew<'a, P>,
    tables: &mut Tables,
) -> Result<Report, NoMemory>
    requires valid { IsValid options.now }
    requires mode { options.now.mode ≡ P.mode }
    requires same { (p : P) → P.state p ≡ P.owner p }
    requires tables { tables.old ≡ [] }
    requires crew { IsCrew options.now.partitions options.now.readers trace.now options.now crew.old }
    ensures ok { IfOk result (λ report. IsReplayed options.now trace.now report tables.new) }
    ensures none { OnErr result (tables.new ≡ []) }
    ensures crew { crew.new ≡ crew.old }
{
    let mut owners = make_owners::<W, P>(rt, alloc, options)?;
    let mut readers = make_readers::<ReaderSeat>(alloc, options)?;
    let report = run_rounds(rt, alloc, options, trace, crew, &mut owners, &mut readers)?;
    keep_all(owners, tables);
    Ok(report)
}

/// The rounds of a trace, with the crew that does their work.
#[derive(Drop)]
struct Rounds<'a, 't, P: Partition + Drop> {
    trace: &'a Trace<'t>,
    crew: Crew<'a, P>,
}

// The report of a trace, with the owners' seats, and the crew, which was told the end, whatever came of the rounds.
fn drive<
    'a,
    't,
    W: Threads + Wait + Sync,
    P: OnTable + LendPartition<Reader = ReaderSeat, Note = Note> + Send,
>(
    rt: &W,
    alloc: Global,
    options: &Options,
    rounds: Rounds<'a, 't, P>,
) -> (Result<Report, NoMemory>, Tables, Crew<'a, P>)
    requires valid { IsValid options.now }
    requires mode { options.now.mode ≡ P.mode }
    requires same { (p : P) → P.state p ≡ P.owner p }
    requires crew { IsCrew options.now.partitions options.now.readers rounds.trace.now options.now rounds.crew }
    ensures ok { IfOk result.0 (λ report. IsReplayed options.now rounds.entry.trace.now report result.1) }
    ensures none { OnErr result.0 (result.1 ≡ []) }
    ensures told { IsDismissed options.now.partitions options.now.readers rounds.entry.trace.now options.now result.2 }
{
    let Rounds { trace, mut crew } = rounds;
    let mut tables = Tables::new();
    let report = run_on(rt, alloc, options, trace, &mut crew, &mut tables);
    crew.end(options, trace);
    (report, tables, crew)
}

// The readers, each in a thread of its own until the end.
fn read_all<W: Threads + Wait + Sync, G: Gate>(
    rt: &W,
    alloc: Global,
    trace: &Trace,
    options: &Options,
    gate: &G,
    readers: &mut Vec<Doer<ReaderWork<ReaderSeat>, ReadTerms>>,
)
    requires valid { IsValid options.now }
    requires desks { All (λ d. d ≡ doer (read_terms trace.now options.now) None) readers.old.items }
{
    let threads = readers.len().max(1);
    for_each_mut(
        rt,
        readers.as_mut_slice(),
        threads,
        &|_, desk|
            requires { IsValid options.now × (desk.now ≡ doer (read_terms trace.now options.now) None) }
        { work_as_reader(rt, alloc, trace, options, gate, desk) },
    );
}

// The owners of one mode, each in a thread of its own until the end. No closure is passed on that names a partition
// by its traits alone, so each mode has a function of its own.
fn own_all_caches<W: Threads + Wait + Sync, G: Gate>(
    rt: &W,
    gate: &G,
    owners: &mut Vec<Doer<OwnerWork<CachePartition<OwnerSeat>>, ()>>,
)
    requires { All (λ d. d ≡ doer tt None) owners.old.items }
{
    let threads = owners.len().max(1);
    for_each_mut(
        rt,
        owners.as_mut_slice(),
        threads,
        &|_, desk|
            requires { desk.now ≡ doer tt None }
        { work_as_owner(rt, gate, desk) },
    );
}

fn own_all_stores<W: Threads + Wait + Sync, G: Gate>(
    rt: &W,
    gate: &G,
    owners: &mut Vec<Doer<OwnerWork<StorePartition<OwnerSeat>>, ()>>,
)
    requires { All (λ d. d ≡ doer tt None) owners.old.items }
{
    let threads = owners.len().max(1);
    for_each_mut(
        rt,
        owners.as_mut_slice(),
        threads,
        &|_, desk|
            requires { desk.now ≡ doer tt None }
        { work_as_owner(rt, gate, desk) },
    );
}

// All hands of a crew.
fn work_in_cache<W: Threads + Wait + Sync, G: Gate>(
    rt: &W,
    alloc: Global,
    trace: &Trace,
    options: &Options,
    gate: &G,
    owners: &mut Vec<Doer<OwnerWork<CachePartition<OwnerSeat>>, ()>>,
    readers: &mut Vec<Doer<ReaderWork<ReaderSeat>, ReadTerms>>,
)
    requires valid { IsValid options.now }
    requires owners { All (λ d. d ≡ doer tt None) owners.old.items }
    requires readers { All (λ d. d ≡ doer (read_terms trace.now options.now) None) readers.old.items }
{
    join_mut(
        rt,
        &mut ||
            requires { IsSync W.row × IsSync G.row × IsValid options.now
                × All (λ d. d ≡ doer (read_terms trace.now options.now) None) readers.now.items }
        { read_all(rt, alloc, trace, options, gate, readers) },
        &mut ||
            requires { IsSync W.row × IsSync G.row × All (λ d. d ≡ doer tt None) owners.now.items }
        { own_all_caches(rt, gate, owners) },
    );
}

fn work_in_store<W: Threads + Wait + Sync, G: Gate>(
    rt: &W,
    alloc: Global,
    trace: &Trace,
    options: &Options,
    gate: &G,
    owners: &mut Vec<Doer<OwnerWork<StorePartition<OwnerSeat>>, ()>>,
    readers: &mut Vec<Doer<ReaderWork<ReaderSeat>, ReadTerms>>,
)
    requires valid { IsValid options.now }
    requires owners { All (λ d. d ≡ doer tt None) owners.old.items }
    requires readers { All (λ d. d ≡ doer (read_terms trace.now options.now) None) readers.old.items }
{
    join_mut(
        rt,
        &mut ||
            requires { IsSync W.row × IsSync G.row × IsValid options.now
                × All (λ d. d ≡ doer (read_terms trace.now options.now) None) readers.now.items }
        { read_all(rt, alloc, trace, options, gate, readers) },
        &mut ||
            requires { IsSync W.row × IsSync G.row × All (λ d. d ≡ doer tt None) owners.now.items }
        { own_all_stores(rt, gate, owners) },
    );
}

fn run_cache<'a, 't, W: Threads + Wait + Sync, G: Gate>(
    rt: &W,
    alloc: Global,
    options: &Options,
    trace: &'a Trace<'t>,
    gate: &G,
    tables: &mut Tables,
) -> Result<Report, NoMemory>
    requires valid { IsValid options.now }
    requires mode { options.now.mode ≡ Cache }
    requires tables { tables.old ≡ [] }
    ensures ok { IfOk result (λ report. IsReplayed options.now trace.now report tables.new) }
    ensures none { OnErr result (tables.new ≡ []) }
{
    let (crew, hands) = make_crew::<CachePartition<OwnerSeat>>(alloc, options, trace)?;
    let rounds = Rounds { trace, crew };
    let Hands {
        mut owners,
        mut readers,
    } = hands;
    let (_, (report, kept, _)) = join(
        rt,
        ||
            requires { IsSync W.row × IsSync G.row × IsValid options.now × All (λ d. d ≡ doer tt None) owners.items
                × All (λ d. d ≡ doer (read_terms trace.now options.now) None) readers.items }
        { work_in_cache(rt, alloc, trace, options, gate, &mut owners, &mut readers) },
        || -> (
            Result<Report, NoMemory>,
            Tables,
            Crew<CachePartition<OwnerSeat>>,
        )
            requires { IsSync W.row × IsValid options.now × (options.now.mode ≡ Cache)
                × IsCrew options.now.partitions options.now.readers rounds.trace.now options.now rounds.crew }
        { drive(rt, alloc, options, rounds) },
    );
    *tables = kept;
    report
}

fn run_store<'a, 't, W: Threads + Wait + Sync, G: Gate>(
    rt: &W,
    alloc: Global,
    options: &Options,
    trace: &'a Trace<'t>,
    gate: &G,
    tables: &mut Tables,
) -> Result<Report, NoMemory>
    requires valid { IsValid options.now }
    requires mode { options.now.mode ≡ Store }
    requires tables { tables.old ≡ [] }
    ensures ok { IfOk result (λ report. IsReplayed options.now trace.now report tables.new) }
    ensures none { OnErr result (tables.new ≡ []) }
{
    let (crew, hands) = make_crew::<StorePartition<OwnerSeat>>(alloc, options, trace)?;
    let rounds = Rounds { trace, crew };
    let Hands {
        mut owners,
        mut readers,
    } = hands;
    let (_, (report, kept, _)) = join(
        rt,
        ||
            requires { IsSync W.row × IsSync G.row × IsValid options.now × All (λ d. d ≡ doer tt None) owners.items
                × All (λ d. d ≡ doer (read_terms trace.now options.now) None) readers.items }
        { work_in_store(rt, alloc, trace, options, gate, &mut owners, &mut readers) },
        || -> (
            Result<Report, NoMemory>,
            Tables,
            Crew<StorePartition<OwnerSeat>>,
        )
            requires { IsSync W.row × IsValid options.now × (options.now.mode ≡ Store)
                × IsCrew options.now.partitions options.now.readers rounds.trace.now options.now rounds.crew }
        { drive(rt, alloc, options, rounds) },
    );
    *tables = kept;
    report
}

/// The report of a trace. In each round each partition has an owner and each reader seats of all partitions, all
/// in threads of their own. The owners' seats are kept, in the order of the partitions.
pub fn run_trace<W: Threads + Wait + Sync, G: Gate>(
    rt: &W,
    alloc: Global,
    options: &Options,
    trace: &Trace,
    gate: &G,
    tables: &mut Tables,
) -> Result<Report, NoMemory>
    requires valid { IsValid options.now }
    requires tables { tables.old ≡ [] }
    ensures ok { IfOk result (λ report. IsReplayed options.now trace.now report tables.new) }
    ensures none { OnErr result (tables.new ≡ []) }
{
    rehearse(rt, alloc, options.readers + options.partitions + 1)?;
    match options.mode {
        Mode::Cache => run_cache(rt, alloc, options, trace, gate, tables),
        Mode::Store => run_store(rt, alloc, options, trace, gate, tables),
    }
}
