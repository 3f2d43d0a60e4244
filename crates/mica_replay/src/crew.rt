//! The crew of a trace: each owner and each reader stays in a thread of its own, and the work of each round travels
//! to it and back.
ghost use Rattle.std.specs.Prelude.{◌≡◌, All, IfOk, None, replicate};
ghost use Rattle.partition_model.specs.Options.{IsValid};
ghost use Rattle.work_desk.specs.Desk.{giver, doer, dismissed};
ghost use Rattle.mica_replay.specs.Crew.{read_terms, IsCrew, IsDismissed};

use crate::duties::ReadTerms;
use crate::worker::{OwnerWork, ReaderWork};
use mica_trace::Trace;
use outside::{Gate, NoMemory};
use partition_model::Options;
use partition_table::ReaderSeat;
use partition_words::Partition;
use std::alloc::Global;
use std::marker::{Brand, Model};
use std::sync::Wait;
use std::thread::Threads;
use work_desk::{Doer, Giver, Terms, end_all, make_desks};

/// The desks of all owners and readers, from the side that hands work over. Contracts see what they know.
#[derive(Drop)]
pub struct Crew<'a, P: Partition + Drop> {
    pub owners: Vec<Giver<OwnerWork<'a, P>, ()>>,
    pub readers: Vec<Giver<ReaderWork<ReaderSeat>, ReadTerms>>,
}

impl<'a, P: Partition + Drop> Model for Crew<'a, P> {
    ghost use Rattle.mica_replay.specs.Crew.{Desks};

    ghost Value = { Desks P };

    ghost view = { λ c. record { owners = c.owners.items; readers = c.readers.items } };
}

/// The desks of a crew, from the side that does the work.
#[derive(Drop)]
pub struct Hands<'a, P: Partition + Drop> {
    pub owners: Vec<Doer<OwnerWork<'a, P>, ()>>,
    pub readers: Vec<Doer<ReaderWork<ReaderSeat>, ReadTerms>>,
}

// The desks of the readers, on the terms of the trace and the options. It is told what the pick reads.
fn make_reader_desks<J: Terms<ReadTerms>>(
    alloc: Global,
    options: &Options,
    trace: &Trace,
) -> Result<
    (
        Vec<Giver<ReaderWork<ReaderSeat>, ReadTerms>>,
        Vec<Doer<ReaderWork<ReaderSeat>, ReadTerms>>,
    ),
    NoMemory,
>
    requires { J.terms ≡ read_terms trace.now options.now }
    ensures givers { IfOk result (λ r. r.0.items ≡ replicate options.now.readers (giver (read_terms trace.now options.now) None)) }
    ensures doers { IfOk result (λ r. r.1.items ≡ replicate options.now.readers (doer (read_terms trace.now options.now) None)) }
{
    let _trace = trace;
    let (givers, doers) = make_desks::<J, ReadTerms, ReaderWork<ReaderSeat>>(
        alloc,
        options.readers as usize,
    )?;
    Ok((givers, doers))
}

/// A free desk for each owner and each reader.
pub(crate) fn make_crew<'a, P: Partition + Drop>(
    alloc: Global,
    options: &Options,
    trace: &Trace,
) -> Result<(Crew<'a, P>, Hands<'a, P>), NoMemory>
    ensures crew { IfOk result (λ r. IsCrew options.now.partitions options.now.readers trace.now options.now r.0) }
    ensures owners { IfOk result (λ r. All (λ d. d ≡ doer tt None) r.1.owners.items) }
    ensures readers { IfOk result (λ r. All (λ d. d ≡ doer (read_terms trace.now options.now) None) r.1.readers.items) }
{
    let (reader_givers, reader_doers) = make_reader_desks::<Brand>(alloc, options, trace)?;
    let (givers, doers) = make_desks::<Brand, (), OwnerWork<'a, P>>(
        alloc,
        options.partitions as usize,
    )?;
    Ok((
        Crew {
            owners: givers,
            readers: reader_givers,
        },
        Hands {
            owners: doers,
            readers: reader_doers,
        },
    ))
}

impl<'a, P: Partition + Drop> Crew<'a, P> {
    /// Tells all owners and readers that there is no more work.
    pub(crate) fn end(&mut self, options: &Options, trace: &Trace)
        requires { IsCrew options.now.partitions options.now.readers trace.now options.now self.old }
        ensures { IsDismissed options.now.partitions options.now.readers trace.now options.now self.new }
    {
        let _options = options;
        let _trace = trace;
        end_all(&mut self.owners);
        end_all(&mut self.readers);
    }
}

/// Does an owner's work until the end.
pub(crate) fn work_as_owner<W: Wait, P: Partition + Drop, G: Gate>(
    rt: &W,
    gate: &G,
    desk: &mut Doer<OwnerWork<P>, ()>,
)
    requires { desk.old ≡ doer tt None }
    ensures { desk.new ≡ dismissed tt }
{
    for _ in rt.forever() {
        let Some(work) = desk.take(rt) else {
            return;
        };
        let mut work = work;
        work.run(rt, gate);
        desk.give_back(work);
    }
    unreachable!()
}

/// Does a reader's work until the end.
pub(crate) fn work_as_reader<W: Threads + Wait + Sync, G: Gate>(
    rt: &W,
    alloc: Global,
    trace: &Trace,
    options: &Options,
    gate: &G,
    desk: &mut Doer<ReaderWork<ReaderSeat>, ReadTerms>,
)
    requires valid { IsValid options.now }
    requires desk { desk.old ≡ doer (read_terms trace.now options.now) None }
    ensures { desk.new ≡ dismissed (read_terms trace.now options.now) }
{
    for _ in rt.forever() {
        let Some(work) = desk.take(rt) else {
            return;
        };
        let mut work = work;
        work.run(rt, alloc, trace, options, gate);
        desk.give_back(work);
    }
    unreachable!()
}
