//! All workers of a server, from their room to the last meeting.
ghost use Rattle.std.specs.Prelude.{◌≡◌, ◌+◌, ◌≤◌, ℕ, IfOk, length, map, slice_get, Some};
ghost use Rattle.partition_model.specs.Options.{IsValid};
ghost use Rattle.partition_words.specs.declared.state.Phase.TheVariants.{Idle};
ghost use Rattle.partition_table.specs.Tabled.{kept_seat_in};
ghost use Rattle.partition_table.specs.declared.reader.Note.{Note};
ghost use Rattle.partition_table.specs.Seats.{note_state, note_home};
ghost use Rattle.server_words.specs.PortOptions.{IsValidPorts};
ghost use Rattle.served.specs.Others.{alone};
ghost use Rattle.served.specs.Served.{empty_origin};
ghost use Rattle.served.specs.Ends.{AreOpen, end_facts};
ghost use Rattle.served.specs.FrontRuns.{RanAll};
ghost use Rattle.mica_serve.specs.Tasks.{IsRoom, IsServer};

use crate::meeting::meet_all;
use crate::opening::open_all;
use crate::worker::{FrontTask, OwnerTask, pair_up, part_fronts, run_workers};
use any_partition::OnTable;
use fronts::{ServeFault, Totals};
use outside::{Datagrams, Gate, NoMemory, rehearse};
use partition_model::Options;
use partition_table::{Note, ReaderSeat};
use partition_words::LendPartition;
use queue_front::{FrontPart, QueueFront};
use server_words::PortOptions;
use std::alloc::Global;
use std::mem;
use std::sync::Wait;
use std::thread::Threads;

/// The room for all workers and for what they come to.
#[derive(Drop)]
pub(crate) struct Room<D> {
    paired: Vec<FrontTask<D>>,
    ends: Vec<D>,
    hands: Vec<Vec<FrontPart>>,
    answers: Vec<Result<Totals, ServeFault>>,
}

impl<D: Drop> Room<D> {
    /// Room for the tasks of so many fronts.
    pub fn new(alloc: Global, fronts: usize) -> Result<Room<D>, NoMemory>
        requires { fronts ≤ 16 }
        ensures { IfOk result (IsRoom fronts) }
    {
        Ok(Room {
            paired: Vec::with_capacity(alloc, fronts)?,
            ends: Vec::with_capacity(alloc, fronts)?,
            hands: Vec::with_capacity(alloc, fronts)?,
            answers: Vec::with_capacity(alloc, fronts)?,
        })
    }
}

/// The owners and the fronts as made, with the room for them to run.
#[derive(Drop)]
pub(crate) struct Server<P, D> {
    owners: Vec<OwnerTask<P>>,
    fronts: Vec<QueueFront>,
    room: Room<D>,
}

impl<P: OnTable + LendPartition<Reader = ReaderSeat, Note = Note>, D: Drop> Server<P, D> {
    /// Whether the workers can have their threads is asked first.
    pub fn open<W: Threads + Wait + Sync>(
        rt: &W,
        alloc: Global,
        options: &Options,
        ports: &PortOptions,
    ) -> Result<Server<P, D>, NoMemory>
        requires valid { IsValid options.now }
        requires mode { options.now.mode ≡ P.mode }
        requires same { (p : P) → P.state p ≡ P.owner p }
        requires ports { IsValidPorts ports.now }
        ensures { IfOk result (IsServer P.owner P.home options.now ports.now) }
    {
        rehearse(rt, alloc, options.partitions + ports.fronts)?;
        let mut fronts = Vec::with_capacity(alloc, ports.fronts as usize)?;
        let owners = open_all(alloc, options, ports, &mut fronts)?;
        let room = Room::new(alloc, fronts.len())?;
        Ok(Server {
            owners,
            fronts,
            room,
        })
    }
}

/// Runs all owners and all fronts side by side, each in a thread of its own, and then the owners take in what the fronts have in hand.
/// Gives the owners and the fronts' answers. It takes no memory.
pub(crate) fn run_all<
    W: Threads + Wait + Sync,
    P: LendPartition<Reader = ReaderSeat, Note = Note> + Drop + Send,
    D: Datagrams + Drop + Send,
    G: Gate,
>(
    rt: &W,
    alloc: Global,
    options: &Options,
    ports: &PortOptions,
    server: Server<P, D>,
    ends: &mut Vec<D>,
    gate: &G,
) -> (Vec<OwnerTask<P>>, Vec<Result<Totals, ServeFault>>)
    requires notes { (n : Note) → (P.noted n ≡ note_state n) × (P.note_home n ≡ note_home n) }
    requires options { IsValid options.now }
    requires ports { IsValidPorts ports.now }
    requires server { IsServer P.owner P.home options.now ports.now server }
    requires open { AreOpen (map (end_facts D.Datagrams) ends.old.items) }
    requires many { length ends.old.items ≡ ports.now.fronts }
    ensures ran { RanAll alone options.now empty_origin ports.now.batches (map (λ task. kept_seat_in (P.owner task.part)) result.0.items) result.1.items
        (map (end_facts D.Datagrams) ends.old.items) (map (end_facts D.Datagrams) ends.new.items) }
    ensures idle { (p : ℕ) (task : OwnerTask P) → slice_get result.0.items p ≡ Some task → (P.owner task.part).phase ≡ Idle }
{
    let Room {
        paired,
        ends: room_of_ends,
        hands,
        answers,
    } = server.room;
    let mut owners = server.owners;
    let mut paired = paired;
    let mut hands = hands;
    let mut answers = answers;
    let ends_before = mem::replace(ends, room_of_ends);
    pair_up(
        alloc,
        server.fronts,
        ends_before,
        options.partitions,
        &mut paired,
    );
    run_workers(rt, alloc, ports.batches, gate, &mut owners, &mut paired);
    part_fronts(paired, ends, &mut hands, &mut answers);
    meet_all(&mut owners, hands);
    (owners, answers)
}
