//! Looks at a value that may need no hold, by two fronts that own one partition in turn.
ghost use Rattle.std.specs.Prelude.{◌≡◌, ◌+◌, ◌<◌, ◌≤◌, map};
ghost use Rattle.partition_model.specs.Options.{IsPossible};
ghost use Rattle.partition_table.specs.Seats.{note_state, note_home};
ghost use Rattle.locked_front.specs.Owned.{NotesAre};
ghost use Rattle.locked_front.specs.Parts.{turns_left};
ghost use Rattle.locked_server.specs.Opening.{ArePlanned, filled_view};

use crate::changes::{KEY, Room, SMALL, TIMES, count_in, count_up, front_of};
use any_partition::OnTable;
use cache_partition::CachePartition;
use fronts::{Changes, Decide, Front, When};
use locked_front::{PartitionLock, ServerPlan};
use locked_server::{FilledPart, lend_hand, lock_parts, open_parts};
use mica_words::{Hashing, key_fits, stored_fits};
use partition_model::{Answer, Change, ItemBuf, Mode, Op, Options};
use partition_table::{Note, OwnerSeat, ReaderSeat};
use partition_words::HearPartition;
use std::marker::Brand;
use std::process::Abort;
use std::sync::Wait;
use std::sync::atomic::AtomicBool;
use std::test::Fail;
use std::thread::{Threads, join};
use store_partition::StorePartition;

/// The key is in bucket 13 of 16.
const SPREAD: Options = Options {
    buckets: 16,
    hashing: Hashing::SipHash(0, 0),
    ..SMALL
};

/// A mark of partition 0.
const FLUSH: &[u8] = &[0; 255];

/// One byte too short for a mark.
const NO_FLUSH: &[u8] = &[0; 254];

/// A key in bucket 0 of 16.
const FIRST: &[u8] = b"5";

/// Leaves what it finds.
#[derive(Clone, Copy)]
struct Reads;

impl Decide for Reads {
    ghost use Rattle.std.specs.Prelude.{true};
    ghost use Rattle.fronts.specs.Changing.{stays};

    ghost becoming = { λ _ _ _. stays };

    ghost needs = { λ _. true };

    fn looks(&self) -> bool {
        true
    }

    fn only_gets(&self) -> bool {
        true
    }

    fn decide(&self, _when: When, _found: Option<&[u8]>, _next: &mut ItemBuf) -> Change {
        Change::Stay
    }
}

// What a look finds, and how many writes had been flushed then.
fn expect_look<R: Abort, F: Changes>(
    rt: &R,
    front: &mut F,
    room: &mut Room,
    wanted: Option<&[u8]>,
    flushed: u64,
)
    requires { 0 < F.left front.old }
    ensures { F.left front.old ≤ F.left front.new }
{
    assert!(rt; key_fits(KEY));
    let looked = front.change(7, KEY, &Reads, &mut room.found, &mut room.next);
    assert!(rt; looked.outcome.is_none());
    assert!(rt; looked.when.flushed == flushed);
    match wanted {
        Some(value) => {
            assert!(rt; looked.found == Some(Answer::Hit) && room.found.value() == value)
        }
        None => assert!(rt; looked.found == Some(Answer::Miss)),
    }
}

// A put or a delete of a key.
fn write_one<R: Abort + AllocGlobal, F: Changes>(
    rt: &R,
    front: &mut F,
    op: Op,
    key: &[u8],
    value: &[u8],
) -> Result<(), Fail>
    requires { 0 < F.left front.old }
    ensures { F.left front.old ≤ F.left front.new + 1 }
{
    assert!(rt;
        key_fits(key) && stored_fits(value) && (op == Op::Put || op == Op::Del && value.is_empty())
    );
    front.write(rt.alloc(), op, key, value)?;
    Ok(())
}

// Each front looks behind its own writes and behind the other's.
fn look_in_turn<R: Abort + AllocGlobal, F: Changes>(
    rt: &R,
    one: &mut F,
    two: &mut F,
    room: &mut Room,
) -> Result<(), Fail>
    requires one { 10 ≤ F.left one.old }
    requires two { 10 ≤ F.left two.old }
    ensures one { F.left one.old ≤ F.left one.new + 10 }
    ensures two { F.left two.old ≤ F.left two.new + 10 }
{
    expect_look(rt, one, room, None, 0);
    write_one(rt, one, Op::Put, KEY, b"one")?;
    expect_look(rt, one, room, Some(b"one"), 0);
    expect_look(rt, two, room, Some(b"one"), 0);
    write_one(rt, two, Op::Put, KEY, b"two")?;
    expect_look(rt, one, room, Some(b"two"), 0);
    write_one(rt, one, Op::Del, NO_FLUSH, b"")?;
    expect_look(rt, two, room, Some(b"two"), 0);
    write_one(rt, one, Op::Del, FLUSH, b"")?;
    expect_look(rt, one, room, Some(b"two"), 4);
    expect_look(rt, two, room, Some(b"two"), 4);
    write_one(rt, two, Op::Put, FIRST, b"")?;
    expect_look(rt, one, room, Some(b"two"), 4);
    write_one(rt, two, Op::Del, KEY, b"")?;
    expect_look(rt, two, room, None, 4);
    expect_look(rt, one, room, None, 4);
    Ok(())
}

// Looks while the lock is held: a look that waited for it would wait for ever.
fn look_while_held<
    R: Abort + Wait,
    J: ServerPlan,
    P: HearPartition<Reader = ReaderSeat, Note = Note> + Drop,
    F: Changes,
>(rt: &R, lock: &PartitionLock<J, P>, front: &mut F, room: &mut Room)
    requires { 0 < F.left front.old }
    ensures { F.left front.old ≤ F.left front.new }
{
    let held = lock.hold(rt);
    expect_look(rt, front, room, Some(b"held"), 4);
    lock.let_go(held);
}

// One front looks at what the other wrote, while the lock is held.
fn look_beside<
    R: Abort + AllocGlobal + Wait,
    J: ServerPlan,
    P: HearPartition<Reader = ReaderSeat, Note = Note> + Drop,
    F: Changes,
>(rt: &R, lock: &PartitionLock<J, P>, one: &mut F, two: &mut F, room: &mut Room) -> Result<(), Fail>
    requires one { 0 < F.left one.old }
    requires two { 2 ≤ F.left two.old }
    ensures one { F.left one.old ≤ F.left one.new }
    ensures two { F.left two.old ≤ F.left two.new + 2 }
{
    write_one(rt, two, Op::Put, KEY, b"held")?;
    look_while_held(rt, lock, one, room);
    write_one(rt, two, Op::Del, KEY, b"")
}

// Looks while another counts up: the count never falls.
fn look_often<F: Changes + Drop>(front: F, room: Room) -> bool
    requires { TIMES ≤ F.left front }
{
    let mut front = front;
    let mut room = room;
    let mut last = 0;
    if !key_fits(KEY) {
        return false;
    }
    for _ in 0..TIMES {
        let looked = front.change(0, KEY, &Reads, &mut room.found, &mut room.next);
        if looked.outcome.is_some() {
            return false;
        }
        let count = match looked.found {
            Some(Answer::Hit) => count_in(Some(room.found.value())),
            _ => 0,
        };
        if count < last {
            return false;
        }
        last = count;
    }
    true
}

// Two fronts before one partition.
fn look_by_two<
    J: ServerPlan + Send + Sync,
    W: Abort + AllocGlobal + Threads + Wait + Sync,
    P: OnTable + HearPartition<Reader = ReaderSeat, Note = Note> + Drop + Send,
>(rt: &W, options: &Options, parts: Vec<FilledPart<P>>) -> Result<(), Fail>
    requires notes { NotesAre P.noted P.note_home note_state note_home }
    requires valid { IsPossible options.now }
    requires named { options.now ≡ J.plan.options }
    requires takers { J.plan.fronts ≡ 2 }
    requires of { ArePlanned J.plan 0 (map (λ f. filled_view P.owner P.home f) parts.items) }
{
    let alloc = rt.alloc();
    let mut parts = parts;
    let first = lend_hand::<J, P>(alloc, &mut parts, 0)?;
    let second = lend_hand::<J, P>(alloc, &mut parts, 1)?;
    let locks = lock_parts::<J, P>(alloc, options, parts)?;
    let lock = locks.of(0);
    let ended = AtomicBool::new(false);
    let mut first = front_of(rt, options, &locks, 0, first, &ended);
    let mut second = front_of(rt, options, &locks, 1, second, &ended);
    let (one, mut two) = (Room::new(alloc)?, Room::new(alloc)?);
    look_in_turn(rt, &mut first, &mut second, &mut two)?;
    look_beside(rt, lock, &mut first, &mut second, &mut two)?;
    let (_, rose) = join(
        rt,
        move ||
            requires { TIMES ≤ turns_left first.parts }
        { count_up(first, one) },
        move ||
            requires { TIMES ≤ turns_left second.parts }
        { look_often(second, two) },
    );
    assert!(rt; rose);
    Ok(())
}

// Opens one empty partition of the options.
fn open_and_look<P: OnTable + HearPartition<Reader = ReaderSeat, Note = Note> + Drop + Send>(
    rt: &(impl Abort + AllocGlobal + Threads + Wait + Sync),
    options: &Options,
) -> Result<(), Fail>
    requires notes { NotesAre P.noted P.note_home note_state note_home }
    requires same { (p : P) → P.state p ≡ P.owner p }
    requires mode { options.now.mode ≡ P.mode }
{
    assert!(rt; options.is_possible());
    let opened = open_parts::<_, P>(rt, rt.alloc(), options, &[]);
    assert!(rt; opened.is_ok());
    if let Ok(parts) = opened {
        look_by_two::<Brand, _, P>(rt, options, parts)?;
    }
    Ok(())
}

#[test]
fn looks_in_store_mode(rt: HostRuntime) -> Result<(), Fail> {
    open_and_look::<StorePartition<OwnerSeat>>(&rt, &SPREAD)
}

#[test]
fn looks_in_cache_mode(rt: HostRuntime) -> Result<(), Fail> {
    let options = Options {
        mode: Mode::Cache,
        words: 4_096,
        ..SPREAD
    };
    open_and_look::<CachePartition<OwnerSeat>>(&rt, &options)
}
