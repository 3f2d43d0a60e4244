//! Changes of a value under one hold, by two fronts that own one partition in turn.
ghost use Rattle.std.specs.Prelude.{◌≡◌, ◌+◌, ◌*◌, ◌<◌, ◌≤◌, length, map, true, option_copied};
ghost use Rattle.mica_words.specs.Item.{StoredFits};
ghost use Rattle.partition_model.specs.Options.{IsPossible};
ghost use Rattle.partition_table.specs.Seats.{note_state, note_home};
ghost use Rattle.locked_front.specs.Owned.{NotesAre};
ghost use Rattle.locked_front.specs.Parts.{turns_left, most_turns};
ghost use Rattle.locked_server.specs.Opening.{ArePlanned, AreNewParts, filled_view};
ghost use Rattle.core_tests.specs.Decisions.{count_in as count_of, two_bytes as bytes_of};

use crate::change_rows::{DISPLACED, ROWS, Row};
use any_partition::OnTable;
use cache_partition::CachePartition;
use fronts::{Changes, Decide, Front, When};
use locked_front::{LockedFront, LockedPart, PartitionLocks, ServerPlan};
use locked_server::{FilledPart, lend_hand, lock_parts, open_parts};
use mica_words::{Hashing, key_fits, stored_fits};
use partition_model::{Answer, Change, ItemBuf, Mode, Op, Options, Outcome};
use partition_table::{Note, OwnerSeat, ReaderSeat};
use partition_words::HearPartition;
use std::alloc::Global;
use std::marker::Brand;
use std::process::Abort;
use std::sync::Wait;
use std::sync::atomic::AtomicBool;
use std::test::Fail;
use std::thread::{Threads, join};
use store_partition::StorePartition;

pub(crate) const KEY: &[u8] = b"k";

/// How often each of two threads counts.
pub(crate) const TIMES: u32 = 10_000;

/// What becomes of any value.
#[derive(Drop)]
struct Fixed<'a> {
    change: Change,
    value: &'a [u8],
    ghost fits: { StoredFits value.now },
}

impl<'a> Decide for Fixed<'a> {
    ghost use Rattle.std.specs.Prelude.{false};
    ghost use Rattle.core_tests.specs.Decisions.{fixed};

    ghost becoming = { λ d _ _. fixed d.change d.value.now };

    ghost needs = { λ _. false };

    fn looks(&self) -> bool {
        false
    }

    fn decide(&self, _when: When, _found: Option<&[u8]>, next: &mut ItemBuf) -> Change {
        match self.change {
            Change::Stay => Change::Stay,
            Change::Become => {
                next.set(self.value);
                Change::Become
            }
            Change::Go => Change::Go,
        }
    }
}

/// A count of one more.
#[derive(Clone, Copy)]
pub(crate) struct CountUp;

impl Decide for CountUp {
    ghost use Rattle.std.specs.Prelude.{true};
    ghost use Rattle.core_tests.specs.Decisions.{counted};

    ghost becoming = { λ _ _ found. counted found };

    ghost needs = { λ _. true };

    fn looks(&self) -> bool {
        true
    }

    fn decide(&self, _when: When, found: Option<&[u8]>, next: &mut ItemBuf) -> Change {
        next.set(&two_bytes(count_in(found) + 1));
        Change::Become
    }
}

// The count in a value.
pub(crate) fn count_in(value: Option<&[u8]>) -> u32
    ensures count { result ≡ count_of (option_copied value.entry) }
    ensures small { result ≤ 65535 }
{
    match value {
        Some(bytes) => {
            if bytes.len() == 2 {
                u32::from(bytes[0]) + 256 * u32::from(bytes[1])
            } else {
                0
            }
        }
        None => 0,
    }
}

fn two_bytes(count: u32) -> [u8; 2]
    ensures { result ≡ bytes_of count }
{
    [(count % 256) as u8, (count / 256 % 256) as u8]
}

/// A value that takes a fourth of the log with its key, and a little more.
static LONG: [u8; 8_192] = [b'x'; 8_192];

// What the key has.
pub(crate) fn expect_value<R: Abort, F: Front>(
    rt: &R,
    front: &mut F,
    out: &mut ItemBuf,
    wanted: Option<&[u8]>,
)
    ensures { F.left front.new ≡ F.left front.old }
{
    assert!(rt; key_fits(KEY));
    let (answer, _) = front.read(KEY, out);
    match wanted {
        Some(value) => assert!(rt; answer == Answer::Hit && out.value() == value),
        None => assert!(rt; answer == Answer::Miss),
    }
}

// Puts a long value at each of the keys.
fn put_long<R: Abort + AllocGlobal, F: Changes>(
    rt: &R,
    front: &mut F,
    keys: &[&[u8]],
) -> Result<(), Fail>
    requires { length keys.now ≤ F.left front.old }
    ensures { F.left front.old ≤ F.left front.new + length keys.now }
{
    for i in 0..keys.len() {
        assert!(rt; key_fits(keys[i]) && stored_fits(&LONG));
        front.write(rt.alloc(), Op::Put, keys[i], &LONG)?;
    }
    Ok(())
}

// One row, by a front.
fn expect_row<R: Abort + AllocGlobal, F: Changes>(
    rt: &R,
    front: &mut F,
    row: &Row<'_>,
) -> Result<(), Fail>
    requires { 8 ≤ F.left front.old }
    ensures { F.left front.old ≤ F.left front.new + 8 }
{
    assert!(rt; key_fits(KEY) && stored_fits(row.value) && row.later.len() <= 6);
    let alloc = rt.alloc();
    let mut found = ItemBuf::new(alloc)?;
    let mut next = ItemBuf::new(alloc)?;
    match row.before {
        Some(value) => {
            assert!(rt; stored_fits(value));
            front.write(alloc, Op::Put, KEY, value)?;
        }
        None => {
            front.write(alloc, Op::Del, KEY, b"")?;
        }
    }
    put_long(rt, front, row.later)?;
    let decide = Fixed {
        change: row.change,
        value: row.value,
    };
    let changed = front.change(7, KEY, &decide, &mut found, &mut next);
    assert!(rt; changed.outcome == row.outcome && changed.when.second == 7);
    expect_value(rt, front, &mut found, row.after);
    Ok(())
}

// All rows, by a front.
fn expect_rows<R: Abort + AllocGlobal, F: Changes>(
    rt: &R,
    front: &mut F,
    rows: &[Row<'_>],
) -> Result<(), Fail>
    requires { 8 * length rows.now ≤ F.left front.old }
    ensures { F.left front.old ≤ F.left front.new + 8 * length rows.now }
{
    for i in 0..rows.len() {
        expect_row(rt, front, &rows[i])?;
    }
    Ok(())
}

/// The room of a thread that counts.
#[derive(Drop)]
pub(crate) struct Room {
    pub found: ItemBuf,
    pub next: ItemBuf,
}

impl Room {
    pub fn new(alloc: Global) -> Result<Room, Fail> {
        Ok(Room {
            found: ItemBuf::new(alloc)?,
            next: ItemBuf::new(alloc)?,
        })
    }
}

/// Counts the key up, and gives the front back.
pub(crate) fn count_up<F: Changes + Drop>(front: F, room: Room) -> F
    requires { TIMES ≤ F.left front }
{
    let mut front = front;
    let mut room = room;
    if !key_fits(KEY) {
        return front;
    }
    for _ in 0..TIMES {
        front.change(0, KEY, &CountUp, &mut room.found, &mut room.next);
    }
    front
}

// A front that has taken no turn.
pub(crate) fn front_of<
    'a,
    J: ServerPlan,
    P: HearPartition<Reader = ReaderSeat, Note = Note> + Drop,
    R: Wait,
>(
    rt: &'a R,
    options: &Options,
    locks: &'a PartitionLocks<J, P>,
    number: u32,
    hand: Vec<LockedPart>,
    ended: &'a AtomicBool,
) -> LockedFront<'a, J, P, R>
    requires valid { IsPossible options.now }
    requires named { options.now ≡ J.plan.options }
    requires low { number < J.plan.fronts }
    requires locks { locks.now ≡ options.now.partitions }
    requires hand { AreNewParts J.plan number hand.items }
    ensures { turns_left result.parts ≡ most_turns }
{
    LockedFront::new(rt, options, locks, number, hand, ended)
}

// Two fronts before one partition: the rows by the first, and then both count.
fn change_by_two<
    J: ServerPlan + Send + Sync,
    W: Abort + AllocGlobal + Threads + Wait + Sync,
    P: OnTable + HearPartition<Reader = ReaderSeat, Note = Note> + Drop + Send,
>(rt: &W, options: &Options, rows: &[Row<'_>], parts: Vec<FilledPart<P>>) -> Result<(), Fail>
    requires notes { NotesAre P.noted P.note_home note_state note_home }
    requires valid { IsPossible options.now }
    requires named { options.now ≡ J.plan.options }
    requires takers { J.plan.fronts ≡ 2 }
    requires of { ArePlanned J.plan 0 (map (λ f. filled_view P.owner P.home f) parts.items) }
    requires rows { length rows.now ≤ 100 }
{
    let alloc = rt.alloc();
    let mut parts = parts;
    let first = lend_hand::<J, P>(alloc, &mut parts, 0)?;
    let second = lend_hand::<J, P>(alloc, &mut parts, 1)?;
    let locks = lock_parts::<J, P>(alloc, options, parts)?;
    let ended = AtomicBool::new(false);
    let mut first = front_of(rt, options, &locks, 0, first, &ended);
    let second = front_of(rt, options, &locks, 1, second, &ended);
    expect_rows(rt, &mut first, rows)?;
    let (one, two) = (Room::new(alloc)?, Room::new(alloc)?);
    let (mut first, _) = join(
        rt,
        move ||
            requires { TIMES ≤ turns_left first.parts }
        { count_up(first, one) },
        move ||
            requires { TIMES ≤ turns_left second.parts }
        { count_up(second, two) },
    );
    // 20,000 is 78 times 256, and 32.
    expect_value(rt, &mut first, &mut ItemBuf::new(alloc)?, Some(&[32, 78]));
    Ok(())
}

// Opens one empty partition of the options.
fn open_and_change<P: OnTable + HearPartition<Reader = ReaderSeat, Note = Note> + Drop + Send>(
    rt: &(impl Abort + AllocGlobal + Threads + Wait + Sync),
    options: &Options,
    rows: &[Row<'_>],
) -> Result<(), Fail>
    requires notes { NotesAre P.noted P.note_home note_state note_home }
    requires same { (p : P) → P.state p ≡ P.owner p }
    requires mode { options.now.mode ≡ P.mode }
    requires rows { length rows.now ≤ 100 }
{
    assert!(rt; options.is_possible());
    let opened = open_parts::<_, P>(rt, rt.alloc(), options, &[]);
    assert!(rt; opened.is_ok());
    if let Ok(parts) = opened {
        change_by_two::<Brand, _, P>(rt, options, rows, parts)?;
    }
    Ok(())
}

/// One small partition in store mode.
pub(crate) const SMALL: Options = Options {
    mode: Mode::Store,
    partitions: 1,
    buckets: 1,
    spares: 1,
    words: 1_024,
    readers: 2,
    tries: 100,
    wear: 1_000_000,
    hashing: Hashing::Fnv1a,
};

#[test]
fn changes_in_store_mode(rt: HostRuntime) -> Result<(), Fail> {
    open_and_change::<StorePartition<OwnerSeat>>(&rt, &SMALL, &ROWS)
}

#[test]
fn changes_in_cache_mode(rt: HostRuntime) -> Result<(), Fail> {
    let options = Options {
        mode: Mode::Cache,
        words: 4_096,
        ..SMALL
    };
    open_and_change::<CachePartition<OwnerSeat>>(&rt, &options, &ROWS)
}

#[test]
fn a_displaced_value_is_not_found(rt: HostRuntime) -> Result<(), Fail> {
    let options = Options {
        mode: Mode::Cache,
        words: 4_096,
        ..SMALL
    };
    open_and_change::<CachePartition<OwnerSeat>>(&rt, &options, &DISPLACED)
}

// 8,192 bytes and a key of one take 1,027 words, more than there are, so what the key had stays.
#[test]
fn a_change_without_room_leaves_the_value(rt: HostRuntime) -> Result<(), Fail> {
    let rows = [Row {
        before: Some(b"one"),
        later: &[],
        change: Change::Become,
        value: &LONG,
        outcome: Some(Outcome::FullBlock),
        after: Some(b"one"),
    }];
    open_and_change::<StorePartition<OwnerSeat>>(&rt, &SMALL, &rows)
}
