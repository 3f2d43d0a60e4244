//! Items that are not there any more give their room back.
ghost use Rattle.std.specs.Prelude.{◌≡◌, ◌+◌, ◌≤◌, length, map};
ghost use Rattle.partition_model.specs.Options.{IsPossible};
ghost use Rattle.partition_table.specs.Seats.{note_state, note_home};
ghost use Rattle.locked_front.specs.Owned.{NotesAre};
ghost use Rattle.locked_server.specs.Opening.{ArePlanned, filled_view};

use crate::changes::{SMALL, front_of};
use any_partition::OnTable;
use command_answers::{Noted, Numbering, Sweeper, sweep};
use fronts::{Front, Glances};
use locked_front::ServerPlan;
use locked_server::{FilledPart, lend_hand, lock_parts, open_parts};
use mica_words::{key_fits, stored_fits};
use partition_model::{Answer, ItemBuf, Op, Options, Outcome};
use partition_table::{Note, OwnerSeat, ReaderSeat};
use partition_words::HearPartition;
use std::marker::Brand;
use std::process::Abort;
use std::sync::Wait;
use std::sync::atomic::AtomicBool;
use std::test::Fail;
use std::thread::Threads;
use store_partition::StorePartition;

/// What is stored of an item that is kept for ever.
const FOREVER: [u8; 16] = [0; 16];

/// What is stored of an item with 4,000 bytes that is kept for ever.
static LONG: [u8; 4_016] = [0; 4_016];

// Puts a value, and says what came of it, and the stamp after it.
fn put<R: Abort + AllocGlobal, F: Front>(
    rt: &R,
    front: &mut F,
    key: &[u8],
    value: &[u8],
) -> Result<(Outcome, u64), Fail>
    requires left { 1 ≤ F.left front.old }
    ensures left { F.left front.old ≤ F.left front.new + 1 }
    ensures options { F.options front.new ≡ F.options front.old }
{
    assert!(rt; key_fits(key) && stored_fits(value));
    Ok(front.write(rt.alloc(), Op::Put, key, value)?)
}

// Sweeps all places several times, at a second.
fn sweep_all<R: Abort + AllocGlobal, F: Glances>(
    rt: &R,
    front: &mut F,
    second: u64,
) -> Result<(), Fail>
    requires left { 6400 ≤ F.left front.old }
    requires partitions { (F.options front.old).partitions ≡ 1 }
    ensures left { F.left front.old ≤ F.left front.new + 6400 }
    ensures options { F.options front.new ≡ F.options front.old }
{
    let mut sweeper = Sweeper::new(rt.alloc(), 1)?;
    let mut noted = Noted::new();
    let numbering = Numbering {
        partitions: 1,
        base: 0,
    };
    for _ in 0..100u32 {
        sweep(front, second, numbering, 64, &mut noted, &mut sweeper);
    }
    Ok(())
}

// Ten items of 55 words that end at the fifth second and one of 5 words leave 469 of 1,024 words. The long one takes 505.
fn what_is_over_goes<R: Abort + AllocGlobal, F: Glances>(rt: &R, front: &mut F) -> Result<(), Fail>
    requires left { 20000 ≤ F.left front.old }
    requires partitions { (F.options front.old).partitions ≡ 1 }
{
    let mut ending = [0u8; 416];
    ending[4] = 5;
    for i in 0..10u8 {
        assert!(rt; put(rt, front, &[b'0' + i], &ending)?.0 == Outcome::Stored);
    }
    assert!(rt; put(rt, front, b"kept", &FOREVER)?.0 == Outcome::Stored);
    sweep_all(rt, front, 4)?;
    assert!(rt; put(rt, front, b"long", &LONG)?.0 == Outcome::FullBlock);
    sweep_all(rt, front, 5)?;
    assert!(rt; put(rt, front, b"long", &LONG)?.0 == Outcome::Stored);
    let mut out = ItemBuf::new(rt.alloc())?;
    assert!(rt; key_fits(b"kept") && key_fits(b"9"));
    let (kept, _) = front.read(b"kept", &mut out);
    let (over, _) = front.read(b"9", &mut out);
    assert!(rt; kept == Answer::Hit && over == Answer::Miss);
    Ok(())
}

// One front before one partition.
fn sweep_by_one<
    J: ServerPlan + Send + Sync,
    W: Abort + AllocGlobal + Threads + Wait + Sync,
    P: OnTable + HearPartition<Reader = ReaderSeat, Note = Note> + Drop + Send,
>(rt: &W, options: &Options, parts: Vec<FilledPart<P>>) -> Result<(), Fail>
    requires notes { NotesAre P.noted P.note_home note_state note_home }
    requires valid { IsPossible options.now }
    requires one { options.now.partitions ≡ 1 }
    requires named { options.now ≡ J.plan.options }
    requires takers { J.plan.fronts ≡ 1 }
    requires of { ArePlanned J.plan 0 (map (λ f. filled_view P.owner P.home f) parts.items) }
{
    let alloc = rt.alloc();
    let mut parts = parts;
    let hand = lend_hand::<J, P>(alloc, &mut parts, 0)?;
    let locks = lock_parts::<J, P>(alloc, options, parts)?;
    let ended = AtomicBool::new(false);
    let mut front = front_of(rt, options, &locks, 0, hand, &ended);
    what_is_over_goes(rt, &mut front)
}

// Opens one empty partition of the options.
fn open_and_sweep<P: OnTable + HearPartition<Reader = ReaderSeat, Note = Note> + Drop + Send>(
    rt: &(impl Abort + AllocGlobal + Threads + Wait + Sync),
    options: &Options,
) -> Result<(), Fail>
    requires notes { NotesAre P.noted P.note_home note_state note_home }
    requires same { (p : P) → P.state p ≡ P.owner p }
    requires mode { options.now.mode ≡ P.mode }
    requires one { options.now.partitions ≡ 1 }
{
    assert!(rt; options.is_possible());
    let opened = open_parts::<_, P>(rt, rt.alloc(), options, &[]);
    assert!(rt; opened.is_ok());
    if let Ok(parts) = opened {
        sweep_by_one::<Brand, _, P>(rt, options, parts)?;
    }
    Ok(())
}

#[test]
fn what_is_over_gives_its_room_back(rt: HostRuntime) -> Result<(), Fail> {
    open_and_sweep::<StorePartition<OwnerSeat>>(&rt, &SMALL)
}
