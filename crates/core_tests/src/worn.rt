//! A front tells that its partition bears no more writes, whichever write finds it so.
ghost use Rattle.std.specs.Prelude.{◌≡◌, ◌+◌, ◌<◌, ◌≤◌, map};
ghost use Rattle.partition_model.specs.Options.{IsPossible};
ghost use Rattle.partition_table.specs.Seats.{note_state, note_home};
ghost use Rattle.locked_front.specs.Owned.{NotesAre};
ghost use Rattle.locked_server.specs.Opening.{ArePlanned, filled_view};

use crate::changes::{CountUp, KEY, Room, SMALL, expect_value, front_of};
use any_partition::OnTable;
use cache_partition::CachePartition;
use fronts::{Changes, Front};
use locked_front::ServerPlan;
use locked_server::{FilledPart, lend_hand, lock_parts, open_parts};
use mica_words::{key_fits, stored_fits};
use partition_model::{Mode, Op, Options, Outcome};
use partition_table::{Note, OwnerSeat, ReaderSeat};
use partition_words::HearPartition;
use std::marker::Brand;
use std::process::Abort;
use std::sync::Wait;
use std::sync::atomic::{AtomicBool, Ordering};
use std::test::Fail;
use std::thread::Threads;
use store_partition::StorePartition;

/// The calls by which a front writes.
#[derive(Clone, Copy)]
enum Call {
    Write,
    Change,
    Delete,
    Touch,
}

static CALLS: [Call; 4] = [Call::Write, Call::Change, Call::Delete, Call::Touch];

// What comes of one write by this call.
fn write_by<R: Abort + AllocGlobal, F: Changes>(
    rt: &R,
    front: &mut F,
    call: Call,
) -> Result<Option<Outcome>, Fail>
    requires { 0 < F.left front.old }
    ensures { F.left front.old ≤ F.left front.new + 1 }
{
    assert!(rt; key_fits(KEY) && stored_fits(b"1"));
    let alloc = rt.alloc();
    match call {
        Call::Write => Ok(Some(front.write(alloc, Op::Put, KEY, b"1")?.0)),
        Call::Change => {
            let mut room = Room::new(alloc)?;
            let changed = front.change(0, KEY, &CountUp, &mut room.found, &mut room.next);
            Ok(changed.outcome)
        }
        Call::Delete => Ok(Some(front.delete(KEY).0)),
        Call::Touch => Ok(Some(front.touch(KEY).0)),
    }
}

// One front before one partition, which bears one write. A get tells nothing, and leaves what there is.
fn wear_by_one<
    J: ServerPlan + Send + Sync,
    W: Abort + AllocGlobal + Threads + Wait + Sync,
    P: OnTable + HearPartition<Reader = ReaderSeat, Note = Note> + Drop + Send,
>(rt: &W, options: &Options, call: Call, parts: Vec<FilledPart<P>>) -> Result<(), Fail>
    requires notes { NotesAre P.noted P.note_home note_state note_home }
    requires valid { IsPossible options.now }
    requires named { options.now ≡ J.plan.options }
    requires takers { J.plan.fronts ≡ 1 }
    requires of { ArePlanned J.plan 0 (map (λ f. filled_view P.owner P.home f) parts.items) }
{
    let alloc = rt.alloc();
    let mut parts = parts;
    let ended = AtomicBool::new(false);
    let hand = lend_hand::<J, P>(alloc, &mut parts, 0)?;
    let locks = lock_parts::<J, P>(alloc, options, parts)?;
    let mut front = front_of(rt, options, &locks, 0, hand, &ended);
    let mut room = Room::new(alloc)?;
    let first = write_by(rt, &mut front, Call::Write)?;
    expect_value(rt, &mut front, &mut room.found, Some(b"1"));
    assert!(rt; first == Some(Outcome::Stored) && !ended.load(Ordering::Relaxed));
    let second = write_by(rt, &mut front, call)?;
    assert!(rt; second == Some(Outcome::Worn) && ended.load(Ordering::Relaxed));
    expect_value(rt, &mut front, &mut room.found, Some(b"1"));
    Ok(())
}

// Opens one empty partition of the options.
fn open_and_wear<P: OnTable + HearPartition<Reader = ReaderSeat, Note = Note> + Drop + Send>(
    rt: &(impl Abort + AllocGlobal + Threads + Wait + Sync),
    options: &Options,
    call: Call,
) -> Result<(), Fail>
    requires notes { NotesAre P.noted P.note_home note_state note_home }
    requires same { (p : P) → P.state p ≡ P.owner p }
    requires mode { options.now.mode ≡ P.mode }
{
    assert!(rt; options.is_possible());
    let opened = open_parts::<_, P>(rt, rt.alloc(), options, &[]);
    assert!(rt; opened.is_ok());
    if let Ok(parts) = opened {
        wear_by_one::<Brand, _, P>(rt, options, call, parts)?;
    }
    Ok(())
}

const STORE: Options = Options { wear: 1, ..SMALL };

#[test]
fn a_worn_store_is_told(rt: HostRuntime) -> Result<(), Fail> {
    for call in &CALLS {
        open_and_wear::<StorePartition<OwnerSeat>>(&rt, &STORE, *call)?;
    }
    Ok(())
}

#[test]
fn a_worn_cache_is_told(rt: HostRuntime) -> Result<(), Fail> {
    let options = Options {
        mode: Mode::Cache,
        ..STORE
    };
    for call in &CALLS {
        open_and_wear::<CachePartition<OwnerSeat>>(&rt, &options, *call)?;
    }
    Ok(())
}
