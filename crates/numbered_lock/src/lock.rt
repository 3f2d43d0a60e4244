//! The lock, and what is held of it.
ghost use Rattle.std.specs.Prelude.{◌≡◌, ◌<◌, true, false, [], IfOk};
ghost use Rattle.numbered_lock.specs.Lock.{IsHeld, lock_view, seat_view};

use crate::rule::{Comes, GivesBack, LockRule, LockSeatView, Numbered, Takes};
use atomic_table::{Refused, Seat, Shared, Table};
use std::alloc::{AllocError, Global};
use std::marker::Model;
use std::sync::Wait;
use std::sync::atomic::{AtomicU64, Ordering};

// What the first word says. It is 2 where a thread may sleep.
const FREE: u64 = 0;

const HELD: u64 = 1;

const AWAITED: u64 = 2;

// The other words keep the locks of different numbers out of one line of a processor's cache.
const WORDS: [u64; 8] = [FREE, 0, 0, 0, 0, 0, 0, 0];

/// How often a lock that is held is tried before the thread waits for it.
const TRIES: u32 = 20;

/// How many steps of its own a thread takes between two tries. They take one or two microseconds.
const STEPS: u32 = 200;

// Lets time pass. A processor's pause would be shorter than what a lock is held for.
fn idle() {
    let steps = AtomicU64::new(0);
    for _ in 0..STEPS {
        steps.fetch_add(1, Ordering::SeqCst);
    }
}

/// A lock with a number. Contracts see which lock it is, and its number.
#[derive(Drop)]
pub struct NumberedLock<X: Numbered> {
    table: Table<Option<X>, LockSeatView, u32, LockRule, Global>,
}

impl<X: Numbered> Model for NumberedLock<X> {
    ghost use Rattle.std.specs.Prelude.{◌≡◌};
    ghost use Rattle.numbered_lock.specs.Lock.{LockView, lock_view};

    ghost Value = { LockView };

    ghost view = { λ l. lock_view l.table.shared.table_id l.table.shared.key };

    ghost invariant = { λ l. (l.table.shared.table_id.words ≡ 8) × (l.table.shared.table_id.slots ≡ 1) };
}

/// What is held of a lock. It can't be dropped: it is given back to the lock.
pub struct Held<X: Numbered> {
    pub seat: Seat<Option<X>, LockSeatView>,
}

// Tries it a few times, and says whether it is held then.
fn try_often<X: Numbered>(
    shared: &Shared<Option<X>, LockSeatView, u32, LockRule>,
    seat: &mut Seat<Option<X>, LockSeatView>,
) -> bool
    requires words { 0 < shared.now.table_id.words }
    requires table { seat.old.table_id ≡ shared.now.table_id }
    requires me { seat.old.me ≡ (seat_view shared.now.key, []) }
    ensures table { seat.new.table_id ≡ seat.old.table_id }
    ensures held { result ≡ true → IsHeld X.number (lock_view shared.now.table_id shared.now.key) seat.new.table_id seat.new.me }
    ensures same { result ≡ false → seat.new.me ≡ seat.old.me }
{
    for _ in 0..TRIES {
        if shared.compare_exchange::<Takes>(seat, 0, FREE, HELD) == FREE {
            return true;
        }
        idle();
    }
    false
}

// Sleeps until it is let go, and holds it.
fn wait<X: Numbered, R: Wait>(
    rt: &R,
    shared: &Shared<Option<X>, LockSeatView, u32, LockRule>,
    seat: &mut Seat<Option<X>, LockSeatView>,
)
    requires words { 0 < shared.now.table_id.words }
    requires table { seat.old.table_id ≡ shared.now.table_id }
    requires me { seat.old.me ≡ (seat_view shared.now.key, []) }
    ensures { IsHeld X.number (lock_view shared.now.table_id shared.now.key) seat.new.table_id seat.new.me }
{
    for _ in rt.forever() {
        if shared.swap::<Takes>(seat, 0, AWAITED) == FREE {
            return;
        }
        shared.park(rt, 0, AWAITED as u32);
    }
    unreachable!()
}

impl<X: Numbered> NumberedLock<X> {
    /// Puts it under a lock.
    pub fn new(alloc: Global, number: u32, value: X) -> Result<NumberedLock<X>, AllocError>
        requires { X.number value ≡ number }
        ensures { IfOk result (λ lock. lock.number ≡ number) }
    {
        let mut slots = Vec::with_capacity(alloc, 1)?;
        slots.push_reserved(Some(value));
        match Table::<Option<X>, LockSeatView, u32, LockRule, Global>::new(
            alloc,
            WORDS.as_slice(),
            slots,
            &number,
        ) {
            Ok((table, _)) => Ok(NumberedLock { table }),
            Err(Refused { slots: _ }) => Err(AllocError),
        }
    }

    /// The words and the place of what lies under it, for `slot_mut` at place 0.
    pub fn shared(&self) -> &Shared<Option<X>, LockSeatView, u32, LockRule>
        ensures { result.now.table_id ≡ self.now.table }
    {
        &self.table.shared
    }

    /// Waits for it. Where it is held it is tried again a few times, each time a little later, before the thread sleeps. Meanwhile the one who holds it goes on with
    /// the words that it has at hand, and need not wake anybody.
    pub fn hold<R: Wait>(&self, rt: &R) -> Held<X>
        ensures { IsHeld X.number self.now result.seat.table_id result.seat.me }
    {
        let shared = &self.table.shared;
        let (_, mut seat) = shared.load_new_seat::<Comes>(0);
        if try_often(shared, &mut seat) {
            return Held { seat };
        }
        wait(rt, shared, &mut seat);
        Held { seat }
    }

    /// Lets it go, with what lies under it now.
    pub fn let_go(&self, held: Held<X>)
        requires { IsHeld X.number self.now held.seat.table_id held.seat.me }
    {
        let Held { mut seat } = held;
        let shared = &self.table.shared;
        if shared.swap::<GivesBack>(&mut seat, 0, FREE) == AWAITED {
            shared.wake_one(0);
        }
    }

    /// Waits for it, and takes away what lies under it.
    pub fn into_inner<R: Wait>(self, rt: &R) -> X
        ensures { X.number result ≡ self.number }
    {
        let Held { mut seat } = self.hold(rt);
        let Some(value) = self.table.shared.exchange(&mut seat, 0, None) else {
            unreachable!()
        };
        value
    }
}
