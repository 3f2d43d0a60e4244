//! What may lie under a lock, the rule of a lock, and what each step under it tells.
use atomic_table::{Play, TableRule};

/// What may lie under a lock.
pub trait Numbered: Drop {
    ghost use Rattle.std.specs.Prelude.{ℕ};

    /// Which one it is.
    ghost number: { Self → ℕ };
}

/// What a seat knows: the number of the lock. No value of it is made.
pub struct LockSeatView {
    pub number: u32,
}

/// The rule.
pub struct LockRule;

impl<X: Numbered> TableRule<Option<X>, LockSeatView, u32> for LockRule {
    ghost use Rattle.numbered_lock.specs.Lock.{IsKept, seat_view};

    ghost holds = { IsKept X.number };

    ghost first = { seat_view };
}

// Whoever comes learns the number.
pub(crate) struct Comes;

impl<X> Play<Option<X>, LockSeatView> for Comes {
    ghost use Rattle.numbered_lock.specs.Lock.{comes};

    ghost then = { comes };
}

// Takes what lies there, where the lock is free.
pub(crate) struct Takes;

impl<X: Numbered> Play<Option<X>, LockSeatView> for Takes {
    ghost use Rattle.numbered_lock.specs.Lock.{takes_it};

    ghost then = { takes_it X.number };
}

// Puts it back.
pub(crate) struct GivesBack;

impl<X> Play<Option<X>, LockSeatView> for GivesBack {
    ghost use Rattle.numbered_lock.specs.Lock.{gives_back};

    ghost then = { gives_back };
}
