//! The two sides of a desk: one hands work over and takes it back, the other does it.
ghost use Rattle.std.specs.Prelude.{◌≡◌, ◌≢◌, Some, None, IfOk, IfSome, IsNone};
ghost use Rattle.work_desk.specs.Desk.{giver, told, doer, dismissed};

use crate::rule::{
    Awaits, DeskRule, DeskSeatView, Ends, GivesBack, Hands, Looks, Opens, Settles, Terms, Work,
};
use atomic_table::{Seat, Table};
use std::alloc::{AllocError, Global};
use std::marker::Model;
use std::sync::{Arc, Wait};

// What the word says.
const IDLE: u64 = 0;

const HANDED: u64 = 1;

const END: u64 = 2;

/// The side that hands work over. Contracts see the terms, and what was handed and not taken back.
#[derive(Drop)]
pub struct Giver<T: Work<S>, S> {
    table: Arc<Table<Option<T>, DeskSeatView<T, S>, (), DeskRule, Global>, Global>,
    seat: Seat<Option<T>, DeskSeatView<T, S>>,
}

impl<T: Work<S>, S> Model for Giver<T, S> {
    ghost use Rattle.std.specs.Prelude.{◌≡◌, true, is_none};
    ghost use Rattle.std.specs.Arc.{arc_value};
    ghost use Rattle.work_desk.specs.declared.rule.DeskSeatView.{DeskSeatView};
    ghost use Rattle.work_desk.specs.declared.rule.Stage.TheVariants.{Gives, Told};
    ghost use Rattle.work_desk.specs.Desk.{has_slot, IsAtDesk, IsSide};

    ghost Value = { DeskSeatView T S };

    ghost view = { λ g. g.seat.me.0 };

    ghost invariant = { λ g. IsAtDesk (arc_value g.table).shared.table_id g.seat.table_id
        × IsSide Gives Told g.seat.me.0 × (has_slot (is_none g.seat.me.0.work) g.seat.me.1 ≡ true) };
}

/// The side that does the work. Contracts see the terms, and what is in hand.
#[derive(Drop)]
pub struct Doer<T: Work<S>, S> {
    table: Arc<Table<Option<T>, DeskSeatView<T, S>, (), DeskRule, Global>, Global>,
    seat: Seat<Option<T>, DeskSeatView<T, S>>,
}

impl<T: Work<S>, S> Model for Doer<T, S> {
    ghost use Rattle.std.specs.Prelude.{◌≡◌, true, is_some};
    ghost use Rattle.std.specs.Arc.{arc_value};
    ghost use Rattle.work_desk.specs.declared.rule.DeskSeatView.{DeskSeatView};
    ghost use Rattle.work_desk.specs.declared.rule.Stage.TheVariants.{Does, Dismissed};
    ghost use Rattle.work_desk.specs.Desk.{has_slot, IsAtDesk, IsSide};

    ghost Value = { DeskSeatView T S };

    ghost view = { λ d. d.seat.me.0 };

    ghost invariant = { λ d. IsAtDesk (arc_value d.table).shared.table_id d.seat.table_id
        × IsSide Does Dismissed d.seat.me.0 × (has_slot (is_some d.seat.me.0.work) d.seat.me.1 ≡ true) };
}

/// A desk with nothing on it, on the terms of J.
pub fn make_desk<J: Terms<S>, S, T: Work<S>>(
    alloc: Global,
) -> Result<(Giver<T, S>, Doer<T, S>), AllocError>
    ensures giver { IfOk result (λ r. r.0 ≡ giver J.terms None) }
    ensures doer { IfOk result (λ r. r.1 ≡ doer J.terms None) }
{
    let (table, mut seat) = Table::<Option<T>, DeskSeatView<T, S>, (), DeskRule, Global>::vacant(
        alloc,
        &[IDLE],
        1,
        &(),
    )?;
    table.shared.load::<Opens>(&mut seat, 0);
    let other = table.shared.split_seat::<Settles<J>>(&mut seat);
    let table = Arc::new(alloc, table)?;
    let same = Arc::try_clone(&table)?;
    Ok((
        Giver { table, seat },
        Doer {
            table: same,
            seat: other,
        },
    ))
}

impl<T: Work<S>, S> Giver<T, S> {
    /// Hands the work over.
    pub fn hand(&mut self, work: T)
        requires free { self.old ≡ giver self.old.terms None }
        requires ready { T.ready self.old.terms work }
        ensures { self.new ≡ giver self.old.terms (Some work) }
    {
        let table = &self.table.shared;
        table.exchange(&mut self.seat, 0, Some(work));
        table.store::<Hands>(&mut self.seat, 0, HANDED);
        table.wake_one(0);
    }

    /// Waits until the work is done, and takes it back.
    pub fn take_back<R: Wait>(&mut self, rt: &R) -> T
        requires { self.old.work ≢ None }
        ensures idle { self.new ≡ giver self.old.terms None }
        ensures done { IfSome self.old.work (λ work. T.done self.old.terms work result) }
    {
        for _ in rt.forever() {
            if self.table.shared.load::<Awaits>(&mut self.seat, 0) == IDLE {
                let Some(work) = self.table.shared.exchange(&mut self.seat, 0, None) else {
                    unreachable!()
                };
                return work;
            }
            self.table.shared.park(rt, 0, HANDED as u32);
        }
        unreachable!()
    }

    /// Tells the other side that there is no more work.
    pub fn end(&mut self)
        requires { self.old ≡ giver self.old.terms None }
        ensures { self.new ≡ told self.old.terms }
    {
        self.table.shared.store::<Ends>(&mut self.seat, 0, END);
        self.table.shared.wake_one(0);
    }
}

impl<T: Work<S>, S> Doer<T, S> {
    /// Waits for work. None comes only where the other side told that there is no more.
    pub fn take<R: Wait>(&mut self, rt: &R) -> Option<T>
        requires { self.old ≡ doer self.old.terms None }
        ensures some { IfSome result (λ work. self.new ≡ doer self.old.terms (Some work)) }
        ensures ready { IfSome result (λ work. T.ready self.old.terms work) }
        ensures none { IsNone result → self.new ≡ dismissed self.old.terms }
    {
        for _ in rt.forever() {
            let found = self.table.shared.load::<Looks>(&mut self.seat, 0);
            if found == HANDED {
                return self.table.shared.exchange(&mut self.seat, 0, None);
            }
            if found == END {
                return None;
            }
            self.table.shared.park(rt, 0, IDLE as u32);
        }
        unreachable!()
    }

    /// Gives the work back.
    pub fn give_back(&mut self, work: T)
        requires taken { self.old.work ≢ None }
        requires done { IfSome self.old.work (λ taken. T.done self.old.terms taken work) }
        ensures { self.new ≡ doer self.old.terms None }
    {
        let table = &self.table.shared;
        table.exchange(&mut self.seat, 0, Some(work));
        table.store::<GivesBack>(&mut self.seat, 0, IDLE);
        table.wake_one(0);
    }
}
