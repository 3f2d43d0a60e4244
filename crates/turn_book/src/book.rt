//! The book, and the token of each who takes turns.
ghost use Rattle.std.specs.Prelude.{◌≡◌, ◌+◌, ◌≤◌, ◌++◌, ◌∷◌, [], ℕ, IfOk};
ghost use Rattle.turn_book.specs.Entries.{book_view, taker_view, entries_by, entry};

use crate::rule::{BookRule, BookSeatView, Enrolls, Entered, Enters, Hears, Learns};
use atomic_table::{Badge, Seat, Table};
use std::alloc::{AllocError, Global};
use std::marker::Model;
use std::mem;

/// The book. Contracts see which one it is, how many takers it has, and what they entered.
#[derive(Drop)]
pub struct TurnBook<T> {
    table: Table<(), BookSeatView<T>, (), BookRule, Global>,
    seat: Seat<(), BookSeatView<T>>,
}

impl<T> Model for TurnBook<T> {
    ghost use Rattle.std.specs.Prelude.{◌≡◌, []};
    ghost use Rattle.turn_book.specs.Entries.{BookView, book_view};
    ghost use Rattle.turn_book.specs.Rule.{keeper};

    ghost Value = { BookView T };

    ghost view = { λ b. book_view b.seat.table_id b.seat.me.0.number b.seat.me.0.entries };

    ghost invariant = { λ b. (b.seat.table_id ≡ b.table.shared.table_id) × (b.table.shared.table_id.words ≡ 1)
        × (b.seat.me ≡ (keeper b.seat.me.0.number b.seat.me.0.entries, [])) };
}

/// The token of a taker, which has no bytes. Contracts see the book that it is of, its number and what it entered.
#[derive(Drop)]
pub struct Taker<T> {
    badge: Badge<BookSeatView<T>>,
}

impl<T> Model for Taker<T> {
    ghost use Rattle.std.specs.Prelude.{◌≡◌, ◌∷◌, []};
    ghost use Rattle.turn_book.specs.Entries.{TakerView, taker_view};
    ghost use Rattle.turn_book.specs.Rule.{taker, view_of_badge};

    ghost Value = { TakerView T };

    ghost view = { λ t. taker_view t.badge.table_id (view_of_badge t.badge.views).number (view_of_badge t.badge.views).mine };

    ghost invariant = { λ t. t.badge.views ≡ taker (view_of_badge t.badge.views).number (view_of_badge t.badge.views).mine ∷ [] };
}

impl<T> TurnBook<T> {
    /// A book with no taker.
    pub fn new(alloc: Global) -> Result<TurnBook<T>, AllocError>
        ensures { IfOk result (λ b. b ≡ book_view b.table 0 []) }
    {
        let (table, seat) = Table::<(), BookSeatView<T>, (), BookRule, Global>::of_words(
            alloc,
            &[0],
            &(),
        )?;
        Ok(TurnBook { table, seat })
    }

    /// One taker more, which has entered nothing.
    pub fn enroll(&mut self) -> Taker<T>
        ensures book { self.new ≡ book_view self.old.table (self.old.takers + 1) self.old.entries }
        ensures taker { result ≡ taker_view self.old.table self.old.takers [] }
    {
        let table = &self.table;
        let seat = table.shared.split_seat::<Enrolls>(&mut self.seat);
        Taker {
            badge: seat.into_badge(),
        }
    }

    /// Enters what K says, by the taker. It takes no memory, and loads twice.
    pub fn enter<K: Entered<T>>(&mut self, taker: &mut Taker<T>)
        requires own { taker.old.table ≡ self.old.table }
        ensures book { self.new ≡ book_view self.old.table self.old.takers (self.old.entries ++ entry taker.old.number K.what ∷ []) }
        ensures taker { taker.new ≡ taker_view taker.old.table taker.old.number (taker.old.mine ++ K.what ∷ []) }
    {
        let seat = mem::replace(&mut taker.badge, Badge::blank()).into_seat();
        let table = &self.table;
        table.shared.join_seat::<Hears>(&mut self.seat, seat);
        let seat = table.shared.split_seat::<Enters<K>>(&mut self.seat);
        taker.badge = seat.into_badge();
    }

    /// The taker's entries are all that the book has of it, and the book has none of takers that there are not.
    pub fn take_in(&mut self, taker: Taker<T>)
        requires own { taker.table ≡ self.old.table }
        ensures same { self.new ≡ self.old }
        ensures own { entries_by taker.number self.old.entries ≡ taker.mine }
        ensures no_others { (number : ℕ) → self.old.takers ≤ number → entries_by number self.old.entries ≡ [] }
    {
        let seat = taker.badge.into_seat();
        let table = &self.table;
        table.shared.join_seat::<Hears>(&mut self.seat, seat);
        table.shared.load::<Learns>(&mut self.seat, 0);
    }
}
