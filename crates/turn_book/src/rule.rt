//! What a seat at a book knows, and the rule of a book.
use atomic_table::{Join, Play, Split, TableRule};
use std::collections::LinkedList;
use std::marker::PhantomData;

/// What was entered, and by whom. No value of it is made.
pub struct Entry<T> {
    pub taker: u64,
    pub what: T,
}

/// What a seat knows. The book's knows the entries, how many takers there are, and of one that was taken in what that one
/// entered; a taker's knows its number and what it entered. No value of it is made.
pub struct BookSeatView<T> {
    pub keeps: bool,
    pub takes: bool,
    pub number: u64,
    pub entries: LinkedList<Entry<T>>,
    pub mine: LinkedList<T>,
    pub hears: bool,
    pub heard: u64,
}

/// The rule.
pub struct BookRule;

impl<T> TableRule<(), BookSeatView<T>, ()> for BookRule {
    ghost use Rattle.turn_book.specs.Rule.{AreKept, new_book};

    ghost holds = { λ _. AreKept };

    ghost first = { λ _. new_book };
}

/// What is entered. Whoever enters it picks it.
pub trait Entered<T> {
    ghost what: { T };
}

// One taker more.
pub(crate) struct Enrolls;

impl<T> Split<BookSeatView<T>> for Enrolls {
    ghost use Rattle.turn_book.specs.Rule.{with_taker, new_taker};

    ghost left = { with_taker };

    ghost right = { new_taker };
}

// A taker is taken in.
pub(crate) struct Hears;

impl<T> Join<BookSeatView<T>> for Hears {
    ghost use Rattle.turn_book.specs.Rule.{heard_from, nobody};

    ghost both = { heard_from };

    ghost spent = { nobody };
}

// The taker that was taken in is let go, with one entry more.
pub(crate) struct Enters<K>(PhantomData<K>);

impl<T, K: Entered<T>> Split<BookSeatView<T>> for Enters<K> {
    ghost use Rattle.turn_book.specs.Rule.{after_entry, taker_after};

    ghost left = { after_entry K.what };

    ghost right = { taker_after K.what };
}

// What the book learns of the taker that was taken in.
pub(crate) struct Learns;

impl<T> Play<(), BookSeatView<T>> for Learns {
    ghost use Rattle.turn_book.specs.Rule.{learns};

    ghost then = { learns };
}
