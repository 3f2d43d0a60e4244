//! The rule of a desk, and what each step under it tells.
use atomic_table::{Play, Split, TableRule};
use std::marker::{Brand, PhantomData};

/// What travels over a desk, on terms that its two sides agreed on.
pub trait Work<S>: Drop {
    /// What may be handed.
    ghost ready: { S → Self → Type 0 };

    /// What may come back for what was handed.
    ghost done: { S → Self → Self → Type 0 };

    /// The terms before there are any.
    ghost unset: { S };
}

/// Whose view it is.
pub enum Stage {
    /// Of the one seat of a new desk, whose slot is at home.
    New,
    /// Of the one seat, which has taken the slot.
    Open,
    /// Of who hands work over.
    Gives,
    /// Of who handed work over, and has told that there is no more.
    Told,
    /// Of who does the work.
    Does,
    /// Of who did the work, and has found that there is no more.
    Dismissed,
}

/// What a seat knows: what it handed and has not taken back, or what it has in hand. No value of it is made.
pub struct DeskSeatView<T, S> {
    pub stage: Stage,
    pub terms: S,
    pub work: Option<T>,
}

/// The terms of a desk. Whoever makes it picks them.
pub trait Terms<S> {
    ghost terms: { S };
}

impl Terms<()> for Brand {
    ghost terms = { tt };
}

/// What holds of a desk: a worker gets exactly the work that was handed to it.
pub struct DeskRule;

impl<S, T: Work<S>> TableRule<Option<T>, DeskSeatView<T, S>, ()> for DeskRule {
    ghost use Rattle.work_desk.specs.Desk.{IsLawful, new};

    ghost holds = { λ _. IsLawful T.unset T.ready T.done };

    ghost first = { λ _. new T.unset };
}

// The two sides of a desk.
pub struct Settles<J>(PhantomData<J>);

impl<T, S, J: Terms<S>> Split<DeskSeatView<T, S>> for Settles<J> {
    ghost use Rattle.std.specs.Prelude.{None};
    ghost use Rattle.work_desk.specs.Desk.{giver, doer};

    ghost left = { λ _. giver J.terms None };

    ghost right = { λ _. doer J.terms None };
}

pub(crate) struct Opens;

impl<T, S> Play<Option<T>, DeskSeatView<T, S>> for Opens {
    ghost use Rattle.work_desk.specs.Plays.{opens};

    ghost then = { opens };
}

pub(crate) struct Hands;

impl<T, S> Play<Option<T>, DeskSeatView<T, S>> for Hands {
    ghost use Rattle.work_desk.specs.Plays.{hands};

    ghost then = { hands };
}

pub(crate) struct Looks;

impl<S, T: Work<S>> Play<Option<T>, DeskSeatView<T, S>> for Looks {
    ghost use Rattle.work_desk.specs.Plays.{looks};

    ghost then = { looks T.ready };
}

pub(crate) struct GivesBack;

impl<T, S> Play<Option<T>, DeskSeatView<T, S>> for GivesBack {
    ghost use Rattle.work_desk.specs.Plays.{gives_back};

    ghost then = { gives_back };
}

pub(crate) struct Awaits;

impl<S, T: Work<S>> Play<Option<T>, DeskSeatView<T, S>> for Awaits {
    ghost use Rattle.work_desk.specs.Plays.{awaits};

    ghost then = { awaits T.done };
}

pub(crate) struct Ends;

impl<T, S> Play<Option<T>, DeskSeatView<T, S>> for Ends {
    ghost use Rattle.work_desk.specs.Plays.{ends};

    ghost then = { ends };
}
