//! The rule of a queue, and what each step under it tells.
ghost use Rattle.std.specs.Prelude.{ℕ, List};

use crossbeam_channel::protocol::{Join, Lesson, Outcome, Protocol, Split};
use std::collections::LinkedList;
use std::marker::PhantomData;

/// What goes through a queue whose ends agreed on terms.
pub trait Queued<S>: Drop {
    /// The number of the sender.
    ghost sender: { Self → ℕ };

    /// What may stand behind what its sender sent before.
    ghost follows: { S → List Self → Self → Type 0 };

    /// The terms before any sender is made.
    ghost unset: { S };
}

/// What a pass knows. A sender knows its number and what it sent; the receiver how many senders there are, what
/// it took, and of one sender that was taken in what that one sent. No value of it is made.
pub struct PassView<T, S> {
    pub sends: bool,
    pub takes: bool,
    pub number: u64,
    pub terms: S,
    pub taken: LinkedList<T>,
    pub sent: LinkedList<T>,
    pub hears: bool,
    pub heard: u64,
}

/// What holds of a queue: each sender's messages arrive once and in its order.
pub struct InOrder;

impl<S, T: Queued<S>> Protocol<T, PassView<T, S>> for InOrder {
    ghost use Rattle.ruled_queue.specs.Delivery.{Delivers, newborn};

    ghost holds = { Delivers T.sender T.follows };

    ghost first = { newborn T.unset };
}

/// The terms of a queue through which T goes. Whoever makes it picks them.
pub trait Terms<T, S> {
    ghost terms: { S };
}

// A new sender is cut from the receiver.
pub struct NewSender<J>(PhantomData<J>);

impl<T, S, J: Terms<T, S>> Split<PassView<T, S>> for NewSender<J> {
    ghost use Rattle.ruled_queue.specs.Delivery.{with_sender, new_sender};

    ghost left = { λ v. with_sender J.terms v };

    ghost right = { λ v. new_sender J.terms v };
}

// A sender is taken in by the receiver.
pub struct TakenIn;

impl<S, T: Queued<S>> Join<PassView<T, S>> for TakenIn {
    ghost use Rattle.ruled_queue.specs.Delivery.{told_by, nobody};

    ghost both = { told_by };

    ghost spent = { nobody T.unset };
}

/// What a sender knows once its message is in the queue.
pub struct Sends;

impl<T, S> Outcome<T, PassView<T, S>> for Sends {
    ghost use Rattle.ruled_queue.specs.Delivery.{HasSent};

    ghost then = { HasSent };
}

impl<T, S> Lesson<T, PassView<T, S>> for Sends {
    ghost use Rattle.std.specs.Prelude.{⊤};

    ghost fact = { λ v items. ⊤ };
}

/// What the receiver knows once it took a message.
pub struct Takes;

impl<S, T: Queued<S>> Outcome<T, PassView<T, S>> for Takes {
    ghost use Rattle.ruled_queue.specs.Delivery.{HasTaken};

    ghost then = { HasTaken T.sender T.follows };
}

impl<T, S> Lesson<T, PassView<T, S>> for Takes {
    ghost use Rattle.std.specs.Prelude.{⊤};

    ghost fact = { λ v items. ⊤ };
}

// What was taken of the sender that was taken in, and then what waits of it, is what it sent.
pub struct Whole;

impl<S, T: Queued<S>> Lesson<T, PassView<T, S>> for Whole {
    ghost use Rattle.ruled_queue.specs.Delivery.{IsWhole};

    ghost fact = { IsWhole T.sender T.follows };
}
