//! The steps at the ends of any queue: each waits on, whatever the channel answers.
ghost use Rattle.std.specs.Prelude.{◌≡◌, ◌<◌, ◌≤◌, ◌++◌, [], ◌∷◌, ℕ, true, false, IfOk, slice_get, Some, vec_len};
ghost use Rattle.crossbeam_channel.specs.Claims.{IsSeatAt};
ghost use Rattle.crossbeam_channel.specs.Ends.{sends_on, receives_on};
ghost use Rattle.ruled_queue.specs.Delivery.{from_sender, sender, receiver};
ghost use Rattle.ruled_queue.specs.Ends.{known};

use crate::rule::{InOrder, PassView, Queued, Sends, Takes};
use crossbeam_channel::{Pass, RuledReceiver, RuledSender};
use std::sync::Wait;
use std::thread;

/// How many messages may wait in a queue.
pub const CAPACITY: usize = 64;

/// Puts a message at the back. An end that has to wait gives its core to others so many times before it sleeps.
pub fn put<S, T: Queued<S>, R: Wait>(
    rt: &R,
    yields: u32,
    end: &RuledSender<T, PassView<T, S>, InOrder>,
    pass: &mut Pass<T, PassView<T, S>>,
    message: T,
)
    requires seat { IsSeatAt (sends_on end.now) pass.old }
    requires view { known pass.old ≡ sender (known pass.old).number (known pass.old).terms (known pass.old).sent }
    requires own { T.sender message ≡ (known pass.old).number }
    requires order { T.follows (known pass.old).terms (known pass.old).sent message }
    ensures seat { IsSeatAt (sends_on end.now) pass.new }
    ensures view { known pass.new ≡ sender (known pass.old).number (known pass.old).terms ((known pass.old).sent ++ message ∷ []) }
{
    let mut message = message;
    for _yielded in 0..yields {
        match end.try_send_as::<Sends, R>(rt, pass, message) {
            Ok(()) => return,
            Err(error) => message = error.into_inner(),
        }
        thread::yield_now();
    }
    for _ in rt.forever() {
        match end.send_as::<Sends, R>(rt, pass, message) {
            Ok(()) => return,
            Err(error) => message = error.into_inner(),
        }
    }
    unreachable!()
}

/// Takes the front. An end that has to wait gives its core to others so many times before it sleeps.
pub fn take<S, T: Queued<S>, R: Wait>(
    rt: &R,
    yields: u32,
    end: &RuledReceiver<T, PassView<T, S>, InOrder>,
    pass: &mut Pass<T, PassView<T, S>>,
) -> T
    requires seat { IsSeatAt (receives_on end.now) pass.old }
    requires view { ((known pass.old).takes ≡ true) × ((known pass.old).sends ≡ false) }
    ensures seat { IsSeatAt (receives_on end.now) pass.new }
    ensures view { known pass.new ≡ receiver (known pass.old).number (known pass.old).terms ((known pass.old).taken ++ result ∷ []) }
    ensures sender { T.sender result < (known pass.old).number }
    ensures order { T.follows (known pass.old).terms (from_sender T.sender (T.sender result) (known pass.old).taken) result }
{
    for _yielded in 0..yields {
        if let Ok(message) = end.try_recv_as::<Takes, R>(rt, pass) {
            return message;
        }
        thread::yield_now();
    }
    for _ in rt.forever() {
        if let Ok(message) = end.recv_as::<Takes, R>(rt, pass) {
            return message;
        }
    }
    unreachable!()
}
