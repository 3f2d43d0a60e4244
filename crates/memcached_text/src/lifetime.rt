//! How long an item is to be kept, and when a flush is due.
ghost use Rattle.std.specs.Prelude.{◌≡◌};
ghost use Rattle.memcached_text.specs.Lifetimes.{lifetime_at, lifetime_of, due_of};

use crate::number::number_of;

/// How long an item is to be kept.
#[derive(Clone, Copy)]
pub enum Lifetime {
    Forever,
    /// No longer: it is to be gone at once.
    Over,
    /// So many seconds from now on.
    For(u32),
    /// Until this second, from the beginning of 1970 on.
    Until(u32),
}

/// When a flush takes place.
#[derive(Clone, Copy)]
pub enum Due {
    Now,
    /// So many seconds from now on.
    After(u32),
    /// At this second, from the beginning of 1970 on.
    At(u32),
}

/// The most seconds that are counted from now on: thirty days. A greater number is a time of day.
pub const MAX_SECONDS: u32 = 2_592_000;

/// The last second that a word can say, in 2038. A greater number of 32 bits is one below 0: clients in C write -1 so.
pub const LAST_SAID: u32 = 2_147_483_647;

/// The greatest number that is read as an expiry time. Its last 32 bits count.
pub const MOST_ABOVE: u64 = 9_223_372_036_854_775_807;

/// The lowest number that is read as an expiry time, without its sign.
pub const MOST_BELOW: u64 = 9_223_372_036_854_775_808;

/// How many numbers of 32 bits there are.
const EXPIRIES: u64 = 4_294_967_296;

/// The lifetime that a number of seconds names: never, from now on, a time of day, or none at all.
pub fn lifetime_at(number: u32) -> Lifetime
    ensures { result ≡ lifetime_at number }
{
    if number == 0 {
        Lifetime::Forever
    } else if number <= MAX_SECONDS {
        Lifetime::For(number)
    } else if number <= LAST_SAID {
        Lifetime::Until(number)
    } else {
        Lifetime::Over
    }
}

// The lifetime that a word says. None where it is no number of 64 bits with a sign.
#[tactic(auto, unfolding(crate::specs::Lifetimes::lifetime_of))]
pub fn lifetime_of(word: &[u8]) -> Option<Lifetime>
    ensures { result ≡ lifetime_of word.now }
{
    if let [b'-', digits @ ..] = word {
        return Some(if number_of(MOST_BELOW, digits)? == 0 {
            Lifetime::Forever
        } else {
            Lifetime::Over
        });
    }
    let number = number_of(MOST_ABOVE, word)?;
    Some(lifetime_at((number % EXPIRIES) as u32))
}

// A flush that is given a lifetime takes place at its end, or at once where it has none.
pub fn due_of(lifetime: Lifetime) -> Due
    ensures { result ≡ due_of lifetime }
{
    match lifetime {
        Lifetime::Forever | Lifetime::Over => Due::Now,
        Lifetime::For(seconds) => Due::After(seconds),
        Lifetime::Until(second) => Due::At(second),
    }
}
