//! How long an item is to be kept, as a flag says it.
ghost use Rattle.std.specs.Prelude.{◌≡◌};
ghost use Rattle.memcached_text.specs.Lifetimes.{lifetime_at, lifetime_of};

use memcached_text::{Lifetime, number_of};

const MAX_SECONDS: u32 = 2_592_000;

const LAST_SAID: u32 = 2_147_483_647;

const MOST_ABOVE: u64 = 9_223_372_036_854_775_807;

const MOST_BELOW: u64 = 9_223_372_036_854_775_808;

const EXPIRIES: u64 = 4_294_967_296;

fn lifetime_at(number: u32) -> Lifetime
    ensures { result ≡ lifetime_at number }
{
    if number == 0 {
        Lifetime::Forever
    } else if number <= MAX_SECONDS {
        Lifetime::For(number)
    } else if number <= LAST_SAID {
        Lifetime::Until(number)
    } else {
        Lifetime::Over
    }
}

// The lifetime that a word says, as memcached_text reads it.
#[tactic(auto, unfolding(memcached_text::specs::Lifetimes::lifetime_of))]
pub fn lifetime_of(word: &[u8]) -> Option<Lifetime>
    ensures { result ≡ lifetime_of word.now }
{
    if let [b'-', digits @ ..] = word {
        return Some(if number_of(MOST_BELOW, digits)? == 0 {
            Lifetime::Forever
        } else {
            Lifetime::Over
        });
    }
    let number = number_of(MOST_ABOVE, word)?;
    Some(lifetime_at((number % EXPIRIES) as u32))
}
