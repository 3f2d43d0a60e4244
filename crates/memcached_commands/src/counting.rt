//! Values that are numbers, and counting with them.
ghost use Rattle.std.specs.Prelude.{◌≡◌, ◌≤◌, length};
ghost use Rattle.memcached_commands.specs.Counting.{after_digits, may_end, number_in, counted};

use memcached_text::{Direction, number_of};

// What stands behind the digits that a value begins with.
fn after_digits(value: &[u8]) -> &[u8]
    ensures rest { result.now ≡ after_digits value.now }
    ensures fits { length result.now ≤ length value.now }
{
    let mut rest = value;
    while let Some((byte, after)) = rest.split_first() {
        if !byte.is_ascii_digit() {
            return rest;
        }
        rest = after;
    }
    rest
}

// Whether a number may end before these bytes.
fn may_end(rest: &[u8]) -> bool
    ensures { result ≡ may_end rest.now }
{
    match rest {
        [] => true,
        [byte, ..] => *byte == b' ' || (9 <= *byte && *byte <= 13) || *byte == 0,
    }
}

/// The number of a value, of 64 bits: its digits, up to the first byte that ends a number.
#[tactic(auto, unfolding(crate::specs::Counting::number_in), using(crate::proofs::CountLaws::digits_before))]
pub fn number_in(value: &[u8]) -> Option<u64>
    ensures { result ≡ number_in value.now }
{
    let rest = after_digits(value);
    if !may_end(rest) {
        return None;
    }
    number_of(u64::MAX, &value[..value.len() - rest.len()])
}

/// A number that is counted by this much.
pub fn counted(direction: Direction, delta: u64, number: u64) -> u64
    ensures { result ≡ counted direction delta number }
{
    match direction {
        Direction::Up => number.wrapping_add(delta),
        Direction::Down => number.saturating_sub(delta),
    }
}
