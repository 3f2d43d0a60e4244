//! Connections in memory, each at its place.
ghost use Rattle.std.specs.Prelude.{◌≡◌, ◌+◌, ◌^◌, ◌<◌, ◌≤◌, true, None, length, take, min, vec_len, vec_capacity, slice_get, IfSome};
ghost use Rattle.std.specs.List.{sum_by};
ghost use Rattle.connections.specs.Connection.{after_change, after_read, after_write, after_ask, after_close};
ghost use Rattle.connections.specs.State.{changed, held, number_at};
ghost use Rattle.memory_connections.specs.MemoryConnection.{need_of, are_below};

use crate::memory_connection::MemConnection;
use connections::Change;

/// Which connection is under a number.
pub fn place_of(all: &[MemConnection<'_>], number: u32) -> Option<usize>
    ensures { result ≡ held number all.now }
{
    all.iter()
        .position(|connection| connection.is_under(number))
}

/// Something happens at the connection of a place, where there is one. Its number is told, or its place where there is none yet.
#[tactic(auto, using(connections::proofs::Places::changed_set, connections::proofs::Places::changed_past, connections::proofs::Places::number_there, connections::proofs::Places::number_past, crate::proofs::Room::window_fits))]
pub fn change_at(all: &mut Vec<MemConnection<'_>>, place: u32, change: &Change) -> u32
    requires small { sum_by need_of all.old.items + change.now.takes < 2 ^ 64 }
    ensures after { all.new.items ≡ changed place (after_change change.now) all.old.items }
    ensures number { result ≡ number_at place all.old.items }
    ensures len { vec_len all.new ≡ vec_len all.old }
    ensures capacity { vec_capacity all.new ≡ vec_capacity all.old }
{
    let at = place as usize;
    if at >= all.len() {
        return place;
    }
    let number = all[at].number();
    all[at].change(change);
    number
}

/// Takes what waits at a place, up to so many bytes.
pub fn take_at<'a>(all: &mut Vec<MemConnection<'a>>, place: usize, most: usize) -> &'a [u8]
    requires there { place < length all.old.items }
    requires small { sum_by need_of all.old.items < 2 ^ 32 }
    ensures given { IfSome (slice_get all.old.items place)
        (λ c. result.now ≡ take (min (length c.waiting) most) c.waiting) }
    ensures count { IfSome (slice_get all.old.items place)
        (λ c. length result.now ≡ min (length c.waiting) most) }
    ensures after { all.new.items ≡ changed place (after_read (length result.now)) all.old.items }
    ensures len { vec_len all.new ≡ vec_len all.old }
    ensures capacity { vec_capacity all.new ≡ vec_capacity all.old }
{
    all[place].take(most)
}

/// A write took so many bytes for the connection of a place.
pub fn narrow_at(all: &mut Vec<MemConnection<'_>>, place: usize, count: usize)
    requires there { place < length all.old.items }
    requires within { IfSome (slice_get all.old.items place) (λ c. count ≤ c.window) }
    ensures after { all.new.items ≡ changed place (after_write count) all.old.items }
    ensures len { vec_len all.new ≡ vec_len all.old }
    ensures capacity { vec_capacity all.new ≡ vec_capacity all.old }
{
    all[place].narrow(count);
}

/// The connection of a place is asked for once more.
pub fn ask_at(all: &mut Vec<MemConnection<'_>>, place: usize)
    requires there { place < length all.old.items }
    requires some { IfSome (slice_get all.old.items place) (λ c. 0 < c.asks) }
    ensures after { all.new.items ≡ changed place after_ask all.old.items }
    ensures len { vec_len all.new ≡ vec_len all.old }
    ensures capacity { vec_capacity all.new ≡ vec_capacity all.old }
{
    all[place].ask();
}

/// The connection of a place is closed here.
pub fn close_at(all: &mut Vec<MemConnection<'_>>, place: usize)
    requires there { place < length all.old.items }
    ensures after { all.new.items ≡ changed place after_close all.old.items }
    ensures len { vec_len all.new ≡ vec_len all.old }
    ensures capacity { vec_capacity all.new ≡ vec_capacity all.old }
{
    all[place].close();
}

/// The lowest number that is free.
#[tactic(auto, using(crate::proofs::Numbers::above_all))]
pub fn free_number(all: &[MemConnection<'_>]) -> u32
    requires below { are_below (length all.now) all.now ≡ true }
    requires few { length all.now < 4294967296 }
    ensures free { held result all.now ≡ None }
    ensures low { result ≤ length all.now }
{
    let count = all.len() as u32;
    for number in 0..count {
        if place_of(all, number).is_none() {
            return number;
        }
    }
    count
}
