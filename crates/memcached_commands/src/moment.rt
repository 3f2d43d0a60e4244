//! When a command is carried out, and which items are there then.
ghost use Rattle.std.specs.Prelude.{◌≡◌, option_copied};
ghost use Rattle.memcached_commands.specs.Moments.{end_of, ended_by, is_there, found_in};

use memcached_text::{Item, Lifetime, read_item};

/// The last second that an item's end can be.
pub const LAST_SECOND: u32 = u32::MAX;

/// When a command is carried out.
#[derive(Clone, Copy)]
pub struct Moment {
    /// The second, from the beginning of 1970 on.
    pub second: u64,
    /// Items with a unique number below this one were flushed.
    pub flushed: u64,
    /// The unique number that a new value gets, of 62 bits.
    pub unique: u64,
    /// The second of a flush that waits, and 0 where none does.
    pub until: u64,
}

/// The second from which on an item of this lifetime is not there any more, and 0 where it is kept for ever. None where it is
/// to be gone at once.
#[tactic(auto, unfolding(crate::specs::Moments::end_of))]
pub fn end_of(second: u64, lifetime: Lifetime) -> Option<u32>
    ensures { result ≡ end_of second lifetime }
{
    match lifetime {
        Lifetime::Forever => Some(0),
        Lifetime::Over => None,
        Lifetime::For(seconds) => {
            let end = second.saturating_add(u64::from(seconds));
            Some(u32::try_from(end).unwrap_or(LAST_SECOND))
        }
        Lifetime::Until(end) if u64::from(end) <= second => None,
        Lifetime::Until(end) => Some(end),
    }
}

/// The end of an item, and that of a flush that waits at the latest.
pub fn ended_by(until: u64, expires: u32) -> u32
    ensures { result ≡ ended_by until expires }
{
    if until == 0 {
        return expires;
    }
    let last = u32::try_from(until).unwrap_or(LAST_SECOND);
    if expires == 0 {
        last
    } else {
        last.min(expires)
    }
}

/// Whether an item is there.
pub fn is_there(at: &Moment, item: &Item) -> bool
    ensures { result ≡ is_there at.now item.now }
{
    (item.expires == 0 || at.second < u64::from(item.expires)) && at.flushed <= item.unique
}

/// The item that a command finds where this is stored.
pub fn found_in<'a>(at: &Moment, stored: Option<&'a [u8]>) -> Option<Item<'a>>
    ensures { result ≡ found_in at.now (option_copied stored.entry) }
{
    let item = read_item(stored?);
    if is_there(at, &item) {
        Some(item)
    } else {
        None
    }
}
