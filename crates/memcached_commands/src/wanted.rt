//! Whether a command finds what it wants.
ghost use Rattle.std.specs.Prelude.{◌≡◌, option_copied};
ghost use Rattle.memcached_commands.specs.Decide.{has_number, later_than, is_wanted, missed};

use memcached_text::{Item, Reply, Wants};

// Whether an item has the unique number that is asked for, where one is. 0 is nobody's.
pub fn has_number(unique: Option<u64>, item: &Item) -> bool
    ensures { result ≡ has_number unique item.now }
{
    match unique {
        Some(unique) => unique == item.unique && unique > 0,
        None => true,
    }
}

// Whether a store may go on, by what it wants to be there.
pub fn is_wanted(wants: Wants, found: Option<&Item>) -> bool
    ensures { result ≡ is_wanted wants (option_copied found.entry) }
{
    match (wants, found) {
        (Wants::Whatever, _) => true,
        (Wants::Absent, found) => found.is_none(),
        (Wants::Present, found) => found.is_some(),
        (Wants::Numbered(unique), Some(item)) => has_number(Some(unique), item),
        (Wants::AtLeast(unique), Some(item)) => 0 < unique && unique <= item.unique,
        (Wants::Numbered(_) | Wants::AtLeast(_), None) => false,
    }
}

// The later item over which a store is made all the same, if it is.
pub fn later_than<'b, 'a>(wants: Wants, found: Option<&'b Item<'a>>) -> Option<&'b Item<'a>>
    ensures { option_copied result ≡ later_than wants (option_copied found.entry) }
{
    match (wants, found) {
        (Wants::AtLeast(unique), Some(item)) if unique != item.unique => Some(item),
        _ => None,
    }
}

// What is answered to a store that does not.
pub fn missed(wants: Wants, found: Option<&Item>) -> Reply
    ensures { result ≡ missed wants (option_copied found.entry) }
{
    match wants {
        Wants::Numbered(_) | Wants::AtLeast(_) if found.is_some() => Reply::Exists,
        Wants::Numbered(_) | Wants::AtLeast(_) => Reply::NotFound,
        _ => Reply::NotStored,
    }
}
