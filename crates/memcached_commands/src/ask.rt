//! What a command asks of one key, and what is answered.

use memcached_text::{Direction, Fault, Item, Lifetime, Reply, Side, Text, Wants};

/// What is asked of a key beside its item by a get that may lead to a newer one.
#[derive(Clone, Copy)]
pub struct Lease {
    /// For how long the item is kept from now on.
    pub touch: Option<Lifetime>,
    /// For how long one with no value is kept, where none is there.
    pub vivify: Option<Lifetime>,
    /// A newer one is wanted of an item that ends before that.
    pub recache: Option<Lifetime>,
    /// Its end is then the one behind the touch.
    pub is_late: bool,
}

/// The number that a count begins with where no item is there, and how long it is kept.
#[derive(Clone, Copy)]
pub struct Initial {
    pub number: u64,
    pub lifetime: Lifetime,
}

/// What a command asks of one key, in whatever way it is spelled. A get of several keys asks each of them. Where there is a unique number, it is of
/// the item that is meant.
#[derive(Drop)]
pub enum Ask<'a> {
    Get,
    /// A get that also keeps the item for this lifetime from now on.
    GetTouch(Lifetime),
    Leased(Lease),
    Store {
        wants: Wants,
        flags: u32,
        lifetime: Lifetime,
        value: Text<'a>,
    },
    Join {
        side: Side,
        unique: Option<u64>,
        more: Text<'a>,
    },
    Count {
        direction: Direction,
        delta: u64,
        unique: Option<u64>,
        lifetime: Option<Lifetime>,
        initial: Option<Initial>,
    },
    Touch(Lifetime),
    Delete {
        unique: Option<u64>,
    },
    /// To say of the item that a newer one is wanted.
    Mark {
        unique: Option<u64>,
        lifetime: Option<Lifetime>,
    },
    /// A set whose value is too large: the item that it was to replace goes.
    Spoil,
}

/// For how many seconds an item is left before a command, and after it. None where it is left for ever.
#[derive(Clone, Copy)]
pub struct Left {
    pub before: Option<u64>,
    pub after: Option<u64>,
}

/// What is answered, in whatever way it is spelled.
#[derive(Drop)]
pub enum Says<'a> {
    Line(Reply),
    Refusal(Fault),
    /// An item was stored, with this unique number. None where it was to be gone at once.
    Stores(Option<u64>),
    /// The number that a count gave, with the unique number of its item as above, and whether the count made that.
    Number {
        number: u64,
        unique: Option<u64>,
        left: Left,
        made: bool,
    },
    /// The item that a get found, in front of its end.
    Shows(Item<'a>),
    /// The item that a leased get found or made, as it was, and whether the client is to store a newer one.
    Leases {
        item: Item<'a>,
        left: Left,
        wins: bool,
    },
    /// A get found nothing there.
    Nothing,
}
