//! What becomes of what is stored, by a command.
ghost use Rattle.std.specs.Prelude.{◌≡◌, ◌≤◌, ℕ, true, false, List, Some, None, length, Option, option_copied, IfSome};
ghost use Rattle.memcached_text.specs.declared.limits.TheConstants.{MAX_TEXT_LEN};
ghost use Rattle.memcached_commands.specs.Changes.{becoming_of, ends_with_flush, IsChange, looks, only_gets};
ghost use Rattle.memcached_commands.specs.Counting.{number_in};
ghost use Rattle.memcached_commands.specs.Decide.{end_by, kept_until, stays, new_item, stored, stored_late, joins, count_from, begun, leased, vivified, outdated, decide};
ghost use Rattle.memcached_commands.specs.Fit.{IsFitAsk, IsFitStored};

use crate::lease::{end_by, wins};
use crate::next_item::{begin_item, put_spaces};
use crate::wanted::{has_number, is_wanted, later_than};
use crate::{Ask, Initial, Lease, Moment, counted, end_of, ended_by, found_in, number_in};
use itoa::Buffer;
use memcached_text::{Direction, Item, Lifetime, MAX_TEXT_LEN, Side, Wants};
use partition_model::{Change, ItemBuf};

// An item that is kept until its end, or goes if that is now. It ends with a flush that waits at the latest.
#[inline(always)]
fn keep_until(at: &Moment, end: Option<u32>, item: &Item, next: &mut ItemBuf) -> Change
    requires { length item.now.value ≤ MAX_TEXT_LEN }
    ensures { IsChange (ends_with_flush at.now (kept_until end item.now)) result next.new }
{
    let Some(expires) = end else {
        return Change::Go;
    };
    begin_item(next, item, ended_by(at.until, expires));
    next.extend(item.value.bytes());
    Change::Become
}

fn new_item<'a>(at: &Moment, flags: u32, value: &'a [u8]) -> Item<'a>
    ensures { result ≡ new_item at.now flags value.now }
{
    Item {
        flags,
        expires: 0,
        unique: at.unique,
        stale: false,
        won: false,
        value: value.into(),
    }
}

// The same item with these marks, which has a new number.
fn renumbered<'a>(at: &Moment, item: &Item<'a>, stale: bool, won: bool) -> Item<'a>
    ensures { result ≡ record item.now { unique = at.now.unique; stale = stale; won = won } }
{
    Item {
        flags: item.flags,
        expires: item.expires,
        unique: at.unique,
        stale,
        won,
        value: item.value.bytes().into(),
    }
}

// A new item.
#[inline(always)]
fn store(at: &Moment, flags: u32, lifetime: Lifetime, value: &[u8], next: &mut ItemBuf) -> Change
    requires { length value.now ≤ MAX_TEXT_LEN }
    ensures { IsChange (ends_with_flush at.now (stored at.now flags lifetime value.now).becoming) result next.new }
{
    keep_until(
        at,
        end_of(at.second, lifetime),
        &new_item(at, flags, value),
        next,
    )
}

// A new item over a later one than was meant.
fn store_late(at: &Moment, flags: u32, value: &[u8], item: &Item, next: &mut ItemBuf) -> Change
    requires { length value.now ≤ MAX_TEXT_LEN }
    ensures { IsChange (ends_with_flush at.now (stored_late at.now flags value.now item.now).becoming) result next.new }
{
    let new = Item {
        flags,
        expires: item.expires,
        unique: at.unique,
        stale: true,
        won: item.won,
        value: value.into(),
    };
    keep_until(at, Some(item.expires), &new, next)
}

// A get that may lead to a newer item, of one that was found.
fn change_leased(at: &Moment, lease: &Lease, item: &Item, next: &mut ItemBuf) -> Change
    requires { length item.now.value ≤ MAX_TEXT_LEN }
    ensures { IsChange (ends_with_flush at.now (leased at.now lease.now item.now).becoming) result next.new }
{
    let wins = wins(at, lease, item);
    if lease.touch.is_none() && !wins {
        return Change::Stay;
    }
    let new = Item {
        flags: item.flags,
        expires: item.expires,
        unique: item.unique,
        stale: item.stale,
        won: item.won || wins,
        value: item.value.bytes().into(),
    };
    keep_until(at, end_by(at, lease.touch, item), &new, next)
}

// And where none was.
fn vivify(at: &Moment, lifetime: Option<Lifetime>, next: &mut ItemBuf) -> Change
    ensures { IsChange (ends_with_flush at.now (vivified at.now lifetime).becoming) result next.new }
{
    let Some(lifetime) = lifetime else {
        return Change::Stay;
    };
    let new = Item {
        flags: 0,
        expires: 0,
        unique: at.unique,
        stale: false,
        won: true,
        value: b"".as_slice().into(),
    };
    keep_until(at, end_of(at.second, lifetime), &new, next)
}

fn join(at: &Moment, side: Side, more: &[u8], item: &Item, next: &mut ItemBuf) -> Change
    ensures { IsChange (ends_with_flush at.now (joins at.now side more.now item.now).becoming) result next.new }
{
    let value = item.value.bytes();
    if value.len() + more.len() > MAX_TEXT_LEN {
        return Change::Stay;
    }
    let new = renumbered(at, item, false, false);
    begin_item(next, &new, ended_by(at.until, item.expires));
    match side {
        Side::Front => {
            next.extend(more);
            next.extend(value);
        }
        Side::Back => {
            next.extend(value);
            next.extend(more);
        }
    }
    Change::Become
}

fn count(
    at: &Moment,
    direction: Direction,
    delta: u64,
    lifetime: Option<Lifetime>,
    item: &Item,
    next: &mut ItemBuf,
) -> Change
    requires { length item.now.value ≤ MAX_TEXT_LEN }
    ensures { IsChange (ends_with_flush at.now (count_from (number_in item.now.value) at.now direction delta lifetime item.now).becoming) result next.new }
{
    let value = item.value.bytes();
    let Some(number) = number_in(value) else {
        return Change::Stay;
    };
    let Some(expires) = end_by(at, lifetime, item) else {
        return Change::Go;
    };
    let mut digits = Buffer::new();
    let digits = digits.format(counted(direction, delta, number)).as_bytes();
    let new = renumbered(at, item, item.stale, item.won);
    begin_item(next, &new, ended_by(at.until, expires));
    next.extend(digits);
    put_spaces(next, value.len().saturating_sub(digits.len()));
    Change::Become
}

// A number that is counted from now on, where one is made.
#[tactic(auto, using(crate::proofs::CountLaws::digits_fit))]
fn begin_count(at: &Moment, initial: Option<Initial>, next: &mut ItemBuf) -> Change
    ensures { IsChange (ends_with_flush at.now (begun at.now initial).becoming) result next.new }
{
    let Some(initial) = initial else {
        return Change::Stay;
    };
    let mut digits = Buffer::new();
    let digits = digits.format(initial.number).as_bytes();
    store(at, 0, initial.lifetime, digits, next)
}

// The item, of which a newer one is wanted from now on.
fn mark(at: &Moment, lifetime: Option<Lifetime>, item: &Item, next: &mut ItemBuf) -> Change
    requires { length item.now.value ≤ MAX_TEXT_LEN }
    ensures { IsChange (ends_with_flush at.now (kept_until (end_by at.now lifetime item.now) (outdated at.now item.now))) result next.new }
{
    let new = renumbered(at, item, true, false);
    keep_until(at, end_by(at, lifetime, item), &new, next)
}

// What becomes of the item that a command finds.
#[inline(always)]
#[tactic(auto, unfolding(crate::specs::Decide::decide))]
fn change_item(at: &Moment, ask: &Ask, item: &Item, next: &mut ItemBuf) -> Change
    requires ask { IsFitAsk ask.now }
    requires item { length item.now.value ≤ MAX_TEXT_LEN }
    ensures { IsChange (ends_with_flush at.now (decide at.now ask.now (Some item.now)).becoming) result next.new }
{
    match ask {
        Ask::GetTouch(lifetime) | Ask::Touch(lifetime) => {
            keep_until(at, end_of(at.second, *lifetime), item, next)
        }
        Ask::Leased(lease) => change_leased(at, lease, item, next),
        Ask::Store {
            wants,
            flags,
            lifetime,
            value,
        } if is_wanted(*wants, Some(item)) => match later_than(*wants, Some(item)) {
            Some(later) => store_late(at, *flags, value.bytes(), later, next),
            None => store(at, *flags, *lifetime, value.bytes(), next),
        },
        Ask::Join { side, unique, more } if has_number(*unique, item) => {
            join(at, *side, more.bytes(), item, next)
        }
        Ask::Count {
            direction,
            delta,
            unique,
            lifetime,
            ..
        } if has_number(*unique, item) => count(at, *direction, *delta, *lifetime, item, next),
        Ask::Delete { unique } if has_number(*unique, item) => Change::Go,
        Ask::Mark { unique, lifetime } if has_number(*unique, item) => {
            mark(at, *lifetime, item, next)
        }
        Ask::Spoil => Change::Go,
        _ => Change::Stay,
    }
}

// And where it finds none.
#[inline(always)]
#[tactic(auto, unfolding(crate::specs::Decide::decide), using(crate::proofs::DecideLaws::none_later))]
fn change_none(at: &Moment, ask: &Ask, next: &mut ItemBuf) -> Change
    requires { IsFitAsk ask.now }
    ensures { IsChange (ends_with_flush at.now (decide at.now ask.now None).becoming) result next.new }
{
    match ask {
        Ask::Leased(lease) => vivify(at, lease.vivify, next),
        Ask::Store {
            wants,
            flags,
            lifetime,
            value,
        } if is_wanted(*wants, None) => store(at, *flags, *lifetime, value.bytes(), next),
        Ask::Count { initial, .. } => begin_count(at, *initial, next),
        Ask::Spoil => Change::Go,
        _ => Change::Stay,
    }
}

#[inline(always)]
fn change_found(at: &Moment, ask: &Ask, found: Option<&Item>, next: &mut ItemBuf) -> Change
    requires ask { IsFitAsk ask.now }
    requires found { IfSome (option_copied found) (λ item. length item.value ≤ MAX_TEXT_LEN) }
    ensures { IsChange (ends_with_flush at.now (decide at.now ask.now (option_copied found.entry)).becoming) result next.new }
{
    match found {
        Some(item) => change_item(at, ask, item, next),
        None => change_none(at, ask, next),
    }
}

/// Whether what becomes of what is stored depends on that.
#[tactic(auto, using(crate::proofs::DecideLaws::blind))]
pub fn looks(ask: &Ask) -> bool
    ensures looks { result ≡ looks ask.now }
    ensures blind { result ≡ false → (at : Moment) (one other : Option (List ℕ)) → becoming_of at ask.now one ≡ becoming_of at ask.now other }
{
    match ask {
        Ask::Store {
            wants: Wants::Whatever,
            ..
        }
        | Ask::Spoil => false,
        _ => true,
    }
}

/// Whether it leaves all that it finds.
#[tactic(auto, using(crate::proofs::DecideLaws::left))]
pub fn only_gets(ask: &Ask) -> bool
    ensures only { result ≡ only_gets ask.now }
    ensures leaves { result ≡ true → (at : Moment) (stored : Option (List ℕ)) → becoming_of at ask.now stored ≡ stays }
{
    matches!(ask, Ask::Get)
}

/// What becomes of what is stored, where the buffer gets what is to be stored. It takes no memory.
#[inline(always)]
pub fn change_stored(at: &Moment, ask: &Ask, stored: Option<&[u8]>, next: &mut ItemBuf) -> Change
    requires ask { IsFitAsk ask.now }
    requires stored { IsFitStored (option_copied stored) }
    ensures { IsChange (becoming_of at.now ask.now (option_copied stored.entry)) result next.new }
{
    let found = found_in(at, stored);
    match change_found(at, ask, found.as_ref(), next) {
        Change::Stay if stored.is_some() && found.is_none() && !only_gets(ask) => Change::Go,
        change => change,
    }
}
