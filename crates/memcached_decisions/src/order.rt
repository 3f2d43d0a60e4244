//! What is asked of a key, as a decision.
ghost use Rattle.std.specs.Prelude.{◌≡◌, ◌≤◌, ℕ, List, Option, false, option_copied};
ghost use Rattle.memcached_text.specs.declared.limits.TheConstants.{MAX_TEXT_LEN};
ghost use Rattle.memcached_commands.specs.Answers.{shown_len};
ghost use Rattle.memcached_commands.specs.Changes.{looks};
ghost use Rattle.memcached_commands.specs.Fit.{IsFitAsk};
ghost use Rattle.fronts.specs.declared.changing.When.{When};
ghost use Rattle.fronts.specs.Changing.{IsChange};
ghost use Rattle.memcached_decisions.specs.Numbered.{numbered, moment_at, value_in, becoming_by, says_by};

use fronts::{Decide, When};
use memcached_commands::{
    Ask, Moment, Says, change_stored, found_in, looks, no_room, only_gets, says_of,
};
use mica_words::MAX_STORED_LEN;
use partition_model::{Change, ItemBuf, Outcome};
use std::marker::Model;

/// What is asked of a key, where the first value that its partition accepts has this unique number.
#[derive(Drop)]
pub struct CommandOrder<'a> {
    ask: &'a Ask<'a>,
    base: u64,
}

impl<'a> Model for CommandOrder<'a> {
    ghost use Rattle.memcached_decisions.specs.Numbered.{Order};
    ghost use Rattle.memcached_commands.specs.Fit.{IsFitAsk};

    ghost Value = { Order };

    ghost view = { λ order. record { ask = order.ask.now; base = order.base } };

    ghost invariant = { λ order. IsFitAsk order.ask.now };
}

/// The greatest unique number, of 62 bits.
pub const LAST_UNIQUE: u64 = (1 << 62) - 1;

fn numbered(base: u64, written: u64) -> u64
    ensures { result ≡ numbered base written }
{
    base.saturating_add(written).min(LAST_UNIQUE)
}

/// When a command is carried out, where unique numbers begin at this base.
pub fn moment_at(base: u64, when: When) -> Moment
    ensures { result ≡ moment_at base when }
{
    Moment {
        second: when.second,
        flushed: if when.flushed == 0 {
            0
        } else {
            numbered(base, when.flushed)
        },
        unique: numbered(base, when.written),
        until: when.until,
    }
}

// The value, which is no longer than a value may be.
fn value_in(stored: Option<&[u8]>) -> Option<&[u8]>
    ensures { option_copied result ≡ value_in (option_copied stored.entry) }
{
    stored.filter(|value| value.len() <= MAX_STORED_LEN)
}

impl<'a> CommandOrder<'a> {
    /// What a client asks of a key, with the base of unique numbers.
    pub fn new(ask: &'a Ask<'a>, base: u64) -> CommandOrder<'a>
        requires { IsFitAsk ask.now }
        ensures { result ≡ record { ask = ask.now; base = base } }
    {
        CommandOrder { ask, base }
    }

    /// What is answered, by what was stored when it was carried out, and by the outcome of the write that was decided then.
    #[inline(always)]
    #[tactic(auto, using(memcached_commands::proofs::DecideLaws::found_fits))]
    pub fn says<'b>(
        &self,
        when: When,
        stored: Option<&'b [u8]>,
        outcome: Option<Outcome>,
    ) -> Says<'b>
        ensures said { result ≡ says_by self.now when (option_copied stored.entry) outcome }
        ensures short { shown_len result ≤ MAX_TEXT_LEN }
    {
        if outcome.is_some_and(|outcome| !outcome.is_accepted()) {
            return Says::Line(no_room(self.ask));
        }
        let at = moment_at(self.base, when);
        says_of(&at, self.ask, found_in(&at, value_in(stored)))
    }
}

// Whether it reads an item, and stores no new value that a client sent.
fn reads(ask: &Ask) -> bool {
    match ask {
        Ask::Get | Ask::GetTouch(_) | Ask::Leased(_) | Ask::Count { .. } | Ask::Touch(_) => true,
        _ => false,
    }
}

impl<'a> Decide for CommandOrder<'a> {
    ghost becoming = { becoming_by };

    ghost needs = { λ order. looks order.ask };

    fn looks(&self) -> bool {
        looks(self.ask)
    }

    #[tactic(auto, using(crate::proofs::Becomings::becomes_nothing))]
    fn only_gets(&self) -> bool {
        only_gets(self.ask)
    }

    fn is_read(&self) -> bool {
        reads(self.ask)
    }

    #[tactic(auto, using(crate::proofs::Becomings::same_change))]
    fn decide(&self, when: When, found: Option<&[u8]>, next: &mut ItemBuf) -> Change {
        let at = moment_at(self.base, when);
        change_stored(&at, self.ask, value_in(found), next)
    }
}
