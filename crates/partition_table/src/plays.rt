//! What each kind of step on the table tells its seat.
ghost use Rattle.partition_table.specs.Rule.{view_lent, view_met};
ghost use Rattle.partition_words.specs.declared.event.Event.{Event};
ghost use Rattle.partition_table.specs.declared.rule.View.TheVariants.{Reads, Spent};
ghost use Rattle.partition_table.specs.Plays.{tells_word, happened, opens, looks, follows, stamps, tallies, shuts};

use crate::rule::View;
use atomic_table::{Join, Play, Split};
use std::marker::{Brand, PhantomData};

/// The event of an owner's step, for the proof alone. Each call picks it.
pub(crate) trait Happens {
    ghost event: { Event };
}

impl Happens for Brand {
    ghost use Rattle.partition_words.specs.declared.event.Event.TheVariants.{Ends};

    ghost event = { Ends 0 };
}

/// An owner's load.
pub(crate) struct TellsWord;

impl Play<(), View> for TellsWord {
    ghost then = { tells_word };
}

/// An owner's event: a store, or a fetch-add on an epoch.
pub(crate) struct Does<K> {
    event: PhantomData<K>,
}

impl<K: Happens> Play<(), View> for Does<K> {
    ghost then = { happened K.event };
}

/// A reader's first epoch load.
pub(crate) struct Opens;

impl Play<(), View> for Opens {
    ghost then = { opens };
}

/// A reader's load of an entry or an item word.
pub(crate) struct Looks;

impl Play<(), View> for Looks {
    ghost then = { looks };
}

/// A reader's load of a link.
pub(crate) struct Follows;

impl Play<(), View> for Follows {
    ghost then = { follows };
}

/// A reader's stamp load.
pub(crate) struct Stamps;

impl Play<(), View> for Stamps {
    ghost then = { stamps };
}

/// A reader's load of an epoch outside every try.
pub(crate) struct Tallies;

impl Play<(), View> for Tallies {
    ghost then = { tallies };
}

/// A reader's last epoch load.
pub(crate) struct Shuts;

impl Play<(), View> for Shuts {
    ghost then = { shuts };
}

/// A seat or a note that has seen what this seat has.
pub(crate) struct Lends;

impl Split<View> for Lends {
    ghost left = { λ v. v };

    ghost right = { λ v. Reads (view_lent v) };
}

/// A seat that takes in what another knows.
pub(crate) struct Meets;

impl Join<View> for Meets {
    ghost both = { view_met };

    ghost spent = { Spent };
}
