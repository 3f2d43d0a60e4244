//! What holds of unique numbers and of items that are gone.
ghost use Rattle.memcached_decisions.specs.Gone.{GoneStaysGone};
ghost use Rattle.memcached_decisions.specs.Numbered.{NumbersRise};
ghost use Rattle.memcached_decisions.specs.Swaps.{SwapsWhatStands, StoredIsDrawn};

/// A later value of a partition has a greater unique number.
pub fn numbers_rise()
    ensures { NumbersRise }
{}

/// An item that is not there is not there later either, whatever was written meanwhile. What is stored under its key then is another.
pub fn gone_stays_gone()
    ensures { GoneStaysGone }
{}

/// A `cas` that is answered STORED replaces what its number was shown with, and nobody stored anything else there in between.
pub fn swaps_what_stands()
    ensures swaps { SwapsWhatStands }
    ensures drawn { StoredIsDrawn }
{}
