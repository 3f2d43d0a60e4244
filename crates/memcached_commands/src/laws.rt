//! What a user may rely on, whatever is asked.
ghost use Rattle.memcached_commands.specs.Laws.{Fits, LateIsNever, NeverLonger, EndsWithFlush, OneNumberOneValue, CountsWrap, CountsGoOn, ChangesWhatIsMeant, TellsNumber, LeavesAlike, WinsOnce, StaysStale};

/// What becomes of an item is taken by the store, and read as it was.
pub fn fits()
    ensures { Fits }
{}

/// What expired or was flushed is as what never was, for each command. No item is kept for longer than was asked, nor longer than up to a flush that
/// waits.
pub fn in_time()
    ensures late { LateIsNever }
    ensures ends { NeverLonger }
    ensures flush { EndsWithFlush }
{}

/// An item keeps its unique number only where it keeps its flags and its value, and else has the new one. So where no
/// number is given twice, two gets that tell the same number for a key tell the same flags and the same value.
pub fn one_value()
    ensures { OneNumberOneValue }
{}

/// A count goes around at 2 ^ 64 upwards, and stops at 0 downwards. The number that was answered is stored, and the next
/// count goes on from it.
pub fn counts()
    ensures around { CountsWrap }
    ensures on { CountsGoOn }
{}

/// A command that means an item of another unique number changes nothing.
pub fn what_is_meant()
    ensures { ChangesWhatIsMeant }
{}

/// A number that is told of a new item is that of the item which the command left.
pub fn tells_number()
    ensures { TellsNumber }
{}

/// Where a command leaves what it finds, what is decided does not depend on the number that a new value would get.
pub fn leaves_alike()
    ensures { LeavesAlike }
{}

/// Of all who ask for an item of which a newer one is wanted, one is told to store that; and it is wanted until something is stored.
pub fn leases()
    ensures once { WinsOnce }
    ensures stale { StaysStale }
{}
