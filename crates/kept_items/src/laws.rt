//! Laws of what is kept, each the contract of a function that does nothing.
ghost use Rattle.kept_items.specs.GoesOn.{GoesOn};
ghost use Rattle.kept_items.specs.StopAndStart.{StopAndStart};
ghost use Rattle.kept_items.specs.Laws.{PartsAgain, KeepsWhatIsThere, FillsWhatLasts};

/// Entries of parts are parted as they were put together.
pub fn parts_again()
    ensures { PartsAgain }
{}

/// What is there of a walk of a partition is what it leaves.
pub fn keeps_what_is_there()
    ensures { KeepsWhatIsThere }
{}

/// A partition that begins with what is loaded has it.
pub fn fills_what_lasts()
    ensures { FillsWhatLasts }
{}

/// A command finds behind a stop and a start what it would have found had nothing happened; in a cache that, or nothing.
pub fn goes_on()
    ensures { GoesOn }
{}

/// The same of all partitions, between what one server left in a file and what another begins with that read it.
pub fn stop_and_start()
    ensures { StopAndStart }
{}
