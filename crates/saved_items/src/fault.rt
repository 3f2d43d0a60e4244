//! What is wrong with a file of saved items, and why none was written.

ghost use Rattle.std.specs.Prelude.{◌≡◌};

use outside::{Failed, NoMemory};
use std::alloc::{AllocError, AllocFailed};
use std::error::Error;
use std::fmt;

/// The first fault of a file.
#[derive(Clone, Copy, Debug, PartialEq, Eq)]
pub enum SavedFault {
    /// Out of memory.
    NoMemory,
    /// A read failed.
    Failed,
    /// It ends before its last partition is closed.
    Short,
    /// A block has another sum.
    Sum,
    /// It begins as no file of this kind does.
    Magic,
    /// It is of another version.
    Version,
    /// The head says what no head can say.
    Head,
    /// A pair has lengths or bits that none can have.
    Length,
    /// Behind the pairs of a partition stands another number than theirs, or a next unique number that can be none.
    Count,
    /// Something stands behind the last partition.
    Trailing,
    /// Who takes the entries refused one.
    Refused,
}

/// Why items were not written.
#[derive(Clone, Copy, Debug, PartialEq, Eq)]
pub enum SpillFault {
    /// Out of memory.
    NoMemory,
    /// A write failed.
    Failed,
}

impl fmt::Display for SavedFault {
    fn fmt<W: fmt::Write>(&self, f: &mut fmt::Formatter<W>) -> fmt::Result {
        f.write_str(match self {
            SavedFault::NoMemory => "out of memory",
            SavedFault::Failed => "a read failed",
            SavedFault::Short => "short",
            SavedFault::Sum => "sum",
            SavedFault::Magic => "magic",
            SavedFault::Version => "version",
            SavedFault::Head => "head",
            SavedFault::Length => "length",
            SavedFault::Count => "count",
            SavedFault::Trailing => "trailing",
            SavedFault::Refused => "pair refused",
        })
    }
}

impl Error for SavedFault {}

impl From<NoMemory> for SavedFault {
    ghost use Rattle.saved_items.specs.declared.fault.SavedFault.TheVariants.{NoMemory};

    ghost from_gives = { λ _ e. e ≡ NoMemory };

    fn from(_: NoMemory) -> Self {
        SavedFault::NoMemory
    }
}

impl From<AllocError> for SavedFault {
    ghost use Rattle.saved_items.specs.declared.fault.SavedFault.TheVariants.{NoMemory};

    ghost from_gives = { λ _ e. e ≡ NoMemory };

    fn from(_: AllocError) -> Self {
        SavedFault::NoMemory
    }
}

impl<T: Drop> From<AllocFailed<T>> for SavedFault {
    ghost use Rattle.saved_items.specs.declared.fault.SavedFault.TheVariants.{NoMemory};

    ghost from_gives = { λ _ e. e ≡ NoMemory };

    fn from(_: AllocFailed<T>) -> Self {
        SavedFault::NoMemory
    }
}

impl From<Failed> for SavedFault {
    ghost use Rattle.saved_items.specs.declared.fault.SavedFault.TheVariants.{Failed};

    ghost from_gives = { λ _ e. e ≡ Failed };

    fn from(_: Failed) -> Self {
        SavedFault::Failed
    }
}

impl fmt::Display for SpillFault {
    fn fmt<W: fmt::Write>(&self, f: &mut fmt::Formatter<W>) -> fmt::Result {
        f.write_str(match self {
            SpillFault::NoMemory => "out of memory",
            SpillFault::Failed => "a write failed",
        })
    }
}

impl Error for SpillFault {}

impl From<AllocError> for SpillFault {
    ghost use Rattle.saved_items.specs.declared.fault.SpillFault.TheVariants.{NoMemory};

    ghost from_gives = { λ _ e. e ≡ NoMemory };

    fn from(_: AllocError) -> Self {
        SpillFault::NoMemory
    }
}

impl From<Failed> for SpillFault {
    ghost use Rattle.saved_items.specs.declared.fault.SpillFault.TheVariants.{Failed};

    ghost from_gives = { λ _ e. e ≡ Failed };

    fn from(_: Failed) -> Self {
        SpillFault::Failed
    }
}
