//! Why bytes are no datagram of the kind that was asked for.
ghost use Rattle.std.specs.Prelude.{◌≡◌};

use outside::NoMemory;
use std::alloc::AllocError;
use std::error::Error;
use std::fmt;

/// Why bytes are no batch, or no replies.
#[derive(Clone, Copy, Debug, PartialEq, Eq)]
pub enum BatchFault {
    /// Fewer bytes than a header, an item or its texts need.
    Short,
    /// The first four bytes are others.
    Magic,
    /// There is no such version.
    Version,
    /// No items.
    Count,
    /// There is no such operation or status.
    Op,
    /// A datagram, a key or a value is longer or shorter than it may be.
    Length,
    /// Bytes stand after the last item.
    Trailing,
    NoMemory,
}

impl fmt::Display for BatchFault {
    fn fmt<W: fmt::Write>(&self, f: &mut fmt::Formatter<W>) -> fmt::Result {
        f.write_str(match self {
            BatchFault::Short => "too few bytes",
            BatchFault::Magic => "another magic",
            BatchFault::Version => "no such version",
            BatchFault::Count => "a count of 0",
            BatchFault::Op => "no such operation or status",
            BatchFault::Length => "a length that is not allowed",
            BatchFault::Trailing => "bytes after the last item",
            BatchFault::NoMemory => "out of memory",
        })
    }
}

impl Error for BatchFault {}

impl From<NoMemory> for BatchFault {
    ghost use Rattle.batch_packets.specs.declared.fault.BatchFault.TheVariants.{NoMemory};

    ghost from_gives = { λ _ e. e ≡ NoMemory };

    fn from(_: NoMemory) -> Self {
        BatchFault::NoMemory
    }
}

impl From<AllocError> for BatchFault {
    ghost use Rattle.batch_packets.specs.declared.fault.BatchFault.TheVariants.{NoMemory};

    ghost from_gives = { λ _ e. e ≡ NoMemory };

    fn from(_: AllocError) -> Self {
        BatchFault::NoMemory
    }
}
