//! Why bytes are no image.
ghost use Rattle.std.specs.Prelude.{◌≡◌};

use std::alloc::AllocError;
use std::error::Error;
use std::fmt;

/// Why bytes are no image.
#[derive(Clone, Copy, Debug, PartialEq, Eq)]
pub enum ImageFault {
    /// Fewer bytes than the header, a pair's lengths or its texts need.
    Short,
    /// The first four bytes are others.
    Magic,
    /// There is no such version.
    Version,
    /// A key is empty, or a value longer than it may be.
    Length,
    /// A key is not above the one before.
    Order,
    /// A byte is one that a trace does not have there.
    Text,
    /// Bytes stand after the last pair.
    Trailing,
    NoMemory,
}

impl fmt::Display for ImageFault {
    ghost use Rattle.std.specs.Prelude.{Some};
    ghost use Rattle.store_image.specs.ImageGrammar.{fault_name};

    ghost output = { λ fault. Some (fault_name fault) };

    fn fmt<W: fmt::Write>(&self, f: &mut fmt::Formatter<W>) -> fmt::Result {
        f.write_str(match self {
            ImageFault::Short => "short",
            ImageFault::Magic => "magic",
            ImageFault::Version => "version",
            ImageFault::Length => "length",
            ImageFault::Order => "order",
            ImageFault::Text => "text",
            ImageFault::Trailing => "trailing",
            ImageFault::NoMemory => "out of memory",
        })
    }
}

impl Error for ImageFault {}

impl From<AllocError> for ImageFault {
    ghost use Rattle.store_image.specs.declared.fault.ImageFault.TheVariants.{NoMemory};

    ghost from_gives = { λ _ e. e ≡ NoMemory };

    fn from(_: AllocError) -> Self {
        ImageFault::NoMemory
    }
}
