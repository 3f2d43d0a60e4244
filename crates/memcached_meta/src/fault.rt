//! Why a meta command is refused.
ghost use Rattle.std.specs.Prelude.{◌≡◌, ◌≤◌, length};
ghost use Rattle.memcached_text.specs.declared.limits.TheConstants.{MAX_FRAME_LEN};
ghost use Rattle.memcached_meta.specs.Replies.{meta_fault_text};

use memcached_text::{Fault, fault_line};

/// Why a meta command is refused. What is replied is `meta_fault_line`.
#[derive(Clone, Copy)]
pub enum MetaFault {
    /// As a line of any command.
    Line(Fault),
    /// A flag that stands twice on its line, or whose letter is none of seven bits.
    FlagTwice,
    /// A flag that no meta command has.
    UnknownFlag,
    /// A flag whose argument is no number.
    FlagFormat,
    /// A number to begin a count with that is none.
    InitialFormat,
    /// A number to count by that is none.
    DeltaFormat,
    /// An opaque that is too long.
    LongOpaque,
    /// A mode of no letter, or of more than one.
    LongMode,
    /// A mode that `ms` does not have.
    StoreMode,
    /// A mode that `ma` does not have.
    CountMode,
    /// A flag of `md` or `ma` that is one of the above.
    BadFlag,
    /// A key that is no base64.
    KeyFormat,
}

/// The line that is replied to what is refused.
pub fn meta_fault_line(fault: MetaFault) -> &'static [u8]
    ensures text { result.now ≡ meta_fault_text fault }
    ensures short { length result.now ≤ MAX_FRAME_LEN }
{
    match fault {
        MetaFault::Line(fault) => fault_line(fault),
        MetaFault::FlagTwice => b"CLIENT_ERROR duplicate flag\r\n",
        MetaFault::UnknownFlag => b"CLIENT_ERROR invalid flag\r\n",
        MetaFault::FlagFormat => b"CLIENT_ERROR bad token in command line format\r\n",
        MetaFault::InitialFormat => b"CLIENT_ERROR invalid numeric initial value\r\n",
        MetaFault::DeltaFormat => b"CLIENT_ERROR invalid numeric delta value\r\n",
        MetaFault::LongOpaque => b"CLIENT_ERROR opaque token too long\r\n",
        MetaFault::LongMode => b"CLIENT_ERROR incorrect length for M token\r\n",
        MetaFault::StoreMode => b"CLIENT_ERROR invalid mode for ms M token\r\n",
        MetaFault::CountMode => b"CLIENT_ERROR invalid mode for ma M token\r\n",
        MetaFault::BadFlag => b"CLIENT_ERROR invalid or duplicate flag\r\n",
        MetaFault::KeyFormat => b"CLIENT_ERROR error decoding key\r\n",
    }
}
