//! Why there is no report.
ghost use Rattle.std.specs.Prelude.{◌≡◌};

use outside::{Failed, NoMemory};
use std::error::Error;
use std::fmt;

/// Why a client has no report. A fault of a reply names its ticket; the first reply that shows one decides.
#[derive(Clone, Copy, Debug, PartialEq, Eq)]
pub enum AskFault {
    /// A datagram is no replies of the client's version.
    Unread,
    /// A reply is of another batch than the one that waits, or has a ticket that is not in it.
    Stranger(u32),
    /// A ticket was answered before.
    Double(u32),
    /// A status is none of the operation's, or a hit has a byte that no value of a trace has.
    Wrong(u32),
    /// The link came to its end while a ticket waited.
    Lost,
    /// The link failed before all was sent and answered.
    Link,
    NoMemory,
}

impl fmt::Display for AskFault {
    ghost use Rattle.std.specs.Prelude.{Some};
    ghost use Rattle.mica_client.specs.FaultText.{ask_fault_text};

    ghost output = { λ fault. Some (ask_fault_text fault) };

    fn fmt<W: fmt::Write>(&self, f: &mut fmt::Formatter<W>) -> fmt::Result {
        match self {
            AskFault::Unread => f.write_str("unread"),
            AskFault::Stranger(ticket) => write!(f, "stranger {ticket}"),
            AskFault::Double(ticket) => write!(f, "double {ticket}"),
            AskFault::Wrong(ticket) => write!(f, "wrong {ticket}"),
            AskFault::Lost => f.write_str("lost"),
            AskFault::Link => f.write_str("link fault"),
            AskFault::NoMemory => f.write_str("out of memory"),
        }
    }
}

impl Error for AskFault {}

impl From<NoMemory> for AskFault {
    ghost use Rattle.mica_client.specs.declared.fault.AskFault.TheVariants.{NoMemory};

    ghost from_gives = { λ _ e. e ≡ NoMemory };

    fn from(_: NoMemory) -> Self {
        AskFault::NoMemory
    }
}

impl From<Failed> for AskFault {
    ghost use Rattle.mica_client.specs.declared.fault.AskFault.TheVariants.{Link};

    ghost from_gives = { λ _ e. e ≡ Link };

    fn from(_: Failed) -> Self {
        AskFault::Link
    }
}
