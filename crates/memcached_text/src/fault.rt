//! Why a command is refused.

/// Why a command is refused. What is replied is `fault_line`.
#[derive(Clone, Copy)]
pub enum Fault {
    /// No such command, or one with too few or too many words.
    Unknown,
    /// A key that is too long or has a byte 0, or a word that is no number where one must stand.
    Format,
    /// A delete with words that it cannot have.
    DeleteUsage,
    /// The expiry time of a touch, a get or a flush is no number.
    ExpiryFormat,
    /// What is to be counted by is no number.
    DeltaFormat,
    /// A block that does not end where its line says.
    BadBlock,
    /// A value that is longer than an item's may be.
    TooLarge,
    /// A value that is to be counted, and is no number.
    NotNumber,
    /// A command of the protocol that this server does not carry out.
    NotSupported,
}
