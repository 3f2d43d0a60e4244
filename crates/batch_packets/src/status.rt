//! What a reply says of its request, and the byte that says it.
ghost use Rattle.std.specs.Prelude.{◌≡◌, false, IsTrue, IfSome, IfNone};

use crate::header::max_value_len;

/// What a reply says of its request.
#[derive(Clone, Copy, PartialEq, Eq)]
pub enum Status {
    Hit,
    Miss,
    Stored,
    Deleted,
    Absent,
    FullSpare,
    FullBlock,
    Worn,
    /// The datagram is no batch. Of version 1.
    BadBatch,
    /// A hit of a value that is too long for the version.
    LongHit,
    /// Of version 2.
    Exists,
    /// Of version 2.
    Touched,
}

impl Status {
    ghost use Rattle.batch_packets.specs.ReplyGrammar.{status_byte, is_status, longest_value};

    #[tactic(auto, unfolding(crate::specs::ReplyGrammar::status_byte))]
    pub(crate) fn of(version: u8, byte: u8) -> Option<Status>
        ensures known { IfSome result (λ status. byte ≡ status_byte status) }
        ensures has { IfSome result (λ status. IsTrue (is_status version byte)) }
        ensures unknown { IfNone result (is_status version byte ≡ false) }
    {
        match byte {
            0 => Some(Status::Hit),
            1 => Some(Status::Miss),
            2 => Some(Status::Stored),
            3 => Some(Status::Deleted),
            4 => Some(Status::Absent),
            5 => Some(Status::FullSpare),
            6 => Some(Status::FullBlock),
            7 => Some(Status::Worn),
            9 if version == 1 => Some(Status::BadBatch),
            10 => Some(Status::LongHit),
            11 if version == 2 => Some(Status::Exists),
            12 if version == 2 => Some(Status::Touched),
            _ => None,
        }
    }

    /// Whether a version has this status.
    #[tactic(auto, unfolding(crate::specs::ReplyGrammar::status_byte))]
    pub(crate) fn is_of(self, version: u8) -> bool
        ensures { result ≡ is_status version (status_byte self) }
    {
        match self {
            Status::BadBatch => version == 1,
            Status::Exists | Status::Touched => version == 2,
            _ => true,
        }
    }

    #[tactic(auto, unfolding(crate::specs::ReplyGrammar::status_byte))]
    pub(crate) fn byte(self) -> u8
        ensures { result ≡ status_byte self }
    {
        match self {
            Status::Hit => 0,
            Status::Miss => 1,
            Status::Stored => 2,
            Status::Deleted => 3,
            Status::Absent => 4,
            Status::FullSpare => 5,
            Status::FullBlock => 6,
            Status::Worn => 7,
            Status::BadBatch => 9,
            Status::LongHit => 10,
            Status::Exists => 11,
            Status::Touched => 12,
        }
    }

    /// The most bytes of a value under this status: a hit alone has one.
    #[tactic(auto, unfolding(crate::specs::ReplyGrammar::status_byte))]
    pub(crate) fn longest_value(self, version: u8) -> usize
        ensures { result ≡ longest_value version (status_byte self) }
    {
        match self {
            Status::Hit => max_value_len(version),
            _ => 0,
        }
    }
}
