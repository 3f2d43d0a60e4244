//! What an owner knows of its partition. Contracts alone see it: no value of these types is made.
use crate::shape::Shape;
use partition_model::Write;
use std::collections::LinkedList;

/// How far the write is that the owner is at.
pub enum Phase {
    /// No write is begun.
    Idle,
    /// The bucket, whose epoch is odd.
    Begun(u64),
    /// The bucket, whose epoch is odd, the write, and the history before it.
    Marked(u64, Write, LinkedList<Write>),
}

/// A try of a reader whose two loads of an epoch do not show that no write came between.
pub struct Failure {
    pub bucket: u64,
    pub first: u64,
    pub last: u64,
}

/// What the seat that was joined into the owner last had seen, and how its tries failed.
pub struct Met {
    pub seen: LinkedList<Write>,
    pub fails: LinkedList<Failure>,
}

/// The partition's words, the writes that they came from, the phase, what was met last, and how many
/// tries the seats that were met had closed.
pub struct OwnerState {
    pub shape: Shape,
    pub words: LinkedList<u64>,
    pub history: LinkedList<Write>,
    pub phase: Phase,
    pub met: Met,
    pub closed: u64,
}
