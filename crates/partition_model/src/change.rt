//! What is to become of a value, where one look at it and the write that follows are one.

/// What is to become of a value that was looked at.
#[derive(Clone, Copy, PartialEq, Eq)]
pub enum Change {
    Stay,
    /// It is to be what a buffer has.
    Become,
    Go,
}
