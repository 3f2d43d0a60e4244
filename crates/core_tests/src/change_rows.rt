//! Rows of changes of one key's value: what is there before, what is decided, and what comes of it.

use partition_model::{Change, Outcome};

/// What the key has before, at which other keys a long value is put then, what is decided of the key's value, what comes of the write, if there is
/// one, and what the key has then.
#[derive(Drop)]
pub struct Row<'a> {
    pub before: Option<&'a [u8]>,
    pub later: &'a [&'a [u8]],
    pub change: Change,
    pub value: &'a [u8],
    pub outcome: Option<Outcome>,
    pub after: Option<&'a [u8]>,
}

/// Absent, present, shorter, as long and longer values.
pub static ROWS: [Row<'static>; 8] = [
    Row {
        before: None,
        later: &[],
        change: Change::Stay,
        value: b"",
        outcome: None,
        after: None,
    },
    Row {
        before: None,
        later: &[],
        change: Change::Become,
        value: b"one",
        outcome: Some(Outcome::Stored),
        after: Some(b"one"),
    },
    // What is not there does not go.
    Row {
        before: None,
        later: &[],
        change: Change::Go,
        value: b"",
        outcome: None,
        after: None,
    },
    Row {
        before: Some(b"one"),
        later: &[],
        change: Change::Stay,
        value: b"",
        outcome: None,
        after: Some(b"one"),
    },
    Row {
        before: Some(b"one"),
        later: &[],
        change: Change::Become,
        value: b"2",
        outcome: Some(Outcome::Stored),
        after: Some(b"2"),
    },
    Row {
        before: Some(b"one"),
        later: &[],
        change: Change::Become,
        value: b"two and more",
        outcome: Some(Outcome::Stored),
        after: Some(b"two and more"),
    },
    Row {
        before: Some(b"one"),
        later: &[],
        change: Change::Become,
        value: b"",
        outcome: Some(Outcome::Stored),
        after: Some(b""),
    },
    Row {
        before: Some(b"one"),
        later: &[],
        change: Change::Go,
        value: b"",
        outcome: Some(Outcome::Deleted),
        after: None,
    },
];

/// Keys whose values take more than the log.
const MANY: &[&[u8]] = &[b"0", b"1", b"2", b"3"];

/// In cache mode nothing is found of a value whose item later writes displaced.
pub static DISPLACED: [Row<'static>; 3] = [
    Row {
        before: Some(b"one"),
        later: MANY,
        change: Change::Stay,
        value: b"",
        outcome: None,
        after: None,
    },
    // It does not go.
    Row {
        before: Some(b"one"),
        later: MANY,
        change: Change::Go,
        value: b"",
        outcome: None,
        after: None,
    },
    Row {
        before: Some(b"one"),
        later: MANY,
        change: Change::Become,
        value: b"two",
        outcome: Some(Outcome::Stored),
        after: Some(b"two"),
    },
];
