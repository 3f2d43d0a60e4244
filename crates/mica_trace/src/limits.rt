//! The limits of a trace.
use mica_words::{MAX_KEY_LEN, MAX_VALUE_LEN};

/// The most lines of a trace.
pub const MAX_LINES: u32 = 100_000;

/// The most bytes of a line, its line feed apart: a put or an add of the longest key and value.
pub const MAX_LINE_LEN: usize = 4 + MAX_KEY_LEN + 1 + MAX_VALUE_LEN;

/// The most rounds of a trace, the last of which no sync ends.
pub const MAX_ROUNDS: u32 = 4_096;
