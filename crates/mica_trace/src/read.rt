//! Reads traces.
ghost use Rattle.std.specs.Prelude.{◌≡◌, ◌≤◌, ◌<◌, ◌+◌, ◌↔◌, ◌⊎◌, ◌∷◌, ◌++◌, [], ℕ, List, length, IfOk, IfErr, MatchOption, IsTrue};
ghost use Rattle.std.specs.List.{AllByRecursion};
ghost use Rattle.mica_trace.specs.declared.line.TraceLine.{TraceLine};
ghost use Rattle.mica_trace.specs.TraceGrammar.{IsKey, IsValue, IsTextOf, IsTrace, IsNoTrace, IsFaultOf, Refuses, HasLineRoom};

use crate::split::{after_word, first_line, split_at_byte};
use crate::{MAX_LINE_LEN, MAX_LINES, MAX_ROUNDS, Trace, TraceFault, TraceLine, TraceOp};
use mica_words::{key_fits, value_fits};
use outside::CowBytes;
use std::alloc::Global;

// The bytes of the shortest line, with its line feed.
const SHORTEST_LINE_LEN: usize = b"sync\n".len();

// Whether each byte is one of these. There is no early exit, so that many bytes are judged at a time.
fn are_between(text: &[u8], least: u8, most: u8) -> bool
    ensures { IsTrue result ↔ AllByRecursion (λ b. (least ≤ b) × (b ≤ most)) text.now }
{
    let mut all = true;
    for byte in text {
        all &= least <= *byte && *byte <= most;
    }
    all
}

/// Whether it is a key that a trace may have.
pub fn is_key(key: &[u8]) -> bool
    ensures { IsTrue result ↔ IsKey key.now }
{
    key_fits(key) && are_between(key, 33, 126)
}

/// Whether it is a value that a trace may have.
pub fn is_value(value: &[u8]) -> bool
    ensures { IsTrue result ↔ IsValue value.now }
{
    value_fits(value) && are_between(value, 32, 126)
}

// A line that has a key alone.
fn read_key_line(op: TraceOp, key: &[u8]) -> Option<TraceLine>
    ensures { MatchOption result (¬ (IsKey key.now))
        (λ line. IsKey key.now × (line ≡ record { op = op; key = key.now; value = [] })) }
{
    if !is_key(key) {
        return None;
    }
    Some(TraceLine {
        op,
        key: key.into(),
        value: CowBytes::empty(),
    })
}

// A line that has a key and a value, which the first space parts.
fn read_value_line(op: TraceOp, rest: &[u8]) -> Option<TraceLine>
    ensures { MatchOption result ((key value : List ℕ) → IsKey key → IsValue value → ¬ (rest.now ≡ key ++ 32 ∷ value))
        (λ line. (line.op ≡ op) × IsKey line.key × IsValue line.value × (rest.now ≡ line.key ++ 32 ∷ line.value)) }
{
    let Some((key, value)) = split_at_byte(rest, b' ') else {
        return None;
    };
    if !is_key(key) || !is_value(value) {
        return None;
    }
    Some(TraceLine {
        op,
        key: key.into(),
        value: value.into(),
    })
}

fn read_line(text: &[u8]) -> Option<TraceLine>
    ensures { MatchOption result ((line : TraceLine) → ¬ (IsTextOf text.now line)) (IsTextOf text.now) }
{
    if text == b"sync".as_slice() {
        return Some(TraceLine::sync());
    }
    if let Some(key) = after_word(text, b"get ") {
        return read_key_line(TraceOp::Get, key);
    }
    if let Some(key) = after_word(text, b"del ") {
        return read_key_line(TraceOp::Del, key);
    }
    if let Some(key) = after_word(text, b"touch ") {
        return read_key_line(TraceOp::Touch, key);
    }
    if let Some(rest) = after_word(text, b"put ") {
        return read_value_line(TraceOp::Put, rest);
    }
    let rest = after_word(text, b"add ")?;
    read_value_line(TraceOp::Add, rest)
}

// The next line, after as many lines and syncs as are given.
fn next_line(text: &[u8], lines: u32, syncs: u32) -> Result<TraceLine, TraceFault>
    requires lines { lines ≤ MAX_LINES }
    requires rounds { syncs < MAX_ROUNDS }
    ensures found { IfOk result (λ line. IsTextOf text.now line × HasLineRoom lines syncs line) }
    ensures refused { IfErr result (IsFaultOf (lines + 1) syncs text.now) }
{
    if lines == MAX_LINES {
        return Err(TraceFault::TooManyLines);
    }
    if text.len() > MAX_LINE_LEN {
        return Err(TraceFault::LongLine(lines + 1));
    }
    match read_line(text) {
        Some(line) if line.is_sync() && syncs + 1 >= MAX_ROUNDS => Err(TraceFault::TooManyRounds),
        Some(line) => Ok(line),
        None => Err(TraceFault::BadLine(lines + 1)),
    }
}

/// Reads a trace, which borrows keys and values. It looks at the lines in order, and refuses at the first that a trace
/// can't have there.
pub fn read_trace(alloc: Global, from: &[u8]) -> Result<Trace, TraceFault>
    ensures trace { IfOk result (IsTrace from.now) }
    ensures refused { IfErr result (λ fault. fault ≡ TraceFault.NoMemory ⊎ (Refuses from.now fault × IsNoTrace from.now)) }
{
    let most = (from.len() / SHORTEST_LINE_LEN + 1).min(MAX_LINES as usize);
    let Ok(mut lines) = Vec::with_capacity(alloc, most) else {
        return Err(TraceFault::NoMemory);
    };
    let mut syncs = 0;
    let mut rest = from;
    while !rest.is_empty() {
        let (text, after) = first_line(rest);
        let line = match next_line(text, lines.len() as u32, syncs) {
            Ok(line) => line,
            Err(fault) => return Err(fault),
        };
        if line.is_sync() {
            syncs += 1;
        }
        lines.push(line)?;
        rest = after;
    }
    Ok(Trace::of(lines))
}
