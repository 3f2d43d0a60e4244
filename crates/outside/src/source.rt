//! Sources of bytes.
ghost use Rattle.std.specs.Prelude.{◌≡◌, ◌+◌, ◌<◌, ◌≤◌, ◌==◌, ℕ, Bool, true, false, List, Option, option_map, length, take, drop, vec_len, IfOk, IfSome, is_err, OnOk, OnErr, IsErrOf};
ghost use Rattle.std.specs.Io.KnownBytes.{Consumes, Keeps, IsAtEnd};
ghost use Rattle.outside.specs.Faults.{Rose, faults_after};
ghost use Rattle.outside.specs.Script.{Script, is_next_listed, after_call, MovesPiece};

use crate::{Failed, NoMemory};
use std::alloc::Global;
use std::error::Error;
use std::fmt;

/// Where bytes come from.
pub trait Source {
    /// The bytes that are left, where the source tells them.
    ghost left: { Self → Option (List ℕ) };

    /// How many bytes the reads gave.
    ghost given: { Self → ℕ };

    /// The count of faults.
    ghost faults: { Self → ℕ };

    /// Whether a read has answered 0.
    ghost has_ended: { Self → Bool };

    /// Which reads fail and how many bytes each gives, where the source tells it.
    ghost script: { Self → Option Script };

    /// Puts the next bytes at the front of `out`, and says how many. 0 is the end.
    fn read(&mut self, out: &mut [u8]) -> Result<usize, Failed>
        requires room { 0 < length out.old }
        requires open { has_ended self.old ≡ false }

        ensures fits { IfOk result (λ n. n ≤ length out.old) }
        ensures given { IfOk result
            (λ n. Consumes (left self.old) (left self.new) (take n out.new)) }
        ensures adds { IfOk result (λ n. given self.new ≡ given self.old + n) }
        ensures end { IfOk result (λ n. n ≡ 0 → IsAtEnd (left self.new)) }
        ensures ended { IfOk result (λ n. has_ended self.new ≡ (n == 0)) }

        ensures kept { OnErr result (Keeps (left self.old) (left self.new)) }
        ensures adds_none { OnErr result (given self.new ≡ given self.old) }
        ensures still_open { OnErr result (has_ended self.new ≡ false) }
        ensures cause { OnErr result (Rose (faults self.old) (faults self.new)) }
        ensures never_fall { faults self.old ≤ faults self.new }
        ensures counted { IfSome (script self.old)
            (λ _. faults self.new ≡ faults_after (is_err result) (faults self.old)) }

        ensures foretold { IfSome (script self.old) (λ s. is_err result ≡ is_next_listed s) }
        ensures count { IfOk result (λ n.
            MovesPiece (script self.old) (option_map length (left self.old)) (length out.old) n) }
        ensures moves_on { script self.new ≡ option_map after_call (script self.old) };
}

/// Why not all bytes were read.
#[derive(Clone, Copy, Debug)]
pub enum ReadFault {
    /// A read failed.
    Failed,
    /// More bytes came than the limit allows.
    Long,
    /// Out of memory.
    NoMemory,
}

impl fmt::Display for ReadFault {
    fn fmt<W: fmt::Write>(&self, f: &mut fmt::Formatter<W>) -> fmt::Result {
        match self {
            ReadFault::Failed => fmt::Display::fmt(&Failed, f),
            ReadFault::Long => f.write_str("more bytes than the limit"),
            ReadFault::NoMemory => fmt::Display::fmt(&NoMemory, f),
        }
    }
}

impl Error for ReadFault {}

impl From<NoMemory> for ReadFault {
    ghost use Rattle.outside.specs.declared.source.ReadFault.TheVariants.{NoMemory};

    ghost from_gives = { λ _ e. e ≡ NoMemory };

    fn from(_: NoMemory) -> Self {
        ReadFault::NoMemory
    }
}

impl From<Failed> for ReadFault {
    ghost use Rattle.outside.specs.declared.source.ReadFault.TheVariants.{Failed};

    ghost from_gives = { λ _ e. e ≡ Failed };

    fn from(_: Failed) -> Self {
        ReadFault::Failed
    }
}

/// The room that the first read gets, in bytes: as many as a pipe holds.
const FIRST_ROOM: usize = 64 * 1024;

/// Makes room after the first `filled` bytes, where there is none: twice as much as they take, up
/// to one byte past the limit.
fn make_room(bytes: &mut Vec<u8>, filled: usize, limit: usize) -> Result<(), NoMemory>
    requires filled { filled ≤ vec_len bytes.old }
    requires below { filled ≤ limit }
    requires within { vec_len bytes.old ≤ limit + 1 }
    requires small { limit < 4294967296 }
    ensures room { OnOk result (filled < vec_len bytes.new) }
    ensures within { OnOk result (vec_len bytes.new ≤ limit + 1) }
    ensures front { OnOk result (take filled bytes.new.items ≡ take filled bytes.old.items) }
{
    if filled == bytes.len() {
        let doubled = (2 * filled).max(FIRST_ROOM);
        bytes.resize(if doubled < limit { doubled } else { limit + 1 }, 0)?;
    }
    Ok(())
}

/// One read into the bytes after the first `filled`.
fn read_after<S: Source>(source: &mut S, bytes: &mut [u8], filled: usize) -> Result<usize, Failed>
    requires room { filled < length bytes.old }
    requires open { S.has_ended source.old ≡ false }
    ensures fits { IfOk result (λ n. filled + n ≤ length bytes.new) }
    ensures front { take filled bytes.new ≡ take filled bytes.old }
    ensures given { IfOk result (λ n. Consumes (S.left source.old) (S.left source.new)
        (take n (drop filled bytes.new))) }
    ensures adds { IfOk result (λ n. S.given source.new ≡ S.given source.old + n) }
    ensures end { IfOk result (λ n. n ≡ 0 → IsAtEnd (S.left source.new)) }
    ensures ended { IfOk result (λ n. S.has_ended source.new ≡ (n == 0)) }
    ensures kept { OnErr result (Keeps (S.left source.old) (S.left source.new)) }
    ensures cause { OnErr result (Rose (S.faults source.old) (S.faults source.new)) }
    ensures never_fall { S.faults source.old ≤ S.faults source.new }
{
    source.read(&mut bytes[filled..])
}

/// Reads to the end, or one byte past the limit, where it answers `Long`.
///
/// Each turn takes at least one byte. The bytes are read in place, into room that doubles.
pub fn read_up_to<S: Source>(
    alloc: Global,
    source: &mut S,
    limit: usize,
) -> Result<Vec<u8>, ReadFault>
    requires open { S.has_ended source.old ≡ false }
    requires small { limit < 4294967296 }

    ensures all { IfOk result
        (λ bytes. Consumes (S.left source.old) (S.left source.new) bytes.items) }
    ensures end { OnOk result (IsAtEnd (S.left source.new) × (S.has_ended source.new ≡ true)) }
    ensures within { IfOk result (λ bytes. vec_len bytes ≤ limit) }

    ensures long { IsErrOf result ReadFault.Long
        → (bytes : List ℕ) × (length bytes ≡ limit + 1)
        × Consumes (S.left source.old) (S.left source.new) bytes
        × (S.has_ended source.new ≡ false)
        × (S.given source.new ≡ S.given source.old + limit + 1) }
    ensures took { (bytes : List ℕ) × (length bytes ≤ limit + 1)
        × Consumes (S.left source.old) (S.left source.new) bytes }
    ensures cause { IsErrOf result ReadFault.Failed
        → Rose (S.faults source.old) (S.faults source.new) }
    ensures never_fall { S.faults source.old ≤ S.faults source.new }
{
    let mut bytes = Vec::new(alloc);
    let mut filled = 0;
    while filled <= limit {
        make_room(&mut bytes, filled, limit)?;
        let count = read_after(source, &mut bytes, filled)?;
        if count == 0 {
            bytes.truncate(filled);
            return Ok(bytes);
        }
        filled += count;
    }
    Err(ReadFault::Long)
}
