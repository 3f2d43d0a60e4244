//! Texts of replies.
ghost use Rattle.std.specs.Prelude.{◌≡◌, ℕ, List, ◌+◌, ◌≤◌, ◌++◌, ◌∷◌, length, drop, codes, decimal, OnOk, OnErr};
ghost use Rattle.memcached_text.specs.declared.limits.TheConstants.{MAX_FRAME_LEN};
ghost use Rattle.memcached_text.specs.Replies.{reply_text, fault_text, value_text, unique_text, number_text, stat_text};

use crate::Fault;
use crate::append::append_parts;
use itoa::{Buffer, write_digits};
use outside::NoMemory;

/// The version of memcached whose commands are here. Clients choose by it what they ask.
const VERSION_LINE: &[u8] = b"VERSION 1.6.18\r\n";

/// What is replied to a command, but for the values of a get.
#[derive(Clone, Copy)]
pub enum Reply {
    Stored,
    /// What is stored under the key is not as a store or a join wants it.
    NotStored,
    /// The item has another unique number than a store wants.
    Exists,
    /// There is no room for an item.
    NoRoom,
    /// There is no room for what a count makes of an item.
    NoRoomToCount,
    Deleted,
    /// The key is absent.
    NotFound,
    Touched,
    /// Behind the values of a get, and the lines of what is counted.
    End,
    Version,
    /// Of a flush, and of a verbosity.
    Done,
    /// Of a command of no effect.
    Noop,
    /// Counts begin anew.
    Reset,
    /// A line was too long.
    LongLine,
}

/// The line of a reply.
pub fn reply_line(reply: Reply) -> &'static [u8]
    ensures text { result.now ≡ reply_text reply }
    ensures short { length result.now ≤ MAX_FRAME_LEN }
{
    match reply {
        Reply::Stored => b"STORED\r\n",
        Reply::NotStored => b"NOT_STORED\r\n",
        Reply::Exists => b"EXISTS\r\n",
        Reply::NoRoom => b"SERVER_ERROR out of memory storing object\r\n",
        Reply::NoRoomToCount => b"SERVER_ERROR out of memory\r\n",
        Reply::Deleted => b"DELETED\r\n",
        Reply::NotFound => b"NOT_FOUND\r\n",
        Reply::Touched => b"TOUCHED\r\n",
        Reply::End => b"END\r\n",
        Reply::Version => VERSION_LINE,
        Reply::Done => b"OK\r\n",
        Reply::Noop => b"MN\r\n",
        Reply::Reset => b"RESET\r\n",
        Reply::LongLine => b"CLIENT_ERROR line too long\r\n",
    }
}

/// The line that is replied to what is refused, where a reply is wanted.
pub fn fault_line(fault: Fault) -> &'static [u8]
    ensures text { result.now ≡ fault_text fault }
    ensures short { length result.now ≤ MAX_FRAME_LEN }
{
    match fault {
        Fault::Unknown => b"ERROR\r\n",
        Fault::Format => b"CLIENT_ERROR bad command line format\r\n",
        Fault::DeleteUsage => {
            b"CLIENT_ERROR bad command line format.  Usage: delete <key> [noreply]\r\n"
        }
        Fault::ExpiryFormat => b"CLIENT_ERROR invalid exptime argument\r\n",
        Fault::DeltaFormat => b"CLIENT_ERROR invalid numeric delta argument\r\n",
        Fault::BadBlock => b"CLIENT_ERROR bad data chunk\r\n",
        Fault::TooLarge => b"SERVER_ERROR object too large for cache\r\n",
        Fault::NotNumber => { b"CLIENT_ERROR cannot increment or decrement non-numeric value\r\n" }
        Fault::NotSupported => b"ERROR\r\n",
    }
}

// The most bytes of a number behind a space.
const NUMBER_LEN: usize = 21;

// The bytes of three such numbers and a line's end.
const NUMBERS_LEN: usize = 65;

// Puts a space and a number in front of a place, and says where the space is.
#[inline]
fn put_before(line: &mut [u8], number: u64, place: usize) -> usize
    requires room { NUMBER_LEN ≤ place }
    requires within { place ≤ length line.old }
    ensures near { place ≤ result + NUMBER_LEN }
    ensures text { drop result line.new ≡ 32 ∷ decimal number ++ drop place line.old }
{
    let digits = write_digits(number, line, place);
    line[digits - 1] = b' ';
    digits - 1
}

// Puts what stands behind the key in the first line of a value at the end of the bytes, and says where it begins.
#[inline]
fn put_numbers(
    line: &mut [u8; NUMBERS_LEN],
    flags: u32,
    value_len: usize,
    unique: Option<u64>,
) -> usize
    ensures within { result ≤ NUMBERS_LEN }
    ensures text { drop result line.new ≡ 32 ∷ decimal flags ++ (32 ∷ decimal value_len ++ (unique_text unique ++ codes "\r\n")) }
{
    let end = NUMBERS_LEN - 2;
    line[end + 1] = b'\n';
    line[end] = b'\r';
    let uniques = match unique {
        Some(unique) => put_before(line, unique, end),
        None => end,
    };
    let lens = put_before(line, value_len as u64, uniques);
    put_before(line, u64::from(flags), lens)
}

// Appends the value that a get found, and what is to stand behind it. Where memory runs out, nothing is appended.
#[inline(always)]
#[tactic(auto, unfolding(crate::specs::Replies::value_text))]
fn put_value_and(
    out: &mut Vec<u8>,
    key: &[u8],
    flags: u32,
    value: &[u8],
    unique: Option<u64>,
    end: &'static [u8],
) -> Result<(), NoMemory>
    ensures ok { OnOk result ((behind : List ℕ) → end.now ≡ codes "\r\n" ++ behind → out.new.items ≡ out.old.items ++ (value_text key.now flags value.now unique ++ behind)) }
    ensures err { OnErr result (out.new.items ≡ out.old.items) }
    ensures short { length out.new.items ≤ length out.old.items + 6 + length key.now + NUMBERS_LEN + length value.now + length end.now }
{
    let mut line = [0; NUMBERS_LEN];
    let start = put_numbers(&mut line, flags, value.len(), unique);
    append_parts(out, &[b"VALUE ", key, &line[start..], value, end])
}

/// Appends the value that a get found, with its unique number where there is one. Where memory runs out, nothing is
/// appended.
#[inline(always)]
pub fn put_value(
    out: &mut Vec<u8>,
    key: &[u8],
    flags: u32,
    value: &[u8],
    unique: Option<u64>,
) -> Result<(), NoMemory>
    ensures ok { OnOk result (out.new.items ≡ out.old.items ++ value_text key.now flags value.now unique) }
    ensures err { OnErr result (out.new.items ≡ out.old.items) }
    ensures short { length out.new.items ≤ length out.old.items + length key.now + length value.now + MAX_FRAME_LEN }
{
    put_value_and(out, key, flags, value, unique, b"\r\n")
}

/// Appends the last value that a get found, and the end of its reply. Where memory runs out, nothing is appended.
#[inline(always)]
pub fn put_last_value(
    out: &mut Vec<u8>,
    key: &[u8],
    flags: u32,
    value: &[u8],
    unique: Option<u64>,
) -> Result<(), NoMemory>
    ensures ok { OnOk result (out.new.items ≡ out.old.items ++ (value_text key.now flags value.now unique ++ reply_text Reply.End)) }
    ensures err { OnErr result (out.new.items ≡ out.old.items) }
    ensures short { length out.new.items ≤ length out.old.items + length key.now + length value.now + MAX_FRAME_LEN }
{
    put_value_and(out, key, flags, value, unique, b"\r\nEND\r\n")
}

/// Appends the number that a count gave. Where memory runs out, nothing is appended.
#[tactic(auto, unfolding(crate::specs::Replies::number_text))]
pub fn put_number(out: &mut Vec<u8>, number: u64) -> Result<(), NoMemory>
    ensures ok { OnOk result (out.new.items ≡ out.old.items ++ number_text number) }
    ensures err { OnErr result (out.new.items ≡ out.old.items) }
    ensures short { length out.new.items ≤ length out.old.items + MAX_FRAME_LEN }
{
    let mut digits = Buffer::new();
    append_parts(out, &[digits.format(number).as_bytes(), b"\r\n"])
}

/// Appends one line of what is counted. Where memory runs out, nothing is appended.
#[tactic(auto, unfolding(crate::specs::Replies::stat_text))]
pub fn put_stat(out: &mut Vec<u8>, name: &[u8], value: &[u8]) -> Result<(), NoMemory>
    ensures ok { OnOk result (out.new.items ≡ out.old.items ++ stat_text name.now value.now) }
    ensures err { OnErr result (out.new.items ≡ out.old.items) }
{
    append_parts(out, &[b"STAT ", name, b" ", value, b"\r\n"])
}
