//! The header that every datagram begins with.
ghost use Rattle.std.specs.Prelude.{◌≡◌, ◌^◌, ◌<◌, ◌≤◌, ◌++◌, Some, None, length, drop, vec_capacity, IsTrue, IfOk, IfErr, IfSome, IfNone, OnOk};
ghost use Rattle.std.specs.Int.{w64, to_le_bytes};
ghost use Rattle.batch_packets.specs.Datagram.{header_text, header_fault, version_at, count_at, is_version, max_datagram_len, max_value_len};

use crate::BatchFault;
use mica_words::MAX_VALUE_LEN;
use outside::NoMemory;

/// The bytes of a header.
pub const HEADER_LEN: usize = 10;

/// Where a header says how many items follow.
pub const COUNT_AT: usize = 5;

/// The most items of a datagram.
pub const MAX_ITEMS: usize = 255;

/// The most bytes of a datagram of version 1.
pub const MAX_DATAGRAM_LEN_V1: usize = 1472;

/// The most bytes of a datagram of version 2, and of any.
pub const MAX_DATAGRAM_LEN_V2: usize = 9000;

/// The most bytes of a value of version 1, whose format keeps it also where the store takes longer values.
pub const MAX_VALUE_LEN_V1: usize = 1024;

/// Whether there is such a version.
pub fn is_version(version: u8) -> bool
    ensures { result ≡ is_version version }
{
    version == 1 || version == 2
}

/// The most bytes of a datagram of a version.
pub fn max_datagram_len(version: u8) -> usize
    ensures { result ≡ max_datagram_len version }
{
    if version == 1 {
        MAX_DATAGRAM_LEN_V1
    } else {
        MAX_DATAGRAM_LEN_V2
    }
}

/// The most bytes of a value of a version.
pub fn max_value_len(version: u8) -> usize
    ensures { result ≡ max_value_len version }
{
    if version == 1 {
        MAX_VALUE_LEN_V1
    } else {
        MAX_VALUE_LEN
    }
}

/// The number of eight bytes at the front, and the bytes after it.
pub fn read_u64(from: &[u8]) -> Option<(u64, &[u8])>
    ensures some { IfSome result (λ x. from.now ≡ to_le_bytes w64 x.0 ++ x.1.now) }
    ensures none { IfNone result (length from.now < 8) }
{
    let [b0, b1, b2, b3, b4, b5, b6, b7, rest @ ..] = from else {
        return None;
    };
    let number = u64::from_le_bytes([*b0, *b1, *b2, *b3, *b4, *b5, *b6, *b7]);
    Some((number, rest))
}

/// What a header says.
#[derive(Clone, Copy)]
pub struct Header {
    pub version: u8,
    /// How many items follow.
    pub count: u8,
    /// The number of the batch.
    pub number: u32,
}

/// The header at the front, and the bytes after it.
pub fn read_header(magic: [u8; 4], from: &[u8]) -> Result<(Header, &[u8]), BatchFault>
    ensures text { IfOk result (λ x. from.now ≡ header_text magic x.0.version x.0.count x.0.number ++ x.1.now) }
    ensures version { IfOk result (λ x. IsTrue (is_version x.0.version)) }
    ensures some { IfOk result (λ x. 0 < x.0.count) }
    ensures number { IfOk result (λ x. x.0.number < 2 ^ 32) }
    ensures short { IfOk result (λ x. length from.now ≤ max_datagram_len x.0.version) }
    ensures no_fault { OnOk result (header_fault magic from.now ≡ None) }
    ensures fields { IfOk result (λ x. (version_at from.now ≡ x.0.version) × (count_at from.now ≡ x.0.count) × (drop HEADER_LEN from.now ≡ x.1.now)) }
    ensures fault { IfErr result (λ fault. header_fault magic from.now ≡ Some fault) }
{
    if from.len() > MAX_DATAGRAM_LEN_V2 {
        return Err(BatchFault::Length);
    }
    let [m0, m1, m2, m3, version, count, n0, n1, n2, n3, rest @ ..] = from else {
        return Err(BatchFault::Short);
    };
    if [*m0, *m1, *m2, *m3] != magic {
        return Err(BatchFault::Magic);
    }
    if !is_version(*version) {
        return Err(BatchFault::Version);
    }
    if from.len() > max_datagram_len(*version) {
        return Err(BatchFault::Length);
    }
    if *count == 0 {
        return Err(BatchFault::Count);
    }
    let header = Header {
        version: *version,
        count: *count,
        number: u32::from_le_bytes([*n0, *n1, *n2, *n3]),
    };
    Ok((header, rest))
}

/// Appends a header.
pub fn put_header(out: &mut Vec<u8>, magic: [u8; 4], header: Header) -> Result<(), NoMemory>
    ensures text { OnOk result (out.new.items ≡ out.old.items ++ header_text magic header.version header.count header.number) }
    ensures room { vec_capacity out.old ≤ vec_capacity out.new }
{
    out.extend_from_slice(&magic)?;
    out.extend_from_slice(&[header.version, header.count])?;
    out.extend_from_slice(&header.number.to_le_bytes())?;
    Ok(())
}
