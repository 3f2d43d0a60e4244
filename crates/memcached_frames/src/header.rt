//! The header that every frame begins with.
ghost use Rattle.std.specs.Prelude.{◌≡◌, ◌<◌, ◌≤◌, length, take, drop, IfSome, IfNone};
ghost use Rattle.memcached_frames.specs.Header.{header_in, header_text, IsOneHeader};

use byteorder::{BigEndian, ByteOrder};

/// The byte with which each request begins.
pub const REQUEST: u8 = 128;

/// The byte with which each reply begins.
pub const REPLY: u8 = 129;

/// The bytes of a header.
pub const FRAME_LEN: usize = 24;

/// What a header says. The type of data and, in a request, the number of a bucket are of no effect.
#[derive(Clone, Copy)]
pub struct Header {
    pub opcode: u8,
    pub key_len: u16,
    pub extras_len: u8,
    /// In a request the number of a bucket.
    pub status: u16,
    /// The bytes of all three parts.
    pub body_len: u32,
    /// What a reply tells again, whatever it is.
    pub opaque: u32,
    /// The unique number of an item, or 0.
    pub unique: u64,
}

/// The header at the front, and the bytes behind it. None where fewer bytes have come than a header has.
#[tactic(auto, unfolding(crate::specs::Header::header_in))]
pub fn read_header(from: &[u8]) -> Option<(Header, &[u8])>
    ensures some { IfSome result (λ read. (read.0 ≡ header_in (take FRAME_LEN from.now)) × (read.1.now ≡ drop FRAME_LEN from.now)) }
    ensures long { IfSome result (λ _. FRAME_LEN ≤ length from.now) }
    ensures none { IfNone result (length from.now < FRAME_LEN) }
{
    if from.len() < FRAME_LEN {
        return None;
    }
    let (front, rest) = from.split_at(FRAME_LEN);
    let header = Header {
        opcode: front[1],
        key_len: BigEndian::read_u16(&front[2..]),
        extras_len: front[4],
        status: BigEndian::read_u16(&front[6..]),
        body_len: BigEndian::read_u32(&front[8..]),
        opaque: BigEndian::read_u32(&front[12..]),
        unique: BigEndian::read_u64(&front[16..]),
    };
    Some((header, rest))
}

/// The bytes of a header that begins with this one.
#[tactic(auto, unfolding(crate::specs::Header::header_text))]
pub fn header_bytes(magic: u8, header: Header) -> [u8; FRAME_LEN]
    ensures { result ≡ header_text magic header }
{
    let [k0, k1] = header.key_len.to_be_bytes();
    let [s0, s1] = header.status.to_be_bytes();
    let [b0, b1, b2, b3] = header.body_len.to_be_bytes();
    let [o0, o1, o2, o3] = header.opaque.to_be_bytes();
    let [u0, u1, u2, u3, u4, u5, u6, u7] = header.unique.to_be_bytes();
    [
        magic,
        header.opcode,
        k0,
        k1,
        header.extras_len,
        0,
        s0,
        s1,
        b0,
        b1,
        b2,
        b3,
        o0,
        o1,
        o2,
        o3,
        u0,
        u1,
        u2,
        u3,
        u4,
        u5,
        u6,
        u7,
    ]
}

/// A header is read as it was written.
pub fn one_header()
    ensures { IsOneHeader }
{}
