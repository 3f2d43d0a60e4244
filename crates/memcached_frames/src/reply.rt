//! The replies to frames.
ghost use Rattle.std.specs.Prelude.{◌≡◌, ◌^◌, ◌<◌, ◌≤◌, ◌+◌, ◌++◌, length, OnOk, OnErr};
ghost use Rattle.memcached_frames.specs.declared.header.TheConstants.{FRAME_LEN};
ghost use Rattle.memcached_frames.specs.Replies.{IsOneReply, parts_len, reply_header, reply_text};

use crate::frame::Echo;
use crate::header::{Header, REPLY, header_bytes};
use memcached_text::{Text, append_parts};
use outside::NoMemory;

/// What a reply has.
#[derive(Drop)]
pub struct FrameReply<'a> {
    /// How it went: 0 where all went as asked.
    pub status: u16,
    /// The unique number of an item, or 0.
    pub unique: u64,
    pub extras: Text<'a>,
    pub key: Text<'a>,
    pub value: Text<'a>,
}

/// The header of a reply.
fn reply_header(echo: Echo, reply: &FrameReply) -> Header
    requires extras { length reply.now.extras < 2 ^ 8 }
    requires key { length reply.now.key < 2 ^ 16 }
    requires body { parts_len reply.now < 2 ^ 32 }
    ensures { result ≡ reply_header echo reply.now }
{
    let (extras, key, value) = (reply.extras.bytes(), reply.key.bytes(), reply.value.bytes());
    Header {
        opcode: echo.opcode,
        key_len: key.len() as u16,
        extras_len: extras.len() as u8,
        status: reply.status,
        body_len: (extras.len() + key.len() + value.len()) as u32,
        opaque: echo.opaque,
        unique: reply.unique,
    }
}

/// Appends a reply to the request of these. Where memory runs out, nothing is appended.
#[tactic(auto, unfolding(crate::specs::Replies::reply_text))]
pub fn put_reply(out: &mut Vec<u8>, echo: Echo, reply: &FrameReply) -> Result<(), NoMemory>
    requires extras { length reply.now.extras < 2 ^ 8 }
    requires key { length reply.now.key < 2 ^ 16 }
    requires body { parts_len reply.now < 2 ^ 32 }
    ensures ok { OnOk result (out.new.items ≡ out.old.items ++ reply_text echo reply.now) }
    ensures err { OnErr result (out.new.items ≡ out.old.items) }
    ensures short { length out.new.items ≤ length out.old.items + FRAME_LEN + parts_len reply.now }
{
    let header = header_bytes(REPLY, reply_header(echo, reply));
    append_parts(
        out,
        &[
            header.as_slice(),
            reply.extras.bytes(),
            reply.key.bytes(),
            reply.value.bytes(),
        ],
    )
}

/// No reply begins another.
pub fn one_reply()
    ensures { IsOneReply }
{}
