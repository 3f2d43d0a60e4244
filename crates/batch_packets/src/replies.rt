//! Replies, read from bytes and split into datagrams.
ghost use Rattle.std.specs.Prelude.{◌≡◌, ◌↔◌, All, IsTrue, IfOk, IsOkUnless};
ghost use Rattle.batch_packets.specs.Faults.{AgreesWith};
ghost use Rattle.batch_packets.specs.Datagram.{is_version, first_fault};

use crate::header::read_u64;
use crate::item::{Item, check_datagram, next_item};
use crate::{BatchFault, Datagram, ReplyText, Status};
use outside::{Bytes, NoMemory};
use std::alloc::Global;
use std::marker::Model;

/// The reply to one request, whose ticket it repeats. The value is empty unless it is a hit.
#[derive(Drop)]
pub struct Reply {
    pub status: Status,
    pub ticket: u32,
    pub stamp: u64,
    pub value: Bytes,
}

/// A list of replies.
#[derive(Drop)]
pub struct ReplyList {
    replies: Vec<Reply>,
}

impl Model for ReplyList {
    ghost use Rattle.std.specs.Prelude.{List};
    ghost use Rattle.batch_packets.specs.declared.replies.Reply.{Reply};

    ghost Value = { List Reply };

    ghost view = { λ l. l.replies.items };
}

impl ReplyList {
    /// The replies in order.
    pub fn as_slice(&self) -> &[Reply]
        ensures { result.now ≡ self.now }
    {
        self.replies.as_slice()
    }

    /// The replies, which the list gives up.
    pub fn into_vec(self) -> Vec<Reply>
        ensures { result.items ≡ self }
    {
        self.replies
    }
}

impl From<Vec<Reply>> for ReplyList {
    ghost from_gives = { λ replies list. list ≡ replies.items };

    fn from(replies: Vec<Reply>) -> Self {
        ReplyList { replies }
    }
}

/// The replies of one datagram, with the number of their batch.
#[derive(Drop)]
pub struct Replies {
    pub version: u8,
    pub number: u32,
    pub replies: ReplyList,
}

ghost use Rattle.batch_packets.specs.declared.replies.Replies.{Replies};
ghost use Rattle.batch_packets.specs.ReplyGrammar.{IsReply, SpellsReplies, replies_kind};
ghost use Rattle.batch_packets.specs.Splitting.{SplitsInto};

/// Whether a datagram of this version may have the reply.
pub fn is_reply(version: u8, reply: &Reply) -> bool
    ensures { IsTrue result ↔ IsReply version reply.now }
{
    reply.status.is_of(version) && reply.value.bytes().len() <= reply.status.longest_value(version)
}

/// A reply whose value lies in the bytes that it is read from. Clauses see it as the reply.
#[derive(Drop)]
pub struct ReplyRef<'a> {
    status: Status,
    ticket: u32,
    stamp: u64,
    value: &'a [u8],
}

impl<'a> Model for ReplyRef<'a> {
    ghost use Rattle.batch_packets.specs.declared.replies.Reply.{Reply};

    ghost Value = { Reply };

    ghost view = { λ r. record { status = r.status; ticket = r.ticket; stamp = r.stamp; value = r.value.now } };
}

impl<'a> ReplyRef<'a> {
    /// The reply with a value of its own.
    fn to_reply(&self, alloc: Global) -> Result<Reply, NoMemory>
        ensures { IfOk result (λ reply. reply ≡ self.now) }
    {
        Ok(Reply {
            status: self.status,
            ticket: self.ticket,
            stamp: self.stamp,
            value: Bytes::copy(alloc, self.value)?,
        })
    }
}

impl<'a> Item<'a> for ReplyRef<'a> {
    ghost use Rattle.batch_packets.specs.ReplyGrammar.{IsReply, IsInRange, reply_text, replies_magic, replies_kind};

    ghost kind = { replies_kind };

    ghost text = { reply_text };

    ghost is_item = { IsReply };

    ghost is_in_range = { IsInRange };

    fn magic() -> [u8; 4]
        ensures { result ≡ replies_magic }
    {
        *b"MICR"
    }

    #[tactic(auto, unfolding(crate::specs::ReplyGrammar::reply_text))]
    fn read(version: u8, from: &'a [u8]) -> Result<(ReplyRef<'a>, &'a [u8]), BatchFault> {
        let [byte, zero, v0, v1, t0, t1, t2, t3, after @ ..] = from else {
            return Err(BatchFault::Short);
        };
        let Some((stamp, texts)) = read_u64(after) else {
            return Err(BatchFault::Short);
        };
        let Some(status) = Status::of(version, *byte) else {
            return Err(BatchFault::Op);
        };
        if *zero != 0 {
            return Err(BatchFault::Op);
        }
        let value_len = usize::from(u16::from_le_bytes([*v0, *v1]));
        if value_len > status.longest_value(version) {
            return Err(BatchFault::Length);
        }
        if texts.len() < value_len {
            return Err(BatchFault::Short);
        }
        let (value, rest) = texts.split_at(value_len);
        let reply = ReplyRef {
            status,
            ticket: u32::from_le_bytes([*t0, *t1, *t2, *t3]),
            stamp,
            value,
        };
        Ok((reply, rest))
    }
}

/// The replies whose text the bytes are.
#[tactic(auto, unfolding(crate::specs::ReplyGrammar::replies_datagram))]
pub fn read_replies(alloc: Global, from: &[u8]) -> Result<Replies, BatchFault>
    ensures replies { IfOk result (SpellsReplies from.now) }
    ensures fault { AgreesWith (first_fault replies_kind from.now) result }
    // The text of replies is read, unless memory runs out.
    ensures only { (replies : Replies) → SpellsReplies from.now replies
        → IsOkUnless result BatchFault.NoMemory }
{
    let (header, mut rest) = check_datagram::<ReplyRef>(from)?;
    let mut replies = Vec::with_capacity(alloc, usize::from(header.count))?;
    for _ in 0..header.count {
        let (reply, after) = next_item::<ReplyRef>(header.version, rest);
        replies.push_reserved(reply.to_reply(alloc)?);
        rest = after;
    }
    Ok(Replies {
        version: header.version,
        number: header.number,
        replies: ReplyList::from(replies),
    })
}

/// The datagrams of the replies to the batch of this number and version: each takes as many replies as fit.
pub fn write_replies(
    alloc: Global,
    replies: &[Reply],
    number: u32,
    version: u8,
) -> Result<Vec<Datagram>, NoMemory>
    requires version { IsTrue (is_version version) }
    requires each { All (IsReply version) replies.now }
    ensures { IfOk result (λ datagrams. SplitsInto version number replies.now datagrams.items) }
{
    let mut text = ReplyText::new(alloc, version, number)?;
    for reply in replies {
        text.add(reply.status, reply.ticket, reply.stamp, reply.value.bytes())?;
    }
    text.finish()
}
