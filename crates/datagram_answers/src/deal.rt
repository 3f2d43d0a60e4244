//! The requests of one datagram, each answered by its partition before the next one.
ghost use Rattle.std.specs.Prelude.{◌≡◌, ◌+◌, ◌<◌, ◌≤◌, ◌⊎◌, ◌∷◌, [], ℕ, List, length, Option, Some, None, IsTrue, IfOk, OnOk, OnErr};
ghost use Rattle.partition_model.specs.Answer.{IsAnswer};
ghost use Rattle.partition_model.specs.Write.{HasValueOf, write_of};
ghost use Rattle.batch_packets.specs.declared.batch.Request.{Request};
ghost use Rattle.batch_packets.specs.Datagram.{is_version};
ghost use Rattle.batch_packets.specs.BatchGrammar.{IsRequest};
ghost use Rattle.batch_packets.specs.Splitting.{SplitsInto};
ghost use Rattle.batch_packets.specs.declared.replies.Reply.{Reply};
ghost use Rattle.fronts.specs.Answered.{Answered};
ghost use Rattle.datagram_answers.specs.Turn.{Turn, status_of, write_in, writes_of_one, get_reply};
ghost use Rattle.datagram_answers.specs.Dealing.{bad_batch_text};
ghost use Rattle.datagram_answers.specs.Answering.{RepliesTo, AddsReply, AnswersAll, AddsAll, AnswersFirst, AreLeft, DealsWith, DealsInPart};

use crate::batch_ahead::load_ahead;
use batch_packets::{
    Datagram, Header, Reply, ReplyText, RequestRef, Requests, Status, Want, check_batch,
    max_value_len, write_replies,
};
use fronts::Front;
use outside::{Bytes, Gate, NoMemory};
use partition_model::{Answer, ItemBuf, Op, Outcome};
use std::alloc::Global;

/// The replies to a datagram, and how many requests it has: none where it is no batch.
#[derive(Drop)]
pub(crate) struct Dealt {
    pub replies: Vec<Datagram>,
    pub requests: u32,
}

/// The status of a write's reply.
fn status_of(outcome: Outcome) -> Status
    ensures { result ≡ status_of outcome }
{
    match outcome {
        Outcome::Stored => Status::Stored,
        Outcome::Deleted => Status::Deleted,
        Outcome::Absent => Status::Absent,
        Outcome::FullSpare => Status::FullSpare,
        Outcome::FullBlock => Status::FullBlock,
        Outcome::Worn => Status::Worn,
        Outcome::Exists => Status::Exists,
        Outcome::Touched => Status::Touched,
    }
}

/// Does a write, and adds its reply.
fn reply_to_write<F: Front>(
    alloc: Global,
    front: &mut F,
    op: Op,
    request: &RequestRef,
    replies: &mut ReplyText,
) -> Result<(), NoMemory>
    requires request { IsRequest replies.old.version request.now }
    requires value { HasValueOf op request.now.value }
    requires write { write_in request.now ≡ Some (write_of op request.now.key request.now.value) }
    requires left { 0 < F.left front.old }
    ensures replied { OnOk result (AddsReply (F.options front.old) F.is_alone (F.sessions front.old) replies.old request.now (F.sessions front.new) replies.new) }
    ensures err { OnErr result ((front.new ≡ front.old) ⊎ ((answered : Answered)
        × RepliesTo (F.options front.old) F.is_alone replies.old.version (F.sessions front.old) request.now (F.sessions front.new) answered)) }
    ensures left { F.left front.old ≤ F.left front.new + 1 }
    ensures options { F.options front.new ≡ F.options front.old }
    ensures number { F.number front.new ≡ F.number front.old }
    ensures stands { F.stands front.new ≡ F.stands front.old }
{
    let (outcome, stamp) = front.write(alloc, op, request.key(), request.value())?;
    replies.add(status_of(outcome), request.ticket(), stamp, &[])
}

/// The status and the value of the reply to a get, in a version, where the buffer has the value of a hit and none of a miss.
fn get_reply(version: u8, answer: Answer, value: &[u8]) -> (Status, &[u8])
    ensures { (ticket stamp : ℕ) (found : Option (List ℕ)) → IsAnswer answer value.now found
        → record { status = result.0; ticket = ticket; stamp = stamp; value = result.1.now } ≡ get_reply version ticket stamp found }
{
    if value.len() > max_value_len(version) {
        return (Status::LongHit, &value[..0]);
    }
    match answer {
        Answer::Hit => (Status::Hit, value),
        Answer::Miss => (Status::Miss, value),
    }
}

/// Gets, and adds the reply.
fn reply_to_get<F: Front>(
    front: &mut F,
    version: u8,
    request: &RequestRef,
    replies: &mut ReplyText,
    out: &mut ItemBuf,
) -> Result<(), NoMemory>
    requires version { replies.old.version ≡ version }
    requires request { IsRequest version request.now }
    requires get { write_in request.now ≡ None }
    ensures replied { OnOk result (AddsReply (F.options front.old) F.is_alone (F.sessions front.old) replies.old request.now (F.sessions front.new) replies.new) }
    ensures err { OnErr result ((answered : Answered)
        × RepliesTo (F.options front.old) F.is_alone replies.old.version (F.sessions front.old) request.now (F.sessions front.new) answered) }
    ensures left { F.left front.new ≡ F.left front.old }
    ensures options { F.options front.new ≡ F.options front.old }
    ensures number { F.number front.new ≡ F.number front.old }
    ensures stands { F.stands front.new ≡ F.stands front.old }
{
    let (answer, stamp) = front.read(request.key(), out);
    let (status, value) = get_reply(version, answer, out.value());
    replies.add(status, request.ticket(), stamp, value)
}

/// Answers one request, and adds its reply.
fn reply_to<F: Front>(
    alloc: Global,
    front: &mut F,
    version: u8,
    request: &RequestRef,
    replies: &mut ReplyText,
    out: &mut ItemBuf,
) -> Result<(), NoMemory>
    requires version { replies.old.version ≡ version }
    requires request { IsRequest version request.now }
    requires left { 0 < F.left front.old }
    ensures replied { OnOk result (AddsReply (F.options front.old) F.is_alone (F.sessions front.old) replies.old request.now (F.sessions front.new) replies.new) }
    ensures err { OnErr result ((front.new ≡ front.old) ⊎ ((answered : Answered)
        × RepliesTo (F.options front.old) F.is_alone replies.old.version (F.sessions front.old) request.now (F.sessions front.new) answered)) }
    ensures left { F.left front.old ≤ F.left front.new + writes_of_one request.now }
    ensures options { F.options front.new ≡ F.options front.old }
    ensures number { F.number front.new ≡ F.number front.old }
    ensures stands { F.stands front.new ≡ F.stands front.old }
{
    match request.want() {
        Want::Get => reply_to_get(front, version, request, replies, out),
        Want::Put => reply_to_write(alloc, front, Op::Put, request, replies),
        Want::Del => reply_to_write(alloc, front, Op::Del, request, replies),
        Want::Add => reply_to_write(alloc, front, Op::Add, request, replies),
        Want::Touch => reply_to_write(alloc, front, Op::Touch, request, replies),
    }
}

/// Answers the requests of a batch that are left, so many, each before the next one begins, and adds their replies.
fn reply_to_all<F: Front, G: Gate>(
    alloc: Global,
    front: &mut F,
    count: u8,
    requests: &mut Requests,
    version: u8,
    gate: &G,
    replies: &mut ReplyText,
    out: &mut ItemBuf,
) -> Result<(), NoMemory>
    requires some { (all : List Request) × AreLeft requests.old version count all }
    requires version { replies.old.version ≡ version }
    requires left { 255 ≤ F.left front.old }
    ensures all { OnOk result ((all : List Request) → AreLeft requests.old version count all
        → AddsAll (F.options front.old) F.is_alone (F.sessions front.old) (F.left front.old) replies.old
        all (F.sessions front.new) (F.left front.new) replies.new) }
    ensures first { OnErr result ((all : List Request) → AreLeft requests.old version count all
        → AnswersFirst (F.options front.old) F.is_alone (F.sessions front.old) (F.left front.old)
        all (F.sessions front.new) (F.left front.new)) }
    ensures left { F.left front.old ≤ F.left front.new + 255 }
    ensures options { F.options front.new ≡ F.options front.old }
    ensures number { F.number front.new ≡ F.number front.old }
    ensures stands { F.stands front.new ≡ F.stands front.old }
{
    for number in 0..count {
        gate.turn(0, u32::from(number));
        let request = requests.next_request();
        reply_to(alloc, front, version, &request, replies, out)?;
    }
    Ok(())
}

/// The one datagram that is due to bytes that are no batch.
#[tactic(auto, unfolding(batch_packets::specs::ReplyGrammar::status_byte))]
fn bad_batch(alloc: Global) -> Result<Vec<Datagram>, NoMemory>
    ensures { IfOk result (λ datagrams. datagrams.items ≡ bad_batch_text ∷ []) }
{
    let reply = Reply {
        status: Status::BadBatch,
        ticket: 0,
        stamp: 0,
        value: Bytes::empty(alloc),
    };
    write_replies(alloc, &[reply], 0, 1)
}

/// What is made of bytes that are no batch.
fn refuse(alloc: Global) -> Result<Dealt, NoMemory>
    ensures { IfOk result (λ dealt. (dealt.requests ≡ 0) × (dealt.replies.items ≡ bad_batch_text ∷ [])) }
{
    Ok(Dealt {
        replies: bad_batch(alloc)?,
        requests: 0,
    })
}

/// The replies to a batch whose requests are left, and how many these are.
fn answer<F: Front, G: Gate>(
    alloc: Global,
    front: &mut F,
    header: &Header,
    requests: &mut Requests,
    gate: &G,
    out: &mut ItemBuf,
) -> Result<Dealt, NoMemory>
    requires some { (all : List Request) × AreLeft requests.old header.now.version header.now.count all }
    requires version { IsTrue (is_version header.now.version) }
    requires left { 255 ≤ F.left front.old }
    ensures dealt { IfOk result (λ dealt. (all : List Request) → AreLeft requests.old header.now.version header.now.count all
        → (replies : List Reply) × (dealt.requests ≡ length all) × SplitsInto header.now.version header.now.number replies dealt.replies.items
        × AnswersAll (F.options front.old) F.is_alone header.now.version (F.sessions front.old) (F.left front.old)
        all (F.sessions front.new) (F.left front.new) replies) }
    ensures first { OnErr result ((all : List Request) → AreLeft requests.old header.now.version header.now.count all
        → AnswersFirst (F.options front.old) F.is_alone (F.sessions front.old) (F.left front.old)
        all (F.sessions front.new) (F.left front.new)) }
    ensures few { IfOk result (λ dealt. dealt.requests ≤ 255) }
    ensures left { F.left front.old ≤ F.left front.new + 255 }
    ensures options { F.options front.new ≡ F.options front.old }
    ensures number { F.number front.new ≡ F.number front.old }
    ensures stands { F.stands front.new ≡ F.stands front.old }
{
    let Header {
        version,
        count,
        number,
    } = *header;
    let mut replies = ReplyText::new(alloc, version, number)?;
    load_ahead(front, count, requests);
    reply_to_all(
        alloc,
        front,
        count,
        requests,
        version,
        gate,
        &mut replies,
        out,
    )?;
    Ok(Dealt {
        replies: replies.finish()?,
        requests: u32::from(count),
    })
}

/// The replies to a datagram, and how many requests it has.
pub(crate) fn deal<F: Front, G: Gate>(
    alloc: Global,
    front: &mut F,
    from: &[u8],
    gate: &G,
    out: &mut ItemBuf,
) -> Result<Dealt, NoMemory>
    requires { 255 ≤ F.left front.old }
    ensures dealt { IfOk result (λ dealt. (turns : List Turn) × (dealt.requests ≡ length turns)
        × DealsWith (F.options front.old) F.is_alone (F.sessions front.old) (F.left front.old)
        (record { datagram = from.now; turns = turns; replies = dealt.replies.items })
        (F.sessions front.new) (F.left front.new)) }
    ensures partly { OnErr result (DealsInPart (F.options front.old) F.is_alone
        (F.sessions front.old) (F.left front.old) from.now (F.sessions front.new) (F.left front.new)) }
    ensures few { IfOk result (λ dealt. dealt.requests ≤ 255) }
    ensures left { F.left front.old ≤ F.left front.new + 255 }
    ensures options { F.options front.new ≡ F.options front.old }
    ensures number { F.number front.new ≡ F.number front.old }
    ensures stands { F.stands front.new ≡ F.stands front.old }
{
    match check_batch(from) {
        Ok((header, mut requests)) => { answer(alloc, front, &header, &mut requests, gate, out) }
        Err(_) => refuse(alloc),
    }
}
