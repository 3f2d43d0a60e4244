//! Batches and replies as datagrams: what is read is what was written, and the fault of what can't be read.

ghost use Rattle.std.specs.Prelude.{◌≡◌, IsTrue};
ghost use Rattle.batch_packets.specs.Datagram.{is_version};
ghost use Rattle.batch_packets.specs.BatchGrammar.{IsBatch};
ghost use Rattle.batch_packets.specs.ReplyGrammar.{IsReplies};

use crate::text::{first_word, say, small};
use batch_packets::{
    Batch, BatchFault, BatchRef, Replies, Reply, RequestRef, Status, Want, is_reply, is_version,
    read_batch, read_replies, write_batch, write_replies,
};
use outside::{Bytes, NoMemory};
use std::alloc::Global;

fn fault_name(fault: BatchFault) -> &'static str {
    match fault {
        BatchFault::Short => "short",
        BatchFault::Magic => "magic",
        BatchFault::Version => "version",
        BatchFault::Count => "count",
        BatchFault::Op => "operation",
        BatchFault::Length => "length",
        BatchFault::Trailing => "trailing",
        BatchFault::NoMemory => "no memory",
    }
}

fn want_name(want: Want) -> &'static str {
    match want {
        Want::Get => "get",
        Want::Put => "put",
        Want::Del => "del",
        Want::Add => "add",
        Want::Touch => "touch",
    }
}

fn status_name(status: Status) -> &'static str {
    match status {
        Status::Hit => "hit",
        Status::Miss => "miss",
        Status::Stored => "stored",
        Status::Deleted => "deleted",
        Status::Absent => "absent",
        Status::FullSpare => "full spare",
        Status::FullBlock => "full block",
        Status::Worn => "worn",
        Status::BadBatch => "bad batch",
        Status::LongHit => "long hit",
        Status::Exists => "exists",
        Status::Touched => "touched",
    }
}

/// The text of a batch that is written from requests which lend its texts; nothing where it has none.
fn lent_text(alloc: Global, batch: &Batch) -> Result<Vec<u8>, NoMemory> {
    let mut requests = Vec::new(alloc);
    for request in batch.requests.as_slice() {
        let (key, value) = (request.key.bytes(), request.value.bytes());
        requests.push(RequestRef::new(request.want, request.ticket, key, value))?;
    }
    let lent = BatchRef::new(batch.version, batch.number, requests);
    let mut text = Vec::new(alloc);
    if lent.is_batch() {
        lent.write(&mut text)?;
    }
    Ok(text)
}

/// Whether a batch is written as this text: from lent requests, and from its own.
fn is_written(alloc: Global, batch: &Batch, text: &[u8]) -> Result<bool, NoMemory>
    requires { IsBatch batch.now }
{
    let lent = batch.lend(alloc)?;
    let written = write_batch(alloc, batch)?;
    let of_lent = lent_text(alloc, batch)?;
    Ok(
        lent.is_batch()
            && lent.text_len() == text.len()
            && written.bytes() == text
            && of_lent.as_slice() == text,
    )
}

/// The number of a batch, its requests, and whether it is written otherwise; or its fault.
pub fn batch(alloc: Global, text: &[u8], into: &mut Vec<u8>) -> Result<(), NoMemory> {
    let batch = match read_batch(alloc, text) {
        Ok(batch) => batch,
        Err(fault) => {
            say(into, fault_name(fault))?;
            return say(into, "\n");
        }
    };
    let number = batch.number;
    say(into, format!(in alloc; "number {number}\n")?.as_str())?;
    for request in batch.requests.as_slice() {
        let (want, ticket) = (want_name(request.want), request.ticket);
        say(into, format!(in alloc; "{want} {ticket} ")?.as_str())?;
        into.extend_from_slice(request.key.bytes())?;
        say(into, ":")?;
        into.extend_from_slice(request.value.bytes())?;
        say(into, "\n")?;
    }
    if !is_written(alloc, &batch, text)? {
        say(into, "written otherwise\n")?;
    }
    Ok(())
}

/// The first letter of a batch's fault, and a full stop where it has none.
fn letter(alloc: Global, text: &[u8]) -> u8 {
    match read_batch(alloc, text) {
        Ok(_) => b'.',
        Err(fault) => *fault_name(fault).as_bytes().first().unwrap_or(&b'?'),
    }
}

/// The faults of each front of a batch.
pub fn fronts(alloc: Global, text: &[u8], into: &mut Vec<u8>) -> Result<(), NoMemory> {
    for len in 0..text.len() {
        into.push(letter(alloc, &text[..len]))?;
    }
    say(into, "\n")
}

/// What each byte is changed to.
static BYTES: [u8; 6] = [0, 1, 2, 3, 4, 255];

/// The faults of a batch whose bytes are each changed to each of six, a line for each place.
pub fn changes(alloc: Global, text: &[u8], into: &mut Vec<u8>) -> Result<(), NoMemory> {
    for at in 0..text.len() {
        for byte in &BYTES {
            let mut changed = Vec::from_slice(alloc, text)?;
            changed[at] = *byte;
            into.push(letter(alloc, changed.as_slice()))?;
        }
        say(into, "\n")?;
    }
    Ok(())
}

/// Whether the replies are written as one datagram of this text, in their version.
fn are_written(alloc: Global, read: &Replies, text: &[u8]) -> Result<bool, NoMemory>
    requires { IsReplies read.now }
{
    let written = write_replies(alloc, read.replies.as_slice(), read.number, read.version)?;
    Ok(match written.as_slice() {
        [one] => one.bytes() == text,
        _ => false,
    })
}

/// The number of replies, each of them, and whether they are written otherwise.
pub fn replies(alloc: Global, text: &[u8], into: &mut Vec<u8>) -> Result<(), NoMemory> {
    let Ok(read) = read_replies(alloc, text) else {
        return say(into, "no replies\n");
    };
    let number = read.number;
    say(into, format!(in alloc; "number {number}\n")?.as_str())?;
    for reply in read.replies.as_slice() {
        let (status, ticket, stamp) = (status_name(reply.status), reply.ticket, reply.stamp);
        say(
            into,
            format!(in alloc; "{status} {ticket} {stamp}:")?.as_str(),
        )?;
        into.extend_from_slice(reply.value.bytes())?;
        say(into, "\n")?;
    }
    if !are_written(alloc, &read, text)? {
        say(into, "written otherwise\n")?;
    }
    Ok(())
}

/// So many misses, under tickets from 0.
fn misses(alloc: Global, count: u32) -> Result<Vec<Reply>, NoMemory> {
    let mut replies = Vec::new(alloc);
    for ticket in 0..count {
        replies.push(Reply {
            status: Status::Miss,
            ticket,
            stamp: 0,
            value: Bytes::empty(alloc),
        })?;
    }
    Ok(replies)
}

/// The datagrams of so many misses in a version, each read again.
pub fn split(alloc: Global, words: &str, into: &mut Vec<u8>) -> Result<(), NoMemory> {
    let (version, count) = first_word(words);
    let version = version.parse::<u8>().unwrap_or(0);
    let all = misses(alloc, small(count).unwrap_or(0))?;
    if !is_version(version) {
        return say(into, "no version\n");
    }
    if !all.iter().all(|reply| is_reply(version, reply)) {
        return say(into, "no replies\n");
    }
    let written = write_replies(alloc, all.as_slice(), 7, version)?;
    for datagram in &written {
        replies(alloc, datagram.bytes(), into)?;
    }
    Ok(())
}
