//! What replies make of the lines that a report is to have.
ghost use Rattle.std.specs.Prelude.{◌≡◌, length, option_map, false, Ok, Err, Some, IfErr, OnOk};
ghost use Rattle.std.specs.List.{list_all};
ghost use Rattle.mica_client.specs.Answers.{is_answered, is_printable, line_of_get, outcome_of_put, outcome_of_add, outcome_of_touch, outcome_of_del, wrote, line_of, want_at, after_one, after_replies, TicketsRise, HasTickets, IsOfReply};
ghost use Rattle.mica_client.specs.Exchange.{is_lost};

use crate::AskFault;
use crate::answer_list::AnswerList;
use batch_packets::{BatchRef, Reply, ReplyList, RequestRef, Status, Want};
use mica_trace::Line;
use partition_model::{Op, Outcome};

fn is_printable(byte: u8) -> bool
    ensures { result ≡ is_printable byte }
{
    32 <= byte && byte <= 126
}

// There is no early exit, so that many bytes are judged at a time.
fn is_text(value: &[u8]) -> bool
    ensures { result ≡ list_all is_printable value.now }
{
    let mut all = true;
    for byte in value {
        all &= is_printable(*byte);
    }
    all
}

fn line_of_get(reply: Reply) -> Option<Line>
    ensures { result ≡ line_of_get reply }
{
    let Reply {
        status,
        ticket: _,
        stamp,
        value,
    } = reply;
    match status {
        Status::Hit if is_text(value.bytes()) => Some(Line::Hit { stamp, value }),
        Status::Miss => Some(Line::Miss { stamp }),
        _ => None,
    }
}

fn outcome_of_put(status: Status) -> Option<Outcome>
    ensures { result ≡ outcome_of_put status }
{
    match status {
        Status::Stored => Some(Outcome::Stored),
        Status::FullSpare => Some(Outcome::FullSpare),
        Status::FullBlock => Some(Outcome::FullBlock),
        Status::Worn => Some(Outcome::Worn),
        _ => None,
    }
}

fn outcome_of_add(status: Status) -> Option<Outcome>
    ensures { result ≡ outcome_of_add status }
{
    match status {
        Status::Exists => Some(Outcome::Exists),
        _ => outcome_of_put(status),
    }
}

fn outcome_of_touch(status: Status) -> Option<Outcome>
    ensures { result ≡ outcome_of_touch status }
{
    match status {
        Status::Absent => Some(Outcome::Absent),
        Status::Worn => Some(Outcome::Worn),
        Status::Touched => Some(Outcome::Touched),
        _ => None,
    }
}

fn outcome_of_del(status: Status) -> Option<Outcome>
    ensures { result ≡ outcome_of_del status }
{
    match status {
        Status::Deleted => Some(Outcome::Deleted),
        Status::Absent => Some(Outcome::Absent),
        Status::Worn => Some(Outcome::Worn),
        _ => None,
    }
}

fn wrote(op: Op, outcome: Option<Outcome>, stamp: u64) -> Option<Line>
    ensures { result ≡ option_map (wrote op stamp) outcome }
{
    outcome.map(|outcome| Line::Wrote { op, outcome, stamp })
}

// The line that a reply means, where its status is one of what was asked.
fn line_of(want: Want, reply: Reply) -> Option<Line>
    ensures { result ≡ line_of want reply }
{
    let Reply { status, stamp, .. } = reply;
    match want {
        Want::Get => line_of_get(reply),
        Want::Put => wrote(Op::Put, outcome_of_put(status), stamp),
        Want::Add => wrote(Op::Add, outcome_of_add(status), stamp),
        Want::Touch => wrote(Op::Touch, outcome_of_touch(status), stamp),
        Want::Del => wrote(Op::Del, outcome_of_del(status), stamp),
    }
}

// What the request with this ticket asks for. It is looked for at the likely place first.
fn want_at(requests: &[RequestRef], likely: usize, ticket: u32) -> Option<Want>
    requires { TicketsRise requests.now }
    ensures { result ≡ want_at requests.now ticket }
{
    if let Some(request) = requests.get(likely) {
        if request.ticket() == ticket {
            return Some(request.want());
        }
    }
    match requests.binary_search_by_key(&ticket, |request| request.ticket()) {
        Ok(place) => Some(requests[place].want()),
        Err(_) => None,
    }
}

// Takes one reply of a datagram of this number, while the batch waits. Its request is looked for at the likely place first.
fn take_reply(
    batch: &BatchRef,
    number: u32,
    likely: usize,
    reply: Reply,
    answers: &mut AnswerList,
) -> Result<(), AskFault>
    requires { HasTickets (length answers.old) batch.now.requests }
    ensures taken { OnOk result (after_one batch.now number reply answers.old ≡ Ok answers.new) }
    ensures shown { IfErr result (λ fault. after_one batch.now number reply answers.old ≡ Err fault) }
    ensures fault { IfErr result IsOfReply }
    ensures not_lost { is_lost result ≡ false }
{
    let ticket = reply.ticket;
    if number != batch.number() {
        return Err(AskFault::Stranger(ticket));
    }
    let Some(want) = want_at(batch.requests(), likely, ticket) else {
        return Err(AskFault::Stranger(ticket));
    };
    if answers.is_answered(ticket) {
        return Err(AskFault::Double(ticket));
    }
    let Some(line) = line_of(want, reply) else {
        return Err(AskFault::Wrong(ticket));
    };
    answers.set((ticket - 1) as usize, line);
    Ok(())
}

/// Takes the replies of a datagram of this number, while the batch waits. After a fault some of them were taken.
pub fn take_replies(
    batch: &BatchRef,
    number: u32,
    replies: ReplyList,
    answers: &mut AnswerList,
) -> Result<(), AskFault>
    requires { HasTickets (length answers.old) batch.now.requests }
    ensures taken { OnOk result (after_replies batch.now number replies answers.old ≡ Ok answers.new) }
    ensures shown { IfErr result (λ fault. after_replies batch.now number replies answers.old ≡ Err fault) }
    ensures fault { IfErr result IsOfReply }
    ensures not_lost { is_lost result ≡ false }
{
    // A server answers in the order of the requests.
    let mut likely = 0usize;
    for reply in replies.into_vec() {
        take_reply(batch, number, likely, reply, answers)?;
        likely = likely.saturating_add(1);
    }
    Ok(())
}
