//! The exchange with a server: each batch is sent once, and its replies are awaited.
ghost use Rattle.std.specs.Prelude.{◌≡◌, ◌<◌, ◌≤◌, ◌||◌, true, false, ℕ, None, length, IfOk, IfErr, OnOk, IsErrOf};
ghost use Rattle.std.specs.List.{AllZip, AllByRecursion};
ghost use Rattle.outside.specs.Faults.{Rose};
ghost use Rattle.mica_trace.specs.LawfulReport.{IsLineFor};
ghost use Rattle.batch_packets.specs.BatchGrammar.{IsBatch};
ghost use Rattle.batch_packets.specs.ReplyGrammar.{IsReplies};
ghost use Rattle.mica_client.specs.declared.options.TheConstants.{VERSION};
ghost use Rattle.server_words.specs.AskOptions.{IsValidAsk};
ghost use Rattle.mica_client.specs.Talk.{OnTalk, Passes};
ghost use Rattle.mica_client.specs.Batches.{numbered};
ghost use Rattle.mica_client.specs.Answers.{HasTickets, KeepsAnswers, KeepsAll, open_answers};
ghost use Rattle.mica_client.specs.Exchange.{lacks_answer, start, standing_at, SpellsAnswers, IsUnread, TakesReplies, IsCauseOf, MeansForAsk, Receives, StopsReading, StopsOne, Asks, StopsAsking, AsksAll, IsOfReading, is_lost};

use crate::answer_list::AnswerList;
use crate::answers::take_replies;
use crate::batches::groups_of;
use crate::link::Link;
use crate::request::Group;
use crate::{AskFault, AskOptions, VERSION};
use batch_packets::{BatchFault, BatchRef, MAX_DATAGRAM_LEN_V2, Replies, read_replies};
use mica_trace::{Report, Trace};
use std::alloc::Global;

/// The room for one datagram: a byte more than the longest, so that a longer one is still too long.
pub const ROOM: usize = MAX_DATAGRAM_LEN_V2 + 1;

// Whether some request of the batch has no answer.
fn lacks_answer(batch: &BatchRef, answers: &AnswerList) -> bool
    ensures { result ≡ lacks_answer answers.now batch.now.requests }
{
    batch
        .requests()
        .iter()
        .any(|request| !answers.is_answered(request.ticket()))
}

// The replies whose text the bytes are, or why there are none.
fn replies_in(alloc: Global, from: &[u8]) -> Result<Replies, AskFault>
    ensures replies { IfOk result (SpellsAnswers from.now) }
    ensures lawful { IfOk result IsReplies }
    ensures version { IfOk result (λ replies. replies.version ≡ VERSION) }
    ensures unread { IsErrOf result AskFault.Unread → IsUnread from.now }
    ensures fault { IfErr result IsOfReading }
    ensures not_lost { is_lost result ≡ false }
{
    let replies = match read_replies(alloc, from) {
        Ok(replies) => replies,
        Err(BatchFault::NoMemory) => return Err(AskFault::NoMemory),
        Err(_) => return Err(AskFault::Unread),
    };
    if replies.version != VERSION {
        return Err(AskFault::Unread);
    }
    Ok(replies)
}

// Receives one datagram and reads its replies.
fn receive<L: Link>(alloc: Global, link: &mut L, room: &mut [u8]) -> Result<Replies, AskFault>
    requires { length room.old ≡ ROOM }
    ensures replies { IfOk result (λ replies. OnTalk (Receives (λ bytes. SpellsAnswers bytes replies))
        (L.talk link.old) (L.talk link.new)) }
    ensures lawful { IfOk result IsReplies }
    ensures version { IfOk result (λ replies. replies.version ≡ VERSION) }
    ensures stops { IfErr result (λ fault. OnTalk (StopsReading fault) (L.talk link.old) (L.talk link.new)) }
    ensures cause { IsErrOf result AskFault.Link → Rose (L.faults link.old) (L.faults link.new) }
    ensures never_fall { L.faults link.old ≤ L.faults link.new }
    ensures ended { L.has_ended link.new ≡ (is_lost result || L.has_ended link.old) }
    ensures silence { L.silence link.new ≡ L.silence link.old }
{
    match link.recv(room)? {
        Some(count) => replies_in(alloc, &room[..count]),
        None => Err(AskFault::Lost),
    }
}

// Receives one datagram and takes its replies, while the batch waits.
fn receive_one<L: Link>(
    alloc: Global,
    link: &mut L,
    batch: &BatchRef,
    answers: &mut AnswerList,
    room: &mut [u8],
) -> Result<(), AskFault>
    requires waits { lacks_answer answers.old batch.now.requests ≡ true }
    requires tickets { HasTickets (length answers.old) batch.now.requests }
    requires room { length room.old ≡ ROOM }
    ensures taken { OnOk result (OnTalk (Receives (λ bytes. TakesReplies batch.now answers.old bytes answers.new))
        (L.talk link.old) (L.talk link.new)) }
    ensures keeps { OnOk result (KeepsAnswers batch.now.requests answers.old answers.new) }
    ensures fewer { OnOk result (open_answers answers.new < open_answers answers.old) }
    ensures stops { IfErr result (λ fault. OnTalk (StopsOne fault batch.now answers.old) (L.talk link.old) (L.talk link.new)) }
    ensures cause { IsErrOf result AskFault.Link → Rose (L.faults link.old) (L.faults link.new) }
    ensures never_fall { L.faults link.old ≤ L.faults link.new }
    ensures ended { L.has_ended link.new ≡ (is_lost result || L.has_ended link.old) }
    ensures silence { L.silence link.new ≡ L.silence link.old }
{
    match receive(alloc, link, room) {
        Ok(replies) => {
            let Replies {
                version: _,
                number,
                replies,
            } = replies;
            match take_replies(batch, number, replies, answers) {
                Ok(()) => Ok(()),
                Err(fault) => Err(fault),
            }
        }
        Err(fault) => Err(fault),
    }
}

// Sends one batch, and receives until each of its requests is answered. `text` is where it is written.
fn ask_one<L: Link>(
    alloc: Global,
    link: &mut L,
    port: u16,
    batch: &BatchRef,
    answers: &mut AnswerList,
    text: &mut Vec<u8>,
    room: &mut [u8],
) -> Result<(), AskFault>
    requires batch { IsBatch batch.now }
    requires tickets { HasTickets (length answers.old) batch.now.requests }
    requires room { length room.old ≡ ROOM }
    ensures asks { OnOk result (OnTalk (Passes (Asks (record { port = port; batch = batch.now }) answers.old answers.new))
        (L.talk link.old) (L.talk link.new)) }
    ensures answered { OnOk result (lacks_answer answers.new batch.now.requests ≡ false) }
    ensures keeps { OnOk result (KeepsAnswers batch.now.requests answers.old answers.new) }
    ensures stops { IfErr result (λ fault. OnTalk (Passes (StopsAsking fault (record { port = port; batch = batch.now }) answers.old))
        (L.talk link.old) (L.talk link.new)) }
    ensures cause { IsErrOf result AskFault.Link → Rose (L.faults link.old) (L.faults link.new) }
    ensures never_fall { L.faults link.old ≤ L.faults link.new }
    ensures ended { L.has_ended link.new ≡ (is_lost result || L.has_ended link.old) }
    ensures silence { L.silence link.new ≡ L.silence link.old }
{
    batch.write(text)?;
    link.send(port, text.as_slice())?;
    'receiving: while lacks_answer(batch, answers) {
        match receive_one(alloc, link, batch, answers, room) {
            Ok(()) => {}
            Err(fault) => return Err(fault),
        }
    }
    Ok(())
}

// Asks for all batches, in order.
fn ask_all<L: Link>(
    alloc: Global,
    link: &mut L,
    groups: Vec<Group>,
    answers: &mut AnswerList,
) -> Result<(), AskFault>
    requires batches { (n : ℕ) → AllByRecursion (λ group. IsBatch (record { version = VERSION; number = n; requests = group.requests })) groups.items }
    requires tickets { AllByRecursion (λ group. HasTickets (length answers.old) group.requests) groups.items }
    requires few { length groups.items < 4294967295 }
    ensures asks { OnOk result (OnTalk (Passes (AsksAll (numbered 0 groups.entry.items) answers.old answers.new))
        (L.talk link.old) (L.talk link.new)) }
    ensures answered { OnOk result (AllByRecursion (λ group. lacks_answer answers.new group.requests ≡ false) groups.entry.items) }
    ensures keeps { OnOk result (KeepsAll groups.entry.items answers.old answers.new) }
    ensures stops { IfErr result (λ fault. OnTalk (Passes (IsCauseOf fault (standing_at (numbered 0 groups.entry.items) None answers.old)))
        (L.talk link.old) (L.talk link.new)) }
    ensures cause { IsErrOf result AskFault.Link → Rose (L.faults link.old) (L.faults link.new) }
    ensures never_fall { L.faults link.old ≤ L.faults link.new }
    ensures ended { L.has_ended link.new ≡ (is_lost result || L.has_ended link.old) }
    ensures silence { L.silence link.new ≡ L.silence link.old }
{
    let mut text = Vec::new(alloc);
    let mut room = [0; ROOM];
    let mut number = 0;
    for group in groups {
        let port = group.port();
        let batch = group.into_batch(number);
        match ask_one(alloc, link, port, &batch, answers, &mut text, &mut room) {
            Ok(()) => number += 1,
            Err(fault) => return Err(fault),
        }
    }
    Ok(())
}

/// Asks a server for all that the trace says, and makes the report of its replies: line n is what the reply to ticket n means.
///
/// The batches are those of each round, in it of each partition. One is on its way at a time, and waits until each of its tickets
/// is answered; nothing is sent again, and the first fault ends the exchange. `options.partitions` and `options.fronts` should be the
/// server's. Every front serves all partitions, so other numbers are answered too; but then keys of one partition may go to several
/// fronts, between which no order of stamps is promised, and nobody answers at a front that the server lacks. `sent_in_order`, `answered_once` and `one_cause` say what the
/// clause `told` means for the datagrams.
///
/// ```text
/// let mut link = MemLink::new(alloc, 1_000, &[], &[])?;
/// link.add(alloc, &stored)?;  // the replies to batch 0
/// match ask(alloc, &options, &trace, &mut link) {
///     Ok(report) => print_report(&report),
///     Err(fault) => eprintln!(rt; "{fault}"),  // as `lost`, or `wrong 3`
/// }
/// ```
pub fn ask<L: Link>(
    alloc: Global,
    options: &AskOptions,
    trace: &Trace,
    link: &mut L,
) -> Result<Report, AskFault>
    requires { IsValidAsk options.now }

    // What passed shows the answer.
    ensures told { OnTalk (Passes (MeansForAsk result (start options.now trace.now))) (L.talk link.old) (L.talk link.new) }
    ensures cause { IsErrOf result AskFault.Link → Rose (L.faults link.old) (L.faults link.new) }
    ensures never_fall { L.faults link.old ≤ L.faults link.new }
    ensures ended { L.has_ended link.new ≡ (is_lost result || L.has_ended link.old) }
    ensures silence { L.silence link.new ≡ options.now.wait }
    // The report has a line for each line of the trace, by its operation.
    ensures lines { IfOk result (AllZip IsLineFor trace.now) }
{
    link.set_silence(options.wait);
    let lines = trace.lines();
    let Ok(groups) = groups_of(alloc, options, lines) else {
        return Err(AskFault::NoMemory);
    };
    let Ok(mut answers) = AnswerList::unanswered(alloc, lines) else {
        return Err(AskFault::NoMemory);
    };
    match ask_all(alloc, link, groups, &mut answers) {
        Ok(()) => Ok(answers.into_report()),
        Err(fault) => Err(fault),
    }
}
