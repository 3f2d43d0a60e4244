//! One visit of a connection.
ghost use Rattle.std.specs.Prelude.{◌≡◌, ◌≢◌, ◌⊎◌, ◌<◌, ◌≤◌, ◌+◌, ◌++◌, true, false, [], length, take, drop, Some, IfOk, IfSome, MatchResult, vec_len};
ghost use Rattle.mica_words.specs.Mark.{has_marks};
ghost use Rattle.memcached_text.specs.declared.limits.TheConstants.{MAX_WAITING_LEN};
ghost use Rattle.connection_loop.specs.declared.desk.TheConstants.{MOST_UNSENT, ROOM_LEN};
ghost use Rattle.connections.specs.Calls.{Leaves};
ghost use Rattle.connection_loop.specs.Calls.{KeepsHand};
ghost use Rattle.connection_loop.specs.Clients.{IsClient};
ghost use Rattle.connection_loop.specs.Going.{GoesBySome};
ghost use Rattle.memcached_requests.specs.declared.request.Next.TheVariants.{More};
ghost use Rattle.memcached_requests.specs.Next.{next_of};
ghost use Rattle.connection_loop.specs.Paid.{Advances, IsPaid, MayAnswer, PaysFor, SpeaksWhere};
ghost use Rattle.connection_loop.specs.Turns.{most_answers};
ghost use Rattle.connection_loop.specs.Reached.{GoesOnTo, SpokeBehind, HaltsAs, leaves, position_at, position_of};
ghost use Rattle.connection_loop.specs.Traffic.{OnHeld, ReadsTo, SendsFrom, SendsSome, is_drained};
ghost use Rattle.connection_loop.specs.Held.{IsAtRest, Lacks, Looks, VisitLacks, Visits, filled_bytes, leaves_by};
ghost use Rattle.connection_loop.specs.Open.{IsOpen, Keeps, OnLogs};

use crate::answer::Halt;
use crate::calls::{receive, send};
use crate::client::Client;
use crate::desk::Desk;
use crate::hand::Hand;
use crate::kept::KeptBytes;
use crate::look::{Lying, look_at};
use command_answers::Buffers;
use connections::{Broken, Connections, Input};
use fronts::CountsWrites;
use memcached_stats::{Counter, Tally};
use outside::NoMemory;
use std::alloc::Global;
use std::mem;

/// What becomes of a connection.
#[derive(Clone, Copy)]
pub enum After {
    /// It waits for its peer.
    Waits,
    /// There may be more to do at once.
    Again,
    /// It is to be closed.
    Over,
}

/// Sends the replies that wait, and says whether all were taken.
#[tactic(auto, using(crate::proofs::Opening::still_open))]
fn send_unsent<C: Connections>(
    connections: &mut C,
    number: u32,
    client: &mut Client,
    tally: &mut Tally,
) -> Result<bool, Broken>
    requires client { IsClient client.old }
    requires open { IfSome (C.log connections.old) (IsOpen number client.old.asks) }
    ensures client { IsClient client.new }
    ensures position { position_of client.new ≡ position_of client.old }
    ensures leaving { client.new.leaving ≡ client.old.leaving }
    ensures asks { client.new.asks ≡ client.old.asks }
    ensures all { IfOk result (λ all. all ≡ true → client.new.unsent ≡ []) }
    ensures some { IfOk result (λ all. all ≡ false → client.new.unsent ≢ []) }
    ensures sends { OnLogs (OnHeld number (SendsFrom client.old.unsent client.new.unsent result)) (C.log connections.old) (C.log connections.new) }
    ensures keeps { OnLogs Keeps (C.log connections.old) (C.log connections.new) }
    ensures port { Leaves C.log C.has_ended C.faults C.share C.reports connections.old connections.new }
    ensures rises { C.last connections.old ≤ C.last connections.new }
{
    let sent = send(connections, number, client.asks, client.unsent.bytes())?;
    tally.raise(Counter::Sent, sent as u64);
    client.unsent.drop_front(sent);
    Ok(client.unsent.bytes().is_empty())
}

/// Sends new replies, and keeps those that are not taken. Says whether all were.
#[tactic(auto, using(crate::proofs::Opening::still_open))]
fn send_new<C: Connections>(
    alloc: Global,
    connections: &mut C,
    number: u32,
    client: &mut Client,
    replies: &[u8],
    tally: &mut Tally,
) -> Result<Result<bool, Broken>, NoMemory>
    requires client { IsClient client.old }
    requires none { client.old.unsent ≡ [] }
    requires open { IfSome (C.log connections.old) (IsOpen number client.old.asks) }
    ensures client { IfOk result (λ _. IsClient client.new) }
    ensures position { IfOk result (λ _. position_of client.new ≡ position_of client.old) }
    ensures leaving { IfOk result (λ _. client.new.leaving ≡ client.old.leaving) }
    ensures asks { client.new.asks ≡ client.old.asks }
    ensures all { IfOk result (λ sent. IfOk sent (λ all. all ≡ true → client.new.unsent ≡ [])) }
    ensures some { IfOk result (λ sent. IfOk sent (λ all. all ≡ false → client.new.unsent ≢ [])) }
    ensures sends { MatchResult result (λ sent. OnLogs (OnHeld number (SendsFrom replies.now client.new.unsent sent)) (C.log connections.old) (C.log connections.new))
        (λ _. OnLogs (OnHeld number (SendsSome replies.now)) (C.log connections.old) (C.log connections.new)) }
    ensures keeps { OnLogs Keeps (C.log connections.old) (C.log connections.new) }
    ensures port { Leaves C.log C.has_ended C.faults C.share C.reports connections.old connections.new }
    ensures rises { C.last connections.old ≤ C.last connections.new }
{
    let sent = match send(connections, number, client.asks, replies) {
        Ok(sent) => sent,
        Err(Broken) => return Ok(Err(Broken)),
    };
    tally.raise(Counter::Sent, sent as u64);
    if sent < replies.len() {
        client.unsent.keep(alloc, &replies[sent..])?;
        return Ok(Ok(false));
    }
    Ok(Ok(true))
}

/// Counts the bytes that a read gave.
fn count_input(input: Option<Input>, tally: &mut Tally) {
    if let Some(Input::Bytes(count) | Input::All(count)) = input {
        tally.raise(Counter::Received, count as u64);
    }
}

/// Reads once behind what was kept, into the room. Says how many bytes lie there, and what the read gave.
#[tactic(auto, using(crate::proofs::Opening::same_keeps, crate::proofs::Opening::fewer_asks))]
fn fill<C: Connections>(
    connections: &mut C,
    number: u32,
    client: &mut Client,
    room: &mut [u8],
) -> Result<(usize, Option<Input>), Broken>
    requires room { length room.old ≡ ROOM_LEN }
    requires fits { length client.old.kept < ROOM_LEN }
    requires client { IsClient client.old }
    requires first { client.old.done ≡ 0 }
    requires open { IfSome (C.log connections.old) (IsOpen number client.old.asks) }
    ensures room { length room.new ≡ ROOM_LEN }
    ensures fits { IfOk result (λ filled. filled.0 ≤ ROOM_LEN) }
    ensures kept { IfOk result (λ filled. take filled.0 room.new ≡ client.old.kept ++ drop (length client.old.kept) (take filled.0 room.new)) }
    ensures reads { OnLogs (OnHeld number (ReadsTo (λ filled. filled.1) (filled_bytes (length client.old.kept) room.new result) result))
        (C.log connections.old) (C.log connections.new) }
    ensures client { IsClient client.new }
    ensures pays { IfOk result (λ filled. PaysFor client.new filled.0 filled.1) }
    ensures position { position_of client.new ≡ position_of client.old }
    ensures leaving { client.new.leaving ≡ client.old.leaving }
    ensures unsent { client.new.unsent ≡ client.old.unsent }
    ensures open { IfSome (C.log connections.new) (IsOpen number client.new.asks) }
    ensures keeps { OnLogs Keeps (C.log connections.old) (C.log connections.new) }
    ensures port { Leaves C.log C.has_ended C.faults C.share C.reports connections.old connections.new }
    ensures rises { C.last connections.old ≤ C.last connections.new }
{
    let kept = client.kept.bytes();
    let had = kept.len();
    room[..had].copy_from_slice(kept);
    let input = receive(connections, number, client.asks, &mut room[had..])?;
    if let Input::Bytes(count) | Input::All(count) = input {
        client.asks = client.asks.saturating_add(2 * count as u64);
        return Ok((had + count, Some(input)));
    }
    Ok((had, Some(input)))
}

/// Answers what lies in the room, but for what is to be dropped.
fn look_at_room<F: CountsWrites>(
    hand: &mut Hand<F>,
    client: &mut Client,
    bytes: &[u8],
    buffers: &mut Buffers,
    replies: &mut Vec<u8>,
) -> Result<Halt, NoMemory>
    requires client { IsClient client.old }
    requires first { client.old.done ≡ 0 }
    requires reading { client.old.leaving ≡ false }
    requires short { length bytes.now ≤ MAX_WAITING_LEN }
    requires paid { length bytes.now ≤ client.old.asks }
    requires kept { bytes.now ≡ client.old.kept ++ drop (length client.old.kept) bytes.now }
    requires partitions { hand.old.numbering.partitions ≡ (F.options hand.old.front).partitions }
    requires marks { has_marks (F.options hand.old.front).hashing ≡ true }
    ensures client { IfOk result (λ _. IsClient client.new) }
    ensures leaving { IfOk result (λ halt. client.new.leaving ≡ leaves halt) }
    ensures few { IfOk result (λ _. length replies.new.items ≤ MOST_UNSENT) }
    ensures unsent { client.new.unsent ≡ client.old.unsent }
    ensures asks { client.new.asks ≡ client.old.asks }
    ensures waits { IfOk result (λ halt. halt ≡ Halt.Needs → next_of client.new.kept ≡ More) }
    ensures advances { IfOk result (λ halt. Advances (MayAnswer hand.old.numbering.partitions (F.left hand.old.front)) ((halt ≡ Halt.Needs) × (length client.old.kept < MAX_WAITING_LEN))
        (position_at bytes.now 0) (position_of client.new)) }
    ensures talk { GoesBySome (F.options hand.old.front) F.is_alone (F.sessions hand.old.front) (F.left hand.old.front) hand.old.second (F.sessions hand.new.front) (F.left hand.new.front) hand.new.second
        (λ answers. (length answers ≤ most_answers (F.options hand.old.front)) × MatchResult result (λ halt. GoesOnTo (F.options hand.old.front) hand.old.numbering.base (position_of client.old) answers [] replies.new.items
        (λ received given due. HaltsAs (F.options hand.old.front) hand.old.numbering.base MAX_WAITING_LEN halt (position_of client.new)
        (received ++ drop (length client.old.kept) bytes.now) given due)
        × SpeaksWhere (MayAnswer hand.old.numbering.partitions (F.left hand.old.front)) halt answers [] replies.new.items)
        (λ _. SpokeBehind (F.options hand.old.front) hand.old.numbering.base MAX_WAITING_LEN (position_of client.old) (drop (length client.old.kept) bytes.now) answers)) }
    ensures second { hand.new.second ≡ hand.old.second }
    ensures same { KeepsHand F.options F.number F.stands hand.old hand.new }
{
    if client.dropping > bytes.len() {
        client.dropping -= bytes.len();
        replies.clear();
        return Ok(Halt::Needs);
    }
    let bytes = &bytes[client.dropping..];
    look_at(hand, client, Lying::Room(bytes), 0, buffers, replies)
}

/// Reads once behind what is kept, into its own buffer, and answers. Says why no more was answered, and what the read gave.
#[tactic(auto, using(crate::proofs::Opening::still_open, crate::proofs::Opening::same_keeps))]
fn answer_own<F: CountsWrites, C: Connections>(
    hand: &mut Hand<F>,
    connections: &mut C,
    number: u32,
    client: &mut Client,
    buffers: &mut Buffers,
    replies: &mut Vec<u8>,
) -> Result<Result<(Halt, Option<Input>), Broken>, NoMemory>
    requires client { IsClient client.old }
    requires first { client.old.done ≡ 0 }
    requires some { 0 < length client.old.kept }
    requires open { IfSome (C.log connections.old) (IsOpen number client.old.asks) }
    requires partitions { hand.old.numbering.partitions ≡ (F.options hand.old.front).partitions }
    requires marks { has_marks (F.options hand.old.front).hashing ≡ true }
    requires left { MayAnswer hand.old.numbering.partitions (F.left hand.old.front) }
    ensures client { IfOk result (λ _. IsClient client.new) }
    ensures leaving { IfOk result (λ r. IfOk r (λ stood. client.new.leaving ≡ leaves stood.0)) }
    ensures unsent { IfOk result (λ _. client.new.unsent ≡ client.old.unsent) }
    ensures again { IfOk result (λ r. IfOk r (λ stood. IsAtRest stood.0 stood.1 ⊎ IsPaid 1 client.new)) }
    ensures talk { GoesBySome (F.options hand.old.front) F.is_alone (F.sessions hand.old.front) (F.left hand.old.front) (C.last connections.old) (F.sessions hand.new.front) (F.left hand.new.front) (C.last connections.new)
        (λ answers. MatchResult result
        (λ r. OnLogs (OnHeld number (Looks (F.options hand.old.front) hand.old.numbering.base client.old answers replies.new.items client.new r)) (C.log connections.old) (C.log connections.new))
        (λ _. OnLogs (OnHeld number (Lacks (F.options hand.old.front) hand.old.numbering.base client.old answers)) (C.log connections.old) (C.log connections.new))) }
    ensures open { IfSome (C.log connections.new) (IsOpen number client.new.asks) }
    ensures keeps { OnLogs Keeps (C.log connections.old) (C.log connections.new) }
    ensures port { Leaves C.log C.has_ended C.faults C.share C.reports connections.old connections.new }
    ensures same { KeepsHand F.options F.number F.stands hand.old hand.new }
{
    let read = client.read_on(connections, number)?;
    let input = match read {
        Ok(input) => input,
        Err(Broken) => return Ok(Err(Broken)),
    };
    count_input(input, &mut buffers.tally);
    hand.second = connections.second();
    let kept = mem::replace(&mut client.kept, KeptBytes::nothing());
    let halt = look_at(hand, client, Lying::Own(kept), 0, buffers, replies)?;
    Ok(Ok((halt, input)))
}

/// Goes on with a command that was answered in part, or reads once and answers. Says why no more was answered, and what the read gave.
#[tactic(auto, using(crate::proofs::Opening::still_open, crate::proofs::Opening::same_keeps))]
fn answer_more<F: CountsWrites, C: Connections>(
    hand: &mut Hand<F>,
    connections: &mut C,
    number: u32,
    client: &mut Client,
    desk: &mut Desk,
) -> Result<Result<(Halt, Option<Input>), Broken>, NoMemory>
    requires room { vec_len desk.old.room ≡ ROOM_LEN }
    requires client { IsClient client.old }
    requires reading { client.old.leaving ≡ false }
    requires open { IfSome (C.log connections.old) (IsOpen number client.old.asks) }
    requires partitions { hand.old.numbering.partitions ≡ (F.options hand.old.front).partitions }
    requires marks { has_marks (F.options hand.old.front).hashing ≡ true }
    requires left { MayAnswer hand.old.numbering.partitions (F.left hand.old.front) }
    ensures room { vec_len desk.new.room ≡ ROOM_LEN }
    ensures client { IfOk result (λ _. IsClient client.new) }
    ensures leaving { IfOk result (λ r. IfOk r (λ stood. client.new.leaving ≡ leaves stood.0)) }
    ensures unsent { IfOk result (λ _. client.new.unsent ≡ client.old.unsent) }
    ensures again { IfOk result (λ r. IfOk r (λ stood. IsAtRest stood.0 stood.1 ⊎ IsPaid 1 client.new)) }
    ensures talk { GoesBySome (F.options hand.old.front) F.is_alone (F.sessions hand.old.front) (F.left hand.old.front) (C.last connections.old) (F.sessions hand.new.front) (F.left hand.new.front) (C.last connections.new)
        (λ answers. MatchResult result
        (λ r. OnLogs (OnHeld number (Looks (F.options hand.old.front) hand.old.numbering.base client.old answers desk.new.replies.items client.new r)) (C.log connections.old) (C.log connections.new))
        (λ _. OnLogs (OnHeld number (Lacks (F.options hand.old.front) hand.old.numbering.base client.old answers)) (C.log connections.old) (C.log connections.new))) }
    ensures open { IfSome (C.log connections.new) (IsOpen number client.new.asks) }
    ensures keeps { OnLogs Keeps (C.log connections.old) (C.log connections.new) }
    ensures port { Leaves C.log C.has_ended C.faults C.share C.reports connections.old connections.new }
    ensures same { KeepsHand F.options F.number F.stands hand.old hand.new }
{
    let Desk {
        room,
        replies,
        buffers,
    } = desk;
    if client.done > 0 {
        let kept = mem::replace(&mut client.kept, KeptBytes::nothing());
        let done = client.done;
        hand.second = connections.second();
        let halt = look_at(hand, client, Lying::Own(kept), done, buffers, replies)?;
        return Ok(Ok((halt, None)));
    }
    if client.kept.reads_on() {
        return answer_own(hand, connections, number, client, buffers, replies);
    }
    let (len, input) = match fill(connections, number, client, room.as_mut_slice()) {
        Ok(filled) => filled,
        Err(Broken) => return Ok(Err(Broken)),
    };
    count_input(input, &mut buffers.tally);
    hand.second = connections.second();
    let bytes = &room[..len];
    let halt = look_at_room(hand, client, bytes, buffers, replies)?;
    Ok(Ok((halt, input)))
}

/// Whether no more is read of a connection: the client asked for the end; or it sends no more, and nothing whole is left.
fn leaves_by(halt: Halt, input: Option<Input>) -> bool
    ensures { result ≡ leaves_by halt input }
{
    match halt {
        Halt::Leaves => true,
        Halt::Needs => matches!(input, Some(Input::Ended)),
        Halt::Enough => false,
    }
}

/// What becomes of a connection once all replies were taken.
fn after_all(leaving: bool, halt: Halt, input: Option<Input>) -> After
    ensures over { leaving ≡ true → result ≡ After.Over }
    ensures open { leaving ≡ false → result ≢ After.Over }
    ensures waits { result ≡ After.Waits → (halt ≡ Halt.Needs) × (is_drained input ≡ true) }
    ensures again { leaving ≡ leaves_by halt input → IsAtRest halt input → result ≢ After.Again }
{
    if leaving {
        return After::Over;
    }
    match (halt, input) {
        (Halt::Needs, Some(Input::Later | Input::All(_))) => After::Waits,
        _ => After::Again,
    }
}

/// Sends what waits; where all of it was taken, answers more, and sends the replies.
#[tactic(auto, using(crate::proofs::Opening::still_open, crate::proofs::Opening::keeps_on))]
pub(crate) fn visit_once<F: CountsWrites, C: Connections>(
    hand: &mut Hand<F>,
    connections: &mut C,
    number: u32,
    client: &mut Client,
    desk: &mut Desk,
) -> Result<After, NoMemory>
    requires room { vec_len desk.old.room ≡ ROOM_LEN }
    requires client { IsClient client.old }
    requires open { IfSome (C.log connections.old) (IsOpen number client.old.asks) }
    requires partitions { hand.old.numbering.partitions ≡ (F.options hand.old.front).partitions }
    requires marks { has_marks (F.options hand.old.front).hashing ≡ true }
    requires left { MayAnswer hand.old.numbering.partitions (F.left hand.old.front) }
    ensures room { vec_len desk.new.room ≡ ROOM_LEN }
    ensures client { IfOk result (λ _. IsClient client.new) }
    ensures again { IfOk result (λ after. after ≡ After.Again → IsPaid 1 client.new) }
    ensures talks { GoesBySome (F.options hand.old.front) F.is_alone (F.sessions hand.old.front) (F.left hand.old.front) (C.last connections.old) (F.sessions hand.new.front) (F.left hand.new.front) (C.last connections.new)
        (λ answers. MatchResult result
        (λ after. OnLogs (OnHeld number (Visits (F.options hand.old.front) hand.old.numbering.base 1 client.old answers client.new after)) (C.log connections.old) (C.log connections.new))
        (λ _. OnLogs (OnHeld number (VisitLacks (F.options hand.old.front) hand.old.numbering.base 1 client.old answers)) (C.log connections.old) (C.log connections.new))) }
    ensures open { IfSome (C.log connections.new) (IsOpen number client.new.asks) }
    ensures keeps { OnLogs Keeps (C.log connections.old) (C.log connections.new) }
    ensures port { Leaves C.log C.has_ended C.faults C.share C.reports connections.old connections.new }
    ensures same { KeepsHand F.options F.number F.stands hand.old hand.new }
{
    match send_unsent(connections, number, client, &mut desk.buffers.tally) {
        Ok(true) => {}
        Ok(false) => return Ok(After::Waits),
        Err(Broken) => return Ok(After::Over),
    }
    if client.leaving {
        return Ok(After::Over);
    }
    let answered = answer_more(hand, connections, number, client, desk)?;
    let (halt, input) = match answered {
        Ok(answered) => answered,
        Err(Broken) => return Ok(After::Over),
    };
    client.leaving = leaves_by(halt, input);
    let tally = &mut desk.buffers.tally;
    match send_new(
        hand.alloc,
        connections,
        number,
        client,
        desk.replies.as_slice(),
        tally,
    )? {
        Err(Broken) => Ok(After::Over),
        Ok(false) => Ok(After::Waits),
        Ok(true) => Ok(after_all(client.leaving, halt, input)),
    }
}
