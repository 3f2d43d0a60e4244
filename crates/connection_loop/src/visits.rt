//! What is done for a connection that was reported.
ghost use Rattle.std.specs.Prelude.{◌≡◌, ◌≢◌, ◌<◌, true, length, None, IfOk, IfSome, MatchResult, vec_len};
ghost use Rattle.mica_words.specs.Mark.{has_marks};
ghost use Rattle.connections.specs.Calls.{Leaves};
ghost use Rattle.connection_loop.specs.Calls.{KeepsHand};
ghost use Rattle.connection_loop.specs.Clients.{IsClient, at};
ghost use Rattle.connection_loop.specs.Counted.{AreCounted, IsCounted, over};
ghost use Rattle.connection_loop.specs.declared.desk.TheConstants.{ROOM_LEN};
ghost use Rattle.connection_loop.specs.Going.{GoesBySome};
ghost use Rattle.connection_loop.specs.Held.{VisitLacks, Visits};
ghost use Rattle.connection_loop.specs.Open.{IsOpen, Keeps, OnLogs};
ghost use Rattle.connection_loop.specs.Paid.{IsPaid, MayAnswer};
ghost use Rattle.connection_loop.specs.Traffic.{OnHeld};

use crate::answer::most_writes;
use crate::client::Client;
use crate::clients::Clients;
use crate::desk::Desk;
use crate::hand::Hand;
use crate::visit::{After, visit_once};
use connections::Connections;
use fronts::CountsWrites;
use outside::NoMemory;

/// Visits a connection once, and once more where there may be more to do at once. Mostly the first visit reads all that came and answers it: then it waits for
/// its peer. Where there is more to do still, it is to be asked for again, and it may be: whoever is left so has sent bytes that pay for it. Where the front
/// may be given too few writes for one command, it is visited once.
pub(crate) fn visit_on<F: CountsWrites, C: Connections>(
    hand: &mut Hand<F>,
    connections: &mut C,
    number: u32,
    client: &mut Client,
    desk: &mut Desk,
) -> Result<After, NoMemory>
    requires room { vec_len desk.old.room ≡ ROOM_LEN }
    requires client { IsClient client.old }
    requires open { IfSome (C.log connections.old) (IsOpen number client.old.asks) }
    requires partitions { hand.old.numbering.partitions ≡ (F.options hand.old.front).partitions }
    requires marks { has_marks (F.options hand.old.front).hashing ≡ true }
    requires left { MayAnswer hand.old.numbering.partitions (F.left hand.old.front) }
    ensures again { IfOk result (λ after. after ≡ After.Again → IsPaid 1 client.new) }
    ensures room { vec_len desk.new.room ≡ ROOM_LEN }
    ensures client { IfOk result (λ _. IsClient client.new) }
    ensures talks { GoesBySome (F.options hand.old.front) F.is_alone (F.sessions hand.old.front) (F.left hand.old.front) (C.last connections.old) (F.sessions hand.new.front) (F.left hand.new.front) (C.last connections.new)
        (λ answers. MatchResult result
        (λ after. OnLogs (OnHeld number (Visits (F.options hand.old.front) hand.old.numbering.base 2 client.old answers client.new after)) (C.log connections.old) (C.log connections.new))
        (λ _. OnLogs (OnHeld number (VisitLacks (F.options hand.old.front) hand.old.numbering.base 2 client.old answers)) (C.log connections.old) (C.log connections.new))) }
    ensures open { IfSome (C.log connections.new) (IsOpen number client.new.asks) }
    ensures keeps { OnLogs Keeps (C.log connections.old) (C.log connections.new) }
    ensures port { Leaves C.log C.has_ended C.faults C.share C.reports connections.old connections.new }
    ensures same { KeepsHand F.options F.number F.stands hand.old hand.new }
{
    match visit_once(hand, connections, number, client, desk)? {
        After::Again => {}
        after => return Ok(after),
    }
    if hand.front.writes_left() < most_writes(hand.numbering) {
        return Ok(After::Again);
    }
    visit_once(hand, connections, number, client, desk)
}

/// Visits a connection that was taken out, and counts what is kept of it then. Where that is more than may be kept in all, memory lacks.
pub(crate) fn visit_within<F: CountsWrites, C: Connections>(
    hand: &mut Hand<F>,
    connections: &mut C,
    number: u32,
    client: &mut Client,
    clients: &mut Clients,
    desk: &mut Desk,
) -> Result<After, NoMemory>
    requires room { vec_len desk.old.room ≡ ROOM_LEN }
    requires client { IsClient client.old }
    requires open { IfSome (C.log connections.old) (IsOpen number client.old.asks) }
    requires partitions { hand.old.numbering.partitions ≡ (F.options hand.old.front).partitions }
    requires marks { has_marks (F.options hand.old.front).hashing ≡ true }
    requires left { MayAnswer hand.old.numbering.partitions (F.left hand.old.front) }
    requires counted { AreCounted clients.old }
    requires place { number < vec_len clients.old.held }
    requires taken { at clients.old.held.items number ≡ None }
    ensures again { IfOk result (λ after. after ≡ After.Again → IsPaid 1 client.new) }
    ensures room { vec_len desk.new.room ≡ ROOM_LEN }
    ensures client { IfOk result (λ _. IsClient client.new) }
    ensures talks { GoesBySome (F.options hand.old.front) F.is_alone (F.sessions hand.old.front) (F.left hand.old.front) (C.last connections.old) (F.sessions hand.new.front) (F.left hand.new.front) (C.last connections.new)
        (λ answers. MatchResult result
        (λ after. OnLogs (OnHeld number (Visits (F.options hand.old.front) hand.old.numbering.base 2 client.old answers client.new after)) (C.log connections.old) (C.log connections.new))
        (λ _. OnLogs (OnHeld number (VisitLacks (F.options hand.old.front) hand.old.numbering.base 2 client.old answers)) (C.log connections.old) (C.log connections.new))) }
    ensures open { IfSome (C.log connections.new) (IsOpen number client.new.asks) }
    ensures keeps { OnLogs Keeps (C.log connections.old) (C.log connections.new) }
    ensures port { Leaves C.log C.has_ended C.faults C.share C.reports connections.old connections.new }
    ensures same { KeepsHand F.options F.number F.stands hand.old hand.new }
    ensures held { clients.new.held ≡ clients.old.held }
    ensures counted { AreCounted clients.new }
    ensures most { clients.new.budget.most ≡ clients.old.budget.most }
    ensures here { IfOk result (λ after. after ≢ After.Over → IsCounted clients.new.budget.counted.items number (over (length client.new.kept) (length client.new.unsent))) }
{
    let after = visit_on(hand, connections, number, client, desk)?;
    if matches!(after, After::Over) {
        return Ok(after);
    }
    clients.count(number, client)?;
    Ok(after)
}
