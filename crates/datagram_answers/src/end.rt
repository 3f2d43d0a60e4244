//! One front from its first datagram to its last: received at the end of its port, dealt with and replied to.
ghost use Rattle.std.specs.Prelude.{◌≡◌, ◌*◌, ◌+◌, ◌<◌, ◌≤◌, true, false, length, is_some, is_none, All, ⊤, IfOk, IfSome, IfNone, OnOk, OnErr, IsErrOf};
ghost use Rattle.outside.specs.Faults.{Rose};
ghost use Rattle.outside.specs.Traffic.{new_traffic};
ghost use Rattle.datagram_answers.specs.OneEnd.{OnTraffic, SendsAll, SendsPart, IsAtEnd, ServesOne, StopsOne, LeavesUnread, ServesEnd, LeavesEnd, WantsAtEnd};
ghost use Rattle.server_words.specs.declared.limits.TheConstants.{MAX_BATCHES};
ghost use Rattle.fronts.specs.Totals.{IsUpTo};

use crate::deal::deal;
use crate::gate::FrontGate;
use batch_packets::{Datagram, MAX_DATAGRAM_LEN_V2};
use fronts::{Front, ServeFault, Totals};
use outside::{Datagrams, Failed, Gate, NoMemory};
use partition_model::ItemBuf;
use std::alloc::Global;

/// The room for one datagram: a byte more than the longest batch, so that a longer one is still too long.
pub const ROOM: usize = MAX_DATAGRAM_LEN_V2 + 1;

/// Sends the replies to one datagram.
fn send_all<D: Datagrams>(end: &mut D, replies: &[Datagram]) -> Result<(), Failed>
    requires peer { D.has_received end.old ≡ true }
    requires some { All (λ d. 0 < length d) replies.now }
    ensures sent { OnOk result (OnTraffic (SendsAll replies.now) (D.traffic end.old) (D.traffic end.new)) }
    ensures part { OnErr result (OnTraffic (SendsPart replies.now) (D.traffic end.old) (D.traffic end.new)) }
    ensures ended { D.has_ended end.new ≡ D.has_ended end.old }
    ensures cause { OnErr result (Rose (D.faults end.old) (D.faults end.new)) }
    ensures steady { OnOk result (is_some (D.script end.old) ≡ true → D.faults end.new ≡ D.faults end.old) }
    ensures never_fall { D.faults end.old ≤ D.faults end.new }
    ensures script { is_some (D.script end.new) ≡ is_some (D.script end.old) }
    ensures port { D.port end.new ≡ D.port end.old }
{
    for reply in replies {
        end.reply(reply.bytes())?;
    }
    Ok(())
}

/// Serves the next datagram, and says how many requests it has; `None` is the end.
fn serve_one<F: Front, D: Datagrams, G: Gate>(
    alloc: Global,
    front: &mut F,
    end: &mut D,
    gate: &G,
    room: &mut [u8],
    out: &mut ItemBuf,
) -> Result<Option<u32>, ServeFault>
    requires open { D.has_ended end.old ≡ false }
    requires left { 255 ≤ F.left front.old }
    requires room { length room.old ≡ ROOM }
    ensures served { IfOk result (λ got. IfSome got (λ requests. OnTraffic (ServesOne (F.options front.old) F.is_alone
        (F.sessions front.old) (F.left front.old) requests (F.sessions front.new) (F.left front.new))
        (D.traffic end.old) (D.traffic end.new))) }
    ensures at_end { IfOk result (λ got. IfNone got (OnTraffic IsAtEnd (D.traffic end.old) (D.traffic end.new))) }
    ensures untouched { IfOk result (λ got. IfNone got (front.new ≡ front.old)) }
    ensures ended { IfOk result (λ got. D.has_ended end.new ≡ is_none got) }
    ensures stopped { IsErrOf result ServeFault.Net → OnTraffic (StopsOne (F.options front.old) F.is_alone
        (F.sessions front.old) (F.left front.old) (F.sessions front.new) (F.left front.new))
        (D.traffic end.old) (D.traffic end.new) }
    ensures unread { IsErrOf result ServeFault.NoMemory → OnTraffic LeavesUnread (D.traffic end.old) (D.traffic end.new) }
    ensures open { IsErrOf result ServeFault.Net → D.has_ended end.new ≡ false }
    ensures cause { IsErrOf result ServeFault.Net → Rose (D.faults end.old) (D.faults end.new) }
    ensures few { IfOk result (λ got. IfSome got (λ requests. requests ≤ 255)) }
    ensures left { F.left front.old ≤ F.left front.new + 255 }
    ensures steady { OnOk result (is_some (D.script end.old) ≡ true → D.faults end.new ≡ D.faults end.old) }
    ensures never_fall { D.faults end.old ≤ D.faults end.new }
    ensures script { is_some (D.script end.new) ≡ is_some (D.script end.old) }
    ensures tells { OnTraffic (λ before after. ⊤) (D.traffic end.old) (D.traffic end.new) }
    ensures port { D.port end.new ≡ D.port end.old }
    ensures options { F.options front.new ≡ F.options front.old }
    ensures number { F.number front.new ≡ F.number front.old }
    ensures stands { F.stands front.new ≡ F.stands front.old }
{
    let Some(count) = end.recv(room)? else {
        return Ok(None);
    };
    let dealt = deal(alloc, front, &room[..count], gate, out)?;
    send_all(end, dealt.replies.as_slice())?;
    Ok(Some(dealt.requests))
}

/// The number of a front's next request in its gate, which stays at the last one of its type.
fn next_call(requests: u64) -> u32 {
    u32::try_from(requests).unwrap_or(u32::MAX)
}

/// Serves one end, to its end or to so many datagrams.
pub fn serve_end<F: Front, D: Datagrams, G: Gate>(
    alloc: Global,
    front: &mut F,
    end: &mut D,
    batches: u64,
    gate: &G,
    worker: u32,
) -> Result<Totals, ServeFault>
    requires few { batches ≤ MAX_BATCHES }
    requires open { D.has_ended end.old ≡ false }
    requires fresh { IfSome (D.traffic end.old) (λ t. t ≡ new_traffic t.left) }
    requires left { 255 * batches ≤ F.left front.old }
    ensures served { IfOk result (λ totals. OnTraffic (ServesEnd (F.options front.old) F.is_alone (F.sessions front.old) (F.left front.old)
        batches (D.has_ended end.new) totals (F.sessions front.new) (F.left front.new))
        (D.traffic end.old) (D.traffic end.new)) }
    ensures stopped { IsErrOf result ServeFault.Net → OnTraffic (LeavesEnd (F.options front.old) F.is_alone (F.sessions front.old) (F.left front.old)
        batches (D.has_ended end.new) (F.sessions front.new) (F.left front.new)) (D.traffic end.old) (D.traffic end.new) }
    ensures wants { IsErrOf result ServeFault.NoMemory → OnTraffic (WantsAtEnd batches) (D.traffic end.old) (D.traffic end.new) }
    ensures cause { IsErrOf result ServeFault.Net → Rose (D.faults end.old) (D.faults end.new) }
    ensures small { IfOk result (IsUpTo batches) }
    ensures steady { OnOk result (is_some (D.script end.old) ≡ true → D.faults end.new ≡ D.faults end.old) }
    ensures never_fall { D.faults end.old ≤ D.faults end.new }
    ensures script { is_some (D.script end.new) ≡ is_some (D.script end.old) }
    ensures tells { OnTraffic (λ before after. ⊤) (D.traffic end.old) (D.traffic end.new) }
    ensures port { D.port end.new ≡ D.port end.old }
    ensures options { F.options front.new ≡ F.options front.old }
    ensures number { F.number front.new ≡ F.number front.old }
    ensures stands { F.stands front.new ≡ F.stands front.old }
{
    let mut out = ItemBuf::new(alloc)?;
    let mut room = [0; ROOM];
    let mut totals = Totals::none();
    for _ in 0..batches {
        let front_gate = FrontGate {
            gate,
            worker,
            base: next_call(totals.requests),
        };
        match serve_one(alloc, front, end, &front_gate, &mut room, &mut out)? {
            Some(requests) => totals.count(requests),
            None => return Ok(totals),
        }
    }
    Ok(totals)
}
