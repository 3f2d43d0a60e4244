//! Calls of connections, by numbers under which they are open.
ghost use Rattle.std.specs.Prelude.{◌<◌, ◌≤◌, ◌+◌, ◌-◌, length, IfOk, IfSome};
ghost use Rattle.connections.specs.Calls.{FitsRoom, ReadGives, Asks, Closes, Leaves};
ghost use Rattle.connection_loop.specs.Open.{IsOpen, Keeps, KeepsOthers, AsksOnce, OnLogs, gained};
ghost use Rattle.connection_loop.specs.Traffic.{OnHeld, ReadsTo, SendsOf, bytes_read, why};

use connections::{Broken, Connections, Input};

/// Reads once.
#[tactic(auto, using(crate::proofs::Opening::is_held, crate::proofs::Opening::receives, crate::proofs::Opening::received_keeps, crate::proofs::Opening::received_open))]
pub fn receive<C: Connections>(
    connections: &mut C,
    number: u32,
    asks: u64,
    out: &mut [u8],
) -> Result<Input, Broken>
    requires room { 0 < length out.old }
    requires open { IfSome (C.log connections.old) (IsOpen number asks) }
    ensures fits { IfOk result (FitsRoom (length out.old)) }
    ensures read { IfSome (C.log connections.old) (λ l. ReadGives number (length out.old) out.new result l (C.log connections.new)) }
    ensures reads { OnLogs (OnHeld number (ReadsTo why (bytes_read out.new result) result)) (C.log connections.old) (C.log connections.new) }
    ensures keeps { OnLogs Keeps (C.log connections.old) (C.log connections.new) }
    ensures open { IfSome (C.log connections.new) (IsOpen number (asks + gained result)) }
    ensures port { Leaves C.log C.has_ended C.faults C.share C.reports connections.old connections.new }
    ensures rises { C.last connections.old ≤ C.last connections.new }
{
    connections.read(number, out)
}

/// Sends as much as is taken, and says how many bytes that are.
#[tactic(auto, using(crate::proofs::Opening::is_held, crate::proofs::Opening::sends, crate::proofs::Opening::still_open, crate::proofs::Opening::keeps_on, crate::proofs::Opening::same_keeps))]
pub fn send<C: Connections>(
    connections: &mut C,
    number: u32,
    asks: u64,
    text: &[u8],
) -> Result<usize, Broken>
    requires open { IfSome (C.log connections.old) (IsOpen number asks) }
    ensures fits { IfOk result (λ n. n ≤ length text.now) }
    ensures sends { OnLogs (OnHeld number (SendsOf text.now result)) (C.log connections.old) (C.log connections.new) }
    ensures keeps { OnLogs Keeps (C.log connections.old) (C.log connections.new) }
    ensures open { IfSome (C.log connections.new) (IsOpen number asks) }
    ensures port { Leaves C.log C.has_ended C.faults C.share C.reports connections.old connections.new }
    ensures rises { C.last connections.old ≤ C.last connections.new }
{
    let mut sent = 0;
    while sent < text.len() {
        let count = connections.write(number, &text[sent..])?;
        if count == 0 {
            break;
        }
        sent += count;
    }
    Ok(sent)
}

/// Has a connection reported once more.
#[tactic(auto, using(crate::proofs::Opening::is_held, crate::proofs::Opening::may_ask, crate::proofs::Opening::asks_once))]
pub fn ask_again<C: Connections>(connections: &mut C, number: u32, asks: u64)
    requires some { 0 < asks }
    requires open { IfSome (C.log connections.old) (IsOpen number asks) }
    ensures asks { IfSome (C.log connections.old) (λ l. Asks number l (C.log connections.new)) }
    ensures asked { OnLogs (AsksOnce number asks) (C.log connections.old) (C.log connections.new) }
    ensures port { Leaves C.log C.has_ended C.faults C.share C.reports connections.old connections.new }
    ensures rises { C.last connections.old ≤ C.last connections.new }
{
    connections.again(number);
}

/// Closes a connection.
#[tactic(auto, using(crate::proofs::Opening::is_held, crate::proofs::Opening::closes))]
pub fn close<C: Connections>(connections: &mut C, number: u32, asks: u64)
    requires open { IfSome (C.log connections.old) (IsOpen number asks) }
    ensures closed { IfSome (C.log connections.old) (λ l. Closes number l (C.log connections.new)) }
    ensures others { OnLogs (KeepsOthers number) (C.log connections.old) (C.log connections.new) }
    ensures port { Leaves C.log C.has_ended C.faults C.share C.reports connections.old connections.new }
    ensures rises { C.last connections.old ≤ C.last connections.new }
{
    connections.close(number);
}
