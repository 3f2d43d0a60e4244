//! The connections at one port.
ghost use Rattle.std.specs.Prelude.{◌≡◌, ◌<◌, ◌≤◌, ℕ, Bool, false, Option, option_map, length, is_some, is_none, is_err, IfOk, IfSome, IfNone, OnErr};
ghost use Rattle.outside.specs.Faults.{Rose, faults_after};
ghost use Rattle.outside.specs.Script.{is_next_listed};
ghost use Rattle.connections.specs.Log.{Log, IsHeld, second_of, called};
ghost use Rattle.connections.specs.Calls.{ReportsNext, IsOver, FitsRoom, ReadGives, WriteTakes, MayAsk, Asks, Closes, Leaves};

use outside::Failed;
use std::error::Error;
use std::fmt;

/// What is reported of the connections at a port.
#[derive(Clone, Copy)]
pub enum Event {
    /// A connection was made, and is under this number until it is closed here.
    Opened(u32),
    /// A connection came beyond what the port may have at a time, and was turned away. It was under no number.
    TurnedAway,
    /// Something may have happened to the connection under this number. There may be none by now, or another.
    Ready(u32),
}

/// What a read gives.
#[derive(Clone, Copy)]
pub enum Input {
    /// So many bytes, at least one.
    Bytes(usize),
    /// So many bytes, at least one, and nothing more now. The connection is reported once there is more.
    All(usize),
    /// Nothing now. The connection is reported once there is more.
    Later,
    /// The peer sends no more.
    Ended,
}

/// The connection is broken: nothing more is received, and nothing sent.
#[derive(Clone, Copy, Debug)]
pub struct Broken;

impl fmt::Display for Broken {
    fn fmt<W: fmt::Write>(&self, f: &mut fmt::Formatter<W>) -> fmt::Result {
        f.write_str("the connection is broken")
    }
}

impl Error for Broken {}

/// The connections that come to one share of a place, each under a number from when it was made until it is closed here. A number is used again.
pub trait Connections: Drop {
    /// The number of the share. No call changes it.
    ghost share: { Self → ℕ };

    /// Their schedule and what calls did, where it is told.
    ghost log: { Self → Option Log };

    /// The count of faults.
    ghost faults: { Self → ℕ };

    /// Whether `next` has answered `None`: the schedule ended, or who serves is to stop.
    ghost has_ended: { Self → Bool };

    /// How many reports there are at most from now on, whatever is called between them. So who takes one after another comes to an end.
    ghost reports: { Self → ℕ };

    /// The second that was looked at last, and at first one that none will fall below.
    ghost last: { Self → ℕ };

    /// Waits until there is something to report. `None` is the end: nothing will be reported any more.
    ///
    /// A connection is reported once for all that happened to it since, so who looks at it goes on until `All` or `Later`, or asks for it again.
    fn next(&mut self) -> Result<Option<Event>, Failed>
        requires open { has_ended self.old ≡ false }

        ensures next { IfOk result (λ got. IfSome got (λ event. IfSome (log self.old)
            (λ l. ReportsNext l event (log self.new)))) }
        ensures end { IfOk result (λ got. IfNone got (IfSome (log self.old) (λ l. IsOver l (log self.new)))) }
        ensures ended { IfOk result (λ got. has_ended self.new ≡ is_none got) }
        ensures fewer { IfOk result (λ got. IfSome got (λ _. reports self.new < reports self.old)) }

        ensures unmoved { OnErr result (log self.new ≡ option_map called (log self.old)) }
        ensures still_open { OnErr result (has_ended self.new ≡ false) }
        ensures cause { OnErr result (Rose (faults self.old) (faults self.new)) }
        ensures never_fall { faults self.old ≤ faults self.new }
        ensures counted { faults self.new ≡ faults_after (is_err result) (faults self.old) }
        ensures foretold { IfSome (log self.old) (λ l. is_err result ≡ is_next_listed l.script) }
        ensures told { is_some (log self.new) ≡ is_some (log self.old) }
        ensures share { share self.new ≡ share self.old }
        ensures rises { last self.old ≤ last self.new };

    /// Which second it was behind the last report, and behind the last bytes that were read: what is answered until there are more is answered at it.
    fn second(&self) -> u64
        ensures last { result ≡ last self.now }
        ensures second { IfSome (log self.now) (λ l. result ≡ second_of l.entries) };

    /// Puts what has come at the front of `out`. Then it is looked which second it is.
    fn read(&mut self, number: u32, out: &mut [u8]) -> Result<Input, Broken>
        requires room { 0 < length out.old }
        requires held { IfSome (log self.old) (IsHeld number) }
        ensures fits { IfOk result (FitsRoom (length out.old)) }
        ensures read { IfSome (log self.old)
            (λ l. ReadGives number (length out.old) out.new result l (log self.new)) }
        ensures leaves { Leaves log has_ended faults share reports self.old self.new }
        ensures rises { last self.old ≤ last self.new };

    /// Sends as much of the beginning of the piece as is taken now, and says how many bytes that are.
    fn write(&mut self, number: u32, piece: &[u8]) -> Result<usize, Broken>
        requires some { 0 < length piece.now }
        requires held { IfSome (log self.old) (IsHeld number) }
        ensures fits { IfOk result (λ n. n ≤ length piece.now) }
        ensures written { IfSome (log self.old)
            (λ l. WriteTakes number piece.now result l (log self.new)) }
        ensures leaves { Leaves log has_ended faults share reports self.old self.new }
        ensures last { last self.new ≡ last self.old };

    /// Has the connection reported once more, behind what is to be reported before: for a caller who leaves it with more to do.
    fn again(&mut self, number: u32)
        requires held { IfSome (log self.old) (IsHeld number) }
        requires seldom { IfSome (log self.old) (MayAsk number) }
        ensures asked { IfSome (log self.old) (λ l. Asks number l (log self.new)) }
        ensures leaves { Leaves log has_ended faults share reports self.old self.new }
        ensures last { last self.new ≡ last self.old };

    /// Closes the connection. What was sent before may still reach the peer.
    fn close(&mut self, number: u32)
        requires held { IfSome (log self.old) (IsHeld number) }
        ensures closed { IfSome (log self.old) (λ l. Closes number l (log self.new)) }
        ensures leaves { Leaves log has_ended faults share reports self.old self.new }
        ensures last { last self.new ≡ last self.old };
}
